//! Rings in graphs whose nodes are numbers: what a node leads to, an order in which each node comes after those that it leads
//! to, and the first ring.
//!
//! A graph is a list: the item at a place is the list of the nodes that the node of this number leads to. All calls are linear
//! in the number of nodes and edges, and none calls itself.
#![tactic(auto)]

mod edges;
mod ring;
mod search;
mod surveying;

pub use edges::is_graph;
pub use ring::{first_ring, ring_through};
pub use surveying::{Survey, survey_from};
