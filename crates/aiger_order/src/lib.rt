//! ANDs that stand in any order of lines, brought into an order of use and numbered anew.
//!
//! [`renumber`] makes the graph of a [`Listing`]: the inputs in order, and then, again and again, the first AND of the file whose
//! operands are numbered. Where ANDs use each other in a ring there is no graph, and a ring is answered.
#![tactic(auto)]

mod laws;
mod listing;
mod numbering;
mod ready;
mod renaming;
mod ring;
mod sorting;
mod users;

pub use laws::one_graph_is_ordered;
pub use listing::{Listing, OrderFault};
pub use renaming::renumber;
