//! Which driver drives each place of a netlist, where links lead from place to place.
//!
//! Places and drivers are plain numbers. A driver drives the place where it starts, and what drives a place drives each
//! place that a link leads to from there. [`resolve`] answers the one driver of each place, or why there is none such;
//! [`find_ring`] answers a ring of places alone.
#![tactic(auto)]

mod held;
mod link;
mod net;
mod resolving;
mod rings;
mod spread;
mod threads;

pub use link::{AliasFault, Link};
pub use resolving::resolve;
pub use rings::find_ring;
