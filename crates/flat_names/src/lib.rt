//! The printed names of the places of a bound source, found by their numbers.
//!
//! [`begins_of`] lists where the bits of wires and instances begin, once for a whole source; with that list [`place_name`] finds a place by its
//! number and prints it. Beside them the names that paths and bits have.
#![tactic(auto)]

mod begins;
mod finding;
mod measured;
mod names;

pub use begins::{Begins, begins_of};
pub use finding::place_name;
pub use measured::MeasuredSource;
pub use names::{bit_name, longer_path};
