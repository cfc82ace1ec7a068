//! The modules of a text with the names in each, and what the ports of the kinds of instances are.
//!
//! [`sites_of`], [`scopes_of`], [`ports_of`], [`meanings_of`] and [`widths_of`] make the lists of a [`Netlist`]; its methods say what the kind at a
//! site means and what the ports of a kind are. None of them looks up the name of a kind or, by its place, that of a port.
#![tactic(auto)]

mod kinds;
mod laws;
mod make;
mod netlist;
mod pins;
mod sited;
mod widths;

pub use laws::{kinds_are_one, ports_are_one};
pub use make::{ports_of, scopes_of, sites_of};
pub use netlist::{KindName, Netlist};
pub use sited::meanings_of;
pub use widths::widths_of;
