//! Binding: the names of a source resolved to numbers, with all widths checked.
//!
//! [`bind`] answers the one bound source that a source comes to under a cell table and a top, or its first fault. What these are stands in
//! `bind_forms`.
#![tactic(auto)]

mod assigns;
mod binder;
mod binding;
mod bits;
mod exprs;
mod instances;
mod kinds;
mod laws;
mod links;
mod making;
mod module_numbers;
mod modules;
mod wires;

pub use bind_forms::{
    BindFault, Bound, BoundAssign, BoundInstance, BoundKind, BoundLink, BoundModule, BoundPart,
    BoundPort, BoundWire,
};
pub use binding::bind;
