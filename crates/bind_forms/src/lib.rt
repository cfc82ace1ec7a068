//! Bound sources: the names of a source resolved to numbers, with all widths checked.
//!
//! [`Bound`] is what a source comes to under a cell table and a top, as the relation in `specs/Binds.antt` says; what is well formed stands in
//! `specs/WellFormed.antt`. When a source cannot be bound, and which [`BindFault`] is answered, stands in `specs/Faults.antt` and
//! `specs/First.antt`; the causes that need no other module stand in `specs/Refused.antt` and `specs/Again.antt` of `bind_sites`.
#![tactic(auto)]

mod bound;
mod fault;

pub use bound::{
    Bound, BoundAssign, BoundInstance, BoundKind, BoundLink, BoundModule, BoundPart, BoundPort,
    BoundWire,
};
pub use fault::BindFault;
