//! The places of a bound source that is written out: how deep and how large it is, what drives each place, and what its circuit is.
//!
//! Nothing bounds how many instances a source has when it is written out, so nothing is written out here: [`measure`] goes through the modules
//! level by level, and its counts stop behind their limits. The laws say in which order places are listed and numbered, and what is found over
//! these numbers says of the places.
#![tactic(auto)]

mod circuit_laws;
mod limits;
mod number_laws;
mod place_laws;
mod size;
mod whole_laws;

pub use circuit_laws::{circuits_are_one, refused_have_none};
pub use limits::{SizeFault, measure};
pub use number_laws::{
    numbers_drive_places, numbers_tell_readers, numbers_tell_rings, numbers_tell_two,
};
pub use place_laws::{
    hops_are_followed, places_are_counted, places_are_listed, places_are_numbered,
};
pub use size::{Size, width};
pub use whole_laws::{ends_are_numbered, whole_is_listed};
