//! The core of a conflict-driven solver: it decides, propagates, learns and goes back, and logs each clause that it learns as a step of a
//! proof.
#![tactic(auto)]

mod analysis;
mod engine;
mod queue;
mod state;
mod trail;
mod watches;

pub use state::{
    SearchState, analyse, backjump, close, decide, into_log, kept_log, learn, level, propagate,
    start, trail_holds, value,
};
pub use trail::TrueLit;
