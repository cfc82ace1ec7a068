//! Pairs of lanes: which of their pulses come how near to each other, and the delays that show it.
//!
//! A lane is taken by the intervals of its arcs' delays, two lanes by the spreads of their pulses. [`first_meeting`] answers the
//! first pulses whose difference lies in a zone, [`choose_delays`] their delays, and [`count_steps`] the steps where no difference is 0.
#![tactic(auto)]

mod delays;
mod laws;
mod meeting;
mod periods;

pub use delays::{choose_delays, spread_of};
pub use laws::{
    choices_are_one, meetings_are_one, shared_is_narrower, spreads_are_exact, step_counts_are_one,
};
pub use meeting::{
    Interval, Meeting, Numbers, Spreads, count_steps, first_ahead, first_meeting, print_numbers,
};
