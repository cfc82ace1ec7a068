//! The laws of lanes and choices. Each function is empty, and its clause is the law.
ghost use Rattle.pulse_pairs.specs.Choice.{ChoicesAreOne, SharedIsNarrower, SpreadsAreExact};
ghost use Rattle.pulse_pairs.specs.Pairs.{MeetingsAreOne, StepCountsAreOne};

/// The differences of delays that two pulses may have together are exactly the whole numbers of the spread of their lanes, and each is
/// shown by delays that are chosen.
pub fn spreads_are_exact()
    ensures { SpreadsAreExact }
{}

/// Only one pair of lists of delays is chosen for a difference.
pub fn choices_are_one()
    ensures { ChoicesAreOne }
{}

/// Shared arcs narrow the spread of two lanes, and no spread is empty.
pub fn shared_is_narrower()
    ensures { SharedIsNarrower }
{}

/// Only one meeting is the first.
pub fn meetings_are_one()
    ensures { MeetingsAreOne }
{}

/// Only one number is the steps of two lanes.
pub fn step_counts_are_one()
    ensures { StepCountsAreOne }
{}
