//! What every miter and every launch is: functions that do nothing, whose clauses serve the proofs of their callers.

ghost use Rattle.miter_cnf.specs.Laws.{MitersAreSound, LaunchesAreSound};

use pulse_laws::laws::{circuits_are_ready, orders_rank, values_exist};

/// The solutions of a miter are the words under which some output differs, it is well formed, and its inputs decide all of its variables.
pub(crate) fn miters_are_sound()
    ensures { MitersAreSound }
{
    values_exist();
    circuits_are_ready();
    orders_rank();
}

/// The solutions of a launch are the words under which both nets are 1, it is well formed, and its inputs decide all of its variables.
pub(crate) fn launches_are_sound()
    ensures { LaunchesAreSound }
{
    values_exist();
    circuits_are_ready();
    orders_rank();
}
