//! What the readings of numbers and files mean, in the words of the format.

ghost use Rattle.aiger_read.specs.Both.{FilesAreSpelled};
ghost use Rattle.aiger_read.specs.Broken.{FaultsBreak, BreaksAreFaults, BreakOnce, SpelledBreakNowhere};
ghost use Rattle.aiger_read.specs.Spelled.{SpellOne};
ghost use Rattle.aiger_read.specs.Spelling.{NumbersAreRead, DifferencesAreRead, AndsAreRead};

use aiger_order::one_graph_is_ordered;

/// A field is read as a number exactly where it is one or more digits of that value, which is below 2^32.
pub fn numbers_are_read()
    ensures { NumbersAreRead }
{}

/// A difference is read exactly where the bytes begin with at most five groups of seven bits of that value, which is below 2^32.
pub fn differences_are_read()
    ensures { DifferencesAreRead }
{}

/// An AND is read exactly where the bytes begin with the differences from its literal to the one operand, at least 1, and from that to the other.
pub fn ands_are_read()
    ensures { AndsAreRead }
{}

/// The bytes are a file of a well-formed graph, read from the left, exactly where they spell it, as a writer of one of the forms does.
pub fn files_are_spelled()
    ensures { FilesAreSpelled }
{}

/// The bytes spell at most one graph, if the ANDs of an ASCII file are taken in the order in which their lines become ready: that which [`crate::read_aiger`] answers.
pub fn one_graph_is_spelled()
    ensures { SpellOne }
{
    one_graph_is_ordered();
}

/// What [`crate::read_aiger`] answers as a fault, want of memory apart, is the place where the file breaks, and why: up to there it stands
/// as a writer writes it, and there a piece stands that is none. An undefined literal or a ring is one in a file whose lines are all right,
/// and in which all that is used before, or all that is used, is defined.
pub fn faults_break()
    ensures { FaultsBreak }
{}

/// And the other way: where a file breaks, and why, is its fault, and never want of memory. So both laws together say that a fault is exactly
/// where a file breaks.
pub fn breaks_are_faults()
    ensures { BreaksAreFaults }
{}

/// A file breaks at one place at most, and for one cause; only where ANDs stand in rings, any of the rings may be named.
pub fn files_break_once()
    ensures { BreakOnce }
{}

/// A file that spells a graph breaks nowhere.
pub fn spelled_files_break_nowhere()
    ensures { SpelledBreakNowhere }
{}
