//! Small designs on which the definitions are computed: each function is empty, and its clause is the example.

ghost use Rattle.pulse_laws.specs.Examples.{RegisterIsSigned, RegisterRuns, WireIsSigned, WireOffends, WireRuns};

/// A wire of one JTL is well formed and has a run, whose output shows the word's 1 one period later.
pub fn wire_runs()
    ensures { WireRuns }
{}

/// A pulse exactly at a strobe breaks the window; one exactly at the edge of the zone does not.
pub fn wire_offends()
    ensures { WireOffends }
{}

/// A register is well formed and has a run with a word and clock pulses, in which its gate answers once.
pub fn register_runs()
    ensures { RegisterRuns }
{}

/// The register meets what the laws ask, so it is signed off: every run of it is clean, and its output shows each word's
/// bit two periods later.
pub fn register_is_signed()
    ensures { RegisterIsSigned }
{}

/// With arrivals from 4000 up to 16999 fs or less the wire is signed off: every run of it is clean, and its output shows each
/// word's bit one period later. At 17000 a pulse may break the window.
pub fn wire_is_signed()
    ensures { WireIsSigned }
{}
