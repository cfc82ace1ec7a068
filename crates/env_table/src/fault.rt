//! Why the lines of a timing table do not fit the ports of a circuit.

ghost use Rattle.std.specs.Prelude.{◌≡◌};
ghost use Rattle.env_table.specs.declared.fault.EnvFault.TheVariants.{Memory};

use rsfq_ids::list::NoMemory;
use rsfq_ids::name::Name;
use thiserror::Error;

/// Why the lines of a timing table do not fit the port bits of a circuit. The first three are looked for line by line, in this order at
/// each line, and the others after them, one after another.
#[derive(Debug, Drop, Error)]
pub enum EnvFault {
    /// The name of a line stands for no bit.
    #[error("unknown {name}", name = .0.as_str())]
    Unknown(Name),
    /// The name of a line stands for a bit of the other direction: an output at a clock or an input, or an input at an output.
    #[error("direction {name}", name = .0.as_str())]
    Direction(Name),
    /// The name of a line stands for a bit that an earlier line names.
    #[error("repeated {name}", name = .0.as_str())]
    Repeated(Name),
    /// No line names a clock.
    #[error("no clock")]
    NoClock,
    /// The lines name several bits as clocks; the first two in line order and port order, by their printed names.
    #[error("two clocks {first} {second}", first = .0.as_str(), second = .1.as_str())]
    TwoClocks(Name, Name),
    /// No line names this bit, the first such one in port order, by its printed name.
    #[error("missing {name}", name = .0.as_str())]
    Missing(Name),
    /// The strobe of this output bit, the first such one in port order, is not below the period.
    #[error("strobe {name}", name = .0.as_str())]
    StrobeOutside(Name),
    /// Memory could not be had.
    #[error("out of memory")]
    Memory,
}

impl From<NoMemory> for EnvFault {
    ghost from_gives = { λ _ why. why ≡ Memory };

    fn from(_: NoMemory) -> EnvFault {
        EnvFault::Memory
    }
}
