//! Why a proof does not hold.
ghost use Rattle.std.specs.Prelude.{◌≡◌};
ghost use Rattle.lrat_check.specs.declared.fault.LratWhy.TheVariants.{Memory};

use rsfq_ids::list::NoMemory;
use thiserror::Error;

/// Why a line of a proof fails, or the proof as a whole.
#[derive(Clone, Copy, Debug, PartialEq, Eq, Error)]
pub enum LratWhy {
    /// The line is none of the format.
    #[error("syntax")]
    Syntax,
    /// The id is not above those of the formula and of all earlier additions.
    #[error("id")]
    Id,
    /// A literal is of no variable of the formula.
    #[error("range {0}")]
    Range(i64),
    /// No clause has this id, or it was deleted.
    #[error("no clause {0}")]
    NoClause(u32),
    /// A hint has a hyphen.
    #[error("rat")]
    Rat,
    /// The clause has a literal and its opposite.
    #[error("tautology")]
    Tautology,
    /// The clause of this hint has two open literals or more, and none that is true.
    #[error("not unit {0}")]
    NotUnit(u32),
    /// The hints come to their end with no conflict.
    #[error("no conflict")]
    NoConflict,
    /// All lines hold, and none adds the empty clause.
    #[error("no empty")]
    NoEmpty,
    /// There was no memory for the check. It says nothing of the proof.
    #[error("out of memory")]
    Memory,
}

/// The first fault of a proof: its cause, and the line that fails, which counts from 1.
///
/// At `NoEmpty` the line is the number of lines, and at `Memory` it has no meaning.
#[derive(Clone, Copy, Debug, PartialEq, Eq, Error)]
#[error("{line} {why}")]
pub struct LratFault {
    pub line: u32,
    pub why: LratWhy,
}

impl From<NoMemory> for LratWhy {
    ghost from_gives = { λ _ e. e ≡ Memory };

    fn from(_: NoMemory) -> Self {
        LratWhy::Memory
    }
}

impl From<NoMemory> for LratFault {
    ghost from_gives = { λ _ e. e.why ≡ Memory };

    fn from(_: NoMemory) -> Self {
        LratFault {
            line: 0,
            why: LratWhy::Memory,
        }
    }
}
