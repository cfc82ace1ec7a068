//! Why a file is no graph.

ghost use Rattle.std.specs.Prelude.{◌≡◌, ◌<◌, ◌^◌};
ghost use Rattle.aiger_parts.specs.declared.fault.ReadStop.TheVariants.{Memory};
ghost use Rattle.aiger_parts.specs.Reading.{IsFaultOf};

use rsfq_ids::list::{List, NoMemory};
use std::alloc::{AllocError, AllocFailed};
use thiserror::Error;

/// The causes. At one place the first in this order counts.
#[derive(Debug, Drop, Error)]
pub enum AigerWhy {
    /// The first line is no head of such a file.
    #[error("header")]
    Header,
    /// The file has latches.
    #[error("latches")]
    Latches,
    /// The file has more than inputs, outputs and ANDs.
    #[error("extended")]
    Extended,
    /// A number is wanted, in digits or in groups of seven bits, of a value below 2^32; or behind one a space or a line's end.
    #[error("number")]
    Number,
    /// A literal above `2M + 1`, or one that is to be defined and is odd or below 2.
    #[error("range {0}")]
    Range(u32),
    /// A literal that was defined before.
    #[error("defined {0}")]
    Defined(u32),
    /// A literal that nothing defines.
    #[error("undefined {0}")]
    Undefined(u32),
    /// The literals of ANDs in a ring, each once: each uses the next one, and the last the first, which is the least.
    #[error("cycle")]
    Cycle(List<u32>),
    /// A difference of an AND's literals that leads below 0, or a first one of 0.
    #[error("order")]
    Order,
    /// The file ends before a needed line or difference, or inside a difference.
    #[error("truncated")]
    Truncated,
    /// A line behind the ANDs that is neither `c` nor a symbol, or a symbol of an input or output that is not there, or a second one.
    #[error("symbol")]
    Symbol,
    /// The number of variables, which is above 1,000,000.
    #[error("limit {0}")]
    Limit(u32),
    /// Memory could not be had.
    #[error("out of memory")]
    Memory,
}

/// Why a file is refused, and the place that counts for it, in bytes from 0.
#[derive(Debug, Drop)]
pub struct AigerFault {
    pub offset: u32,
    pub why: AigerWhy,
}

/// The same while reading, by the number of bytes that are left at the place.
#[derive(Debug, Drop)]
pub struct Stop {
    /// How many bytes are left, from the place to the end of the file.
    pub left: usize,
    pub why: AigerWhy,
}

/// Why a reader stops.
#[derive(Debug, Drop)]
pub enum ReadStop {
    /// Memory could not be had.
    Memory,
    /// The first fault from the left.
    At(Stop),
}

/// The fault of a file of `count` bytes, less than 2^32, in which a reader stopped. At want of memory its offset has no meaning.
pub fn fault_of(count: usize, stop: ReadStop) -> AigerFault
    requires { count < 2 ^ 32 }
    ensures { IsFaultOf count stop result }
{
    match stop {
        ReadStop::Memory => AigerFault {
            offset: 0,
            why: AigerWhy::Memory,
        },
        ReadStop::At(stop) => AigerFault {
            offset: count.saturating_sub(stop.left) as u32,
            why: stop.why,
        },
    }
}

impl From<NoMemory> for ReadStop {
    ghost from_gives = { λ _ e. e ≡ Memory };

    fn from(_: NoMemory) -> ReadStop {
        ReadStop::Memory
    }
}

impl From<AllocError> for ReadStop {
    ghost from_gives = { λ _ e. e ≡ Memory };

    fn from(_: AllocError) -> ReadStop {
        ReadStop::Memory
    }
}

impl<T: Drop> From<AllocFailed<T>> for ReadStop {
    ghost from_gives = { λ _ e. e ≡ Memory };

    fn from(_: AllocFailed<T>) -> ReadStop {
        ReadStop::Memory
    }
}
