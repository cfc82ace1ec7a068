//! Why a netlist has no circuit.

ghost use Rattle.std.specs.Prelude.{◌≡◌};
ghost use Rattle.loading.specs.Named.{lex_refusal, bind_refusal, flat_refusal};

use flattener::FlatFault;
use thiserror::Error;
use verilog_bind::BindFault;
use verilog_lex::{LexFault, LexWhy};

/// Why a netlist has no circuit, by the first stage that refuses it. No stage's fault here is want of memory.
#[derive(Debug, Drop, Error)]
pub enum Refusal {
    /// The text has no tokens.
    #[error("lex: {0}")]
    Lex(LexFault),
    /// The tokens spell no tree: the first byte of the first token that no tree goes on with, or the text's length.
    #[error("parse at byte {0}")]
    Parse(u32),
    /// The tree cannot be bound.
    #[error("bind: {0}")]
    Bind(BindFault),
    /// The bound source has no circuit.
    #[error("flat: {0}")]
    Flat(FlatFault),
    /// Memory could not be had.
    #[error("out of memory")]
    Memory,
}

impl From<LexFault> for Refusal {
    ghost from_gives = { λ fault refusal. refusal ≡ lex_refusal fault };

    fn from(fault: LexFault) -> Refusal {
        match fault.why {
            LexWhy::Memory => Refusal::Memory,
            _ => Refusal::Lex(fault),
        }
    }
}

impl From<BindFault> for Refusal {
    ghost from_gives = { λ fault refusal. refusal ≡ bind_refusal fault };

    fn from(fault: BindFault) -> Refusal {
        match fault {
            BindFault::Memory => Refusal::Memory,
            _ => Refusal::Bind(fault),
        }
    }
}

impl From<FlatFault> for Refusal {
    ghost from_gives = { λ fault refusal. refusal ≡ flat_refusal fault };

    fn from(fault: FlatFault) -> Refusal {
        match fault {
            FlatFault::Memory => Refusal::Memory,
            _ => Refusal::Flat(fault),
        }
    }
}
