//! Files of both forms.

ghost use Rattle.std.specs.Prelude.{◌<◌, ◌^◌, length, IfOk, IfErr};
ghost use Rattle.golden_aig.specs.Aig.{IsAig};
ghost use Rattle.aiger_read.specs.Both.{IsFileFault, SpellsNone};
ghost use Rattle.aiger_read.specs.Spelled.{SpelledInOrder};

use crate::ascii::read_ascii;
use crate::binary::read_binary;
use aiger_parts::AigerFault;
use golden_aig::Aig;
use std::alloc::Global;

/// Reads an AIGER file of less than 2^32 bytes, with its symbols: the ASCII form where it begins with `aag` and a space, else the
/// binary form. The variables of an ASCII file are numbered anew: the inputs in order, and then, again and again, the first AND of the
/// file whose operands have numbers.
///
/// # Errors
///
/// The first fault, with its place; for what each says see [`crate::AigerWhy`]. The first line is checked before the rest, field by
/// field, and last of it the rule on M. Behind it the fault with the least place counts. `Undefined` and then `Cycle` are looked for
/// only in a file without any other fault. `Memory` may come of any file.
pub fn read_aiger(alloc: Global, bytes: &[u8]) -> Result<Aig, AigerFault>
    requires { length bytes.now < 2 ^ 32 }
    ensures spelled { IfOk result (SpelledInOrder bytes.now) }
    ensures graph { IfOk result IsAig }
    ensures fault { IfErr result (IsFileFault bytes.now) }
    ensures none { IfErr result (SpellsNone bytes.now) }
{
    if bytes.starts_with(b"aag ") {
        read_ascii(alloc, bytes)
    } else {
        read_binary(alloc, bytes)
    }
}
