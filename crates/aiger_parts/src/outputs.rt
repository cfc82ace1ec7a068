//! The lines of output literals.

ghost use Rattle.std.specs.Prelude.{◌≢◌, IfErr};
ghost use Rattle.aiger_parts.specs.Reading.{Gives, literal_at, many_at, line_end_at};

use crate::fault::{AigerWhy, ReadStop, Stop};
use crate::fields::take_number;
use rsfq_ids::list::List;
use std::alloc::Global;

/// The bytes behind the end of a line, which is a newline or the end of the file.
///
/// # Errors
///
/// `Number` at the front, where another byte stands.
pub fn end_line(bytes: &[u8]) -> Result<&[u8], ReadStop>
    ensures is { Gives (λ x. x.now) result (line_end_at bytes.now) }
    ensures memory { IfErr result (λ e. e ≢ ReadStop.Memory) }
{
    match bytes {
        [] => Ok(bytes),
        [b'\n', behind @ ..] => Ok(behind),
        [_, ..] => Err(ReadStop::At(Stop {
            left: bytes.len(),
            why: AigerWhy::Number,
        })),
    }
}

/// A line with one literal, at most `top`, and the bytes behind it.
///
/// # Errors
///
/// `Truncated` where no byte is left, `Number` or `Range` at the literal, or `Number` at what stands in the place of the line's end.
#[tactic(auto, unfolding(crate::specs::Reading::literal_at))]
pub fn take_literal(top: u32, bytes: &[u8]) -> Result<(u32, &[u8]), ReadStop>
    ensures is { Gives (λ x. (x.0, x.1.now)) result (literal_at top bytes.now) }
    ensures memory { IfErr result (λ e. e ≢ ReadStop.Memory) }
{
    if bytes.is_empty() {
        return Err(ReadStop::At(Stop {
            left: 0,
            why: AigerWhy::Truncated,
        }));
    }
    let (literal, rest) = take_number(bytes)?;
    if literal > top {
        return Err(ReadStop::At(Stop {
            left: bytes.len(),
            why: AigerWhy::Range(literal),
        }));
    }
    let behind = end_line(rest)?;
    Ok((literal, behind))
}

/// `count` lines with one literal each, at most `top`, and the bytes behind them.
///
/// # Errors
///
/// The first fault, as for [`take_literal`], or want of memory.
pub fn take_outputs(
    alloc: Global,
    top: u32,
    count: u32,
    bytes: &[u8],
) -> Result<(List<u32>, &[u8]), ReadStop>
    ensures { Gives (λ x. (x.0, x.1.now)) result (many_at (λ place. literal_at top) 0 count bytes.now) }
{
    let mut literals = List::new(alloc);
    let mut rest = bytes;
    for _ in 0..count {
        let (literal, behind) = take_literal(top, rest)?;
        literals.push(literal)?;
        rest = behind;
    }
    Ok((literals, rest))
}
