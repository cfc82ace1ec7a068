//! The lines of the ASCII form.

ghost use Rattle.std.specs.Prelude.{◌≡◌, ◌<◌, ◌++◌, ◌∷◌, [], OnOk, IfOk, ◌≤◌};
ghost use Rattle.rsfq_ids.specs.declared.limits.TheConstants.{AIG_LIMIT};
ghost use Rattle.aiger_parts.specs.Reading.{Gives};
ghost use Rattle.aiger_read.specs.Lines.{AreMarks, lhs_of, start_at, use_at, gap_at, input_at, output_at, and_line_at, more_at};

use crate::definitions::{Definitions, take_definition};
use aiger_parts::{AigerWhy, ReadStop, Stop, end_line, take_literal, take_number};
use rsfq_ids::list::List;
use std::alloc::Global;

/// A literal that is used, and how many bytes are left at its place.
#[derive(Clone, Copy, Debug, PartialEq, Eq, Drop)]
pub(crate) struct Used {
    pub(crate) literal: u32,
    pub(crate) left: usize,
}

/// The line of an AND.
#[derive(Clone, Copy, Debug, PartialEq, Eq, Drop)]
pub(crate) struct Line {
    pub(crate) lhs: u32,
    pub(crate) rhs0: Used,
    pub(crate) rhs1: Used,
}

/// The same bytes, where there is a line.
fn start_line(bytes: &[u8]) -> Result<&[u8], ReadStop>
    ensures { Gives (λ x. x.now) result (start_at bytes.now) }
{
    if bytes.is_empty() {
        return Err(ReadStop::At(Stop {
            left: 0,
            why: AigerWhy::Truncated,
        }));
    }
    Ok(bytes)
}

/// A literal that is used here, at most `2 * top + 1`.
#[tactic(auto, unfolding(crate::specs::Lines::use_at))]
fn take_use(top: u32, bytes: &[u8]) -> Result<(Used, &[u8]), ReadStop>
    requires { top ≤ AIG_LIMIT }
    ensures { Gives (λ x. (x.0, x.1.now)) result (use_at top bytes.now) }
{
    let (literal, rest) = take_number(bytes)?;
    if literal > 2 * top + 1 {
        return Err(ReadStop::At(Stop {
            left: bytes.len(),
            why: AigerWhy::Range(literal),
        }));
    }
    let used = Used {
        literal,
        left: bytes.len(),
    };
    Ok((used, rest))
}

/// The bytes behind the one space between two fields.
fn take_gap(bytes: &[u8]) -> Result<&[u8], ReadStop>
    ensures { Gives (λ x. x.now) result (gap_at bytes.now) }
{
    match bytes {
        [b' ', behind @ ..] => Ok(behind),
        _ => Err(ReadStop::At(Stop {
            left: bytes.len(),
            why: AigerWhy::Number,
        })),
    }
}

/// The line of an input.
#[tactic(auto, unfolding(crate::specs::Lines::input_at))]
fn take_input<'a>(
    top: u32,
    definitions: &mut Definitions,
    bytes: &'a [u8],
) -> Result<(u32, &'a [u8]), ReadStop>
    requires small { top ≤ AIG_LIMIT }
    requires marks { AreMarks top definitions.old.literals definitions.old.marks.items }
    ensures is { Gives (λ x. (x.0, x.1.now)) result (input_at top definitions.old.literals bytes.now) }
    ensures literals { IfOk result (λ x. definitions.new.literals ≡ definitions.old.literals ++ x.0 ∷ []) }
    ensures marks { OnOk result (AreMarks top definitions.new.literals definitions.new.marks.items) }
{
    let line = start_line(bytes)?;
    let (literal, rest) = take_definition(top, definitions, line)?;
    let behind = end_line(rest)?;
    Ok((literal, behind))
}

/// The line of an output.
fn take_output(top: u32, bytes: &[u8]) -> Result<(Used, &[u8]), ReadStop>
    requires { top ≤ AIG_LIMIT }
    ensures { Gives (λ x. (x.0, x.1.now)) result (output_at top bytes.now) }
{
    let (literal, behind) = take_literal(2 * top + 1, bytes)?;
    let used = Used {
        literal,
        left: bytes.len(),
    };
    Ok((used, behind))
}

/// The line of an AND.
#[tactic(auto, unfolding(crate::specs::Lines::and_line_at))]
fn take_and_line<'a>(
    top: u32,
    definitions: &mut Definitions,
    bytes: &'a [u8],
) -> Result<(Line, &'a [u8]), ReadStop>
    requires small { top ≤ AIG_LIMIT }
    requires marks { AreMarks top definitions.old.literals definitions.old.marks.items }
    ensures is { Gives (λ x. (x.0, x.1.now)) result (and_line_at top definitions.old.literals bytes.now) }
    ensures literals { IfOk result (λ x. definitions.new.literals ≡ definitions.old.literals ++ x.0.lhs ∷ []) }
    ensures marks { OnOk result (AreMarks top definitions.new.literals definitions.new.marks.items) }
{
    let line = start_line(bytes)?;
    let (lhs, rest) = take_definition(top, definitions, line)?;
    let rest = take_gap(rest)?;
    let (rhs0, rest) = take_use(top, rest)?;
    let rest = take_gap(rest)?;
    let (rhs1, rest) = take_use(top, rest)?;
    let behind = end_line(rest)?;
    Ok((Line { lhs, rhs0, rhs1 }, behind))
}

/// So many lines of inputs, which are the first to define literals.
pub(crate) fn take_inputs<'a>(
    top: u32,
    count: u32,
    definitions: &mut Definitions,
    bytes: &'a [u8],
) -> Result<&'a [u8], ReadStop>
    requires small { top ≤ AIG_LIMIT }
    requires marks { AreMarks top definitions.old.literals definitions.old.marks.items }
    ensures is { Gives (λ x. (definitions.new.literals, x.now)) result (more_at (input_at top) count definitions.old.literals bytes.now) }
    ensures marks { OnOk result (AreMarks top definitions.new.literals definitions.new.marks.items) }
{
    let mut rest = bytes;
    for _ in 0..count {
        let (_, behind) = take_input(top, definitions, rest)?;
        rest = behind;
    }
    Ok(rest)
}

/// So many lines of outputs.
pub(crate) fn take_output_lines(
    alloc: Global,
    top: u32,
    count: u32,
    bytes: &[u8],
) -> Result<(List<Used>, &[u8]), ReadStop>
    requires { top ≤ AIG_LIMIT }
    ensures { Gives (λ x. (x.0, x.1.now)) result (more_at (λ front. output_at top) count [] bytes.now) }
{
    let mut outputs = List::new(alloc);
    let mut rest = bytes;
    for _ in 0..count {
        let (used, behind) = take_output(top, rest)?;
        outputs.push(used)?;
        rest = behind;
    }
    Ok((outputs, rest))
}

/// So many lines of ANDs.
pub(crate) fn take_and_lines<'a>(
    alloc: Global,
    top: u32,
    count: u32,
    definitions: &mut Definitions,
    bytes: &'a [u8],
) -> Result<(List<Line>, &'a [u8]), ReadStop>
    requires small { top ≤ AIG_LIMIT }
    requires marks { AreMarks top definitions.old.literals definitions.old.marks.items }
    ensures is { Gives (λ x. (x.0, x.1.now)) result (more_at (λ front. and_line_at top (definitions.old.literals ++ lhs_of front)) count [] bytes.now) }
    ensures literals { IfOk result (λ x. definitions.new.literals ≡ definitions.old.literals ++ lhs_of x.0) }
    ensures marks { OnOk result (AreMarks top definitions.new.literals definitions.new.marks.items) }
{
    let mut lines = List::new(alloc);
    let mut rest = bytes;
    for _ in 0..count {
        let (line, behind) = take_and_line(top, definitions, rest)?;
        lines.push(line)?;
        rest = behind;
    }
    Ok((lines, rest))
}
