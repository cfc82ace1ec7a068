//! An ASCII file, as it stands.

ghost use Rattle.std.specs.Prelude.{◌≡◌, ◌≤◌, ◌/◌, ℕ, slice_get, map, Some, IfOk};
ghost use Rattle.aiger_parts.specs.Reading.{Gives};
ghost use Rattle.aiger_read.specs.declared.lines.Used.{Used};
ghost use Rattle.aiger_read.specs.declared.lines.Line.{Line};
ghost use Rattle.aiger_read.specs.Lines.{AreMarks};
ghost use Rattle.aiger_read.specs.Text.{use_known_at, known_at, uses_of, text_at, and_of, listing_of};

use crate::definitions::Definitions;
use crate::lines::{Line, Used, take_and_lines, take_inputs, take_output_lines};
use aiger_order::Listing;
use aiger_parts::{AigerWhy, Form, ReadStop, Stop, take_header, take_symbols};
use golden_aig::And;
use rsfq_ids::list::{List, NoMemory};
use rsfq_ids::name::Name;
use std::alloc::Global;

/// What an ASCII file lists, with the places of what it uses.
#[derive(Debug, Drop)]
pub(crate) struct Text {
    /// The highest variable.
    pub(crate) top: u32,
    pub(crate) inputs: List<u32>,
    pub(crate) outputs: List<Used>,
    pub(crate) lines: List<Line>,
    /// How many bytes are left at the first line of an AND.
    pub(crate) left: usize,
    pub(crate) in_names: List<Option<Name>>,
    pub(crate) out_names: List<Option<Name>>,
}

/// Refuses a literal of a variable that nothing defines.
fn refuse_unknown(top: u32, definitions: &Definitions, used: Used) -> Result<(), ReadStop>
    requires marks { AreMarks top definitions.now.literals definitions.now.marks.items }
    requires inside { used.literal / 2 ≤ top }
    ensures { Gives (λ x. x) result (use_known_at definitions.now.literals used) }
{
    let variable = used.literal / 2;
    if variable == 0 || definitions.marks[variable as usize] {
        return Ok(());
    }
    Err(ReadStop::At(Stop {
        left: used.left,
        why: AigerWhy::Undefined(used.literal),
    }))
}

/// Refuses the first of some literals whose variable nothing defines.
fn refuse_unknown_outputs(
    top: u32,
    definitions: &Definitions,
    outputs: &[Used],
) -> Result<(), ReadStop>
    requires marks { AreMarks top definitions.now.literals definitions.now.marks.items }
    requires inside { (at : ℕ) (used : Used) → slice_get outputs.now at ≡ Some used → used.literal / 2 ≤ top }
    ensures { Gives (λ x. x) result (known_at definitions.now.literals outputs.now) }
{
    for used in outputs {
        refuse_unknown(top, definitions, *used)?;
    }
    Ok(())
}

/// Refuses the first operand of lines whose variable nothing defines.
fn refuse_unknown_operands(
    top: u32,
    definitions: &Definitions,
    lines: &[Line],
) -> Result<(), ReadStop>
    requires marks { AreMarks top definitions.now.literals definitions.now.marks.items }
    requires inside { (at : ℕ) (line : Line) → slice_get lines.now at ≡ Some line → (line.rhs0.literal / 2 ≤ top) × (line.rhs1.literal / 2 ≤ top) }
    ensures { Gives (λ x. x) result (known_at definitions.now.literals (uses_of lines.now)) }
{
    for line in lines {
        refuse_unknown(top, definitions, line.rhs0)?;
        refuse_unknown(top, definitions, line.rhs1)?;
    }
    Ok(())
}

/// A copy of literals.
fn copy_literals(alloc: Global, literals: &List<u32>) -> Result<List<u32>, NoMemory>
    ensures { IfOk result (λ copy. copy ≡ literals.now) }
{
    let copy = Vec::from_slice(alloc, literals.as_slice())?;
    Ok(List::of(copy))
}

/// The whole file.
#[tactic(auto, unfolding(crate::specs::Text::text_at))]
pub(crate) fn take_text(alloc: Global, bytes: &[u8]) -> Result<Text, ReadStop>
    ensures { Gives (λ x. x) result (text_at bytes.now) }
{
    let (header, rest) = take_header(Form::Ascii, bytes)?;
    let top = header.variables;
    let mut definitions = Definitions::new(alloc, top)?;
    let rest = take_inputs(top, header.inputs, &mut definitions, rest)?;
    let inputs = copy_literals(alloc, &definitions.literals)?;
    let (outputs, rest) = take_output_lines(alloc, top, header.outputs, rest)?;
    let left = rest.len();
    let (lines, rest) = take_and_lines(alloc, top, header.ands, &mut definitions, rest)?;
    let symbols = take_symbols(alloc, header.inputs, header.outputs, rest)?;
    refuse_unknown_outputs(top, &definitions, outputs.as_slice())?;
    refuse_unknown_operands(top, &definitions, lines.as_slice())?;
    Ok(Text {
        top,
        inputs,
        outputs,
        lines,
        left,
        in_names: List::of(symbols.inputs),
        out_names: List::of(symbols.outputs),
    })
}

/// The literals of outputs.
fn list_literals(alloc: Global, outputs: &[Used]) -> Result<List<u32>, NoMemory>
    ensures { IfOk result (λ literals. literals ≡ map (λ used. used.literal) outputs.now) }
{
    let mut literals = List::new(alloc);
    for used in outputs {
        literals.push(used.literal)?;
    }
    Ok(literals)
}

/// The ANDs of lines.
fn list_ands(alloc: Global, lines: &[Line]) -> Result<List<And>, NoMemory>
    ensures { IfOk result (λ ands. ands ≡ map and_of lines.now) }
{
    let mut ands = List::new(alloc);
    for line in lines {
        ands.push(And {
            lhs: line.lhs,
            rhs0: line.rhs0.literal,
            rhs1: line.rhs1.literal,
        })?;
    }
    Ok(ands)
}

/// What the file lists.
pub(crate) fn make_listing(alloc: Global, text: Text) -> Result<Listing, NoMemory>
    ensures { IfOk result (λ listing. listing ≡ listing_of text) }
{
    let ands = list_ands(alloc, text.lines.as_slice())?;
    let outputs = list_literals(alloc, text.outputs.as_slice())?;
    Ok(Listing {
        top: text.top,
        inputs: text.inputs,
        ands,
        outputs,
        in_names: text.in_names,
        out_names: text.out_names,
    })
}
