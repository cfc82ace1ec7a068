//! The literals that a file defines, by its inputs and its ANDs.

ghost use Rattle.std.specs.Prelude.{◌≡◌, ◌<◌, ◌≤◌, ◌/◌, ◌%◌, ◌+◌, ◌++◌, ◌∷◌, [], IfOk, OnOk};
ghost use Rattle.rsfq_ids.specs.declared.limits.TheConstants.{AIG_LIMIT};
ghost use Rattle.aiger_parts.specs.Reading.{Gives};
ghost use Rattle.aiger_read.specs.Lines.{AreMarks, definition_at};

use aiger_parts::{AigerWhy, ReadStop, Stop, take_number};
use rsfq_ids::list::{List, NoMemory};
use std::alloc::Global;

/// The literals that were defined so far, in the order of the file, and a mark for the variable of each.
#[derive(Debug, Drop)]
pub(crate) struct Definitions {
    pub(crate) literals: List<u32>,
    pub(crate) marks: Vec<bool>,
}

impl Definitions {
    /// None.
    pub(crate) fn new(alloc: Global, top: u32) -> Result<Definitions, NoMemory>
        requires { top ≤ AIG_LIMIT }
        ensures marks { IfOk result (λ definitions. AreMarks top definitions.literals definitions.marks.items) }
        ensures none { IfOk result (λ definitions. definitions.literals ≡ []) }
    {
        Ok(Definitions {
            literals: List::new(alloc),
            marks: vec![in alloc; false; top as usize + 1]?,
        })
    }

    /// Adds a literal.
    fn put(&mut self, top: u32, literal: u32) -> Result<(), NoMemory>
        requires marks { AreMarks top self.old.literals self.old.marks.items }
        requires inside { literal / 2 ≤ top }
        requires even { literal % 2 ≡ 0 }
        ensures literals { OnOk result (self.new.literals ≡ self.old.literals ++ literal ∷ []) }
        ensures marks { OnOk result (AreMarks top self.new.literals self.new.marks.items) }
    {
        self.literals.push(literal)?;
        self.marks[(literal / 2) as usize] = true;
        Ok(())
    }
}

/// A literal that is defined here, and the bytes behind it.
#[tactic(auto, unfolding(crate::specs::Lines::definition_at))]
pub(crate) fn take_definition<'a>(
    top: u32,
    definitions: &mut Definitions,
    bytes: &'a [u8],
) -> Result<(u32, &'a [u8]), ReadStop>
    requires small { top ≤ AIG_LIMIT }
    requires marks { AreMarks top definitions.old.literals definitions.old.marks.items }
    ensures is { Gives (λ x. (x.0, x.1.now)) result (definition_at top definitions.old.literals bytes.now) }
    ensures literals { IfOk result (λ x. definitions.new.literals ≡ definitions.old.literals ++ x.0 ∷ []) }
    ensures marks { OnOk result (AreMarks top definitions.new.literals definitions.new.marks.items) }
{
    let (literal, rest) = take_number(bytes)?;
    if literal > 2 * top + 1 || literal % 2 == 1 || literal < 2 {
        return Err(ReadStop::At(Stop {
            left: bytes.len(),
            why: AigerWhy::Range(literal),
        }));
    }
    if definitions.marks[(literal / 2) as usize] {
        return Err(ReadStop::At(Stop {
            left: bytes.len(),
            why: AigerWhy::Defined(literal),
        }));
    }
    definitions.put(top, literal)?;
    Ok((literal, rest))
}
