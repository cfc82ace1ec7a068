//! Lines of a proof.
ghost use Rattle.std.specs.Prelude.{◌≡◌, ◌≤◌, [], length, drop, IfOk};
ghost use Rattle.std.specs.List.{list_any};
ghost use Rattle.dimacs_text.specs.Parts.{words, is_space};
ghost use Rattle.dimacs_text.specs.declared.number.Signed.{Signed};
ghost use Rattle.lrat_lines.specs.Lines.{line_of, fields_say, behind_id, addition_of, deletion_of, list_of};
ghost use Rattle.lrat_lines.specs.Forms.{form_of};

use crate::field::read_list;
use decimal_text::read_number;
use dimacs_text::{Signed, next_field};
use rsfq_ids::list::NoMemory;
use std::alloc::Global;

/// The form of a line.
#[derive(Clone, Copy, Debug, PartialEq, Eq)]
pub enum Form {
    /// The line says nothing.
    Skipped,
    /// It is no line of the format.
    Broken,
    /// A clause with this id is added: the literals and the hints are those that were read.
    Addition(u32),
    /// Clauses are deleted: their ids are those that were read.
    Deletion,
}

/// The numbers of a line, which are kept to be filled anew.
#[derive(Drop)]
pub struct Numbers {
    /// The literals of an addition, or the ids of a deletion.
    pub lits: Vec<Signed>,
    /// The hints of an addition.
    pub hints: Vec<Signed>,
}

impl Numbers {
    /// No numbers. It takes no memory; later calls take it from `alloc`.
    pub fn new(alloc: Global) -> Numbers
        ensures lits { result.lits.items ≡ [] }
        ensures hints { result.hints.items ≡ [] }
    {
        Numbers {
            lits: Vec::new(alloc),
            hints: Vec::new(alloc),
        }
    }

    /// Reads a line, of which its newline byte is no part, and answers its form. The literals and the hints of an addition, or the ids of a
    /// deletion, then stand in the fields; at the other forms the fields have no meaning.
    ///
    /// # Errors
    ///
    /// Only for want of memory. Then the fields have no meaning either.
    pub fn read_line(&mut self, line: &[u8]) -> Result<Form, NoMemory>
        ensures { IfOk result (λ form. line_of line.now ≡ form_of form self.new.lits.items self.new.hints.items) }
    {
        if line.is_empty() || line[0] == b'c' {
            return Ok(Form::Skipped);
        }
        if line[0] == b' ' || line[line.len() - 1] == b' ' {
            return Ok(Form::Broken);
        }
        self.read_fields(line)
    }

    /// Reads the fields of a line.
    fn read_fields(&mut self, line: &[u8]) -> Result<Form, NoMemory>
        ensures { IfOk result (λ form. fields_say (words is_space 0 line.now) ≡ form_of form self.new.lits.items self.new.hints.items) }
    {
        let Some((start, end)) = next_field(line, 0) else {
            return Ok(Form::Broken);
        };
        match read_number(&line[start..end], u32::MAX) {
            Some(id) => self.read_behind_id(line, end, id),
            None => Ok(Form::Broken),
        }
    }

    /// Reads the fields behind the id, which ends at a place.
    fn read_behind_id(&mut self, line: &[u8], at: usize, id: u32) -> Result<Form, NoMemory>
        requires { at ≤ length line.now }
        ensures { IfOk result (λ form. behind_id id (words is_space at (drop at line.now)) ≡ form_of form self.new.lits.items self.new.hints.items) }
    {
        match next_field(line, at) {
            None => Ok(Form::Broken),
            Some((start, end)) => {
                if &line[start..end] == b"d".as_slice() {
                    self.read_deletion(line, end)
                } else {
                    self.read_addition(line, at, id)
                }
            }
        }
    }

    /// Reads the ids of a deletion from a place on.
    fn read_deletion(&mut self, line: &[u8], at: usize) -> Result<Form, NoMemory>
        requires { at ≤ length line.now }
        ensures { IfOk result (λ form. deletion_of (list_of (words is_space at (drop at line.now))) ≡ form_of form self.new.lits.items self.new.hints.items) }
    {
        let Some(behind) = read_list(line, at, &mut self.lits)? else {
            return Ok(Form::Broken);
        };
        if next_field(line, behind).is_some() {
            return Ok(Form::Broken);
        }
        if has_hyphen(&self.lits) {
            return Ok(Form::Broken);
        }
        Ok(Form::Deletion)
    }

    /// Reads the literals and the hints of an addition from a place on.
    fn read_addition(&mut self, line: &[u8], at: usize, id: u32) -> Result<Form, NoMemory>
        requires { at ≤ length line.now }
        ensures { IfOk result (λ form. addition_of id (list_of (words is_space at (drop at line.now))) ≡ form_of form self.new.lits.items self.new.hints.items) }
    {
        let Some(behind) = read_list(line, at, &mut self.lits)? else {
            return Ok(Form::Broken);
        };
        let Some(end) = read_list(line, behind, &mut self.hints)? else {
            return Ok(Form::Broken);
        };
        if next_field(line, end).is_some() {
            return Ok(Form::Broken);
        }
        Ok(Form::Addition(id))
    }
}

/// Whether a number stands behind a hyphen.
fn has_hyphen(numbers: &[Signed]) -> bool
    ensures { result ≡ list_any (λ (number : Signed). number.negative) numbers.now }
{
    numbers.iter().any(|number| number.negative)
}
