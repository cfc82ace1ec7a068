//! The values of a graph under a word, by a table that is filled from low variables to high.

ghost use Rattle.std.specs.Prelude.{◌≡◌, ◌≤◌, ◌/◌, length, map, Some};
ghost use Rattle.golden_aig.specs.Aig.{IsAig, variables_of};
ghost use Rattle.golden_aig.specs.Golden.{golden, literal_value, and_value};
ghost use Rattle.golden_aig.specs.Table.{marked, Holds};

use crate::graph::{Aig, And};

/// The value of a literal, where the table holds the values of the variables from 1 on.
fn literal_in(marks: &[bool], literal: u32) -> bool
    requires { literal / 2 ≤ length marks.now }
    ensures { result ≡ literal_value (marked marks.now) literal }
{
    let variable = (literal / 2) as usize;
    let value = variable > 0 && marks[variable - 1];
    if literal % 2 == 0 { value } else { !value }
}

/// Fills the table with the values of the inputs.
fn fill_inputs(aig: &Aig, word: &[bool], marks: &mut [bool])
    requires graph { IsAig aig.now }
    requires word { length word.now ≡ aig.now.inputs }
    requires marks { length marks.old ≡ variables_of aig.now }
    ensures { Holds aig.now word.now aig.now.inputs marks.new }
{
    marks[..word.len()].copy_from_slice(word);
}

/// The value of an AND, where the table holds the values of its operands.
fn and_in(marks: &[bool], and: And) -> bool
    requires first { and.rhs0 / 2 ≤ length marks.now }
    requires second { and.rhs1 / 2 ≤ length marks.now }
    ensures { result ≡ and_value (marked marks.now) (Some and) }
{
    literal_in(marks, and.rhs0) && literal_in(marks, and.rhs1)
}

/// Fills the rest of the table with the values of the ANDs, each from lower variables.
fn fill_ands(aig: &Aig, word: &[bool], marks: &mut [bool])
    requires graph { IsAig aig.now }
    requires marks { length marks.old ≡ variables_of aig.now }
    requires inputs { Holds aig.now word.now aig.now.inputs marks.old }
    ensures { Holds aig.now word.now (variables_of aig.now) marks.new }
{
    let first = aig.inputs as usize;
    for (place, and) in aig.ands.as_slice().iter().enumerate() {
        marks[first + place] = and_in(marks, *and);
    }
}

/// Sets `into` to the values of the outputs under a word, which has one bit for each input.
///
/// `marks` has one place for each variable but the constant and is overwritten. Takes no memory.
pub fn eval(aig: &Aig, word: &[bool], marks: &mut [bool], into: &mut [bool])
    requires graph { IsAig aig.now }
    requires word { length word.now ≡ aig.now.inputs }
    requires marks { length marks.old ≡ variables_of aig.now }
    requires outputs { length into.old ≡ length aig.now.outputs }
    ensures { into.new ≡ map (golden aig.now word.now) aig.now.outputs }
{
    fill_inputs(aig, word, marks);
    fill_ands(aig, word, marks);
    for (place, literal) in aig.outputs.as_slice().iter().enumerate() {
        into[place] = literal_in(marks, *literal);
    }
}
