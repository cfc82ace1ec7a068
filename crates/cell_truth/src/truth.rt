//! A truth table of one to four pins.

ghost use Rattle.std.specs.Prelude.{◌≡◌, ◌≢◌, ◌++◌, ◌*◌, ◌<◌, ◌≤◌, ◌^◌, ◌==◌, ℕ, Bool, ◌↔◌, map, OnOk, OnErr, IfOk};
ghost use Rattle.std.specs.Int.{bit_at};
ghost use Rattle.std.specs.List.{All, AllPairs};
ghost use Rattle.rsfq_ids.specs.Formula.{IsOver, Satisfies, value_of};
ghost use Rattle.cell_truth.specs.Clause.{written};
ghost use Rattle.cell_truth.specs.Truth.{digit, row_clause, signed, truth_clauses, truth_value};

use crate::clause::add_clause;
use rsfq_ids::id::Lit;
use rsfq_ids::list::{List, NoMemory};
use std::alloc::Global;
use std::marker::Model;

/// The truth table of a gate's output: digit `r` is bit `r`, and the first pin is bit 0 of `r`.
#[derive(Clone, Copy, Debug)]
pub struct Truth<const PINS: usize> {
    rows: u16,
}

impl<const PINS: usize> Model for Truth<PINS> {
    ghost use Rattle.std.specs.Prelude.{ℕ};

    ghost Value = { ℕ };

    ghost view = { λ t. t.rows };

    ghost inverse = { λ n. record { rows = n } };
}

fn signed(negative: bool, literal: Lit) -> Lit
    ensures { result ≡ signed negative literal }
{
    if negative {
        literal.opposite()
    } else {
        literal
    }
}

fn bit(row: u16, pin: usize) -> bool
    requires { pin < 16 }
    ensures { result ≡ (bit_at row pin == 1) }
{
    (row >> pin) % 2 == 1
}

fn row_count(pins: usize) -> u16
    requires { pins ≤ 4 }
    ensures { result ≡ 2 ^ pins }
{
    1 << pins
}

impl<const PINS: usize> Truth<PINS> {
    /// The truth table with these digits.
    pub fn new(rows: u16) -> Self
        ensures { result ≡ rows }
    {
        Truth { rows }
    }

    /// The digit of a row.
    pub fn at(&self, row: u16) -> bool
        requires pins { PINS ≤ 4 }
        requires row { row < 2 ^ PINS }
        ensures { result ≡ digit self.now row }
    {
        bit(self.rows, row as usize)
    }

    fn add_row(
        &self,
        alloc: Global,
        row: u16,
        inputs: &[Lit; PINS],
        output: Lit,
        into: &mut List<List<Lit>>,
    ) -> Result<(), NoMemory>
        requires pins { PINS ≤ 4 }
        requires row { row < 2 ^ PINS }
        ensures added { OnOk result (into.new ≡ into.old ++ written (row_clause self.now inputs.now output row)) }
        ensures kept { OnErr result (into.new ≡ into.old) }
    {
        let mut clause = List::new(alloc);
        for pin in 0..PINS {
            clause.push(signed(bit(row, pin), inputs[pin]))?;
        }
        clause.push(signed(!self.at(row), output))?;
        add_clause(alloc, clause.as_slice(), into)
    }

    /// Adds the clauses that hold together exactly where the output's value is the table's at the inputs' values:
    /// one for each row, in order, as a formula holds clauses, none with a literal twice. After a refusal the list is unchanged.
    pub fn clauses(
        &self,
        alloc: Global,
        inputs: &[Lit; PINS],
        output: Lit,
        into: &mut List<List<Lit>>,
    ) -> Result<(), NoMemory>
        requires { PINS ≤ 4 }
        ensures added { OnOk result (into.new ≡ into.old ++ truth_clauses self.now PINS inputs.now output) }
        ensures meaning { OnOk result ((values : ℕ → Bool) → All (Satisfies values) into.new ↔ (All (Satisfies values) into.old × (value_of values output ≡ truth_value values self.now inputs.now))) }
        ensures once { OnOk result (All (λ clause. AllPairs (λ one other. one ≢ other) clause) into.old → All (λ clause. AllPairs (λ one other. one ≢ other) clause) into.new) }
        ensures over { OnOk result ((vars : ℕ) → IsOver vars inputs.now → output < 2 * vars → All (IsOver vars) into.old → All (IsOver vars) into.new) }
        ensures kept { OnErr result (into.new ≡ into.old) }
    {
        let mut made = List::new(alloc);
        for row in 0..row_count(PINS) {
            self.add_row(alloc, row, inputs, output, &mut made)?;
        }
        into.append(made)
    }
}
