//! The instance of a call that has as many pins as a gate has.

ghost use Rattle.std.specs.Prelude.{◌≡◌, ◌≤◌, ◌++◌, length, OnOk, OnErr};
ghost use Rattle.cell_truth.specs.Truth.{truth_clauses};

use crate::truth::Truth;
use rsfq_ids::id::{Id, Lit};
use rsfq_ids::list::{List, NoMemory};
use std::alloc::Global;

/// Calls a function of `PINS` at the number of pins. A caller has to show that it is one of 1 to 4: no other number has an arm.
#[macro_export]
macro_rules! by_pins {
    ($pins:expr, $call:ident ( $($argument:expr),* $(,)? )) => {
        match $pins {
            1 => $call::<1>($($argument),*),
            2 => $call::<2>($($argument),*),
            3 => $call::<3>($($argument),*),
            4 => $call::<4>($($argument),*),
            _ => unreachable!(),
        }
    };
}

/// Adds the clauses of a table of so many pins.
fn add_table<const PINS: usize>(
    alloc: Global,
    rows: u16,
    inputs: &[Lit],
    output: Lit,
    into: &mut List<List<Lit>>,
) -> Result<(), NoMemory>
    requires pins { PINS ≤ 4 }
    requires count { length inputs.now ≡ PINS }
    ensures added { OnOk result (into.new ≡ into.old ++ truth_clauses rows PINS inputs.now output) }
    ensures kept { OnErr result (into.new ≡ into.old) }
{
    let table: Truth<PINS> = Truth::new(rows);
    let mut literals = [Lit::of(0); PINS];
    for place in 0..PINS {
        literals[place] = inputs[place];
    }
    table.clauses(alloc, &literals, output, into)
}

/// Adds the clauses of a truth table with as many pins as there are literals, in order. After a refusal the list is unchanged.
pub fn add_rows(
    alloc: Global,
    rows: u16,
    inputs: &[Lit],
    output: Lit,
    into: &mut List<List<Lit>>,
) -> Result<(), NoMemory>
    requires some { 1 ≤ length inputs.now }
    requires few { length inputs.now ≤ 4 }
    ensures added { OnOk result (into.new ≡ into.old ++ truth_clauses rows (length inputs.now) inputs.now output) }
    ensures kept { OnErr result (into.new ≡ into.old) }
{
    by_pins!(inputs.len(), add_table(alloc, rows, inputs, output, into))
}
