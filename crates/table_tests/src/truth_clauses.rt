//! The clauses of truth tables of one to four pins, written by hand.
ghost use Rattle.std.specs.Prelude.{◌≡◌, ◌<◌, ◌≤◌, ◌^◌};
ghost use Rattle.cell_truth.specs.Truth.{digit};

use cell_truth::by_pins;
use cell_truth::pins::add_rows;
use cell_truth::truth::Truth;
use rsfq_ids::id::{Id, Lit};
use rsfq_ids::list::{List, NoMemory};
use std::alloc::Global;
use std::test::Fail;

fn digit_at<const PINS: usize>(rows: u16, row: u16) -> bool
    requires pins { PINS ≤ 4 }
    requires row { row < 2 ^ PINS }
    ensures { result ≡ digit rows row }
{
    let table: Truth<PINS> = Truth::new(rows);
    table.at(row)
}

/// The clauses of a table whose pins have the first of these literals, and whose output has the last.
fn add_clauses(
    alloc: Global,
    pins: usize,
    rows: u16,
    literals: &[u32; 5],
    into: &mut List<List<Lit>>,
) -> Result<(), NoMemory>
    requires some { 1 ≤ pins }
    requires few { pins ≤ 4 }
{
    let mut inputs = Vec::new(alloc);
    for place in 0..pins {
        inputs.push(Lit::of(literals[place]))?;
    }
    let inputs = inputs.as_slice();
    if inputs.is_empty() || inputs.len() > 4 {
        return Ok(());
    }
    add_rows(alloc, rows, inputs, Lit::of(literals[4]), into)
}

fn text_of(rt: &HostRuntime, clauses: &[List<Lit>]) -> Result<String, Fail> {
    let mut text = String::new(rt.alloc());
    for clause in clauses {
        for literal in clause.as_slice() {
            let number = format!(in rt.alloc(); "{} ", literal.index())?;
            text.push_str(number.as_str())?;
        }
        text.push_str("0 ")?;
    }
    Ok(text)
}

// The pins' literals from the first on; the last of the five is the output's. A literal is twice its variable, plus 1 for the negation.
#[test]
fn tables_have_their_clauses(rt: HostRuntime) -> Result<(), Fail> {
    let cases: [(usize, u16, [u32; 5], &str); 6] = [
        (1, 0b10, [2, 0, 0, 0, 4], "2 5 0 3 4 0 "),
        (1, 0b01, [2, 0, 0, 0, 4], "2 4 0 3 5 0 "),
        (
            2,
            0b1000,
            [2, 4, 0, 0, 6],
            "2 4 7 0 3 4 7 0 2 5 7 0 3 5 6 0 ",
        ),
        (2, 0b0110, [2, 2, 0, 0, 6], "2 7 0 3 7 0 "),
        (
            3,
            0b1110_1000,
            [0, 0, 2, 0, 4],
            "0 2 5 0 1 2 4 0 0 3 5 0 1 3 4 0 ",
        ),
        (
            4,
            0b1000_0001_0000_0000,
            [0, 0, 0, 2, 4],
            "0 2 5 0 1 2 5 0 0 3 4 0 1 3 4 0 ",
        ),
    ];
    for (pins, rows, literals, wanted) in cases {
        let mut clauses = List::new(rt.alloc());
        assert!(rt; pins >= 1 && pins <= 4);
        add_clauses(rt.alloc(), pins, rows, &literals, &mut clauses)?;
        let text = text_of(&rt, clauses.as_slice())?;
        assert_eq!(rt; text.as_str(), wanted);
    }
    Ok(())
}

#[test]
fn digits_are_those_of_the_table(rt: HostRuntime) -> Result<(), Fail> {
    assert!(rt; by_pins!(1, digit_at(0b10, 1)));
    assert!(rt; !by_pins!(2, digit_at(0b0110, 0)));
    assert!(rt; by_pins!(3, digit_at(0b1110_1010, 1)));
    assert!(rt; by_pins!(4, digit_at(0b10, 1)));
    Ok(())
}
