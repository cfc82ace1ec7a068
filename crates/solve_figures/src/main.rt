//! Prints what the search for a solution of a formula comes to, so that figures of it can be made again.
//!
//! `solve_figures CNF BUDGET` reads the DIMACS text of the file `CNF`, and writes one line: `satisfied`, or `refuted N` or `spent N` with the
//! number of steps. With a third word the log stands before it in the LRAT text format.
#![tactic(auto)]

ghost use Rattle.std.specs.Prelude.{◌≤◌};
ghost use Rattle.rsfq_ids.specs.Formula.{IsFormula};

use bumpalo::Bump;
use cdcl_search::solve;
use dimacs_text::read_dimacs;
use lrat_check::write_lrat;
use proof_arena::Answer;
use rsfq_ids::circuit::Cnf;
use rsfq_ids::limits::{CONFLICT_LIMIT, PROOF_FILE_LIMIT};
use std::io::{Error, ErrorKind, Write};
use std::process::ExitCode;
use std::{env, fs, io};

/// Solves a formula, and writes the line and the log, if it is wanted.
fn write_answer(rt: &HostRuntime, cnf: &Cnf, budget: u32, with_log: bool) -> io::Result<()>
    requires formula { IsFormula cnf.now }
    requires budget { budget ≤ 1000000 }
{
    let arena = Bump::new(rt.alloc());
    let Ok(answer) = solve(rt.alloc(), cnf, budget, &arena) else {
        return Err(Error::from(ErrorKind::OutOfMemory));
    };
    let (word, log) = match answer {
        Answer::Assignment(_) => return println!(rt; "satisfied"),
        Answer::Refuted(log) => ("refuted", log),
        Answer::Spent(log) => ("spent", log),
    };
    if with_log {
        let mut text = Vec::new(rt.alloc());
        if write_lrat(cnf, &log, &mut text).is_err() {
            return Err(Error::from(ErrorKind::OutOfMemory));
        }
        io::writer(rt).write_all(&text)?;
    }
    println!(rt; "{word} {}", log.steps())
}

/// Reads the formula and the budget that the words name.
fn run(rt: &HostRuntime) -> io::Result<()> {
    let words: Vec<String> = env::args(rt)?.skip(1).collect(rt.alloc())?;
    let (Some(name), Some(number)) = (words.get(0), words.get(1)) else {
        return Err(Error::from(ErrorKind::InvalidInput));
    };
    let bytes = fs::read(rt, name.as_str())?;
    if bytes.len() > PROOF_FILE_LIMIT {
        return Err(Error::from(ErrorKind::InvalidInput));
    }
    let budget = match number.parse::<u32>() {
        Ok(budget) if budget <= CONFLICT_LIMIT => budget,
        _ => return Err(Error::from(ErrorKind::InvalidInput)),
    };
    match read_dimacs(rt.alloc(), &bytes) {
        Ok(cnf) => write_answer(rt, &cnf, budget, words.len() > 2),
        Err(_) => Err(Error::from(ErrorKind::InvalidData)),
    }
}

fn main(rt: HostRuntime) -> ExitCode {
    match run(&rt) {
        Ok(()) => ExitCode::SUCCESS,
        Err(_) => ExitCode::FAILURE,
    }
}
