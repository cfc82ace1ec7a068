//! The words in counting order, by splitting on the last input first.

ghost use Rattle.std.specs.Prelude.{◌≡◌, ℕ, ◌+◌, ◌*◌, ◌-◌, ◌^◌, ◌<◌, ◌≤◌, ◌∷◌, ◌++◌, [], length, drop, IfOk, OnOk, IfSome, IfNone};
ghost use Rattle.std.specs.List.{All};
ghost use Rattle.proof_arena.specs.Table.{falses_of};
ghost use Rattle.proof_arena.specs.Step.{StepHolds};
ghost use Rattle.proof_arena.specs.Log.{clauses_of};
ghost use Rattle.cube_proof.specs.Tabulated.{valued};
ghost use Rattle.cube_proof.specs.Search.{HasTables};
ghost use Rattle.cube_proof.specs.Split.{IsTable, IsWordOf, IsFound, IsSplit, HasRoom};

use crate::search::Search;
use proof_arena::{Marks, ProofLog};
use rsfq_ids::circuit::Cnf;
use rsfq_ids::id::{ClauseId, Id, Lit, Var};
use rsfq_ids::list::{List, NoMemory};
use std::alloc::Global;

/// A formula, the inputs that decide its variables, and for each literal the clauses that hold it.
#[derive(Drop)]
pub(crate) struct Table<'a> {
    pub(crate) cnf: &'a Cnf,
    pub(crate) inputs: &'a [Var],
    pub(crate) users: Vec<Vec<u32>>,
}

/// The value of each variable: 1 where its negation is false.
fn read_values(alloc: Global, marks: &Marks, vars: u32) -> Result<List<bool>, NoMemory>
    requires { vars ≤ 2147483647 }
    ensures many { IfOk result (λ values. length values ≡ vars) }
    ensures values { IfOk result (λ values. (var : ℕ) → var < vars → valued values var ≡ falses_of marks.now (2 * var + 1)) }
{
    let mut values = List::new(alloc);
    for var in 0..vars {
        values.push(marks.is_false(Lit::of(2 * var + 1)))?;
    }
    Ok(values)
}

/// Tries a full word. Where it has a conflict, a step is added whose clause negates the word.
fn try_word(
    alloc: Global,
    table: &Table<'_>,
    word: &[Lit],
    search: &mut Search,
    log: &mut ProofLog<'_>,
) -> Result<Option<List<bool>>, NoMemory>
    requires table { IsTable table.now }
    requires word { IsWordOf table.now.inputs.now word.now }
    requires marks { HasTables table.now.cnf.now.vars search.old }
    requires room { HasRoom table.now.cnf.now table.now.inputs.now 0 log.old }
    ensures marks { OnOk result (HasTables table.now.cnf.now.vars search.new) }
    ensures found { IfOk result (λ found. IfSome found (IsFound table.now.cnf.now table.now.inputs.now 0 word.now)) }
    ensures split { IfOk result (λ found. IfNone found (IsSplit table.now.inputs.now 0 word.now log.old log.new)) }
{
    if search.propagate(table.cnf, &table.users, word)? {
        log.add(word, search.hints.as_slice())?;
        return Ok(None);
    }
    let values = read_values(alloc, &search.marks, table.cnf.vars)?;
    Ok(Some(values))
}

/// The number of the clause that was added last.
fn last_clause(log: &ProofLog<'_>) -> ClauseId
    requires { 0 < length (clauses_of log.now) }
    ensures { result + 1 ≡ length (clauses_of log.now) }
{
    ClauseId::of(log.clauses() - 1)
}

/// Adds the step after both halves of a split, the clause of the inputs from a place on.
fn close_split(
    word: &[Lit],
    free: usize,
    halves: &[ClauseId],
    log: &mut ProofLog<'_>,
) -> Result<(), NoMemory>
    requires free { free ≤ length word.now }
    requires holds { StepHolds log.old.vars (clauses_of log.old) (drop free word.now) halves.now }
    requires printed { All (λ hint. hint < 2 ^ 32 - 1) halves.now }
    requires room { length (clauses_of log.old) < 2 ^ 32 - 1 }
    ensures { OnOk result (log.new ≡ record log.old { steps = log.old.steps ++ record { lits = drop free word.now; hints = halves.now } ∷ [] }) }
{
    log.add(&word[free..], halves)?;
    Ok(())
}

/// Tries the words of the inputs before a place, in counting order, until one satisfies the formula. Where none does, the steps of the
/// split are added.
pub(crate) fn split(
    alloc: Global,
    table: &Table<'_>,
    free: usize,
    word: &mut Vec<Lit>,
    search: &mut Search,
    log: &mut ProofLog<'_>,
) -> Result<Option<List<bool>>, NoMemory>
    requires table { IsTable table.now }
    requires free { free ≤ length table.now.inputs.now }
    requires word { IsWordOf table.now.inputs.now word.old.items }
    requires marks { HasTables table.now.cnf.now.vars search.old }
    requires room { HasRoom table.now.cnf.now table.now.inputs.now free log.old }
    ensures word { OnOk result (IsWordOf table.now.inputs.now word.new.items) }
    ensures rest { OnOk result (drop free word.new.items ≡ drop free word.old.items) }
    ensures marks { OnOk result (HasTables table.now.cnf.now.vars search.new) }
    ensures found { IfOk result (λ found. IfSome found (IsFound table.now.cnf.now table.now.inputs.now free word.old.items)) }
    ensures split { IfOk result (λ found. IfNone found (IsSplit table.now.inputs.now free word.old.items log.old log.new)) }
{
    if free == 0 {
        return try_word(alloc, table, word.as_slice(), search, log);
    }
    let place = free - 1;
    let input = table.inputs[place].index() as u32;
    word[place] = Lit::of(2 * input);
    if let Some(values) = split(alloc, table, place, word, search, log)? {
        return Ok(Some(values));
    }
    let low = last_clause(log);
    log.clauses_follow();
    word[place] = Lit::of(2 * input + 1);
    if let Some(values) = split(alloc, table, place, word, search, log)? {
        return Ok(Some(values));
    }
    let high = last_clause(log);
    close_split(word.as_slice(), free, &[low, high], log)?;
    Ok(None)
}
