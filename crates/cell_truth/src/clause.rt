//! Clauses as a formula holds them: no literal twice, and none that always holds.

ghost use Rattle.std.specs.Prelude.{◌≡◌, ◌++◌, ◌==◌, OnOk, OnErr, IfOk};
ghost use Rattle.std.specs.List.{list_any};
ghost use Rattle.cell_truth.specs.Clause.{has_both, once_each, with_literal, written};

use rsfq_ids::id::Lit;
use rsfq_ids::list::{List, NoMemory};
use std::alloc::Global;

fn contains(literals: &[Lit], wanted: Lit) -> bool
    ensures { result ≡ list_any (λ literal. literal == wanted) literals.now }
{
    literals.iter().any(|literal| *literal == wanted)
}

fn has_both(literals: &[Lit]) -> bool
    ensures { result ≡ has_both literals.now }
{
    literals
        .iter()
        .any(|literal| contains(literals, literal.opposite()))
}

fn add_once(clause: &mut List<Lit>, literal: Lit) -> Result<(), NoMemory>
    ensures { OnOk result (clause.new ≡ with_literal clause.old literal) }
{
    if contains(clause.as_slice(), literal) {
        return Ok(());
    }
    clause.push(literal)
}

#[tactic(auto, using(std::proofs::lemmas::List::Sums::fold_more))]
fn keep_once(alloc: Global, literals: &[Lit]) -> Result<List<Lit>, NoMemory>
    ensures { IfOk result (λ clause. clause ≡ once_each literals.now) }
{
    let mut clause = List::new(alloc);
    for literal in literals {
        add_once(&mut clause, *literal)?;
    }
    Ok(clause)
}

/// Adds the clause of these literals at the end, each literal at its first place alone.
/// A clause that has a literal and its negation always holds, and is left out.
pub fn add_clause(
    alloc: Global,
    literals: &[Lit],
    into: &mut List<List<Lit>>,
) -> Result<(), NoMemory>
    ensures added { OnOk result (into.new ≡ into.old ++ written literals.now) }
    ensures kept { OnErr result (into.new ≡ into.old) }
{
    if has_both(literals) {
        return Ok(());
    }
    into.push(keep_once(alloc, literals)?)
}
