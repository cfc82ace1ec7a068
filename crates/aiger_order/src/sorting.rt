//! The ANDs in an order of use.

ghost use Rattle.std.specs.Prelude.{◌≡◌, ◌<◌, ◌≤◌, ◌≢◌, ◌/◌, ◌+◌, ◌++◌, ◌^◌, ◌⊎◌, ◌∷◌, [], ℕ, length, map, slice_get, Some, IfOk, OnOk};
ghost use Rattle.rsfq_ids.specs.declared.limits.TheConstants.{AIG_LIMIT};
ghost use Rattle.golden_aig.specs.declared.graph.And.{And};
ghost use Rattle.aiger_order.specs.Numbers.{Known, HoldsOnce, Numbers};
ghost use Rattle.aiger_order.specs.Users.{lists_of, AreUsers};
ghost use Rattle.aiger_order.specs.Listing.{IsDefinition, AreLines, defined_by};
ghost use Rattle.aiger_order.specs.Ready.{IsReadyLine, Has, OnlyReady};
ghost use Rattle.aiger_order.specs.Sorted.{IsBuilt, IsSorted};

use crate::numbering::Numbering;
use crate::ready::{find_ready, wake_all};
use crate::users::tabulate_users;
use golden_aig::And;
use rsfq_ids::list::{List, NoMemory};
use std::alloc::Global;
use std::collections::BTreeSet;

/// The ANDs of the graph so far, and the numbers that they and the inputs have.
#[derive(Debug, Drop)]
pub(crate) struct Sorted {
    pub(crate) numbering: Numbering,
    pub(crate) ands: List<And>,
}

/// The numbers of the inputs, which come behind the constant.
fn number_inputs(alloc: Global, top: u32, inputs: &[u32]) -> Result<Numbering, NoMemory>
    requires small { top ≤ AIG_LIMIT }
    requires definitions { (at literal : ℕ) → slice_get inputs.now at ≡ Some literal → IsDefinition top literal }
    requires once { HoldsOnce inputs.now }
    ensures numbers { IfOk result (Numbers top) }
    ensures names { IfOk result (λ numbering. numbering.names.items ≡ 0 ∷ map (λ literal. literal / 2) inputs.now) }
{
    let mut numbering = Numbering::new(alloc, top)?;
    for literal in inputs {
        numbering.give(top, *literal)?;
    }
    Ok(numbering)
}

/// Makes the next AND of the graph from a line.
fn number_line(top: u32, sorted: &mut Sorted, line: And) -> Result<(), NoMemory>
    requires numbers { Numbers top sorted.old.numbering }
    requires small { top ≤ AIG_LIMIT }
    requires lhs { IsDefinition top line.lhs }
    requires first_below { line.rhs0 / 2 ≤ top }
    requires second_below { line.rhs1 / 2 ≤ top }
    requires fresh { ¬ Known sorted.old.numbering.names.items (line.lhs / 2) }
    requires first { Known sorted.old.numbering.names.items (line.rhs0 / 2) }
    requires second { Known sorted.old.numbering.names.items (line.rhs1 / 2) }
    ensures numbers { OnOk result (Numbers top sorted.new.numbering) }
    ensures names { OnOk result (sorted.new.numbering.names.items ≡ sorted.old.numbering.names.items ++ line.lhs / 2 ∷ []) }
    ensures ands { OnOk result ((one : And) × (sorted.new.ands ≡ sorted.old.ands ++ one ∷ []) × IsBuilt sorted.old.numbering.names.items line one) }
{
    let and = And {
        lhs: 2 * (sorted.numbering.names.len() as u32),
        rhs0: sorted.numbering.renumbered(top, line.rhs0),
        rhs1: sorted.numbering.renumbered(top, line.rhs1),
    };
    sorted.ands.push(and)?;
    sorted.numbering.give(top, line.lhs)?;
    Ok(())
}

/// Takes a line that is ready, and puts in those that it makes ready.
fn take_line(
    top: u32,
    lines: &[And],
    users: &Vec<Vec<u32>>,
    sorted: &mut Sorted,
    ready: &mut BTreeSet<u32>,
    place: u32,
) -> Result<(), NoMemory>
    requires small { top ≤ AIG_LIMIT }
    requires lines { AreLines top lines.now }
    requires users { AreUsers top (length lines.now) lines.now (lists_of users.now.items) }
    requires numbers { Numbers top sorted.old.numbering }
    requires now { IsReadyLine sorted.old.numbering.names.items lines.now place }
    requires only { (line : ℕ) → Has ready.old line → (line ≢ place) × IsReadyLine sorted.old.numbering.names.items lines.now line }
    requires all { (line : ℕ) → IsReadyLine sorted.old.numbering.names.items lines.now line → (line ≡ place) ⊎ Has ready.old line }
    ensures numbers { OnOk result (Numbers top sorted.new.numbering) }
    ensures only { OnOk result (OnlyReady sorted.new.numbering.names.items lines.now ready.new) }
    ensures all { OnOk result ((line : ℕ) → IsReadyLine sorted.new.numbering.names.items lines.now line → Has ready.new line) }
    ensures taken { OnOk result ((line one : And) × (slice_get lines.now place ≡ Some line) × (sorted.new.numbering.names.items ≡ sorted.old.numbering.names.items ++ line.lhs / 2 ∷ []) × (sorted.new.ands ≡ sorted.old.ands ++ one ∷ []) × IsBuilt sorted.old.numbering.names.items line one) }
{
    let line = lines[place as usize];
    number_line(top, sorted, line)?;
    let woken = users[(line.lhs / 2) as usize].as_slice();
    wake_all(top, &sorted.numbering, lines, ready, woken)?;
    Ok(())
}

/// Numbers the inputs and then, again and again, the first line whose operands are numbered.
pub(crate) fn sort_lines(
    alloc: Global,
    top: u32,
    inputs: &[u32],
    lines: &[And],
) -> Result<Sorted, NoMemory>
    requires small { top ≤ AIG_LIMIT }
    requires few { length lines.now < 2 ^ 32 }
    requires definitions { (at literal : ℕ) → slice_get (defined_by inputs.now lines.now) at ≡ Some literal → IsDefinition top literal }
    requires once { HoldsOnce (defined_by inputs.now lines.now) }
    requires lines { AreLines top lines.now }
    ensures numbers { IfOk result (λ sorted. Numbers top sorted.numbering) }
    ensures sorted { IfOk result (λ sorted. IsSorted inputs.now lines.now sorted.numbering.names.items sorted.ands) }
    ensures stuck { IfOk result (λ sorted. (line : ℕ) → ¬ IsReadyLine sorted.numbering.names.items lines.now line) }
{
    let users = tabulate_users(alloc, top, lines)?;
    let mut sorted = Sorted {
        numbering: number_inputs(alloc, top, inputs)?,
        ands: List::new(alloc),
    };
    let mut ready = find_ready(alloc, top, &sorted.numbering, lines)?;
    while let Some(place) = ready.pop_first() {
        take_line(top, lines, &users, &mut sorted, &mut ready, place)?;
    }
    Ok(sorted)
}
