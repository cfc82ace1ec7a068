//! ANDs in a ring.

ghost use Rattle.std.specs.Prelude.{◌≡◌, ◌<◌, ◌≤◌, ◌/◌, ◌++◌, ◌∷◌, [], ℕ, length, slice_get, slice_index, Some, IfOk, IfSome, IfNone};
ghost use Rattle.rsfq_ids.specs.declared.limits.TheConstants.{AIG_LIMIT};
ghost use Rattle.golden_aig.specs.declared.graph.And.{And};
ghost use Rattle.aiger_order.specs.Numbers.{Known, HoldsOnce, Numbers};
ghost use Rattle.aiger_order.specs.Listing.{AreLines};
ghost use Rattle.aiger_order.specs.Ready.{IsReadyLine};
ghost use Rattle.aiger_order.specs.Ring.{IsLeft, AreFed, AreDefiners, IsStep, IsChain, IsRingOfAnds};

use crate::numbering::Numbering;
use golden_aig::And;
use rsfq_ids::list::{List, NoMemory};
use std::alloc::Global;

/// The first line whose literal has no number.
pub(crate) fn find_left(top: u32, numbering: &Numbering, lines: &[And]) -> Option<usize>
    requires numbers { Numbers top numbering.now }
    requires lines { AreLines top lines.now }
    ensures some { IfSome result (IsLeft numbering.now.names.items lines.now) }
    ensures none { IfNone result ((line : ℕ) (one : And) → slice_get lines.now line ≡ Some one → Known numbering.now.names.items (one.lhs / 2)) }
{
    for (place, line) in lines.iter().enumerate() {
        if !numbering.knows(top, line.lhs) {
            return Some(place);
        }
    }
    None
}

/// The line that defines each variable, and 0 for a variable that none defines.
fn tabulate_definers(alloc: Global, top: u32, lines: &[And]) -> Result<Vec<usize>, NoMemory>
    requires small { top ≤ AIG_LIMIT }
    requires lines { AreLines top lines.now }
    ensures { IfOk result (λ definers. AreDefiners top (length lines.now) lines.now definers.items) }
{
    let mut definers = vec![in alloc; 0; top as usize + 1]?;
    for (place, line) in lines.iter().enumerate() {
        definers[(line.lhs / 2) as usize] = place;
    }
    Ok(definers)
}

/// The line that defines an operand which has no number.
fn step(top: u32, numbering: &Numbering, lines: &[And], definers: &[usize], place: usize) -> usize
    requires numbers { Numbers top numbering.now }
    requires lines { AreLines top lines.now }
    requires stuck { (line : ℕ) → ¬ IsReadyLine numbering.now.names.items lines.now line }
    requires fed { AreFed numbering.now.names.items lines.now }
    requires definers { AreDefiners top (length lines.now) lines.now definers.now }
    requires left { IsLeft numbering.now.names.items lines.now place }
    ensures left { IsLeft numbering.now.names.items lines.now result }
    ensures step { IsStep lines.now place result }
{
    let line = lines[place];
    let operand = if numbering.knows(top, line.rhs0) {
        line.rhs1
    } else {
        line.rhs0
    };
    definers[(operand / 2) as usize]
}

/// The place of a least number.
fn find_least(items: &[u32]) -> usize
    requires { 0 < length items.now }
    ensures inside { result < length items.now }
    ensures least { (at : ℕ) → at < length items.now → slice_index items.now result ≤ slice_index items.now at }
{
    let mut best = 0;
    for (place, item) in items.iter().enumerate() {
        if *item < items[best] {
            best = place;
        }
    }
    best
}

/// A ring that begins at its least literal, from a path without a literal twice whose last literal uses the one at a place.
fn turn_ring(
    alloc: Global,
    lines: &[And],
    path: &[u32],
    begin: usize,
) -> Result<List<u32>, NoMemory>
    requires inside { begin < length path.now }
    requires once { HoldsOnce path.now }
    requires closed { IsChain lines.now (path.now ++ slice_index path.now begin ∷ []) }
    ensures { IfOk result (IsRingOfAnds lines.now) }
{
    let around = &path[begin..];
    let least = find_least(around);
    let mut ring = Vec::from_slice(alloc, &around[least..])?;
    ring.extend_from_slice(&around[..least])?;
    Ok(List::of(ring))
}

/// A ring among the lines that have no number, found from one of them.
pub(crate) fn find_ring(
    alloc: Global,
    top: u32,
    numbering: &Numbering,
    lines: &[And],
    start: usize,
) -> Result<List<u32>, NoMemory>
    requires small { top ≤ AIG_LIMIT }
    requires numbers { Numbers top numbering.now }
    requires lines { AreLines top lines.now }
    requires stuck { (line : ℕ) → ¬ IsReadyLine numbering.now.names.items lines.now line }
    requires fed { AreFed numbering.now.names.items lines.now }
    requires left { IsLeft numbering.now.names.items lines.now start }
    ensures { IfOk result (IsRingOfAnds lines.now) }
{
    let definers = tabulate_definers(alloc, top, lines)?;
    let mut met = vec![in alloc; None; lines.len()]?;
    let mut path = Vec::new(alloc);
    let mut place = start;
    'walk: loop {
        if let Some(begin) = met[place] {
            return turn_ring(alloc, lines, path.as_slice(), begin);
        }
        met[place] = Some(path.len());
        path.push(lines[place].lhs)?;
        place = step(top, numbering, lines, &definers, place);
    }
}
