//! The lines that can be numbered next.

ghost use Rattle.std.specs.Prelude.{◌≡◌, ◌<◌, ◌^◌, true, false, ℕ, length, slice_get, Some, IfOk, OnOk};
ghost use Rattle.aiger_order.specs.Numbers.{Numbers};
ghost use Rattle.aiger_order.specs.Ready.{AreBelow, IsReadyLine, Has, OnlyReady};

use crate::numbering::Numbering;
use golden_aig::And;
use rsfq_ids::list::NoMemory;
use std::alloc::Global;
use std::collections::BTreeSet;

/// Whether a line has no number yet, but its operands have.
fn is_ready(top: u32, numbering: &Numbering, lines: &[And], place: u32) -> bool
    requires numbers { Numbers top numbering.now }
    requires below { AreBelow top lines.now }
    requires inside { place < length lines.now }
    ensures yes { result ≡ true → IsReadyLine numbering.now.names.items lines.now place }
    ensures no { result ≡ false → ¬ IsReadyLine numbering.now.names.items lines.now place }
{
    let line = lines[place as usize];
    !numbering.knows(top, line.lhs)
        && numbering.knows(top, line.rhs0)
        && numbering.knows(top, line.rhs1)
}

/// Puts a line in if it is ready.
fn wake(
    top: u32,
    numbering: &Numbering,
    lines: &[And],
    ready: &mut BTreeSet<u32>,
    place: u32,
) -> Result<(), NoMemory>
    requires numbers { Numbers top numbering.now }
    requires below { AreBelow top lines.now }
    requires inside { place < length lines.now }
    requires only { OnlyReady numbering.now.names.items lines.now ready.old }
    ensures only { OnOk result (OnlyReady numbering.now.names.items lines.now ready.new) }
    ensures kept { OnOk result ((line : ℕ) → Has ready.old line → Has ready.new line) }
    ensures put { OnOk result (IsReadyLine numbering.now.names.items lines.now place → Has ready.new place) }
{
    if is_ready(top, numbering, lines, place) {
        ready.insert(place)?;
    }
    Ok(())
}

/// Puts in those of some lines that are ready.
pub(crate) fn wake_all(
    top: u32,
    numbering: &Numbering,
    lines: &[And],
    ready: &mut BTreeSet<u32>,
    places: &[u32],
) -> Result<(), NoMemory>
    requires numbers { Numbers top numbering.now }
    requires below { AreBelow top lines.now }
    requires inside { (at place : ℕ) → slice_get places.now at ≡ Some place → place < length lines.now }
    requires only { OnlyReady numbering.now.names.items lines.now ready.old }
    ensures only { OnOk result (OnlyReady numbering.now.names.items lines.now ready.new) }
    ensures kept { OnOk result ((line : ℕ) → Has ready.old line → Has ready.new line) }
    ensures put { OnOk result ((at place : ℕ) → slice_get places.now at ≡ Some place → IsReadyLine numbering.now.names.items lines.now place → Has ready.new place) }
{
    for place in places {
        wake(top, numbering, lines, ready, *place)?;
    }
    Ok(())
}

/// All lines that are ready.
pub(crate) fn find_ready(
    alloc: Global,
    top: u32,
    numbering: &Numbering,
    lines: &[And],
) -> Result<BTreeSet<u32>, NoMemory>
    requires numbers { Numbers top numbering.now }
    requires below { AreBelow top lines.now }
    requires few { length lines.now < 2 ^ 32 }
    ensures only { IfOk result (OnlyReady numbering.now.names.items lines.now) }
    ensures all { IfOk result (λ ready. (line : ℕ) → IsReadyLine numbering.now.names.items lines.now line → Has ready line) }
{
    let mut ready = BTreeSet::new(alloc);
    for place in 0..lines.len() as u32 {
        wake(top, numbering, lines, &mut ready, place)?;
    }
    Ok(ready)
}
