//! The graph of a listing.

ghost use Rattle.std.specs.Prelude.{◌≡◌, ◌<◌, ◌≤◌, ◌/◌, ℕ, length, map, slice_get, Some, IfOk, IfErr};
ghost use Rattle.rsfq_ids.specs.declared.limits.TheConstants.{AIG_LIMIT};
ghost use Rattle.std.specs.List.{All};
ghost use Rattle.golden_aig.specs.Aig.{IsAig};
ghost use Rattle.aiger_order.specs.Numbers.{Known, Numbers, file_literal};
ghost use Rattle.aiger_order.specs.Listing.{IsListing};
ghost use Rattle.aiger_order.specs.Renaming.{IsRenaming, IsOrdered, IsOrderFault};

use crate::listing::{Listing, OrderFault};
use crate::numbering::Numbering;
use crate::ring::{find_left, find_ring};
use crate::sorting::sort_lines;
use golden_aig::Aig;
use rsfq_ids::list::{List, NoMemory};
use std::alloc::Global;

/// The literals of the graph that literals of the file stand for.
fn renumber_all(
    alloc: Global,
    top: u32,
    numbering: &Numbering,
    literals: &[u32],
) -> Result<List<u32>, NoMemory>
    requires small { top ≤ AIG_LIMIT }
    requires numbers { Numbers top numbering.now }
    requires inside { (at literal : ℕ) → slice_get literals.now at ≡ Some literal → literal / 2 ≤ top }
    requires known { (at literal : ℕ) → slice_get literals.now at ≡ Some literal → Known numbering.now.names.items (literal / 2) }
    ensures same { IfOk result (λ renumbered. map (file_literal numbering.now.names.items) renumbered ≡ literals.now) }
    ensures within { IfOk result (λ renumbered. All (λ literal. literal / 2 < length numbering.now.names.items) renumbered) }
{
    let mut renumbered = List::new(alloc);
    for literal in literals {
        renumbered.push(numbering.renumbered(top, *literal))?;
    }
    Ok(renumbered)
}

/// Makes the graph of a listing: the inputs in order, and then, again and again, the first AND of the file whose operands have
/// numbers.
///
/// # Errors
///
/// `Cycle` where ANDs use each other in a ring; no graph has such a listing. `Memory` may come of any listing.
pub fn renumber(alloc: Global, listing: Listing) -> Result<Aig, OrderFault>
    requires listing { IsListing listing }
    ensures graph { IfOk result IsAig }
    ensures renaming { IfOk result (IsRenaming listing) }
    ensures order { IfOk result (IsOrdered listing) }
    ensures fault { IfErr result (IsOrderFault listing) }
{
    let top = listing.top;
    let lines = listing.ands.as_slice();
    let sorted = sort_lines(alloc, top, listing.inputs.as_slice(), lines)?;
    if let Some(place) = find_left(top, &sorted.numbering, lines) {
        let ring = find_ring(alloc, top, &sorted.numbering, lines, place)?;
        return Err(OrderFault::Cycle(ring));
    }
    let outputs = renumber_all(alloc, top, &sorted.numbering, listing.outputs.as_slice())?;
    Ok(Aig {
        inputs: listing.inputs.len() as u32,
        ands: sorted.ands,
        outputs,
        in_names: listing.in_names,
        out_names: listing.out_names,
    })
}
