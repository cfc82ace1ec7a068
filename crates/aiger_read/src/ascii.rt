//! A whole ASCII file.

ghost use Rattle.std.specs.Prelude.{◌<◌, ◌^◌, length, IfOk, IfErr};
ghost use Rattle.golden_aig.specs.Aig.{IsAig};
ghost use Rattle.aiger_order.specs.Listing.{IsListing};
ghost use Rattle.aiger_order.specs.Renaming.{IsRenaming, IsOrdered};
ghost use Rattle.aiger_read.specs.Text.{listing_of, ListsAs, ListsInOrder, IsOrderRefusal, IsAsciiFault};

use crate::text::{Text, make_listing, take_text};
use aiger_order::{OrderFault, renumber};
use aiger_parts::{AigerFault, AigerWhy, ReadStop, Stop, fault_of};
use golden_aig::Aig;
use std::alloc::Global;

/// The graph that a text lists.
fn order_text(alloc: Global, count: usize, text: Text) -> Result<Aig, AigerFault>
    requires count { count < 2 ^ 32 }
    requires listing { IsListing (listing_of text) }
    ensures graph { IfOk result IsAig }
    ensures renaming { IfOk result (IsRenaming (listing_of text)) }
    ensures order { IfOk result (IsOrdered (listing_of text)) }
    ensures fault { IfErr result (IsOrderRefusal count text) }
{
    let left = text.left;
    let Ok(listing) = make_listing(alloc, text) else {
        return Err(fault_of(count, ReadStop::Memory));
    };
    match renumber(alloc, listing) {
        Ok(aig) => Ok(aig),
        Err(OrderFault::Memory) => Err(fault_of(count, ReadStop::Memory)),
        Err(OrderFault::Cycle(ring)) => {
            let why = AigerWhy::Cycle(ring);
            Err(fault_of(count, ReadStop::At(Stop { left, why })))
        }
    }
}

/// Reads an ASCII AIGER file of less than 2^32 bytes, with its symbols. The variables are numbered anew: the inputs in order, and
/// then, again and again, the first AND of the file whose operands have numbers.
///
/// # Errors
///
/// As for [`crate::read_aiger`].
pub(crate) fn read_ascii(alloc: Global, bytes: &[u8]) -> Result<Aig, AigerFault>
    requires { length bytes.now < 2 ^ 32 }
    ensures lists { IfOk result (ListsAs bytes.now) }
    ensures order { IfOk result (ListsInOrder bytes.now) }
    ensures graph { IfOk result IsAig }
    ensures fault { IfErr result (IsAsciiFault bytes.now) }
{
    match take_text(alloc, bytes) {
        Ok(text) => order_text(alloc, bytes.len(), text),
        Err(stop) => Err(fault_of(bytes.len(), stop)),
    }
}
