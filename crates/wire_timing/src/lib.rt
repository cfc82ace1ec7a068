//! The window rule and the depths of circuits of JTL wires.
//!
//! Each output bit of such a circuit has one timing path: from an input bit through a chain of JTLs. The sums of its least and of its
//! greatest delays tell at once whether a pulse may come in the zone around a strobe, and if none may, after how many strobes it shows.
#![tactic(auto)]

ghost use Rattle.std.specs.Prelude.{◌≡◌, map, IfOk, IfErr};
ghost use Rattle.std.specs.List.{All};
ghost use Rattle.rsfq_ids.specs.Offence.{HasNoWindow};
ghost use Rattle.wire_timing.specs.Wires.{design_of, AreWires, IsWireDepth, outputs_of};
ghost use Rattle.wire_timing.specs.Window.{IsWindowFault};

mod pick;
mod reach;
mod window;

use crate::reach::reach_nets;
use crate::window::time_pin;
use rsfq_ids::circuit::{Bench, Flat, Reader};
use rsfq_ids::id::{CellId, Id, PinId, PortId};
use rsfq_ids::list::List;
use rsfq_ids::offence::RuleFault;
use rsfq_ids::table::CellTable;
use std::alloc::Global;

/// After how many strobes a word shows at an output bit, and from which input bit its pulses come.
#[derive(Clone, Copy, Debug, PartialEq, Eq)]
pub struct WireDepth {
    pub output: PortId,
    pub depth: u64,
    pub source: PortId,
}

/// The depth and the source of each output bit, in port order; or the first window offence.
pub fn time_wires(
    alloc: Global,
    table: &CellTable,
    flat: &Flat,
    bench: &Bench,
    order: &[CellId],
) -> Result<List<WireDepth>, RuleFault>
    requires { AreWires (design_of table.now flat.now bench.now) order.now }
    ensures no_offence { IfOk result (λ depths. HasNoWindow (design_of table.now flat.now bench.now)) }
    ensures outputs { IfOk result (λ depths. map (λ found. found.output) depths ≡ outputs_of flat.now) }
    ensures depths { IfOk result (λ depths. All (IsWireDepth (design_of table.now flat.now bench.now)) depths) }
    ensures fault { IfErr result (IsWindowFault (design_of table.now flat.now bench.now)) }
{
    let reached = reach_nets(alloc, table, flat, bench, order)?;
    let mut depths = List::new(alloc);
    for (place, pin) in flat.pins.as_slice().iter().enumerate() {
        if let Reader::Port(output) = pin.reader {
            match time_pin(
                alloc,
                table,
                flat,
                bench,
                &reached,
                PinId::of(place as u32),
                output,
                pin.net,
            ) {
                Ok(found) => depths.push(found)?,
                Err(fault) => return Err(fault),
            }
        }
    }
    Ok(depths)
}
