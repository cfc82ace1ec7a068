//! The arcs of the one path to a net, and the delays of a pulse on it.
ghost use Rattle.std.specs.Prelude.{◌≡◌, ◌<◌, ◌≤ℤ◌, ◌+ℤ◌, ◌-ℤ◌, ℤ, pos, List, length, IfOk};
ghost use Rattle.std.specs.Int.{int_min};
ghost use Rattle.std.specs.List.{AllZip};
ghost use Rattle.rsfq_ids.specs.Time.{total};
ghost use Rattle.rsfq_ids.specs.Path.{IsRoute};
ghost use Rattle.rsfq_ids.specs.Ready.{IsSetUp};
ghost use Rattle.wire_timing.specs.Wires.{design_of, HasOnlyJtls};
ghost use Rattle.wire_timing.specs.Reach.{HasBounds, Reaches, raise};

use crate::reach::{Reach, net_read, row_of};
use rsfq_ids::circuit::{Bench, Driver, Flat, PortUse};
use rsfq_ids::id::{Id, NetId};
use rsfq_ids::list::NoMemory;
use rsfq_ids::offence::PathArc;
use rsfq_ids::table::CellTable;
use std::alloc::Global;

/// The arcs of the path to a net, in order from the source. Linear in their number.
pub fn trace_arcs(
    alloc: Global,
    table: &CellTable,
    flat: &Flat,
    bench: &Bench,
    net: NetId,
    reach: Reach,
) -> Result<Vec<PathArc>, NoMemory>
    requires set_up { IsSetUp (design_of table.now flat.now bench.now) }
    requires jtls { HasOnlyJtls (design_of table.now flat.now bench.now) }
    requires reaches { Reaches (design_of table.now flat.now bench.now) net reach }
    ensures { IfOk result (λ arcs. IsRoute (design_of table.now flat.now bench.now) arcs.items net) }
{
    let mut arcs = Vec::new(alloc);
    let mut at = net;
    while let Driver::Out(cell, _) = flat.nets.as_slice()[at.index()] {
        arcs.push(PathArc::Through {
            cell,
            pin: 0,
            out: 0,
        })?;
        at = net_read(table, flat, bench, cell);
    }
    arcs.push(PathArc::Port(reach.source))?;
    arcs.reverse();
    Ok(arcs)
}

/// The least and the greatest delay of an arc from a data input or through a cell, in fs.
fn bounds_of(table: &CellTable, flat: &Flat, bench: &Bench, arc: PathArc) -> (i64, i64)
    requires set_up { IsSetUp (design_of table.now flat.now bench.now) }
    requires some { (bounds : ℤ × ℤ) × HasBounds (design_of table.now flat.now bench.now) arc bounds }
    ensures { HasBounds (design_of table.now flat.now bench.now) arc result }
{
    match arc {
        PathArc::Port(port) => match bench.uses.get(port) {
            Some(PortUse::Arrival { low, high }) => (*low, *high),
            _ => (0, 0),
        },
        PathArc::Through {
            cell,
            pin: _,
            out: _,
        } => {
            let row = row_of(table, flat, bench, cell);
            (row.low, row.high)
        }
    }
}

/// A delay raised from its least as far as it goes and needs, and what is left to raise, in fs.
fn raise_delay(low: i64, high: i64, left: i64) -> (i64, i64)
    requires low { pos 0 ≤ℤ low }
    requires order { low ≤ℤ high }
    requires high { high ≤ℤ pos 1000000000 }
    requires left { pos 0 ≤ℤ left }
    ensures delay { result.0 ≡ low +ℤ int_min left (high -ℤ low) }
    ensures left { result.1 ≡ left -ℤ int_min left (high -ℤ low) }
{
    let raised = left.min(high - low);
    (low + raised, left - raised)
}

/// The least delays of the arcs, raised in order from the source by `spare` fs in all.
pub fn raise_delays(
    alloc: Global,
    table: &CellTable,
    flat: &Flat,
    bench: &Bench,
    arcs: &[PathArc],
    spare: i64,
) -> Result<Vec<i64>, NoMemory>
    requires set_up { IsSetUp (design_of table.now flat.now bench.now) }
    requires jtls { HasOnlyJtls (design_of table.now flat.now bench.now) }
    requires natural { pos 0 ≤ℤ spare }
    requires some { (bounds : List (ℤ × ℤ)) × AllZip (HasBounds (design_of table.now flat.now bench.now)) arcs.now bounds }
    ensures { IfOk result (λ delays. (bounds : List (ℤ × ℤ)) → AllZip (HasBounds (design_of table.now flat.now bench.now)) arcs.now bounds → delays.items ≡ raise spare bounds) }
{
    let mut delays = Vec::new(alloc);
    let mut left = spare;
    for arc in arcs {
        let (low, high) = bounds_of(table, flat, bench, *arc);
        let (delay, rest) = raise_delay(low, high, left);
        delays.push(delay)?;
        left = rest;
    }
    Ok(delays)
}
