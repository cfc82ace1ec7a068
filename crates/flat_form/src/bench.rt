//! The table and the bench of JTL wires.

ghost use Rattle.std.specs.Prelude.{◌≡◌, ◌∷◌, [], ◌<◌, ◌^◌, ◌≤ℤ◌, map, length, IfOk};
ghost use Rattle.rsfq_ids.specs.WellFormed.{IsTable, IsFlat, IsTime, IsPositiveTime};
ghost use Rattle.flat_form.specs.Table.{jtl_table};
ghost use Rattle.flat_form.specs.Form.{AreWires};
ghost use Rattle.flat_form.specs.Bench.{use_of, wire_bench_of, design_on, IsTimeable};

use crate::clock::CLOCK;
use crate::wires::Wires;
use rsfq_ids::circuit::{Bench, Flat, PortBit, PortUse, Strobe};
use rsfq_ids::id::PortId;
use rsfq_ids::list::{IdVec, List, NoMemory};
use rsfq_ids::name::Name;
use rsfq_ids::table::{CellRow, CellTable, Kind};
use std::alloc::Global;

fn one_name(alloc: Global, text: &str) -> Result<List<Name>, NoMemory>
    ensures { IfOk result (λ names. names ≡ text.now ∷ []) }
{
    let mut names = List::new(alloc);
    names.push(Name::of(alloc, text)?)?;
    Ok(names)
}

/// The table of the one kind of cell, the JTL: pin `a` to pin `q` in 2000 to 3000 fs, dead time 0. It is well formed.
pub fn wire_table(alloc: Global) -> Result<CellTable, NoMemory>
    ensures table { IfOk result (λ table. table ≡ jtl_table) }
    ensures fits { IsTable jtl_table }
{
    let mut rows = List::new(alloc);
    rows.push(CellRow {
        name: Name::of(alloc, "JTL")?,
        kind: Kind::Jtl,
        inputs: one_name(alloc, "a")?,
        clock: None,
        outputs: one_name(alloc, "q")?,
        truth: 0,
        low: 2000,
        high: 3000,
        setup: 0,
        hold: 0,
        dead: 0,
    })?;
    Ok(CellTable { rows })
}

fn use_of(low: i64, high: i64, port: &PortBit) -> PortUse
    ensures { result ≡ use_of low high port.now }
{
    if port.output {
        return PortUse::Strobed(Strobe {
            offset: 0,
            setup: 1,
            hold: 1,
        });
    }
    if port.name.as_str() == CLOCK {
        return PortUse::Clock;
    }
    PortUse::Arrival { low, high }
}

fn uses_of(
    alloc: Global,
    ports: &[PortBit],
    low: i64,
    high: i64,
) -> Result<IdVec<PortId, PortUse>, NoMemory>
    requires { length ports.now < 2 ^ 32 }
    ensures { IfOk result (λ uses. uses ≡ map (use_of low high) ports.now) }
{
    let mut uses = IdVec::new(alloc);
    for port in ports {
        uses.push(use_of(low, high, port))?;
    }
    Ok(uses)
}

fn make_bench(
    alloc: Global,
    flat: &Flat,
    clock: PortId,
    period: i64,
    low: i64,
    high: i64,
) -> Result<Bench, NoMemory>
    ensures { IfOk result (λ bench. bench ≡ wire_bench_of flat.now clock period low high) }
{
    let uses = uses_of(alloc, flat.ports.as_slice(), low, high)?;
    Ok(Bench {
        period,
        jitter: 0,
        clock,
        uses,
    })
}

/// The bench of wires: the clock with jitter 0, every other input arriving `low` to `high` fs after the tick, and every output read at a
/// strobe with offset 0, setup 1 and hold 1. The period is in femtoseconds too.
///
/// The circuit with its table and this bench is ready to be timed: well formed, of JTLs without dead time alone, the clock unread, one
/// reader to a net, the cells in order.
pub fn wire_bench(
    alloc: Global,
    flat: &Flat,
    wires: &Wires,
    period: i64,
    low: i64,
    high: i64,
) -> Result<Bench, NoMemory>
    requires flat { IsFlat jtl_table flat.now }
    requires wires { AreWires flat.now wires.now }
    requires period { IsPositiveTime period }
    requires low { IsTime low }
    requires high { IsTime high }
    requires arrivals { low ≤ℤ high }
    ensures bench { IfOk result (λ bench. bench ≡ wire_bench_of flat.now wires.now.clock period low high) }
    ensures timeable { IfOk result (λ bench. IsTimeable (design_on flat.now bench) wires.now.order) }
{
    make_bench(alloc, flat, wires.clock, period, low, high)
}
