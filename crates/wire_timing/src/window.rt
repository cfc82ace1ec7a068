//! An output's strobes, held against the pulses of its one path.
ghost use Rattle.std.specs.Prelude.{◌≡◌, ◌⊎◌, ℕ, suc, ◌+◌, ◌≤ℤ◌, ◌<ℤ◌, ◌+ℤ◌, ◌*ℤ◌, ◌-ℤ◌, pos, negsuc, ◌<◌, length, slice_index_or, IfOk, IfErr, OnOk};
ghost use Rattle.rsfq_ids.specs.declared.circuit.Strobe.{Strobe};
ghost use Rattle.rsfq_ids.specs.declared.circuit.PortUse.TheVariants as port_use;
ghost use Rattle.rsfq_ids.specs.declared.circuit.Reader.TheVariants as reader;
ghost use Rattle.rsfq_ids.specs.Time.{IsWithin};
ghost use Rattle.rsfq_ids.specs.WellFormed.{IsPositiveTime};
ghost use Rattle.rsfq_ids.specs.Circuit.{IsPin};
ghost use Rattle.rsfq_ids.specs.Bench.{IsUsed};
ghost use Rattle.rsfq_ids.specs.Ready.{IsSetUp};
ghost use Rattle.wire_timing.specs.declared.reach.Reach.{Reach};
ghost use Rattle.wire_timing.specs.Wires.{design_of, HasOnlyJtls, IsWireDepth};
ghost use Rattle.wire_timing.specs.Window.{HasNoWindowAt, IsPinFault};
ghost use Rattle.wire_timing.specs.Reach.{AreReached, IsStrobedPin, Reaches, IsSmall, IsStepCount, IsSpare, IsTimely, IsRaisedPath};

use crate::WireDepth;
use crate::pick::{raise_delays, trace_arcs};
use crate::reach::Reach;
use rsfq_ids::circuit::{Bench, Flat, PortUse, Strobe};
use rsfq_ids::id::{Id, NetId, PinId, PortId};
use rsfq_ids::list::{List, NoMemory};
use rsfq_ids::offence::{Against, Offence, PathArc, PathPick, RuleFault};
use rsfq_ids::table::CellTable;
use std::alloc::Global;

/// How many whole periods are in a time in fs.
fn whole_periods(time: i64, period: i64) -> u64
    requires period { IsPositiveTime period }
    requires time { IsWithin (pos 0) (pos 1000000000000000) time }
    ensures from { (pos result *ℤ period) ≤ℤ time }
    ensures below { time <ℤ ((pos result *ℤ period) +ℤ period) }
{
    time as u64 / period as u64
}

/// One period and one fs less than the setup after the time that a pulse comes behind a strobe of its own number.
fn shift_pulse(period: i64, strobe: Strobe, high: i64) -> i64
    requires { IsTimely period strobe high }
    ensures { result ≡ (((high -ℤ strobe.offset) +ℤ strobe.setup) -ℤ pos 1) +ℤ period }
{
    high - strobe.offset + strobe.setup - 1 + period
}

/// The number of the first strobe that a pulse of number 0 with the greatest delays, in fs, is neither in the zone of nor behind.
fn count_steps(period: i64, strobe: Strobe, high: i64) -> u64
    requires { IsTimely period strobe high }
    ensures { IsStepCount period strobe high result }
{
    whole_periods(shift_pulse(period, strobe, high), period)
}

/// So many periods, in fs.
fn span_periods(steps: u64, period: i64) -> i64
    requires period { IsPositiveTime period }
    requires small { (pos steps *ℤ period) ≤ℤ pos 1000000000000000 }
    ensures { result ≡ pos steps *ℤ period }
{
    steps as i64 * period
}

/// From which sum of delays on, in fs, a pulse is in the zone of a strobe or behind it; one strobe more lies `turned` fs of whole periods
/// behind the pulse.
fn begin_zone(period: i64, strobe: Strobe, turned: i64) -> i64
    requires timely { IsTimely period strobe (pos 0) }
    requires turned { IsWithin (pos 0) (pos 1000000000000000) turned }
    ensures { result ≡ (((strobe.offset +ℤ turned) -ℤ period) -ℤ strobe.setup) +ℤ pos 1 }
{
    strobe.offset + turned - period - strobe.setup + 1
}

/// Up to which sum of delays, in fs, a pulse comes before the end of the same zone.
fn end_zone(period: i64, strobe: Strobe, turned: i64) -> i64
    requires timely { IsTimely period strobe (pos 0) }
    requires turned { IsWithin (pos 0) (pos 1000000000000000) turned }
    ensures { result ≡ ((strobe.offset +ℤ strobe.hold) +ℤ turned) -ℤ period }
{
    strobe.offset + strobe.hold + turned - period
}

/// By how many fs delays of the sum `low` have to be raised to reach `begins`.
fn count_spare(begins: i64, low: i64) -> i64
    requires begins { IsWithin (negsuc 2000000000) (pos 1000001000000000) begins }
    requires low { IsWithin (pos 0) (pos 1000000000000000) low }
    ensures { IsSpare begins low result }
{
    if begins < low { 0 } else { begins - low }
}

/// A pulse and a strobe so many numbers apart that one strobe more lies `steps` behind the pulse; one of the two is 0.
fn place_apart(steps: u64) -> (u64, u64)
    ensures apart { result.0 + steps ≡ suc result.1 }
    ensures zero { (result.0 ≡ 0) ⊎ (result.1 ≡ 0) }
{
    if steps == 0 { (1, 0) } else { (0, steps - 1) }
}

/// The path to a net, with its least delays raised in order by `spare` fs.
fn raise_path(
    alloc: Global,
    table: &CellTable,
    flat: &Flat,
    bench: &Bench,
    net: NetId,
    reach: Reach,
    spare: i64,
) -> Result<(List<PathArc>, List<i64>), NoMemory>
    requires set_up { IsSetUp (design_of table.now flat.now bench.now) }
    requires jtls { HasOnlyJtls (design_of table.now flat.now bench.now) }
    requires reaches { Reaches (design_of table.now flat.now bench.now) net reach }
    requires natural { pos 0 ≤ℤ spare }
    ensures { IfOk result (λ made. IsRaisedPath (design_of table.now flat.now bench.now) net spare made.0 made.1) }
{
    let arcs = trace_arcs(alloc, table, flat, bench, net, reach)?;
    let delays = raise_delays(alloc, table, flat, bench, &arcs, spare)?;
    Ok((List::of(arcs), List::of(delays)))
}

/// The window offence of an output whose path has one.
fn show_window(
    alloc: Global,
    table: &CellTable,
    flat: &Flat,
    bench: &Bench,
    pin: PinId,
    strobe: Strobe,
    net: NetId,
    reach: Reach,
    steps: u64,
    turned: i64,
) -> RuleFault
    requires set_up { IsSetUp (design_of table.now flat.now bench.now) }
    requires jtls { HasOnlyJtls (design_of table.now flat.now bench.now) }
    requires output { IsStrobedPin (design_of table.now flat.now bench.now) pin strobe net }
    requires reaches { Reaches (design_of table.now flat.now bench.now) net reach }
    requires small { IsSmall 100001 reach }
    requires steps { IsStepCount bench.now.period strobe reach.high steps }
    requires turned { turned ≡ pos steps *ℤ bench.now.period }
    requires offends { (reach.low +ℤ bench.now.period) <ℤ (strobe.offset +ℤ strobe.hold +ℤ turned) }
    ensures { IsPinFault (design_of table.now flat.now bench.now) pin result }
{
    let begins = begin_zone(bench.period, strobe, turned);
    let spare = count_spare(begins, reach.low);
    match raise_path(alloc, table, flat, bench, net, reach, spare) {
        Ok((arcs, delays)) => {
            let (number, strobe_number) = place_apart(steps);
            RuleFault::Offends(Offence::Window {
                pin,
                pulse: PathPick {
                    arcs,
                    delays,
                    number,
                    ends: pin,
                },
                against: Against::Strobe(strobe_number),
            })
        }
        Err(NoMemory) => RuleFault::Memory,
    }
}

/// The depth of an output, or its first window offence.
pub fn time_output(
    alloc: Global,
    table: &CellTable,
    flat: &Flat,
    bench: &Bench,
    pin: PinId,
    output: PortId,
    strobe: Strobe,
    net: NetId,
    reach: Reach,
) -> Result<WireDepth, RuleFault>
    requires set_up { IsSetUp (design_of table.now flat.now bench.now) }
    requires jtls { HasOnlyJtls (design_of table.now flat.now bench.now) }
    requires pin { IsPin flat.now pin (reader.Port output) net }
    requires used { IsUsed bench.now output (port_use.Strobed strobe) }
    requires reaches { Reaches (design_of table.now flat.now bench.now) net reach }
    requires small { IsSmall 100001 reach }
    ensures no_offence { OnOk result (HasNoWindowAt (design_of table.now flat.now bench.now) pin) }
    ensures output { IfOk result (λ found. found.output ≡ output) }
    ensures depth { IfOk result (IsWireDepth (design_of table.now flat.now bench.now)) }
    ensures fault { IfErr result (IsPinFault (design_of table.now flat.now bench.now) pin) }
{
    let steps = count_steps(bench.period, strobe, reach.high);
    let turned = span_periods(steps, bench.period);
    let ends = end_zone(bench.period, strobe, turned);
    if reach.low < ends {
        Err(show_window(
            alloc, table, flat, bench, pin, strobe, net, reach, steps, turned,
        ))
    } else {
        Ok(WireDepth {
            output,
            depth: steps,
            source: reach.source,
        })
    }
}

/// The strobe of an output bit.
fn strobe_of(bench: &Bench, output: PortId) -> Strobe
    requires { (strobe : Strobe) × IsUsed bench.now output (port_use.Strobed strobe) }
    ensures { IsUsed bench.now output (port_use.Strobed result) }
{
    match bench.uses.get(output) {
        Some(PortUse::Strobed(strobe)) => *strobe,
        _ => unreachable!(),
    }
}

/// What is kept of a net that has been reached.
fn reach_of(reached: &[Option<Reach>], net: NetId) -> Reach
    requires within { net < length reached.now }
    requires some { (reach : Reach) × (slice_index_or reached.now net None ≡ Some reach) }
    ensures { slice_index_or reached.now net None ≡ Some result }
{
    match reached[net.index()] {
        Some(reach) => reach,
        None => unreachable!(),
    }
}

/// The depth of the output at a pin, or its first window offence.
pub fn time_pin(
    alloc: Global,
    table: &CellTable,
    flat: &Flat,
    bench: &Bench,
    reached: &[Option<Reach>],
    pin: PinId,
    output: PortId,
    net: NetId,
) -> Result<WireDepth, RuleFault>
    requires set_up { IsSetUp (design_of table.now flat.now bench.now) }
    requires jtls { HasOnlyJtls (design_of table.now flat.now bench.now) }
    requires pin { IsPin flat.now pin (reader.Port output) net }
    requires reached { AreReached (design_of table.now flat.now bench.now) reached.now }
    ensures no_offence { OnOk result (HasNoWindowAt (design_of table.now flat.now bench.now) pin) }
    ensures output { IfOk result (λ found. found.output ≡ output) }
    ensures depth { IfOk result (IsWireDepth (design_of table.now flat.now bench.now)) }
    ensures fault { IfErr result (IsPinFault (design_of table.now flat.now bench.now) pin) }
{
    let strobe = strobe_of(bench, output);
    let reach = reach_of(reached, net);
    time_output(alloc, table, flat, bench, pin, output, strobe, net, reach)
}
