//! The answer to the bytes of a netlist: refused, accepted, or rejected.
ghost use Rattle.std.specs.Prelude.{◌≡◌, ◌≢◌, ◌≤◌, length, IfOk, MatchOption, Some, pos};
ghost use Rattle.rsfq_ids.specs.declared.id.NetId.{NetId};
ghost use Rattle.rsfq_ids.specs.declared.circuit.Reader.TheVariants as reader;
ghost use Rattle.rsfq_ids.specs.declared.circuit.PortUse.TheVariants as port_use;
ghost use Rattle.rsfq_ids.specs.declared.offence.RuleFault.TheVariants.{Offends};
ghost use Rattle.rsfq_ids.specs.Circuit.{IsPin};
ghost use Rattle.rsfq_ids.specs.Bench.{IsUsed};
ghost use Rattle.rsfq_ids.specs.WellFormed.{IsBench, IsFlat};
ghost use Rattle.loading.specs.declared.refusal.Refusal.TheVariants as refusals;
ghost use Rattle.report.specs.Refused.{refusal_line};
ghost use Rattle.flat_form.specs.Table.{jtl_table};
ghost use Rattle.flat_form.specs.Form.{AreWires};
ghost use Rattle.flat_form.specs.Bench.{IsTimeable, design_on};
ghost use Rattle.wire_timing.specs.Wires.{design_of};
ghost use Rattle.wire_timing.specs.Window.{IsFirstWindow, IsWindowFault};
ghost use Rattle.signoff.specs.Words.{AreTimes};
ghost use Rattle.signoff.specs.Verdict.{IsFirstDeep, timed_design, IsJudged, IsRejected, IsVerdict};
ghost use Rattle.signoff.specs.Answers.{AreShallow, IsReplied, IsAnswer};

use crate::text::{accepted_text, stages_text, window_text};
use crate::words::Times;
use flat_form::{Wires, find_wires, wire_bench, wire_table};
use loading::{Refusal, load_circuit};
use pulse_laws::laws::{order_is_free, wires_are_signed};
use report::refusal_line;
use rsfq_ids::circuit::{Bench, Flat, PortUse, Reader, Strobe};
use rsfq_ids::id::{PinId, PortId};
use rsfq_ids::list::NoMemory;
use rsfq_ids::offence::{Against, Offence, PathPick, RuleFault};
use rsfq_ids::table::CellTable;
use rsfq_outside::{Reply, Status};
use std::alloc::Global;
use wire_timing::{WireDepth, time_wires};

/// The greatest depth that an output may have.
const DEPTH_LIMIT: u64 = 1_000_000;

/// The output bit that a pin is, with its strobe.
fn output_at(flat: &Flat, bench: &Bench, pin: PinId) -> Option<(PortId, Strobe)>
    ensures { MatchOption result
        ((output : PortId) (net : NetId) (strobe : Strobe) → IsPin flat.now pin (reader.Port output) net → IsUsed bench.now output (port_use.Strobed strobe) → ⊥)
        (λ r. (net : NetId) × IsPin flat.now pin (reader.Port r.0) net × IsUsed bench.now r.0 (port_use.Strobed r.1)) }
{
    let Some(place) = flat.pins.get(pin) else {
        return None;
    };
    let Reader::Port(output) = place.reader else {
        return None;
    };
    match bench.uses.get(output) {
        Some(PortUse::Strobed(strobe)) => Some((output, *strobe)),
        _ => None,
    }
}

/// The reply where the first window offence is this pulse at this strobe.
fn show(
    alloc: Global,
    table: &CellTable,
    flat: &Flat,
    bench: &Bench,
    pin: PinId,
    pulse: &PathPick,
    number: u64,
) -> Result<Reply, NoMemory>
    requires bench { IsBench flat.now bench.now }
    requires first { IsFirstWindow (design_of table.now flat.now bench.now) pin pulse.now number }
    ensures { IfOk result (λ reply. IsRejected (design_of table.now flat.now bench.now) reply.status reply.text.items) }
{
    let Some((output, strobe)) = output_at(flat, bench, pin) else {
        unreachable!();
    };
    Ok(Reply {
        status: Status::Rejected,
        text: window_text(alloc, table, flat, bench, output, &strobe, pulse, number)?,
    })
}

/// The reply where this is the first window offence.
fn reject(
    alloc: Global,
    table: &CellTable,
    flat: &Flat,
    bench: &Bench,
    offence: &Offence,
) -> Result<Reply, NoMemory>
    requires bench { IsBench flat.now bench.now }
    requires first { IsWindowFault (design_of table.now flat.now bench.now) (Offends offence.now) }
    ensures { IfOk result (λ reply. IsRejected (design_of table.now flat.now bench.now) reply.status reply.text.items) }
{
    let Offence::Window {
        pin,
        pulse,
        against,
    } = offence
    else {
        unreachable!();
    };
    let Against::Strobe(number) = against else {
        unreachable!();
    };
    show(alloc, table, flat, bench, *pin, pulse, *number)
}

/// The bench of the wires at the times that are asked for.
fn bench_of(alloc: Global, flat: &Flat, wires: &Wires, times: Times) -> Result<Bench, NoMemory>
    requires flat { IsFlat jtl_table flat.now }
    requires wires { AreWires flat.now wires.now }
    requires times { AreTimes times }
    ensures bench { IfOk result (λ bench. bench ≡ (timed_design times flat.now wires.now.clock).bench) }
    ensures timeable { IfOk result (λ bench. IsTimeable (design_on flat.now bench) wires.now.order) }
{
    wire_bench(
        alloc,
        flat,
        wires,
        i64::from(times.period),
        i64::from(times.low),
        i64::from(times.high),
    )
}

/// The first output that is too deep.
fn find_deep(depths: &[WireDepth]) -> Option<usize>
    ensures { MatchOption result
        (AreShallow depths.now)
        (λ place. IsFirstDeep depths.now place) }
{
    for (place, found) in depths.iter().enumerate() {
        if found.depth > DEPTH_LIMIT {
            return Some(place);
        }
    }
    None
}

/// The reply where no window offence exists and these are the depths: accepted, or refused where an output is too deep.
fn accept(alloc: Global, flat: &Flat, depths: &[WireDepth]) -> Result<Reply, NoMemory>
    ensures { IfOk result (λ reply. IsReplied flat.now depths.now reply.status reply.text.items) }
{
    match find_deep(depths) {
        None => Ok(Reply {
            status: Status::Accepted,
            text: accepted_text(alloc, flat, depths)?,
        }),
        Some(place) => Ok(Reply {
            status: Status::Refused,
            text: stages_text(alloc, flat, &depths[place])?,
        }),
    }
}

/// The reply to the window rule's answer.
fn judge(
    alloc: Global,
    table: &CellTable,
    flat: &Flat,
    wires: &Wires,
    times: Times,
) -> Result<Reply, NoMemory>
    requires table { table.now ≡ jtl_table }
    requires flat { IsFlat jtl_table flat.now }
    requires wires { AreWires flat.now wires.now }
    requires times { AreTimes times }
    ensures { IfOk result (λ reply. IsJudged (timed_design times flat.now wires.now.clock) reply.status reply.text.items) }
{
    let bench = bench_of(alloc, flat, wires, times)?;
    // What the timing finds holds of every run, by these laws.
    wires_are_signed();
    order_is_free();
    match time_wires(alloc, table, flat, &bench, wires.order.as_slice()) {
        Ok(depths) => accept(alloc, flat, depths.as_slice()),
        Err(RuleFault::Offends(offence)) => reject(alloc, table, flat, &bench, &offence),
        Err(RuleFault::Memory) => Err(NoMemory),
    }
}

/// The reply to a circuit: judged where it is of the form, and else refused.
fn answer(alloc: Global, table: &CellTable, flat: &Flat, times: Times) -> Result<Reply, NoMemory>
    requires table { table.now ≡ jtl_table }
    requires flat { IsFlat jtl_table flat.now }
    requires times { AreTimes times }
    ensures { IfOk result (λ reply. IsAnswer times flat.now reply.status reply.text.items) }
{
    match find_wires(alloc, flat)? {
        Some(wires) => judge(alloc, table, flat, &wires, times),
        None => Ok(Reply {
            status: Status::Refused,
            text: Vec::from_slice(alloc, b"refused form\n")?,
        }),
    }
}

/// The reply where the netlist has no circuit.
fn refuse(alloc: Global, refusal: &Refusal) -> Result<Reply, NoMemory>
    ensures { IfOk result (λ reply. (refusal.now ≢ refusals.Memory) × (reply.status ≡ Status.Refused) × (reply.text.items ≡ refusal_line refusal.now)) }
{
    match refusal {
        Refusal::Memory => Err(NoMemory),
        _ => Ok(Reply {
            status: Status::Refused,
            text: refusal_line(alloc, refusal)?,
        }),
    }
}

/// The status and the text that are due to the bytes of a netlist: refused where they have no circuit of the form, and else accepted or
/// rejected by the window rule, or refused where an output is too deep.
///
/// # Errors
///
/// `NoMemory` where memory is wanting.
pub fn verdict(alloc: Global, netlist: &[u8], times: Times) -> Result<Reply, NoMemory>
    requires most { length netlist.now ≤ 16777216 }
    requires times { AreTimes times }
    ensures { IfOk result (λ reply. IsVerdict times netlist.now reply.status reply.text.items) }
{
    let table = wire_table(alloc)?;
    match load_circuit(alloc, netlist, &table, None) {
        Ok(flat) => answer(alloc, &table, &flat, times),
        Err(refusal) => refuse(alloc, &refusal),
    }
}
