//! The two pulses that are printed of a pair.
ghost use Rattle.std.specs.Prelude.{◌≡◌, ℕ, ℤ, ◌<◌, ◌-ℤ◌, ◌*ℤ◌, length, IfOk};
ghost use Rattle.rsfq_ids.specs.declared.offence.PathPick.{PathPick};
ghost use Rattle.rsfq_ids.specs.WellFormed.{IsTime};
ghost use Rattle.rsfq_ids.specs.Ready.{IsSetUp};
ghost use Rattle.pulse_pairs.specs.Pairs.{IsSmall};
ghost use Rattle.rsfq_ids.specs.Design.{design_of};
ghost use Rattle.lane_pairs.specs.Arcs.{IsSharedAt};
ghost use Rattle.lane_pairs.specs.Pulses.{AreChosenOn, ArePair, AreShown, HaveDelays, HaveStrobeDelays, IsChosenOn, IsStrobePair, IsStrobeShown};

use crate::arcs::{count_common, intervals_of};
use pulse_pairs::{Interval, Meeting, choose_delays, print_numbers, spreads_are_exact};
use rsfq_ids::circuit::{Bench, Flat, Strobe};
use rsfq_ids::id::PinId;
use rsfq_ids::list::{List, NoMemory};
use rsfq_ids::offence::{PathArc, PathPick};
use rsfq_ids::table::CellTable;
use std::alloc::Global;

/// The arcs once more.
fn copy_arcs(alloc: Global, arcs: &[PathArc]) -> Result<List<PathArc>, NoMemory>
    ensures { IfOk result (λ copy. copy ≡ arcs.now) }
{
    let copy = arcs.iter().copied().collect(alloc)?;
    Ok(List::of(copy))
}

/// The delays that are printed of two pulses whose difference is this, less the periods between their numbers, in fs.
fn delays_of(
    alloc: Global,
    table: &CellTable,
    flat: &Flat,
    bench: &Bench,
    x: &[PathArc],
    y: &[PathArc],
    shared: usize,
    difference: i64,
) -> Result<(List<i64>, List<i64>), NoMemory>
    requires set_up { IsSetUp (design_of table.now flat.now bench.now) }
    requires first { length x.now < 1000000 }
    requires second { length y.now < 1000000 }
    requires delays { HaveDelays (design_of table.now flat.now bench.now) shared x.now y.now difference }
    ensures { IfOk result (λ made. AreChosenOn (design_of table.now flat.now bench.now) shared x.now y.now difference made.0 made.1) }
{
    let own = intervals_of(alloc, table, flat, bench, x)?;
    let others = intervals_of(alloc, table, flat, bench, y)?;
    spreads_are_exact();
    let (delays, ends) = choose_delays(alloc, &own, &others, shared, difference)?;
    Ok((delays, ends))
}

/// How many arcs two pulses share that are so many numbers apart.
fn count_shared(x: &[PathArc], y: &[PathArc], apart: i64) -> usize
    ensures { IsSharedAt apart x.now y.now result }
{
    if apart == 0 { count_common(x, y) } else { 0 }
}

/// The difference of two pulses, less the periods between their numbers, in fs.
fn own_difference(bench: &Bench, apart: i64, difference: i64) -> i64
    requires turned { IsSmall 4 (apart *ℤ bench.now.period) }
    requires difference { IsSmall 4 difference }
    ensures { result ≡ difference -ℤ (apart *ℤ bench.now.period) }
{
    difference - apart * bench.period
}

/// The two pulses that are printed of two lanes which have pulses so far apart. Linear in the lengths of the lanes.
pub fn show_pair(
    alloc: Global,
    table: &CellTable,
    flat: &Flat,
    bench: &Bench,
    x: &[PathArc],
    at: PinId,
    y: &[PathArc],
    to: PinId,
    meeting: Meeting,
) -> Result<(PathPick, PathPick), NoMemory>
    requires set_up { IsSetUp (design_of table.now flat.now bench.now) }
    requires first { length x.now < 1000000 }
    requires second { length y.now < 1000000 }
    requires few { IsSmall 4 meeting.apart }
    requires turned { IsSmall 4 (meeting.apart *ℤ bench.now.period) }
    requires difference { IsSmall 4 meeting.difference }
    requires pair { (first : PathPick) × (second : PathPick) × ArePair (design_of table.now flat.now bench.now) x.now at y.now to meeting.apart meeting.difference first second }
    ensures { IfOk result (λ made. AreShown (design_of table.now flat.now bench.now) x.now at y.now to meeting.apart meeting.difference made.0 made.1) }
{
    let shared = count_shared(x, y, meeting.apart);
    let difference = own_difference(bench, meeting.apart, meeting.difference);
    let (delays, ends) = delays_of(alloc, table, flat, bench, x, y, shared, difference)?;
    let (number, other) = print_numbers(meeting.apart);
    let first = PathPick {
        arcs: copy_arcs(alloc, x)?,
        delays,
        number,
        ends: at,
    };
    let second = PathPick {
        arcs: copy_arcs(alloc, y)?,
        delays: ends,
        number: other,
        ends: to,
    };
    Ok((first, second))
}

/// The delays that are printed of a pulse that is so much later than a strobe, less the periods between their numbers, in fs.
fn strobe_delays(
    alloc: Global,
    table: &CellTable,
    flat: &Flat,
    bench: &Bench,
    x: &[PathArc],
    strobe: Strobe,
    difference: i64,
) -> Result<List<i64>, NoMemory>
    requires set_up { IsSetUp (design_of table.now flat.now bench.now) }
    requires few { length x.now < 1000000 }
    requires offset { IsTime strobe.offset }
    requires delays { HaveStrobeDelays (design_of table.now flat.now bench.now) x.now strobe difference }
    ensures { IfOk result (λ made. IsChosenOn (design_of table.now flat.now bench.now) x.now strobe difference made) }
{
    let own = intervals_of(alloc, table, flat, bench, x)?;
    let fixed = [Interval {
        low: strobe.offset,
        high: strobe.offset,
    }];
    spreads_are_exact();
    let (delays, _) = choose_delays(alloc, &own, &fixed, 0, difference)?;
    Ok(delays)
}

/// The pulse and the strobe that are printed of an output's lane which has pulses so far from a strobe. Linear in the length of the lane.
pub fn show_strobe(
    alloc: Global,
    table: &CellTable,
    flat: &Flat,
    bench: &Bench,
    x: &[PathArc],
    at: PinId,
    strobe: Strobe,
    meeting: Meeting,
) -> Result<(PathPick, u64), NoMemory>
    requires set_up { IsSetUp (design_of table.now flat.now bench.now) }
    requires first { length x.now < 1000000 }
    requires offset { IsTime strobe.offset }
    requires few { IsSmall 4 meeting.apart }
    requires turned { IsSmall 4 (meeting.apart *ℤ bench.now.period) }
    requires difference { IsSmall 4 meeting.difference }
    requires pair { (pulse : PathPick) × (number : ℕ) × IsStrobePair (design_of table.now flat.now bench.now) x.now at strobe meeting.apart meeting.difference pulse number }
    ensures { IfOk result (λ made. IsStrobeShown (design_of table.now flat.now bench.now) x.now at strobe meeting.apart meeting.difference made.0 made.1) }
{
    let difference = own_difference(bench, meeting.apart, meeting.difference);
    let delays = strobe_delays(alloc, table, flat, bench, x, strobe, difference)?;
    let (number, other) = print_numbers(meeting.apart);
    let pulse = PathPick {
        arcs: copy_arcs(alloc, x)?,
        delays,
        number,
        ends: at,
    };
    Ok((pulse, other))
}
