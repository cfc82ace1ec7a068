//! The delays of two pulses that show a difference.
ghost use Rattle.std.specs.Prelude.{◌≡◌, ◌++◌, ◌≤◌, ◌-ℤ◌, pos, map, length, take, drop, IfOk, OnOk};
ghost use Rattle.std.specs.Int.{int_min};
ghost use Rattle.rsfq_ids.specs.Time.{IsWithin};
ghost use Rattle.pulse_pairs.specs.declared.meeting.Interval.{Interval};
ghost use Rattle.pulse_pairs.specs.Choice.{IsArc, AreLaneIntervals, ShareArcs, IsArcSpread, AreChosen, IsSplit, least_sum, greatest_sum, raise, lower};

use crate::meeting::Interval;
use rsfq_ids::list::{List, NoMemory};
use std::alloc::Global;

/// The sum of least delays, in fs.
fn sum_least(arcs: &[Interval]) -> i64
    requires { AreLaneIntervals arcs.now }
    ensures value { result ≡ least_sum arcs.now }
    ensures small { IsWithin (pos 0) (pos 1000000000000000) result }
{
    let mut sum = 0;
    for arc in arcs {
        sum += arc.low;
    }
    sum
}

/// The sum of greatest delays, in fs.
fn sum_greatest(arcs: &[Interval]) -> i64
    requires { AreLaneIntervals arcs.now }
    ensures value { result ≡ greatest_sum arcs.now }
    ensures small { IsWithin (pos 0) (pos 1000000000000000) result }
{
    let mut sum = 0;
    for arc in arcs {
        sum += arc.high;
    }
    sum
}

/// The least and the greatest difference of pulses of two lanes that share their first arcs, so many of them.
pub fn spread_of(x: &[Interval], y: &[Interval], shared: usize) -> Interval
    requires first { AreLaneIntervals x.now }
    requires second { AreLaneIntervals y.now }
    requires shared { ShareArcs shared x.now y.now }
    ensures { IsArcSpread shared x.now y.now result }
{
    let own = &x[shared..];
    let other = &y[shared..];
    Interval {
        low: sum_least(own) - sum_greatest(other),
        high: sum_greatest(own) - sum_least(other),
    }
}

/// By how much a delay is raised or lowered, of so much that is left.
fn part_of(arc: Interval, left: i64) -> i64
    requires arc { IsArc arc }
    requires left { IsWithin (pos 0) (pos 2000000000000000) left }
    ensures value { result ≡ int_min left (arc.high -ℤ arc.low) }
    ensures within { IsWithin (pos 0) left result }
{
    left.min(arc.high - arc.low)
}

/// Adds least delays.
fn push_least(delays: &mut Vec<i64>, arcs: &[Interval]) -> Result<(), NoMemory>
    requires { AreLaneIntervals arcs.now }
    ensures { OnOk result (delays.new.items ≡ delays.old.items ++ map (λ arc. arc.low) arcs.now) }
{
    for arc in arcs {
        delays.push(arc.low)?;
    }
    Ok(())
}

/// Adds delays raised in order by `spare` fs in all.
fn push_raised(delays: &mut Vec<i64>, arcs: &[Interval], spare: i64) -> Result<(), NoMemory>
    requires arcs { AreLaneIntervals arcs.now }
    requires spare { IsWithin (pos 0) (pos 2000000000000000) spare }
    ensures { OnOk result (delays.new.items ≡ delays.old.items ++ raise spare arcs.now) }
{
    let mut left = spare;
    for arc in arcs {
        let part = part_of(*arc, left);
        delays.push(arc.low + part)?;
        left -= part;
    }
    Ok(())
}

/// Adds delays lowered in order by `spare` fs in all.
fn push_lowered(delays: &mut Vec<i64>, arcs: &[Interval], spare: i64) -> Result<(), NoMemory>
    requires arcs { AreLaneIntervals arcs.now }
    requires spare { IsWithin (pos 0) (pos 2000000000000000) spare }
    ensures { OnOk result (delays.new.items ≡ delays.old.items ++ lower spare arcs.now) }
{
    let mut left = spare;
    for arc in arcs {
        let part = part_of(*arc, left);
        delays.push(arc.high - part)?;
        left -= part;
    }
    Ok(())
}

/// By how much all delays of a lane together can be raised behind the shared ones, in fs.
fn room_of(x: &[Interval], shared: usize) -> i64
    requires lane { AreLaneIntervals x.now }
    requires shared { shared ≤ length x.now }
    ensures value { result ≡ greatest_sum (drop shared x.now) -ℤ least_sum (drop shared x.now) }
    ensures small { IsWithin (pos 0) (pos 1000000000000000) result }
{
    let own = &x[shared..];
    sum_greatest(own) - sum_least(own)
}

/// By how much the delays of the first lane are raised and those of the second lowered for a difference, in fs.
fn split_spare(x: &[Interval], y: &[Interval], shared: usize, difference: i64) -> (i64, i64)
    requires first { AreLaneIntervals x.now }
    requires second { AreLaneIntervals y.now }
    requires shared { ShareArcs shared x.now y.now }
    requires difference { (spread : Interval) → IsArcSpread shared x.now y.now spread → IsWithin spread.low spread.high difference }
    ensures { IsSplit shared x.now y.now difference result.0 result.1 }
{
    let spread = spread_of(x, y, shared);
    let spare = difference - spread.low;
    let raised = room_of(x, shared).min(spare);
    (raised, spare - raised)
}

/// The delays of the first lane.
fn first_delays(
    alloc: Global,
    x: &[Interval],
    shared: usize,
    raised: i64,
) -> Result<Vec<i64>, NoMemory>
    requires lane { AreLaneIntervals x.now }
    requires shared { shared ≤ length x.now }
    requires raised { IsWithin (pos 0) (pos 2000000000000000) raised }
    ensures { IfOk result (λ delays. delays.items ≡ map (λ arc. arc.low) (take shared x.now) ++ raise raised (drop shared x.now)) }
{
    let mut delays = Vec::new(alloc);
    push_least(&mut delays, &x[..shared])?;
    push_raised(&mut delays, &x[shared..], raised)?;
    Ok(delays)
}

/// The delays of the second lane.
fn second_delays(
    alloc: Global,
    y: &[Interval],
    shared: usize,
    lowered: i64,
) -> Result<Vec<i64>, NoMemory>
    requires lane { AreLaneIntervals y.now }
    requires shared { shared ≤ length y.now }
    requires lowered { IsWithin (pos 0) (pos 2000000000000000) lowered }
    ensures { IfOk result (λ delays. delays.items ≡ map (λ arc. arc.low) (take shared y.now) ++ lower lowered (drop shared y.now)) }
{
    let mut delays = Vec::new(alloc);
    push_least(&mut delays, &y[..shared])?;
    push_lowered(&mut delays, &y[shared..], lowered)?;
    Ok(delays)
}

/// The delays of two pulses that show a difference, as they are printed. Linear in the lengths of the lanes.
pub fn choose_delays(
    alloc: Global,
    x: &[Interval],
    y: &[Interval],
    shared: usize,
    difference: i64,
) -> Result<(List<i64>, List<i64>), NoMemory>
    requires first { AreLaneIntervals x.now }
    requires second { AreLaneIntervals y.now }
    requires shared { ShareArcs shared x.now y.now }
    requires difference { (spread : Interval) → IsArcSpread shared x.now y.now spread → IsWithin spread.low spread.high difference }
    ensures { IfOk result (λ made. AreChosen shared x.now y.now difference made.0 made.1) }
{
    let (raised, lowered) = split_spare(x, y, shared, difference);
    let delays = first_delays(alloc, x, shared, raised)?;
    let ends = second_delays(alloc, y, shared, lowered)?;
    Ok((List::of(delays), List::of(ends)))
}
