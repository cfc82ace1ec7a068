//! The lines of a timing table, bound to the port bits of a circuit.

ghost use Rattle.std.specs.Prelude.{◌≡◌, ◌++◌, ◌∷◌, ◌==◌, ◌<◌, ◌^◌, ℕ, ℤ, [], None, Some, if◌then◌else◌, length, map, slice_index_or, IfOk, OnOk, IfErr};
ghost use Rattle.std.specs.List.{All, list_any};
ghost use Rattle.rsfq_ids.specs.WellFormed.{IsBench};
ghost use Rattle.env_table.specs.Names.{bits_of};
ghost use Rattle.env_table.specs.Groups.{AreNamesOf};
ghost use Rattle.env_table.specs.Lines.{FitsUse, IsEnv};
ghost use Rattle.env_table.specs.Binding.{IsBoundTo, IsCause, clock_fault, clocks_as, clocks_of, env_fault, lines_fault, missing_fault, is_within, name_of, strobe_fault, uses_of};
ghost use Rattle.env_table.specs.Bound.{AreSound, line_fault_in};

use crate::bit_names::BitNames;
use crate::env::{Env, EnvLine};
use crate::fault::EnvFault;
use crate::uses::{ClockBit, add_clocks, all_fit, any_used, copy_name, set_uses};
use rsfq_ids::circuit::{Bench, Flat, PortBit, PortUse};
use rsfq_ids::id::{Id, PortId};
use rsfq_ids::list::IdVec;
use rsfq_ids::name::Name;
use std::alloc::Global;

/// What the lines so far say: the use of each port bit, in port order, and the bits that are named as clocks, in line order.
#[derive(Drop)]
struct Bound {
    uses: Vec<Option<PortUse>>,
    clocks: Vec<ClockBit>,
}

/// Makes the checks of a line that stands for these bits.
#[tactic(auto, unfolding(crate::specs::Binding::first_of))]
fn check_line(
    alloc: Global,
    ports: &[PortBit],
    uses: &[Option<PortUse>],
    line: &EnvLine,
    bits: &[PortId],
) -> Result<(), EnvFault>
    requires bits { bits.now ≡ bits_of ports.now line.now.port }
    requires there { All (λ bit. bit < length ports.now) bits.now }
    requires length { length uses.now ≡ length ports.now }
    ensures passed { OnOk result (line_fault_in ports.now uses.now line.now ≡ None) }
    ensures fault { IfErr result (IsCause (line_fault_in ports.now uses.now line.now)) }
{
    if bits.is_empty() {
        return Err(EnvFault::Unknown(copy_name(alloc, &line.port)?));
    }
    if !all_fit(ports, bits, &line.used) {
        return Err(EnvFault::Direction(copy_name(alloc, &line.port)?));
    }
    if any_used(uses, bits) {
        return Err(EnvFault::Repeated(copy_name(alloc, &line.port)?));
    }
    Ok(())
}

/// Binds a line behind those that are bound.
fn add_line(
    alloc: Global,
    names: &BitNames<'_>,
    ports: &[PortBit],
    line: &EnvLine,
    bound: &mut Bound,
) -> Result<(), EnvFault>
    requires names { AreNamesOf ports.now names.now }
    requires length { length bound.old.uses.items ≡ length ports.now }
    ensures passed { OnOk result (line_fault_in ports.now bound.old.uses.items line.now ≡ None) }
    ensures length { OnOk result (length bound.new.uses.items ≡ length bound.old.uses.items) }
    ensures uses { OnOk result ((place : ℕ) → place < length bound.old.uses.items → slice_index_or bound.new.uses.items place None ≡ (if list_any (λ bit. bit == place) (bits_of ports.now line.now.port) then Some line.now.used else slice_index_or bound.old.uses.items place None)) }
    ensures clocks { OnOk result (bound.new.clocks.items ≡ bound.old.clocks.items ++ clocks_as line.now.used line.now.jitter (bits_of ports.now line.now.port)) }
    ensures fault { IfErr result (IsCause (line_fault_in ports.now bound.old.uses.items line.now)) }
{
    let bits = names.bits_of(line.port.as_str());
    check_line(alloc, ports, &bound.uses, line, bits)?;
    add_clocks(&mut bound.clocks, line, bits)?;
    set_uses(&mut bound.uses, bits, line.used);
    Ok(())
}

fn no_uses(alloc: Global, count: usize) -> Result<Vec<Option<PortUse>>, EnvFault>
    ensures length { IfOk result (λ uses. length uses.items ≡ count) }
    ensures none { IfOk result (λ uses. (place : ℕ) → slice_index_or uses.items place None ≡ None) }
    ensures memory { IfErr result (λ why. why ≡ EnvFault.Memory) }
{
    match vec![in alloc; None; count] {
        Ok(uses) => Ok(uses),
        Err(_) => Err(EnvFault::Memory),
    }
}

/// Binds all lines, one after another.
fn bind_lines(alloc: Global, ports: &[PortBit], lines: &[EnvLine]) -> Result<Bound, EnvFault>
    requires few { length ports.now < 2 ^ 32 }
    requires times { All (λ line. FitsUse line.used line.jitter) lines.now }
    ensures passed { OnOk result (lines_fault ports.now [] lines.now ≡ None) }
    ensures uses { IfOk result (λ bound. bound.uses.items ≡ uses_of ports.now lines.now) }
    ensures clocks { IfOk result (λ bound. bound.clocks.items ≡ clocks_of ports.now lines.now) }
    ensures sound { IfOk result (λ bound. AreSound ports.now bound.uses.items bound.clocks.items) }
    ensures fault { IfErr result (IsCause (lines_fault ports.now [] lines.now)) }
{
    let names = BitNames::of(alloc, ports)?;
    let mut bound = Bound {
        uses: no_uses(alloc, ports.len())?,
        clocks: Vec::new(alloc),
    };
    for line in lines {
        add_line(alloc, &names, ports, line, &mut bound)?;
    }
    Ok(bound)
}

fn name_of(alloc: Global, ports: &[PortBit], bit: PortId) -> Result<Name, EnvFault>
    requires { bit < length ports.now }
    ensures name { IfOk result (λ name. name ≡ name_of ports.now bit) }
    ensures memory { IfErr result (λ why. why ≡ EnvFault.Memory) }
{
    copy_name(alloc, &ports[bit.index()].name)
}

/// The one bit that is named as a clock.
fn only_clock(alloc: Global, ports: &[PortBit], clocks: &[ClockBit]) -> Result<ClockBit, EnvFault>
    requires { All (λ clock. clock.port < length ports.now) clocks.now }
    ensures passed { OnOk result (clock_fault ports.now clocks.now ≡ None) }
    ensures clock { IfOk result (λ clock. clocks.now ≡ clock ∷ []) }
    ensures fault { IfErr result (IsCause (clock_fault ports.now clocks.now)) }
{
    match clocks {
        [] => Err(EnvFault::NoClock),
        [clock] => Ok(*clock),
        [first, second, ..] => Err(EnvFault::TwoClocks(
            name_of(alloc, ports, first.port)?,
            name_of(alloc, ports, second.port)?,
        )),
    }
}

/// The use of each port bit, where each has one.
fn all_uses(
    alloc: Global,
    ports: &[PortBit],
    uses: &[Option<PortUse>],
) -> Result<IdVec<PortId, PortUse>, EnvFault>
    requires few { length ports.now < 2 ^ 32 }
    requires length { length uses.now ≡ length ports.now }
    ensures passed { OnOk result (missing_fault ports.now uses.now ≡ None) }
    ensures uses { IfOk result (λ all. map Some all ≡ uses.now) }
    ensures fault { IfErr result (IsCause (missing_fault ports.now uses.now)) }
{
    let mut all = IdVec::new(alloc);
    for place in 0..ports.len() {
        match uses[place] {
            None => return Err(EnvFault::Missing(copy_name(alloc, &ports[place].name)?)),
            Some(used) => all.push(used)?,
        };
    }
    Ok(all)
}

/// Whether a strobe lies within the period.
fn is_within(period: i64, used: &Option<PortUse>) -> bool
    ensures { result ≡ is_within period used.now }
{
    match used {
        None => true,
        Some(PortUse::Clock) => true,
        Some(PortUse::Arrival { low: _, high: _ }) => true,
        Some(PortUse::Strobed(strobe)) => strobe.offset < period,
    }
}

/// Checks that each strobe lies within the period.
fn check_strobes(
    alloc: Global,
    env: &Env,
    ports: &[PortBit],
    uses: &[Option<PortUse>],
) -> Result<(), EnvFault>
    requires { length uses.now ≡ length ports.now }
    ensures passed { OnOk result (strobe_fault env.now.period ports.now uses.now ≡ None) }
    ensures fault { IfErr result (IsCause (strobe_fault env.now.period ports.now uses.now)) }
{
    for place in 0..ports.len() {
        if !is_within(env.period, &uses[place]) {
            return Err(EnvFault::StrobeOutside(copy_name(alloc, &ports[place].name)?));
        }
    }
    Ok(())
}

/// Binds the lines of a timing table to the port bits of a circuit.
///
/// An `EnvFault` comes exactly where the lines do not bind, and is the first in the order in which `EnvFault` states them; want of memory
/// alone is tied to no cause.
#[tactic(auto, unfolding(crate::specs::Binding::first_of))]
pub fn bind_env(alloc: Global, env: &Env, flat: &Flat) -> Result<Bench, EnvFault>
    requires { IsEnv env.now }
    ensures passed { OnOk result (env_fault env.now flat.now.ports ≡ None) }
    ensures bench { IfOk result (IsBoundTo env.now flat.now.ports) }
    ensures well_formed { IfOk result (IsBench flat.now) }
    ensures fault { IfErr result (IsCause (env_fault env.now flat.now.ports)) }
{
    let ports = flat.ports.as_slice();
    let bound = bind_lines(alloc, ports, env.lines.as_slice())?;
    let clock = only_clock(alloc, ports, &bound.clocks)?;
    let uses = all_uses(alloc, ports, &bound.uses)?;
    check_strobes(alloc, env, ports, &bound.uses)?;
    Ok(Bench {
        period: env.period,
        jitter: clock.jitter,
        clock: clock.port,
        uses,
    })
}
