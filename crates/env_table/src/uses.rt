//! What the lines of a timing table make of the port bits.

ghost use Rattle.std.specs.Prelude.{◌≡◌, ◌++◌, ◌==◌, ◌<◌, ◌<ℤ◌, ℕ, None, Some, if◌then◌else◌, is_some, length, slice_index_or, IfOk, OnOk, IfErr};
ghost use Rattle.std.specs.List.{All, list_all, list_any};
ghost use Rattle.rsfq_ids.specs.declared.id.PortId.{PortId};
ghost use Rattle.env_table.specs.Binding.{IsCause, clocks_as, fits_direction, is_output, unless};

use crate::env::EnvLine;
use crate::fault::EnvFault;
use rsfq_ids::circuit::{PortBit, PortUse};
use rsfq_ids::id::{Id, PortId};
use rsfq_ids::list::NoMemory;
use rsfq_ids::name::Name;
use std::alloc::Global;

/// A bit that a line names as a clock, and the jitter of that line, in femtoseconds.
#[derive(Clone, Copy)]
pub(crate) struct ClockBit {
    pub(crate) port: PortId,
    pub(crate) jitter: i64,
}

pub(crate) fn copy_name(alloc: Global, name: &Name) -> Result<Name, EnvFault>
    ensures copy { IfOk result (λ copy. copy ≡ name.now) }
    ensures memory { IfErr result (λ why. why ≡ EnvFault.Memory) }
{
    Ok(Name::of(alloc, name.as_str())?)
}

/// Whether a port of this direction may be used so.
fn fits_direction(used: &PortUse, output: bool) -> bool
    ensures { result ≡ fits_direction used.now output }
{
    match used {
        PortUse::Clock => !output,
        PortUse::Arrival { low: _, high: _ } => !output,
        PortUse::Strobed(_) => output,
    }
}

/// Whether a port bit is an output.
fn is_output(ports: &[PortBit], bit: PortId) -> bool
    requires { bit < length ports.now }
    ensures { result ≡ is_output ports.now bit }
{
    ports[bit.index()].output
}

/// Whether all of the bits have the direction of a use.
pub(crate) fn all_fit(ports: &[PortBit], bits: &[PortId], used: &PortUse) -> bool
    requires { All (λ bit. bit < length ports.now) bits.now }
    ensures { result ≡ list_all (λ bit. fits_direction used.now (is_output ports.now bit)) bits.now }
{
    for bit in bits {
        if !fits_direction(used, is_output(ports, *bit)) {
            return false;
        }
    }
    true
}

/// Whether one of the bits has a use.
pub(crate) fn any_used(uses: &[Option<PortUse>], bits: &[PortId]) -> bool
    requires { All (λ bit. bit < length uses.now) bits.now }
    ensures { result ≡ list_any (λ bit. is_some (slice_index_or uses.now bit None)) bits.now }
{
    for bit in bits {
        if uses[bit.index()].is_some() {
            return true;
        }
    }
    false
}

/// Gives the bits a use.
pub(crate) fn set_uses(uses: &mut [Option<PortUse>], bits: &[PortId], used: PortUse)
    requires { All (λ bit. bit < length uses.old) bits.now }
    ensures length { length uses.new ≡ length uses.old }
    ensures uses { (place : ℕ) → place < length uses.old → slice_index_or uses.new place None ≡ (if list_any (λ bit. bit == place) bits.now then Some used else slice_index_or uses.old place None) }
{
    for bit in bits {
        uses[bit.index()] = Some(used);
    }
}

/// Adds the bits that a line names as clocks.
pub(crate) fn add_clocks(
    clocks: &mut Vec<ClockBit>,
    line: &EnvLine,
    bits: &[PortId],
) -> Result<(), NoMemory>
    ensures { OnOk result (clocks.new.items ≡ clocks.old.items ++ clocks_as line.now.used line.now.jitter bits.now) }
{
    match line.used {
        PortUse::Clock => push_clocks(clocks, line.jitter, bits),
        PortUse::Arrival { low: _, high: _ } => Ok(()),
        PortUse::Strobed(_) => Ok(()),
    }
}

fn push_clocks(clocks: &mut Vec<ClockBit>, jitter: i64, bits: &[PortId]) -> Result<(), NoMemory>
    ensures { OnOk result (clocks.new.items ≡ clocks.old.items ++ clocks_as PortUse.Clock jitter bits.now) }
{
    for bit in bits {
        clocks.push(ClockBit { port: *bit, jitter })?;
    }
    Ok(())
}
