//! The clock of a circuit, and whether it is read.

ghost use Rattle.std.specs.Prelude.{◌≡◌, ◌<◌, ◌^◌, ◌↔◌, ℕ, length, position, Option, None, IfSome, IsTrue};
ghost use Rattle.rsfq_ids.specs.WellFormed.{IsFlat};
ghost use Rattle.flat_form.specs.Table.{jtl_table};
ghost use Rattle.flat_form.specs.Form.{IsClockPort, IsRead};

use rsfq_ids::circuit::{Driver, Flat};
use rsfq_ids::id::{Id, PortId};

/// The name of the input bit that is the clock.
pub(crate) const CLOCK: &str = "clk";

/// The port of the clock, and `None` exactly where no input bit has its name.
pub(crate) fn clock_port(flat: &Flat) -> Option<PortId>
    ensures found { IfSome result (IsClockPort flat.now) }
    ensures none { result ≡ None → (port : ℕ) → ¬ IsClockPort flat.now port }
{
    for (place, port) in flat.ports.as_slice().iter().enumerate() {
        if !port.output && port.name.as_str() == CLOCK {
            return Some(PortId::of(place as u32));
        }
    }
    None
}

/// Whether a pin reads a net that the port drives.
pub(crate) fn is_read(flat: &Flat, port: PortId) -> bool
    requires { IsFlat jtl_table flat.now }
    ensures { IsTrue result ↔ IsRead flat.now port }
{
    for pin in flat.pins.as_slice() {
        if let Driver::Port(driver) = flat.nets.as_slice()[pin.net.index()] {
            if driver == port {
                return true;
            }
        }
    }
    false
}
