//! Whether a circuit is of the form of JTL wires.

ghost use Rattle.std.specs.Prelude.{IfOk, IfSome, IfNone};
ghost use Rattle.rsfq_ids.specs.WellFormed.{IsFlat};
ghost use Rattle.flat_form.specs.Table.{jtl_table};
ghost use Rattle.flat_form.specs.Form.{IsOfForm, AreWires};

use crate::clock::{clock_port, is_read};
use crate::order::find_order;
use crate::readers::find_readers;
use rsfq_ids::circuit::Flat;
use rsfq_ids::id::{CellId, PortId};
use rsfq_ids::list::{List, NoMemory};
use std::alloc::Global;

/// What is found of a circuit of JTL wires.
#[derive(Debug, Drop)]
pub struct Wires {
    /// The input bit that is named `clk`.
    pub clock: PortId,
    /// Each cell once, and each after the cell that it reads from.
    pub order: List<CellId>,
}

/// The clock's port and an order of the cells of a circuit of JTL wires. Linear in the circuit.
///
/// `None` exactly where no input bit is named `clk`, a pin reads the net of that bit, two pins read one net, or JTLs form a ring.
///
/// # Errors
///
/// `NoMemory` alone, which may come of any circuit.
pub fn find_wires(alloc: Global, flat: &Flat) -> Result<Option<Wires>, NoMemory>
    requires { IsFlat jtl_table flat.now }
    ensures wires { IfOk result (λ found. IfSome found (AreWires flat.now)) }
    ensures none { IfOk result (λ found. IfNone found (¬ IsOfForm flat.now)) }
{
    let Some(clock) = clock_port(flat) else {
        return Ok(None);
    };
    if is_read(flat, clock) {
        return Ok(None);
    }
    let Some(readers) = find_readers(alloc, flat)? else {
        return Ok(None);
    };
    let Some(order) = find_order(alloc, flat, readers.as_slice())? else {
        return Ok(None);
    };
    Ok(Some(Wires { clock, order }))
}
