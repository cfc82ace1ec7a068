//! The graph of a circuit.

ghost use Rattle.std.specs.Prelude.{◌≡◌, ◌+◌, ◌<◌, ◌≤◌, ◌↔◌, ℕ, length, option_to_list, IfSome, IfNone};
ghost use Rattle.rsfq_ids.specs.declared.id.PinId.{PinId};
ghost use Rattle.rsfq_ids.specs.declared.table.CellRow.{CellRow};
ghost use Rattle.rsfq_ids.specs.declared.circuit.Driver.TheVariants as driver;
ghost use Rattle.rsfq_ids.specs.declared.circuit.Reader.TheVariants as reader;
ghost use Rattle.rsfq_ids.specs.Circuit.{IsDrivenBy, Reads};
ghost use Rattle.rsfq_ids.specs.WellFormed.{IsRow};
ghost use Rattle.rsfq_ids.specs.Order.{IsOrder};
ghost use Rattle.net_graph.specs.Graph.{NetGraph, IsGraph, IsLeastOrder, HasNoLoop, IsRowOf, HasPin, HasOutput, IsOutputBit, IsPinOf, IsPinOfPort, IsReadBy};

use crate::rows::count_pins;
use crate::wiring::Wiring;
use rsfq_ids::circuit::Flat;
use rsfq_ids::id::{CellId, NetId, PinId, PortId};
use rsfq_ids::table::{CellRow, CellTable};
use std::marker::Model;

/// A circuit in which each net has at most one reader and no cells form a loop, with the order of its cells.
///
/// Contracts see the circuit, the table of its cells, and the order. Its calls take no memory, and time that does not grow with
/// the circuit.
#[derive(Drop)]
pub struct Graph<'f> {
    wiring: Wiring<'f>,
    order: Vec<CellId>,
}

impl<'f> Model for Graph<'f> {
    ghost use Rattle.net_graph.specs.Graph.{NetGraph};

    ghost Value = { NetGraph };

    ghost use Rattle.net_graph.specs.GraphFields.{graph_of, IsGraphOf};

    ghost view = { graph_of };

    ghost invariant = { IsGraphOf };
}

impl<'f> Graph<'f> {
    /// The graph of a wiring without loops, and this order.
    pub(crate) fn new(wiring: Wiring<'f>, order: Vec<CellId>) -> Graph<'f>
        requires no_loop { HasNoLoop wiring.flat }
        requires least { IsLeastOrder wiring.flat order.items }
        requires ordered { IsOrder wiring.flat order.items }
        ensures { result ≡ record { table = wiring.entry.table; flat = wiring.entry.flat; order = order.items } }
    {
        wiring.facts();
        Graph { wiring, order }
    }

    /// All that is known of a graph: the circuit and its table are well formed, no net has two readers, no cells form a loop, and
    /// the order is that of [`Graph::order`]. The call does nothing.
    pub fn facts(&self)
        ensures { IsGraph self.now }
    {
        let _order = &self.order;
    }

    /// The circuit that it was built from.
    pub fn flat(&self) -> &'f Flat
        ensures { result.now ≡ self.now.flat }
    {
        self.wiring.flat()
    }

    /// The cell table that it was built from.
    pub fn cells(&self) -> &'f CellTable
        ensures { result.now ≡ self.now.table }
    {
        self.wiring.table()
    }

    /// All cells, in the order in which each next one is the least that is not yet taken and whose driving cells are all taken.
    pub fn order(&self) -> &[CellId]
        ensures order { result.now ≡ self.now.order }
        ensures least { IsLeastOrder self.now.flat result.now }
    {
        self.order.as_slice()
    }

    /// The number of a pin that the cell has: its inputs are numbered from 0, and the clock of a gate comes after them.
    pub fn pin(&self, cell: CellId, pin: u8) -> PinId
        requires { HasPin self.now cell pin }
        ensures { IsPinOf self.now.flat result cell pin }
    {
        self.wiring.pin(cell, pin)
    }

    /// The net that an output of the cell drives. Outputs are numbered from 0.
    pub fn net(&self, cell: CellId, out: u8) -> NetId
        requires { HasOutput self.now cell out }
        ensures { IsDrivenBy self.now.flat result (driver.Out cell out) }
    {
        self.wiring.net(cell, out)
    }

    /// The pin of an output bit.
    pub fn port_pin(&self, port: PortId) -> PinId
        requires { IsOutputBit self.now.flat port }
        ensures { IsPinOfPort self.now.flat result port }
    {
        self.wiring.port_pin(port)
    }

    /// How many pins a cell has that read: its inputs, and the clock of a gate. At most 4.
    pub fn pin_count(&self, cell: CellId) -> u8
        requires { cell < length self.now.flat.cells }
        ensures pins { (pin : ℕ) → HasPin self.now cell pin ↔ (pin < result) }
        ensures count { (row : CellRow) → IsRowOf self.now cell row → result ≡ length row.inputs + length (option_to_list row.clock) }
        ensures few { result ≤ 4 }
    {
        count_pins(self.wiring.row(cell)) as u8
    }

    /// The net that a pin of the cell reads.
    pub fn net_read(&self, cell: CellId, pin: u8) -> NetId
        requires { HasPin self.now cell pin }
        ensures reads { Reads self.now.flat (reader.Pin cell pin) result }
        ensures inside { result < length self.now.flat.nets }
    {
        self.facts();
        self.wiring.end(self.wiring.pin(cell, pin)).net
    }

    /// The pin that reads the net, and `None` exactly where none does.
    pub fn reader(&self, net: NetId) -> Option<PinId>
        ensures some { IfSome result (IsReadBy self.now.flat net) }
        ensures none { IfNone result ((pin : PinId) → ¬ IsReadBy self.now.flat net pin) }
    {
        self.wiring.reader(net)
    }

    /// The row of the cell table that a cell is of.
    pub fn row(&self, cell: CellId) -> &'f CellRow
        requires { cell < length self.now.flat.cells }
        ensures row { IsRowOf self.now cell result.now }
        ensures fits { IsRow result.now }
    {
        self.wiring.row(cell)
    }
}
