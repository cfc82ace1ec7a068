//! A circuit whose nets have one reader each, with tables by which pins, nets and readers are found.

ghost use Rattle.std.specs.Prelude.{◌≡◌, ◌<◌, length, slice_get, Some, IfOk, IfErr, IfSome, IfNone};
ghost use Rattle.rsfq_ids.specs.declared.id.CellId.{CellId};
ghost use Rattle.rsfq_ids.specs.declared.id.PinId.{PinId};
ghost use Rattle.rsfq_ids.specs.declared.circuit.Driver.TheVariants as driver;
ghost use Rattle.rsfq_ids.specs.Circuit.{IsDrivenBy};
ghost use Rattle.rsfq_ids.specs.WellFormed.{IsTable, IsFlat, IsRow};
ghost use Rattle.net_graph.specs.Graph.{IsRowIn, HasPinIn, HasOutputIn, IsOutputBit, IsPinOf, IsPinOfPort, IsReadBy};
ghost use Rattle.net_graph.specs.Wiring.{IsWiring, IsFanoutFault, Feeds, FeedsFrom};

use crate::ends::cell_of;
use crate::readers::find_readers;
use crate::rows::row_of;
use crate::starts::{Starts, find_port_pins, find_starts};
use rsfq_ids::circuit::{Driver, Flat, Pin, Reader};
use rsfq_ids::id::{CellId, Id, NetId, PinId, PortId};
use rsfq_ids::list::List;
use rsfq_ids::offence::RuleFault;
use rsfq_ids::table::{CellRow, CellTable};
use std::alloc::Global;
use std::marker::Model;

/// A circuit over its table. Contracts see the two.
#[derive(Drop)]
pub(crate) struct Wiring<'f> {
    flat: &'f Flat,
    table: &'f CellTable,
    /// For each cell its first pin.
    pins: Vec<usize>,
    /// For each cell its first net.
    nets: Vec<usize>,
    /// For each port bit how many pins stand before its own.
    ports: Vec<usize>,
    /// For each net its one reader.
    readers: List<Option<PinId>>,
}

impl<'f> Model for Wiring<'f> {
    ghost use Rattle.net_graph.specs.Wiring.{Wired};

    ghost Value = { Wired };

    ghost use Rattle.net_graph.specs.Fields.{wired_of, IsWiredBy};

    ghost view = { wired_of };

    ghost invariant = { IsWiredBy };
}

impl<'f> Wiring<'f> {
    /// The wiring of a circuit; or its first net with two readers.
    pub(crate) fn new(
        alloc: Global,
        flat: &'f Flat,
        table: &'f CellTable,
    ) -> Result<Wiring<'f>, RuleFault>
        requires table { IsTable table.now }
        requires flat { IsFlat table.now flat.now }
        ensures wired { IfOk result (λ wiring. wiring ≡ record { table = table.entry.now; flat = flat.entry.now }) }
        ensures fault { IfErr result (IsFanoutFault flat.entry.now) }
    {
        let readers = find_readers(alloc, flat, table)?;
        let Starts {
            pins,
            nets,
            all_pins,
        } = find_starts(alloc, flat, table)?;
        let ports = find_port_pins(alloc, flat, all_pins)?;
        Ok(Wiring {
            flat,
            table,
            pins,
            nets,
            ports,
            readers,
        })
    }

    /// What is known of it. The call does nothing.
    pub(crate) fn facts(&self)
        ensures { IsWiring self.now }
    {
        let _flat = self.flat;
    }

    pub(crate) fn flat(&self) -> &'f Flat
        ensures { result.now ≡ self.now.flat }
    {
        self.flat
    }

    pub(crate) fn table(&self) -> &'f CellTable
        ensures { result.now ≡ self.now.table }
    {
        self.table
    }

    /// The row of a cell.
    pub(crate) fn row(&self, cell: CellId) -> &'f CellRow
        requires { cell < length self.now.flat.cells }
        ensures row { IsRowIn self.now.table self.now.flat cell result.now }
        ensures fits { IsRow result.now }
    {
        row_of(self.flat, self.table, cell)
    }

    /// The number of a pin that a cell has.
    pub(crate) fn pin(&self, cell: CellId, pin: u8) -> PinId
        requires { HasPinIn self.now.table self.now.flat cell pin }
        ensures { IsPinOf self.now.flat result cell pin }
    {
        let _ends = self.flat.pins.len();
        PinId::of((self.pins[cell.index()] + pin as usize) as u32)
    }

    /// The net that an output of a cell drives.
    pub(crate) fn net(&self, cell: CellId, out: u8) -> NetId
        requires { HasOutputIn self.now.table self.now.flat cell out }
        ensures { IsDrivenBy self.now.flat result (driver.Out cell out) }
    {
        let _drivers = self.flat.nets.len();
        NetId::of((self.nets[cell.index()] + out as usize) as u32)
    }

    /// The pin of an output bit.
    pub(crate) fn port_pin(&self, port: PortId) -> PinId
        requires { IsOutputBit self.now.flat port }
        ensures { IsPinOfPort self.now.flat result port }
    {
        let _ends = self.flat.pins.len();
        PinId::of(self.ports[port.index()] as u32)
    }

    /// The pin that reads a net, and `None` exactly where none does.
    pub(crate) fn reader(&self, net: NetId) -> Option<PinId>
        ensures some { IfSome result (IsReadBy self.now.flat net) }
        ensures none { IfNone result ((pin : PinId) → ¬ IsReadBy self.now.flat net pin) }
    {
        match self.readers.get(net.index()) {
            Some(reader) => *reader,
            None => None,
        }
    }

    /// What stands at a place that reads.
    pub(crate) fn end(&self, place: PinId) -> Pin
        requires { place < length self.now.flat.pins }
        ensures { slice_get self.now.flat.pins place ≡ Some result }
    {
        *self.flat.pins.get(place).unwrap()
    }

    /// What drives a net.
    pub(crate) fn driver(&self, net: NetId) -> Driver
        requires { net < length self.now.flat.nets }
        ensures { IsDrivenBy self.now.flat net result }
    {
        *self.flat.nets.get(net).unwrap()
    }

    /// The cell that drives the net that a pin reads, if a cell does.
    pub(crate) fn cell_before(&self, cell: CellId, pin: u8) -> Option<CellId>
        requires { HasPinIn self.now.table self.now.flat cell pin }
        ensures some { IfSome result (λ before. Feeds self.now.flat before cell pin) }
        ensures inside { IfSome result (λ before. before < length self.now.flat.cells) }
        ensures all { (before : CellId) → Feeds self.now.flat before cell pin → result ≡ Some before }
    {
        self.facts();
        let end = self.end(self.pin(cell, pin));
        match self.driver(end.net) {
            Driver::Port(_) => None,
            Driver::Out(before, _) => Some(before),
        }
    }

    /// The cell that reads what an output drives, if a cell does.
    pub(crate) fn cell_after(&self, cell: CellId, out: u8) -> Option<CellId>
        requires { HasOutputIn self.now.table self.now.flat cell out }
        ensures some { IfSome result (λ after. FeedsFrom self.now.flat cell out after) }
        ensures inside { IfSome result (λ after. after < length self.now.flat.cells) }
        ensures all { (after : CellId) → FeedsFrom self.now.flat cell out after → result ≡ Some after }
    {
        self.facts();
        match self.reader(self.net(cell, out)) {
            None => None,
            Some(place) => cell_of(self.end(place).reader),
        }
    }
}
