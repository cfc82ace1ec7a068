//! A circuit that is known but for the nets at its readers, and how it is resolved.

ghost use Rattle.std.specs.Prelude.{◌≡◌, ℕ, ◌<◌, map, length, slice_get, Some, IfOk, IfErr, OnOk, MatchOption};
ghost use Rattle.rsfq_ids.specs.declared.circuit.Driver.{Driver};
ghost use Rattle.rsfq_ids.specs.declared.circuit.Reader.{Reader};
ghost use Rattle.flat_aliases.specs.Drives as number;
ghost use Rattle.flat_places.specs.Hierarchy.{bit_count};
ghost use Rattle.flat_places.specs.Names.{driver_name, reader_name};
ghost use Rattle.flat_places.specs.Refusal.{HasNoDriver};
ghost use Rattle.flat_places.specs.Whole.{ReadsNet};
ghost use Rattle.flat_names.specs.Begins.{AreBegun};
ghost use Rattle.flattener.specs.Refused.{IsSound, IsFlatFault};
ghost use Rattle.flattener.specs.Shape.{IsShaped, numbered_name, HasPins, NoDriverAt};

use crate::ends;
use crate::fault::FlatFault;
use flat_aliases::{AliasFault, Link, resolve};
use flat_names::{Begins, MeasuredSource, begins_of, place_name};
use flat_places::{
    numbers_drive_places, numbers_tell_readers, numbers_tell_rings, numbers_tell_two,
    places_are_counted, places_are_listed,
};
use rsfq_ids::circuit::{Driver, FlatCell, Pin, PortBit, Reader};
use rsfq_ids::id::{Id, NetId, PinId};
use rsfq_ids::list::{IdVec, List, NoMemory};
use rsfq_ids::name::Name;
use std::alloc::Global;

/// How many levels of modules a circuit may have.
pub const LEVELS: u32 = 64;

/// A circuit but for the nets at its readers.
#[derive(Clone, Copy)]
pub struct Shape<'a> {
    pub source: MeasuredSource<'a>,
    pub ports: &'a [PortBit],
    pub cells: &'a [FlatCell],
    /// The drivers in the order of nets, and the number of the place where each starts, if it starts at one.
    pub nets: &'a [Driver],
    pub starts: &'a [Option<u32>],
    /// The readers in the order of pins, and the number of the place that each reads, if it reads one.
    pub readers: &'a [Reader],
    pub reads: &'a [Option<u32>],
    /// Which place follows which, and how many places there are.
    pub links: &'a [Link],
    pub places: u32,
}

impl Shape<'_> {
    /// The printed name of a place, by where the bits of modules begin.
    fn found_name(self, alloc: Global, begins: &[Begins], place: u32) -> Result<Name, NoMemory>
        requires shaped { IsShaped self }
        requires begins { AreBegun self.source.sizes.now self.source.bound.now.modules begins.now }
        requires there { place < bit_count self.source.bound.now 64 self.source.bound.now.top }
        ensures { IfOk result (λ name. name ≡ numbered_name self.entry.source.bound.now place) }
    {
        places_are_listed(self.source.bound);
        place_name(
            alloc,
            self.source,
            begins,
            LEVELS,
            self.source.bound.top,
            None,
            u64::from(place),
        )
    }

    /// The printed name of a place.
    fn wire_name(self, alloc: Global, place: u32) -> Result<Name, NoMemory>
        requires shaped { IsShaped self }
        requires there { place < bit_count self.source.bound.now 64 self.source.bound.now.top }
        ensures { IfOk result (λ name. name ≡ numbered_name self.entry.source.bound.now place) }
    {
        let begins = begins_of(alloc, self.source)?;
        self.found_name(alloc, begins.as_slice(), place)
    }

    /// The printed names of places.
    fn wire_names(self, alloc: Global, places: &[u32]) -> Result<List<Name>, NoMemory>
        requires shaped { IsShaped self }
        requires there { (at place : ℕ) → slice_get places.now at ≡ Some place → place < bit_count self.source.bound.now 64 self.source.bound.now.top }
        ensures { IfOk result (λ names. names ≡ map (numbered_name self.entry.source.bound.now) places.now) }
    {
        let begins = begins_of(alloc, self.source)?;
        let mut names = List::new(alloc);
        for place in places {
            names.push(self.found_name(alloc, begins.as_slice(), *place)?)?;
        }
        Ok(names)
    }

    /// The printed name of the driver of a net.
    fn net_name(self, alloc: Global, net: u32) -> Result<Name, NoMemory>
        requires shaped { IsShaped self }
        requires there { net < length self.nets.now }
        ensures { IfOk result (λ name. (from : Driver) → slice_get self.entry.nets.now net ≡ Some from → name ≡ driver_name self.entry.source.cells.now self.entry.source.bound.now from) }
    {
        let driver = self.nets[net as usize];
        ends::driver_name(alloc, self.source.cells, self.ports, self.cells, driver)
    }

    /// The printed name of a reader.
    fn pin_name(self, alloc: Global, pin: usize) -> Result<Name, NoMemory>
        requires shaped { IsShaped self }
        requires there { pin < length self.readers.now }
        ensures { IfOk result (λ name. (by : Reader) → slice_get self.entry.readers.now pin ≡ Some by → name ≡ reader_name self.entry.source.cells.now self.entry.source.bound.now by) }
    {
        ends::reader_name(
            alloc,
            self.source.cells,
            self.ports,
            self.cells,
            self.readers[pin],
        )
    }

    /// A fault of places and nets, with their printed names.
    fn named(self, alloc: Global, fault: AliasFault) -> Result<FlatFault, NoMemory>
        requires shaped { IsShaped self }
        requires fault { number.IsAliasFault self.links.now self.starts.now fault }
        ensures { IfOk result (IsFlatFault self.entry.source.cells.now self.entry.source.bound.now) }
    {
        numbers_tell_two(self.source.cells, self.source.bound);
        numbers_tell_rings(self.source.cells, self.source.bound);
        places_are_counted(self.source.bound);
        match fault {
            AliasFault::TwoDrivers {
                place,
                first,
                second,
            } => Ok(FlatFault::TwoDrivers(
                self.wire_name(alloc, place)?,
                self.net_name(alloc, first)?,
                self.net_name(alloc, second)?,
            )),
            AliasFault::Ring(places) => Ok(FlatFault::AliasLoop(self.wire_names(
                alloc,
                places.as_slice(),
            )?)),
            AliasFault::Memory => Ok(FlatFault::Memory),
        }
    }

    /// The net at a reader, by the nets at the places, if there is one.
    fn net_at(self, found: &[Option<u32>], pin: usize) -> Option<u32>
        requires shaped { IsShaped self }
        requires resolved { number.IsResolved self.links.now self.starts.now self.places found.now }
        requires there { pin < length self.reads.now }
        ensures { MatchOption result (NoDriverAt self.entry pin) (λ net. (by : Reader) → slice_get self.entry.readers.now pin ≡ Some by → ReadsNet self.entry.source.cells.now self.entry.source.bound.now self.entry.nets.now by net) }
    {
        numbers_tell_readers(self.source.cells, self.source.bound);
        match self.reads[pin] {
            Some(place) => match found.get(place as usize) {
                Some(net) => *net,
                None => None,
            },
            None => None,
        }
    }

    /// The net at each reader, by the nets at the places; or the first reader that nothing drives.
    fn read_pins(self, alloc: Global, found: &[Option<u32>]) -> Result<IdVec<PinId, Pin>, FlatFault>
        requires shaped { IsShaped self }
        requires resolved { number.IsResolved self.links.now self.starts.now self.places found.now }
        requires sound { IsSound self.source.cells.now self.source.bound.now }
        ensures ok { IfOk result (HasPins self.entry) }
        ensures err { IfErr result (IsFlatFault self.entry.source.cells.now self.entry.source.bound.now) }
    {
        let mut pins = IdVec::new(alloc);
        for pin in 0..self.readers.len() {
            let Some(net) = self.net_at(found, pin) else {
                return Err(FlatFault::NoDriver(self.pin_name(alloc, pin)?));
            };
            pins.push(Pin {
                reader: self.readers[pin],
                net: NetId::of(net),
            })?;
        }
        Ok(pins)
    }

    /// The net at each reader.
    pub fn pins(self, alloc: Global) -> Result<IdVec<PinId, Pin>, FlatFault>
        requires { IsShaped self }
        ensures ok { IfOk result (HasPins self.entry) }
        ensures sound { OnOk result (IsSound self.entry.source.cells.now self.entry.source.bound.now) }
        ensures err { IfErr result (IsFlatFault self.entry.source.cells.now self.entry.source.bound.now) }
    {
        numbers_drive_places(self.source.cells, self.source.bound);
        numbers_tell_two(self.source.cells, self.source.bound);
        numbers_tell_rings(self.source.cells, self.source.bound);
        match resolve(alloc, self.links, self.starts, self.places as usize) {
            Ok(found) => self.read_pins(alloc, found.as_slice()),
            Err(fault) => Err(self.named(alloc, fault)?),
        }
    }
}
