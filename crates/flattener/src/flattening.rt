//! The circuit of a bound source.

ghost use Rattle.std.specs.Prelude.{◌≡◌, ◌≢◌, IfOk, IfErr, OnOk};
ghost use Rattle.rsfq_ids.specs.declared.circuit.Flat.{Flat};
ghost use Rattle.rsfq_ids.specs.WellFormed.{IsTable, IsFlat};
ghost use Rattle.bind_forms.specs.WellFormed.{IsBound};
ghost use Rattle.flat_places.specs.Sizes.{IsWithinLimits};
ghost use Rattle.flat_places.specs.Circuit.{IsCircuitOf};
ghost use Rattle.flat_places.specs.Whole.{whole_piece};
ghost use Rattle.flat_names.specs.Measured.{IsMeasured};
ghost use Rattle.flattener.specs.declared.fault.FlatFault.{FlatFault};
ghost use Rattle.flattener.specs.declared.fault.FlatFault.TheVariants.{Memory};
ghost use Rattle.flattener.specs.Refused.{IsSound, IsFlatFault, AgreeButRings};
ghost use Rattle.flattener.specs.Gathered.{AreEnds, ArePins};
ghost use Rattle.flattener.specs.Written.{piece_of};

use crate::assigns::new_assigns;
use crate::ends::{list_drivers, list_readers, list_reads, list_starts, port_bits};
use crate::fault::FlatFault;
use crate::shape::{LEVELS, Shape};
use crate::solid::solid_instances;
use crate::wiring::{Walk, Wiring, wire_up};
use bind_forms::Bound;
use flat_names::MeasuredSource;
use flat_places::{
    circuits_are_one, ends_are_numbered, measure, places_are_counted, refused_have_none,
    whole_is_listed,
};
use rsfq_ids::circuit::{Driver, Flat, Pin, PortBit, Reader};
use rsfq_ids::id::{NetId, PinId, PortId};
use rsfq_ids::list::{IdVec, NoMemory};
use rsfq_ids::table::CellTable;
use std::alloc::Global;

/// Writes out a source: its places, which follows which, its cells, and the places at their pins.
fn write_out(alloc: Global, source: MeasuredSource) -> Result<Wiring, NoMemory>
    requires source { IsMeasured source }
    requires within { IsWithinLimits source.bound.now }
    ensures { IfOk result (λ wiring. piece_of wiring ≡ whole_piece source.entry.cells.now source.entry.bound.now) }
{
    whole_is_listed(source.cells, source.bound);
    places_are_counted(source.bound);
    let top = &source.bound.modules.as_slice()[source.bound.top as usize];
    let solid = solid_instances(alloc, source.bound.modules.as_slice(), source.sizes)?;
    let assigns = new_assigns(alloc, source.bound.modules.as_slice())?;
    let walk = Walk {
        source,
        solid: solid.as_slice(),
        assigns: assigns.as_slice(),
    };
    let mut wiring = Wiring::new(alloc);
    let offsets = wiring.place_wires(alloc, top.wires.as_slice())?;
    wire_up(
        alloc,
        walk,
        LEVELS,
        source.bound.top,
        None,
        offsets.as_slice(),
        &mut wiring,
    )?;
    Ok(wiring)
}

/// Both ends of the nets of a source, and the places where they stand.
#[derive(Drop)]
struct Ends {
    ports: IdVec<PortId, PortBit>,
    nets: IdVec<NetId, Driver>,
    starts: Vec<Option<u32>>,
    readers: Vec<Reader>,
    reads: Vec<Option<u32>>,
}

/// Lists both ends of the nets of a source that is written out.
fn list_ends(alloc: Global, source: MeasuredSource, wiring: &Wiring) -> Result<Ends, NoMemory>
    requires source { IsMeasured source }
    requires within { IsWithinLimits source.bound.now }
    requires written { piece_of wiring.now ≡ whole_piece source.cells.now source.bound.now }
    ensures { IfOk result (AreEnds source.entry.cells.now source.entry.bound.now wiring.now) }
{
    whole_is_listed(source.cells, source.bound);
    places_are_counted(source.bound);
    let top = &source.bound.modules.as_slice()[source.bound.top as usize];
    let ports = port_bits(alloc, top.ports.as_slice())?;
    let bits = ports.as_slice();
    let cells = wiring.cells.as_slice();
    let nets = list_drivers(alloc, source.cells, bits, cells)?;
    let starts = list_starts(alloc, bits, wiring.outputs.as_slice())?;
    let readers = list_readers(alloc, source.cells, bits, cells)?;
    let reads = list_reads(alloc, bits, wiring.reads.as_slice())?;
    Ok(Ends {
        ports,
        nets,
        starts,
        readers,
        reads,
    })
}

/// The net at each reader of a source that is written out.
fn find_pins(
    alloc: Global,
    source: MeasuredSource,
    wiring: &Wiring,
    ends: &Ends,
) -> Result<IdVec<PinId, Pin>, FlatFault>
    requires source { IsMeasured source }
    requires within { IsWithinLimits source.bound.now }
    requires written { piece_of wiring.now ≡ whole_piece source.cells.now source.bound.now }
    requires ends { AreEnds source.cells.now source.bound.now wiring.now ends.now }
    ensures ok { IfOk result (ArePins source.entry.cells.now source.entry.bound.now ends.now) }
    ensures sound { OnOk result (IsSound source.entry.cells.now source.entry.bound.now) }
    ensures err { IfErr result (IsFlatFault source.entry.cells.now source.entry.bound.now) }
{
    whole_is_listed(source.cells, source.bound);
    ends_are_numbered(source.cells, source.bound);
    let shape = Shape {
        source,
        ports: ends.ports.as_slice(),
        cells: wiring.cells.as_slice(),
        nets: ends.nets.as_slice(),
        starts: ends.starts.as_slice(),
        readers: ends.readers.as_slice(),
        reads: ends.reads.as_slice(),
        links: wiring.links.as_slice(),
        places: wiring.places,
    };
    shape.pins(alloc)
}

/// The circuit of a source that is written out.
fn connect(alloc: Global, source: MeasuredSource, wiring: Wiring) -> Result<Flat, FlatFault>
    requires source { IsMeasured source }
    requires within { IsWithinLimits source.bound.now }
    requires written { piece_of wiring ≡ whole_piece source.cells.now source.bound.now }
    ensures circuit { IfOk result (IsCircuitOf source.entry.cells.now source.entry.bound.now) }
    ensures flat { IfOk result (IsFlat source.entry.cells.now) }
    ensures sound { OnOk result (IsSound source.entry.cells.now source.entry.bound.now) }
    ensures err { IfErr result (IsFlatFault source.entry.cells.now source.entry.bound.now) }
{
    let ends = list_ends(alloc, source, &wiring)?;
    let pins = find_pins(alloc, source, &wiring, &ends)?;
    let Wiring {
        places: _,
        links: _,
        cells,
        reads: _,
        outputs: _,
    } = wiring;
    let Ends {
        ports,
        nets,
        starts: _,
        readers: _,
        reads: _,
    } = ends;
    Ok(Flat {
        ports,
        cells,
        nets,
        pins,
    })
}

/// The circuit of a bound source over a cell table, or why it has none.
fn find_circuit(alloc: Global, bound: &Bound, cells: &CellTable) -> Result<Flat, FlatFault>
    requires table { IsTable cells.now }
    requires bound { IsBound cells.now bound.now }
    ensures circuit { IfOk result (IsCircuitOf cells.now bound.now) }
    ensures flat { IfOk result (IsFlat cells.now) }
    ensures sound { OnOk result (IsSound cells.now bound.now) }
    ensures err { IfErr result (IsFlatFault cells.now bound.now) }
{
    let sizes = measure(alloc, bound)?;
    let source = MeasuredSource {
        bound,
        cells,
        sizes: sizes.as_slice(),
    };
    let wiring = write_out(alloc, source)?;
    connect(alloc, source, wiring)
}

/// The circuit of a bound source over a cell table, which has no other one: each reading pin and each output bit has the one thing that drives
/// it.
///
/// Takes 64 passes over the source, a look-up for each assign, and then steps for each place, each cell and each bit that assigns or links
/// join. An assign that joins the same parts as an earlier one joins nothing; the others are counted in each copy of a module, and each bit
/// that they join takes 24 bytes. An instance that only leads on to one place or cell is walked through as well, so each of these may take as
/// many steps as there are levels; and the path to a cell is written once for each level. A refusal that names places takes besides, for
/// each, as many steps as there are levels, each with two searches by halving.
///
/// # Errors
///
/// The first of these that holds: `NestingLimit(65)`, `CellLimit(100001)`, `WireLimit(2000001)` exactly where that limit is passed;
/// `TwoDrivers` exactly where two different drivers drive one wire bit; `AliasLoop` exactly where wire bits follow each other in a ring;
/// `NoDriver` exactly where nothing drives the place of a reading pin or of an output bit. `Memory` where memory could not be had.
/// What is refused for another cause than memory has no circuit within the limits in which each wire bit has one driver and none stand in a
/// ring. It has no other refusal but `Memory` and, where a ring is named, one that names another ring; and what has a circuit has none.
pub fn flatten(alloc: Global, bound: &Bound, cells: &CellTable) -> Result<Flat, FlatFault>
    requires table { IsTable cells.now }
    requires bound { IsBound cells.now bound.now }
    ensures circuit { IfOk result (IsCircuitOf cells.now bound.now) }
    ensures flat { IfOk result (IsFlat cells.now) }
    ensures sound { OnOk result (IsSound cells.now bound.now) }
    ensures err { IfErr result (IsFlatFault cells.now bound.now) }
    ensures only { IfOk result (λ flat. (other : Flat) → IsCircuitOf cells.now bound.now other → other ≡ flat) }
    ensures none { IfErr result (λ why. why ≢ Memory → (other : Flat) → IsSound cells.now bound.now → ¬ IsCircuitOf cells.now bound.now other) }
    ensures agree { IfErr result (λ why. why ≢ Memory → (other : FlatFault) → other ≢ Memory → IsFlatFault cells.now bound.now other → AgreeButRings why other) }
    ensures unrefused { IfOk result (λ flat. (other : FlatFault) → other ≢ Memory → ¬ IsFlatFault cells.now bound.now other) }
{
    circuits_are_one(cells, bound);
    refused_have_none(cells, bound);
    find_circuit(alloc, bound, cells)
}
