//! The walk over a bound source from the top down, which numbers all places and cells.

ghost use Rattle.std.specs.Prelude.{◌≡◌, ◌+◌, ◌<◌, ◌≤◌, ◌^◌, ◌-◌, length, IfOk, OnOk};
ghost use Rattle.std.specs.List.{All, flat_map};
ghost use Rattle.std.specs.Option.{option_copied};
ghost use Rattle.flat_places.specs.Hierarchy.{bits_of, wires_of, IsDeeper};
ghost use Rattle.flat_places.specs.Bits.{offsets_from, assign_links};
ghost use Rattle.flat_places.specs.Assigns.{new_places, different};
ghost use Rattle.flat_places.specs.Paths.{longer};
ghost use Rattle.flat_places.specs.Pieces.{empty, joined, only_places, only_links, reading_of, cell_piece, links_of_link, inside_piece, instance_at};
ghost use Rattle.flat_names.specs.Measured.{IsWithin};
ghost use Rattle.flattener.specs.Wiring.{AreNumbered, IsNumberedLink};
ghost use Rattle.flattener.specs.Written.{piece_of};
ghost use Rattle.flattener.specs.Walk.{IsWalk, IsInstanceOn, AreOffsets, HasRoom};

use crate::offsets::{offsets_of, push_assign, push_linked, push_port};
use bind_forms::{BoundAssign, BoundInstance, BoundKind, BoundLink, BoundPort, BoundWire};
use flat_aliases::Link;
use flat_names::{MeasuredSource, longer_path};
use flat_places::{Size, width};
use rsfq_ids::circuit::FlatCell;
use rsfq_ids::id::CellId;
use rsfq_ids::list::{IdVec, List, NoMemory};
use rsfq_ids::name::Name;
use rsfq_ids::table::CellRow;
use std::alloc::Global;

/// A source, and which of its instances the walk looks at.
#[derive(Clone, Copy, Debug)]
pub struct Walk<'a> {
    pub source: MeasuredSource<'a>,
    /// The places of the instances in each module that hold something, so that no copy of a module looks at the others.
    pub solid: &'a [List<usize>],
    /// The places of the assigns in each module that join what no assign before them does.
    pub assigns: &'a [List<usize>],
}

/// What the walk has written out so far.
#[derive(Debug, Drop)]
pub struct Wiring {
    /// How many places there are.
    pub places: u32,
    /// Which place follows which.
    pub links: Vec<Link>,
    /// The cells, depth first in text order.
    pub cells: IdVec<CellId, FlatCell>,
    /// The place at each reading pin of the cells, if it is linked, cell by cell.
    pub reads: Vec<Option<u32>>,
    /// The place at each output of the cells, if it is linked, cell by cell.
    pub outputs: Vec<Option<u32>>,
}

/// How many pins of a cell read: its inputs and its clock.
pub fn reading_pins(row: &CellRow) -> u32
    requires { length row.now.inputs < 2 ^ 32 - 1 }
    ensures { result ≡ reading_of row.now }
{
    match &row.clock {
        Some(_) => row.inputs.len() as u32 + 1,
        None => row.inputs.len() as u32,
    }
}

impl Wiring {
    /// Nothing yet.
    pub fn new(alloc: Global) -> Wiring
        ensures { piece_of result ≡ empty }
    {
        Wiring {
            places: 0,
            links: Vec::new(alloc),
            cells: IdVec::new(alloc),
            reads: Vec::new(alloc),
            outputs: Vec::new(alloc),
        }
    }

    /// Numbers the bits of a module's own wires, and answers where each wire begins.
    pub fn place_wires(&mut self, alloc: Global, wires: &[BoundWire]) -> Result<Vec<u32>, NoMemory>
        requires { self.old.places + bits_of wires.now < 2 ^ 32 }
        ensures offsets { IfOk result (λ offsets. offsets.items ≡ offsets_from self.old.places wires.now) }
        ensures places { OnOk result (piece_of self.new ≡ joined (piece_of self.old) (only_places (bits_of wires.now))) }
    {
        let offsets = offsets_of(alloc, wires, self.places)?;
        let mut places = self.places;
        for wire in wires {
            places += width(wire) as u32;
        }
        self.places = places;
        Ok(offsets)
    }

    /// Adds the links of a module's assigns, each once: those at the new places.
    fn add_assigns(
        &mut self,
        alloc: Global,
        assigns: &[BoundAssign],
        places: &[usize],
        offsets: &[u32],
    ) -> Result<(), NoMemory>
        requires parts { All (λ assign. AreNumbered offsets.now assign.to × AreNumbered offsets.now assign.from) assigns.now }
        requires places { places.now ≡ new_places assigns.now }
        ensures { OnOk result (piece_of self.new ≡ joined (piece_of self.old) (only_links (flat_map (assign_links offsets.now) (different assigns.now)))) }
    {
        for place in places {
            push_assign(alloc, &mut self.links, &assigns[*place], offsets)?;
        }
        Ok(())
    }

    /// Adds the links of an instance of a module, whose wires begin at the `inner` offsets.
    fn add_links(
        &mut self,
        alloc: Global,
        links: &[BoundLink],
        ports: &[BoundPort],
        inner: &[u32],
        offsets: &[u32],
    ) -> Result<(), NoMemory>
        requires { All (IsNumberedLink ports.now inner.now offsets.now) links.now }
        ensures { OnOk result (piece_of self.new ≡ joined (piece_of self.old) (only_links (flat_map (links_of_link ports.now inner.now offsets.now) links.now))) }
    {
        for link in links {
            let port = link.port as usize;
            push_port(
                alloc,
                &mut self.links,
                inner[port],
                ports[port].output,
                link.parts.as_slice(),
                offsets,
            )?;
        }
        Ok(())
    }

    /// Adds a cell.
    fn add_cell(
        &mut self,
        path: Name,
        number: u32,
        row: &CellRow,
        links: &[BoundLink],
        offsets: &[u32],
    ) -> Result<(), NoMemory>
        requires links { All (λ link. AreNumbered offsets.now link.parts) links.now }
        requires pins { reading_of row.now + length row.now.outputs < 2 ^ 32 - 1 }
        requires cells { length self.old.cells < 2 ^ 32 - 1 }
        ensures { OnOk result (piece_of self.new ≡ joined (piece_of self.old) (cell_piece path number row.now links.now offsets.now)) }
    {
        let reading = reading_pins(row);
        push_linked(&mut self.reads, links, 0, reading, offsets)?;
        let outputs = row.outputs.len() as u32;
        push_linked(&mut self.outputs, links, reading, outputs, offsets)?;
        self.cells.push(FlatCell { path, row: number })?;
        Ok(())
    }
}

/// The path to what is inside an instance of a module of this size. Only cells print it, so it is not written where there are none.
fn inner_path(alloc: Global, size: Size, path: Option<&str>, name: &str) -> Result<Name, NoMemory>
    ensures { IfOk result (λ inner. 0 < size.cells → inner ≡ longer (option_copied path.entry) name.now) }
{
    if size.cells == 0 {
        return Name::of(alloc, "");
    }
    longer_path(alloc, path, name)
}

/// Adds what is inside a module as deep as so many levels, where the module's own wires begin at these offsets.
#[cycle(wire_up)]
pub fn wire_up(
    alloc: Global,
    walk: Walk,
    levels: u32,
    at: u32,
    path: Option<&str>,
    offsets: &[u32],
    wiring: &mut Wiring,
) -> Result<(), NoMemory>
    requires walk { IsWalk walk }
    requires there { at < length walk.source.bound.now.modules }
    requires levels { levels ≤ 64 }
    requires deep { ¬ IsDeeper walk.source.bound.now levels at }
    requires offsets { AreOffsets offsets.now (wires_of walk.source.bound.now at) }
    requires room { HasRoom (joined (piece_of wiring.old) (inside_piece walk.source.cells.now walk.source.bound.now levels at (option_copied path) offsets.now wiring.old.places)) }
    ensures { OnOk result (piece_of wiring.new ≡ joined (piece_of wiring.old)
        (inside_piece walk.entry.source.cells.now walk.entry.source.bound.now levels at (option_copied path.entry) offsets.now wiring.old.places)) }
{
    let owner = &walk.source.bound.modules.as_slice()[at as usize];
    let assigns = owner.assigns.as_slice();
    let places = walk.assigns[at as usize].as_slice();
    wiring.add_assigns(alloc, assigns, places, offsets)?;
    let instances = owner.instances.as_slice();
    for place in walk.solid[at as usize].as_slice() {
        let instance = &instances[*place];
        wire_instance(alloc, walk, levels, instance, path, offsets, wiring)?;
    }
    Ok(())
}

/// Adds what an instance comes to.
#[cycle(wire_up)]
fn wire_instance(
    alloc: Global,
    walk: Walk,
    levels: u32,
    instance: &BoundInstance,
    path: Option<&str>,
    offsets: &[u32],
    wiring: &mut Wiring,
) -> Result<(), NoMemory>
    requires walk { IsWalk walk }
    requires instance { IsInstanceOn walk.source.cells.now walk.source.bound.now offsets.now instance.now }
    requires levels { levels ≤ 64 }
    requires deep { IsWithin walk.source.bound.now levels instance.now.kind }
    requires room { HasRoom (joined (piece_of wiring.old) (instance_at walk.source.cells.now walk.source.bound.now levels (option_copied path) offsets.now wiring.old.places instance.now)) }
    ensures { OnOk result (piece_of wiring.new ≡ joined (piece_of wiring.old)
        (instance_at walk.entry.source.cells.now walk.entry.source.bound.now levels (option_copied path.entry) offsets.now wiring.old.places instance.now)) }
{
    let links = instance.links.as_slice();
    match instance.kind {
        BoundKind::Cell(number) => {
            let row = &walk.source.cells.rows.as_slice()[number as usize];
            let path = longer_path(alloc, path, instance.name.as_str())?;
            wiring.add_cell(path, number, row, links, offsets)
        }
        BoundKind::Module(at) => {
            let size = walk.source.sizes[at as usize];
            let owner = &walk.source.bound.modules.as_slice()[at as usize];
            let inner = wiring.place_wires(alloc, owner.wires.as_slice())?;
            wiring.add_links(
                alloc,
                links,
                owner.ports.as_slice(),
                inner.as_slice(),
                offsets,
            )?;
            let path = inner_path(alloc, size, path, instance.name.as_str())?;
            wire_up(
                alloc,
                walk,
                levels - 1,
                at,
                Some(path.as_str()),
                inner.as_slice(),
                wiring,
            )
        }
    }
}
