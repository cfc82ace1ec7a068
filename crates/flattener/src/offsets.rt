//! The numbers of the bits of a module's wires.

ghost use Rattle.std.specs.Prelude.{◌≡◌, ◌+◌, ◌<◌, ◌^◌, ◌++◌, ℕ, map, length, slice_get, slice_index, Some, IfOk, OnOk};
ghost use Rattle.std.specs.List.{All, range_with_len, zip};
ghost use Rattle.std.specs.Option.{option_map};
ghost use Rattle.flat_places.specs.Hierarchy.{bits_of};
ghost use Rattle.flat_places.specs.Bits.{offsets_from, part_numbers, bit_numbers, linked_number, linked_numbers, ends_link, assign_links, port_links};
ghost use Rattle.flattener.specs.Wiring.{AreNumbered, IsNumbered};

use bind_forms::{BoundAssign, BoundLink, BoundPart, BoundWire};
use flat_aliases::Link;
use flat_places::width;
use rsfq_ids::list::NoMemory;
use std::alloc::Global;

/// Where the bits of each wire begin, those of the first one at `base`.
pub fn offsets_of(alloc: Global, wires: &[BoundWire], base: u32) -> Result<Vec<u32>, NoMemory>
    requires { base + bits_of wires.now < 2 ^ 32 }
    ensures { IfOk result (λ offsets. offsets.items ≡ offsets_from base wires.now) }
{
    let mut offsets = Vec::new(alloc);
    let mut next = base;
    for wire in wires {
        offsets.push(next)?;
        next += width(wire) as u32;
    }
    Ok(offsets)
}

/// Adds as many numbers, from one on.
fn push_range(places: &mut Vec<u32>, start: u32, count: u32) -> Result<(), NoMemory>
    requires { start + count < 2 ^ 32 }
    ensures { OnOk result (places.new.items ≡ places.old.items ++ range_with_len start count) }
{
    for place in start..start + count {
        places.push(place)?;
    }
    Ok(())
}

/// The numbers of the bits of parts, from the right.
fn places_of(alloc: Global, parts: &[BoundPart], offsets: &[u32]) -> Result<Vec<u32>, NoMemory>
    requires { AreNumbered offsets.now parts.now }
    ensures { IfOk result (λ places. places.items ≡ bit_numbers offsets.now parts.now) }
{
    let mut places = Vec::new(alloc);
    for part in parts {
        push_range(
            &mut places,
            offsets[part.wire as usize] + part.bit,
            part.count,
        )?;
    }
    Ok(places)
}

/// Adds a link from each place to the one beside it.
fn push_pairs(links: &mut Vec<Link>, sources: &[u32], targets: &[u32]) -> Result<(), NoMemory>
    ensures { OnOk result (links.new.items ≡ links.old.items ++ map ends_link (zip sources.now targets.now)) }
{
    for at in 0..sources.len().min(targets.len()) {
        links.push(Link {
            from: sources[at],
            to: targets[at],
        })?;
    }
    Ok(())
}

/// Adds the links of an assign.
pub fn push_assign(
    alloc: Global,
    links: &mut Vec<Link>,
    assign: &BoundAssign,
    offsets: &[u32],
) -> Result<(), NoMemory>
    requires to { AreNumbered offsets.now assign.now.to }
    requires from { AreNumbered offsets.now assign.now.from }
    ensures { OnOk result (links.new.items ≡ links.old.items ++ assign_links offsets.now assign.now) }
{
    let targets = places_of(alloc, assign.to.as_slice(), offsets)?;
    let sources = places_of(alloc, assign.from.as_slice(), offsets)?;
    push_pairs(links, sources.as_slice(), targets.as_slice())
}

/// Adds the links of a port, whose bits begin at `start`, with the bits of parts outside: out of an output, into an input.
pub fn push_port(
    alloc: Global,
    links: &mut Vec<Link>,
    start: u32,
    output: bool,
    parts: &[BoundPart],
    offsets: &[u32],
) -> Result<(), NoMemory>
    requires parts { AreNumbered offsets.now parts.now }
    requires port { start + length (bit_numbers offsets.now parts.now) < 2 ^ 32 }
    ensures { OnOk result (links.new.items ≡ links.old.items ++ port_links offsets.now start output parts.now) }
{
    let outside = places_of(alloc, parts, offsets)?;
    for (bit, place) in outside.iter().enumerate() {
        let inside = start + bit as u32;
        let link = if output {
            Link {
                from: inside,
                to: *place,
            }
        } else {
            Link {
                from: *place,
                to: inside,
            }
        };
        links.push(link)?;
    }
    Ok(())
}

/// The number of the first of some bits.
fn first_place(parts: &[BoundPart], offsets: &[u32]) -> Option<u32>
    requires { AreNumbered offsets.now parts.now }
    ensures { result ≡ option_map (λ part. slice_index offsets.now part.wire + part.bit) (slice_get parts.now 0) }
{
    match parts {
        [] => None,
        [part, ..] => Some(offsets[part.wire as usize] + part.bit),
    }
}

/// The number of the bit that a port of a cell is linked to, if it is linked.
fn linked_place(links: &[BoundLink], port: u32, offsets: &[u32]) -> Option<u32>
    requires { All (λ link. AreNumbered offsets.now link.parts) links.now }
    ensures { result ≡ linked_number offsets.now links.now port }
{
    for link in links {
        if link.port == port {
            return first_place(link.parts.as_slice(), offsets);
        }
    }
    None
}

/// Adds the numbers of the bits that as many ports of a cell are linked to, from one on.
pub fn push_linked(
    places: &mut Vec<Option<u32>>,
    links: &[BoundLink],
    first: u32,
    count: u32,
    offsets: &[u32],
) -> Result<(), NoMemory>
    requires links { All (λ link. AreNumbered offsets.now link.parts) links.now }
    requires ports { first + count < 2 ^ 32 }
    ensures { OnOk result (places.new.items ≡ places.old.items ++ linked_numbers offsets.now links.now first count) }
{
    for port in first..first + count {
        places.push(linked_place(links, port, offsets))?;
    }
    Ok(())
}
