//! Which ports the inputs and outputs of a graph stand for: by name where all of a side have symbols, else in port order.

ghost use Rattle.std.specs.Prelude.{◌≡◌, ◌<◌, map, length, IfOk, IfErr, OnOk};
ghost use Rattle.std.specs.List.{All, Contains};
ghost use Rattle.rsfq_ids.specs.WellFormed.{AreDistinct, IsBench};
ghost use Rattle.golden_aig.specs.Aig.{IsAig};
ghost use Rattle.golden_aig.specs.FirstPlaces.{HoldsPlaces};
ghost use Rattle.golden_aig.specs.Matched.{data_inputs, outputs_of, name_of, names_of, symbols_of, IsMatched, IsMatch, LacksPort, Repeats, Refuses, HasNoMatch, MemoryOr, MatchesNone};
ghost use Rattle.golden_aig.specs.declared.pairing.PortFault.TheVariants as fault;

use crate::graph::Aig;
use crate::pairing::{Match, PortFault};
use name_table::{FirstNames, TextKeyed};
use rsfq_ids::circuit::{Bench, Flat};
use rsfq_ids::id::{Id, PortId};
use rsfq_ids::list::List;
use rsfq_ids::name::Name;
use std::alloc::Global;

/// The data inputs, in port order.
fn list_data_inputs(alloc: Global, bench: &Bench) -> Result<Vec<PortId>, PortFault>
    ensures ok { IfOk result (λ ports. ports.items ≡ data_inputs bench.now) }
    ensures err { IfErr result (λ why. why ≡ fault.Memory) }
{
    let mut ports = Vec::new(alloc);
    for (place, used) in bench.uses.as_slice().iter().enumerate() {
        if used.is_data() {
            ports.push(PortId::of(place as u32))?;
        }
    }
    Ok(ports)
}

/// The outputs, in port order.
fn list_outputs(alloc: Global, flat: &Flat) -> Result<Vec<PortId>, PortFault>
    ensures ok { IfOk result (λ ports. ports.items ≡ outputs_of flat.now) }
    ensures err { IfErr result (λ why. why ≡ fault.Memory) }
{
    let mut ports = Vec::new(alloc);
    for (place, port) in flat.ports.as_slice().iter().enumerate() {
        if port.output {
            ports.push(PortId::of(place as u32))?;
        }
    }
    Ok(ports)
}

/// The printed name of a port.
fn port_name(flat: &Flat, port: PortId) -> &str
    requires { port < length flat.now.ports }
    ensures { result.now ≡ name_of flat.now port }
{
    flat.ports.as_slice()[port.index()].name.as_str()
}

/// The symbols of the entries that have one.
fn list_symbols(alloc: Global, entries: &[Option<Name>]) -> Result<Vec<&str>, PortFault>
    ensures ok { IfOk result (λ symbols. map (λ text. text.now) symbols.items ≡ symbols_of entries.entry.now) }
    ensures err { IfErr result (λ why. why ≡ fault.Memory) }
{
    let mut symbols = Vec::new(alloc);
    for entry in entries {
        if let Some(symbol) = entry {
            symbols.push(symbol.as_str())?;
        }
    }
    Ok(symbols)
}

/// The hasher of the names of ports: it has read them all.
fn key_ports(flat: &Flat, ports: &[PortId]) -> TextKeyed
    requires { All (λ port. port < length flat.now.ports) ports.now }
{
    let mut keys = TextKeyed::of(b"");
    for port in ports {
        keys = keys.and(port_name(flat, *port).as_bytes());
    }
    keys
}

/// The hasher of symbols: it has read them all.
fn key_symbols(symbols: &[&str]) -> TextKeyed {
    let mut keys = TextKeyed::of(b"");
    for symbol in symbols {
        keys = keys.and(symbol.as_bytes());
    }
    keys
}

/// The names of ports, each with the first place at which it stands.
fn tabulate_names<'a>(
    alloc: Global,
    flat: &'a Flat,
    ports: &[PortId],
) -> Result<FirstNames<'a>, PortFault>
    requires { All (λ port. port < length flat.now.ports) ports.now }
    ensures ok { IfOk result (HoldsPlaces (names_of flat.entry.now ports.now)) }
    ensures err { IfErr result (λ why. why ≡ fault.Memory) }
{
    let mut table = FirstNames::new(alloc, key_ports(flat, ports));
    for (place, port) in ports.iter().enumerate() {
        table.see(port_name(flat, *port), place)?;
    }
    Ok(table)
}

/// The port that each symbol names.
fn find_ports(
    alloc: Global,
    flat: &Flat,
    ports: &[PortId],
    symbols: &[&str],
) -> Result<List<PortId>, PortFault>
    requires { All (λ port. port < length flat.now.ports) ports.now }
    ensures names { IfOk result (λ matched. names_of flat.now matched ≡ map (λ text. text.now) symbols.now) }
    ensures ports { IfOk result (λ matched. All (Contains ports.now) matched) }
    ensures err { IfErr result (λ why. MemoryOr why ((name : _) × (why ≡ fault.NoPort name) × LacksPort flat.now ports.now (map (λ text. text.now) symbols.now) name)) }
{
    let table = tabulate_names(alloc, flat, ports)?;
    let mut matched = List::new(alloc);
    for symbol in symbols {
        let Some(place) = table.find(symbol) else {
            return Err(PortFault::NoPort(Name::of(alloc, symbol)?));
        };
        matched.push(ports[place])?;
    }
    Ok(matched)
}

/// Refuses symbols of which one stands there twice.
fn refuse_repeats(alloc: Global, symbols: &[&str]) -> Result<(), PortFault>
    ensures ok { OnOk result (AreDistinct (map (λ text. text.now) symbols.now)) }
    ensures err { IfErr result (λ why. MemoryOr why ((name : _) × (why ≡ fault.Repeated name) × Repeats (map (λ text. text.now) symbols.now) name)) }
{
    let mut table = FirstNames::new(alloc, key_symbols(symbols));
    for (place, symbol) in symbols.iter().enumerate() {
        if !table.see(symbol, place)? {
            return Err(PortFault::Repeated(Name::of(alloc, symbol)?));
        }
    }
    Ok(())
}

/// The ports that one side of a graph stands for.
fn match_side(
    alloc: Global,
    flat: &Flat,
    ports: Vec<PortId>,
    entries: &[Option<Name>],
) -> Result<List<PortId>, PortFault>
    requires { All (λ port. port < length flat.now.ports) ports.items }
    ensures ok { IfOk result (λ matched. IsMatched flat.now ports.items entries.now matched) }
    ensures err { IfErr result (λ why. MemoryOr why (Refuses flat.now ports.items entries.now why)) }
{
    let symbols = list_symbols(alloc, entries)?;
    if symbols.len() != 0 && symbols.len() != entries.len() {
        return Err(PortFault::Mixed);
    }
    if entries.len() != ports.len() {
        return Err(PortFault::Count(entries.len() as u64, ports.len() as u64));
    }
    if symbols.len() == 0 {
        return Ok(List::of(ports));
    }
    let matched = find_ports(alloc, flat, &ports, &symbols)?;
    refuse_repeats(alloc, &symbols)?;
    Ok(matched)
}

/// Pairs the inputs of a graph with the data inputs of a circuit, and its outputs with the outputs, one to one.
///
/// A side goes by name where all of its entries have symbols, and in port order where none has.
///
/// # Errors
///
/// For the inputs and then for the outputs, the first in this order: `Mixed`, `Count`, `NoPort` of the first symbol without
/// a port, `Repeated` of the first symbol that stood before; and then no pairing is a match. `Memory` may come at any time.
pub fn match_ports(alloc: Global, aig: &Aig, flat: &Flat, bench: &Bench) -> Result<Match, PortFault>
    requires graph { IsAig aig.now }
    requires names { AreDistinct (map (λ port. port.name) flat.now.ports) }
    requires bench { IsBench flat.now bench.now }
    ensures matched { IfOk result (λ matched. IsMatch aig.now flat.now bench.now matched) }
    ensures refused { IfErr result (λ why. MemoryOr why (HasNoMatch aig.now flat.now bench.now why)) }
    ensures none { IfErr result (MatchesNone aig.now flat.now bench.now) }
{
    let inputs = match_side(
        alloc,
        flat,
        list_data_inputs(alloc, bench)?,
        aig.in_names.as_slice(),
    )?;
    let outputs = match_side(
        alloc,
        flat,
        list_outputs(alloc, flat)?,
        aig.out_names.as_slice(),
    )?;
    Ok(Match { inputs, outputs })
}
