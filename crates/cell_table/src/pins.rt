//! The pins of a cell.

ghost use Rattle.std.specs.Prelude.{◌≡◌, ◌∷◌, ◌++◌, ◌≢◌, ◌+◌, ◌==◌, ◌≤◌, map, length, take, None, Some, IfOk, OnOk, IfErr, count_by};
ghost use Rattle.std.specs.List.{list_all, list_any};
ghost use Rattle.std.specs.Str.{bytes_eq};
ghost use Rattle.table_fields.specs.Names.{is_plain_name};
ghost use Rattle.table_fields.specs.Records.{IsCause};
ghost use Rattle.cell_table.specs.Kinds.{are_distinct, are_pins, clock_of, clock_pins, fits_inputs, fits_outputs, has_counts, names_in, pins_fault, pins_of};

use crate::kind::{fits_clock, fits_inputs, fits_outputs};
use rsfq_ids::list::{List, NoMemory};
use rsfq_ids::name::Name;
use rsfq_ids::table::Kind;
use rsfq_ids::table_fault::TableWhy;
use std::alloc::{AllocError, Global};
use table_fields::names::is_plain_name;

/// The pins of a cell by their names.
#[derive(Drop)]
pub(crate) struct Pins {
    pub(crate) inputs: List<Name>,
    pub(crate) clock: Option<Name>,
    pub(crate) outputs: List<Name>,
}

fn names_in(alloc: Global, text: &str) -> Result<Vec<&str>, AllocError>
    ensures { IfOk result (λ names. map (λ name. name.now) names.items ≡ names_in text.now) }
{
    text.split(' ').collect(alloc)
}

fn copy_names(alloc: Global, names: &[&str]) -> Result<List<Name>, NoMemory>
    ensures { IfOk result (λ copies. copies ≡ map (λ name. name.now) names.now) }
{
    let mut copies = List::new(alloc);
    for name in names {
        copies.push(Name::of(alloc, name)?)?;
    }
    Ok(copies)
}

fn are_plain(names: &[&str]) -> bool
    ensures { result ≡ list_all (λ name. is_plain_name name.now) names.now }
{
    names.iter().all(|name| is_plain_name(name.as_bytes()))
}

fn contains(names: &[&str], wanted: &str) -> bool
    ensures { result ≡ list_any (λ name. bytes_eq wanted.now name.now) names.now }
{
    names.iter().any(|name| wanted == *name)
}

fn are_distinct(names: &[&str]) -> bool
    ensures { result ≡ are_distinct (map (λ name. name.now) names.now) }
{
    if names.is_empty() {
        return true;
    }
    if contains(&names[1..], names[0]) {
        return false;
    }
    are_distinct(&names[1..])
}

fn count_spaces(text: &[u8]) -> usize
    ensures { result ≡ count_by (λ byte. byte == 32) text.now }
{
    text.iter().filter(|byte| **byte == b' ').count()
}

/// How many names a list has that single spaces part.
fn count_names(text: &str) -> usize
    ensures { result ≡ length (names_in text.now) }
{
    count_spaces(text.as_bytes()) + 1
}

fn has_counts(kind: Kind, inputs: &str, clock: &str, outputs: &str) -> bool
    ensures { result ≡ has_counts kind inputs.now clock.now outputs.now }
{
    if !fits_inputs(kind, count_names(inputs)) {
        return false;
    }
    if !fits_outputs(kind, count_names(outputs)) {
        return false;
    }
    fits_clock(kind, clock)
}

fn add_clock<'a>(kind: Kind, clock: &'a str, pins: &mut Vec<&'a str>) -> Result<(), NoMemory>
    ensures { OnOk result (map (λ name. name.now) pins.new.items ≡ map (λ name. name.now) pins.old.items ++ clock_pins kind clock.entry.now) }
{
    match kind {
        Kind::Jtl => {}
        Kind::Split => {}
        Kind::Merge => {}
        Kind::Gate => pins.push(clock)?,
    }
    Ok(())
}

fn copy_clock(alloc: Global, kind: Kind, clock: &str) -> Result<Option<Name>, NoMemory>
    ensures { IfOk result (λ copy. copy ≡ clock_of kind clock.now) }
{
    match kind {
        Kind::Jtl => Ok(None),
        Kind::Split => Ok(None),
        Kind::Merge => Ok(None),
        Kind::Gate => Ok(Some(Name::of(alloc, clock)?)),
    }
}

fn are_pins(names: &[&str]) -> bool
    ensures { result ≡ are_pins (map (λ name. name.now) names.now) }
{
    are_plain(names) && are_distinct(names)
}

fn join_pins<'a>(
    alloc: Global,
    kind: Kind,
    inputs: &[&'a str],
    clock: &'a str,
    outputs: &[&'a str],
) -> Result<Vec<&'a str>, NoMemory>
    ensures { IfOk result (λ pins. map (λ name. name.now) pins.items ≡ map (λ name. name.now) inputs.now ++ clock_pins kind clock.entry.now ++ map (λ name. name.now) outputs.now) }
{
    let mut pins = Vec::from_slice(alloc, inputs)?;
    add_clock(kind, clock, &mut pins)?;
    pins.extend_from_slice(outputs)?;
    Ok(pins)
}

/// Reads the three fields of a cell that name its pins.
pub(crate) fn read_pins(
    alloc: Global,
    kind: Kind,
    inputs: &str,
    clock: &str,
    outputs: &str,
) -> Result<Pins, TableWhy>
    ensures passed { OnOk result (pins_fault kind inputs.now clock.now outputs.now ≡ None) }
    ensures inputs { IfOk result (λ pins. pins.inputs ≡ names_in inputs.now) }
    ensures clock { IfOk result (λ pins. pins.clock ≡ clock_of kind clock.now) }
    ensures outputs { IfOk result (λ pins. pins.outputs ≡ names_in outputs.now) }
    ensures fault { IfErr result (IsCause (pins_fault kind inputs.now clock.now outputs.now)) }
{
    if !has_counts(kind, inputs, clock, outputs) {
        return Err(TableWhy::Pins);
    }
    let Ok(input_names) = names_in(alloc, inputs) else {
        return Err(TableWhy::Memory);
    };
    let Ok(output_names) = names_in(alloc, outputs) else {
        return Err(TableWhy::Memory);
    };
    let all = join_pins(alloc, kind, &input_names, clock, &output_names)?;
    if !are_pins(&all) {
        return Err(TableWhy::Pins);
    }
    Ok(Pins {
        inputs: copy_names(alloc, &input_names)?,
        clock: copy_clock(alloc, kind, clock)?,
        outputs: copy_names(alloc, &output_names)?,
    })
}
