//! The ports of a module's head and of a cell, by their places.

ghost use Rattle.std.specs.Prelude.{◌≡◌, ◌↔◌, ◌<◌, ◌≤◌, length, slice_get, Some, IfSome, IfNone, IsTrue};
ghost use Rattle.std.specs.Option.{option_copied};
ghost use Rattle.verilog_tree.specs.Views.{view_head, view_port};
ghost use Rattle.bind_sites.specs.Sites.{port_names, listed_port};
ghost use Rattle.bind_hierarchy.specs.Names.{IsFirstPlace};
ghost use Rattle.bind_forms.specs.WellFormed.{cell_ports};

use rsfq_ids::list::List;
use rsfq_ids::name::Name;
use rsfq_ids::table::CellRow;
use verilog_tree::{Head, HeadPort};

/// The name at a place.
fn name_at(names: &List<Name>, place: usize) -> Option<&str>
    ensures { option_copied result ≡ slice_get names.now place }
{
    match names.get(place) {
        Some(name) => Some(name.as_str()),
        None => None,
    }
}

fn port_name(port: &HeadPort) -> &str
    ensures { result.now ≡ listed_port (view_port port.now) }
{
    match port {
        HeadPort::Full { name, .. } => name.as_str(),
        HeadPort::Bare(name) => name.as_str(),
    }
}

/// The name of the port at a place of a head.
pub(crate) fn head_port(head: &Head, place: usize) -> Option<&str>
    ensures { option_copied result ≡ slice_get (port_names (view_head head.now)) place }
{
    match head {
        Head::Plain(names) => name_at(names, place),
        Head::Full(ports) => match ports.get(place) {
            Some(port) => Some(port_name(port)),
            None => None,
        },
    }
}

/// How many ports a head has.
pub(crate) fn head_count(head: &Head) -> usize
    ensures { result ≡ length (port_names (view_head head.now)) }
{
    match head {
        Head::Plain(names) => names.len(),
        Head::Full(ports) => ports.len(),
    }
}

/// The name of the pin at a place of a cell: its inputs come first, then the clock, then the outputs.
pub(crate) fn cell_port(row: &CellRow, place: usize) -> Option<&str>
    ensures { option_copied result ≡ slice_get (cell_ports row.now) place }
{
    let inputs = row.inputs.len();
    if place < inputs {
        return name_at(&row.inputs, place);
    }
    match &row.clock {
        None => name_at(&row.outputs, place - inputs),
        Some(clock) if place == inputs => Some(clock.as_str()),
        Some(_) => name_at(&row.outputs, place - inputs - 1),
    }
}

/// How many pins a cell has.
pub(crate) fn cell_count(row: &CellRow) -> usize
    ensures { result ≡ length (cell_ports row.now) }
{
    let inputs = row.inputs.as_slice().len();
    let outputs = row.outputs.as_slice().len();
    match &row.clock {
        None => inputs + outputs,
        Some(_) => inputs + 1 + outputs,
    }
}

/// The width of the pin at a place of a cell.
pub(crate) fn pin_width(row: &CellRow, place: usize) -> Option<u64>
    ensures found { IfSome result (λ width. (width ≡ 1) × (place < length (cell_ports row.now))) }
    ensures none { IfNone result (length (cell_ports row.now) ≤ place) }
{
    if place < cell_count(row) {
        Some(1)
    } else {
        None
    }
}

/// Whether the pin at a place of a cell has this name.
fn is_pin(row: &CellRow, place: usize, name: &str) -> bool
    ensures { IsTrue result ↔ (slice_get (cell_ports row.now) place ≡ Some name.now) }
{
    match cell_port(row, place) {
        Some(pin) => pin == name,
        None => false,
    }
}

/// The first place of a name among the pins of a cell.
pub(crate) fn cell_place(row: &CellRow, name: &str) -> Option<usize>
    ensures { IsFirstPlace (cell_ports row.now) name.now result }
{
    for place in 0..cell_count(row) {
        if is_pin(row, place, name) {
            return Some(place);
        }
    }
    None
}
