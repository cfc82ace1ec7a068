//! One cell of the table.

ghost use Rattle.std.specs.Prelude.{◌≡◌, ◌<◌, ◌≤◌, OnOk, IfOk, IfErr, None, Some, length};
ghost use Rattle.csv.specs.Records.{fields_of};
ghost use Rattle.table_fields.specs.Records.{IsCause, field, text_fault};
ghost use Rattle.cell_table.specs.Cells.{StandsFor, cell_fault, start_fault};
ghost use Rattle.cell_table.specs.Kinds.{kind_of};

use crate::digits::read_function;
use crate::kind::kind_of;
use crate::pins::read_pins;
use crate::times::read_times;
use csv::ByteRecord;
use name_table::NameTable;
use rsfq_ids::name::Name;
use rsfq_ids::table::{CellRow, Kind};
use rsfq_ids::table_fault::TableWhy;
use std::alloc::Global;
use table_fields::checks::{check_count, check_text};
use table_fields::names::is_plain_name;
use table_fields::records::{field_at, text_at};

/// Makes the first checks of a cell, and reads its kind.
#[tactic(auto, unfolding(table_fields::specs::Records::first_of))]
fn read_start(fields: &ByteRecord) -> Result<Kind, TableWhy>
    ensures passed { OnOk result (start_fault (fields_of fields.now) ≡ None) }
    ensures text { OnOk result (text_fault (fields_of fields.now) ≡ None) }
    ensures count { OnOk result (length (fields_of fields.now) ≡ 11) }
    ensures kind { IfOk result (λ kind. kind_of (field (fields_of fields.now) 1) ≡ Some kind) }
    ensures fault { IfErr result (λ why. start_fault (fields_of fields.now) ≡ Some why) }
{
    check_text(fields)?;
    check_count(fields, 11)?;
    if !is_plain_name(field_at(fields, 0)) {
        return Err(TableWhy::Name);
    }
    match kind_of(field_at(fields, 1)) {
        Some(kind) => Ok(kind),
        None => Err(TableWhy::Kind),
    }
}

/// Reads a cell of the table, where the cells before it have these names.
#[tactic(auto, unfolding(table_fields::specs::Records::first_of))]
pub(crate) fn read_cell(
    alloc: Global,
    fields: &ByteRecord,
    earlier: &NameTable<'_>,
) -> Result<CellRow, TableWhy>
    ensures passed { OnOk result (cell_fault earlier.now (fields_of fields.now) ≡ None) }
    ensures cell { IfOk result (StandsFor (fields_of fields.now)) }
    ensures text { OnOk result (text_fault (fields_of fields.now) ≡ None) }
    ensures count { OnOk result (length (fields_of fields.now) ≡ 11) }
    ensures fault { IfErr result (IsCause (cell_fault earlier.now (fields_of fields.now))) }
{
    let kind = read_start(fields)?;
    let inputs = text_at(fields, 2);
    let pins = read_pins(alloc, kind, inputs, text_at(fields, 3), text_at(fields, 4))?;
    let truth = read_function(kind, pins.inputs.len(), field_at(fields, 5))?;
    let times = read_times(kind, fields)?;
    let name = text_at(fields, 0);
    if let Some(place) = earlier.number(name) {
        return Err(TableWhy::Repeated(place + 1));
    }
    Ok(CellRow {
        name: Name::of(alloc, name)?,
        kind,
        inputs: pins.inputs,
        clock: pins.clock,
        outputs: pins.outputs,
        truth,
        low: times.low,
        high: times.high,
        setup: times.setup,
        hold: times.hold,
        dead: times.dead,
    })
}
