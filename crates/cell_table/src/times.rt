//! The times of a cell.

ghost use Rattle.std.specs.Prelude.{◌≡◌, ◌<◌, ◌≤◌, IfOk, IfErr, None, Some, length};
ghost use Rattle.csv.specs.Records.{fields_of};
ghost use Rattle.table_fields.specs.Records.{empty_fault, field, time_of};
ghost use Rattle.cell_table.specs.Fields.{guard_fault, least_dead, times_fault};

use csv::ByteRecord;
use rsfq_ids::table::Kind;
use rsfq_ids::table_fault::TableWhy;
use table_fields::checks::{check_empty, read_time};
use table_fields::records::field_at;

/// The times of a cell, in femtoseconds.
#[derive(Clone, Copy)]
pub(crate) struct Times {
    pub(crate) low: i64,
    pub(crate) high: i64,
    pub(crate) setup: i64,
    pub(crate) hold: i64,
    pub(crate) dead: i64,
}

fn read_guard(kind: Kind, field: &[u8], column: u32) -> Result<i64, TableWhy>
    ensures time { IfOk result (λ time. (guard_fault kind column field.now ≡ None) × (time ≡ time_of field.now)) }
    ensures fault { IfErr result (λ why. guard_fault kind column field.now ≡ Some why) }
{
    match kind {
        Kind::Jtl => read_nothing(field, column),
        Kind::Split => read_nothing(field, column),
        Kind::Merge => read_nothing(field, column),
        Kind::Gate => read_time(field, column, 1),
    }
}

fn read_nothing(field: &[u8], column: u32) -> Result<i64, TableWhy>
    ensures time { IfOk result (λ time. (empty_fault column field.now ≡ None) × (time ≡ time_of field.now)) }
    ensures fault { IfErr result (λ why. empty_fault column field.now ≡ Some why) }
{
    check_empty(field, column)?;
    Ok(0)
}

fn least_dead(kind: Kind) -> u64
    ensures { result ≡ least_dead kind }
{
    match kind {
        Kind::Jtl => 0,
        Kind::Split => 0,
        Kind::Merge => 0,
        Kind::Gate => 1,
    }
}

/// Reads the columns of times of a record, from column 6 on.
#[tactic(auto, unfolding(table_fields::specs::Records::first_of))]
pub(crate) fn read_times(kind: Kind, fields: &ByteRecord) -> Result<Times, TableWhy>
    requires { length (fields_of fields.now) ≡ 11 }
    ensures passed { IfOk result (λ times. times_fault kind (fields_of fields.now) ≡ None) }
    ensures low { IfOk result (λ times. times.low ≡ time_of (field (fields_of fields.now) 6)) }
    ensures high { IfOk result (λ times. times.high ≡ time_of (field (fields_of fields.now) 7)) }
    ensures setup { IfOk result (λ times. times.setup ≡ time_of (field (fields_of fields.now) 8)) }
    ensures hold { IfOk result (λ times. times.hold ≡ time_of (field (fields_of fields.now) 9)) }
    ensures dead { IfOk result (λ times. times.dead ≡ time_of (field (fields_of fields.now) 10)) }
    ensures fault { IfErr result (λ why. times_fault kind (fields_of fields.now) ≡ Some why) }
{
    let low = read_time(field_at(fields, 6), 6, 0)?;
    let high = read_time(field_at(fields, 7), 7, 0)?;
    let setup = read_guard(kind, field_at(fields, 8), 8)?;
    let hold = read_guard(kind, field_at(fields, 9), 9)?;
    let dead = read_time(field_at(fields, 10), 10, least_dead(kind))?;
    if low > high {
        return Err(TableWhy::Interval);
    }
    Ok(Times {
        low,
        high,
        setup,
        hold,
        dead,
    })
}
