//! One line of the table.

ghost use Rattle.std.specs.Prelude.{◌≡◌, ◌≢◌, OnOk, IfOk, IfErr, None, Some, length, ℤ, ◌∷◌, []};
ghost use Rattle.csv.specs.Records.{fields_of};
ghost use Rattle.rsfq_ids.specs.declared.table_fault.TableWhy.{TableWhy};
ghost use Rattle.table_fields.specs.Records.{IsCause, count_fault, field, first_of, text_fault, time_of, unless};
ghost use Rattle.env_table.specs.Roles.{fits_port, one_fault, role_of, times_fault};
ghost use Rattle.env_table.specs.Lines.{role_in, start_fault};
ghost use Rattle.env_table.specs.Said.{SaysAs};

use crate::env::EnvLine;
use crate::role::{Role, fits_port, role_of};
use csv::ByteRecord;
use rsfq_ids::circuit::{PortUse, Strobe};
use rsfq_ids::name::Name;
use rsfq_ids::table_fault::TableWhy;
use std::alloc::Global;
use table_fields::checks::{check_count, check_empty, check_text, read_time};
use table_fields::records::{field_at, text_at};

/// What a line says: the period, or something of a port.
#[derive(Drop)]
pub(crate) enum Said {
    Period(i64),
    Line(EnvLine),
}

/// Makes the first checks of a line, and reads its role.
#[tactic(auto, unfolding(table_fields::specs::Records::first_of))]
pub(crate) fn read_start(fields: &ByteRecord) -> Result<Role, TableWhy>
    ensures passed { OnOk result (start_fault (fields_of fields.now) ≡ None) }
    ensures text { OnOk result (text_fault (fields_of fields.now) ≡ None) }
    ensures count { OnOk result (length (fields_of fields.now) ≡ 5) }
    ensures role { IfOk result (λ role. role_of (field (fields_of fields.now) 0) ≡ Some role) }
    ensures fault { IfErr result (λ why. start_fault (fields_of fields.now) ≡ Some why) }
{
    check_text(fields)?;
    check_count(fields, 5)?;
    let Some(role) = role_of(field_at(fields, 0)) else {
        return Err(TableWhy::Kind);
    };
    if !fits_port(role, field_at(fields, 1)) {
        return Err(TableWhy::Pins);
    }
    Ok(role)
}

/// Reads a time and two empty columns.
#[tactic(auto, unfolding(table_fields::specs::Records::first_of))]
fn read_one(fields: &ByteRecord, least: u64) -> Result<i64, TableWhy>
    requires { length (fields_of fields.now) ≡ 5 }
    ensures time { IfOk result (λ time. (one_fault least (fields_of fields.now) ≡ None) × (time ≡ time_of (field (fields_of fields.now) 2))) }
    ensures fault { IfErr result (λ why. one_fault least (fields_of fields.now) ≡ Some why) }
{
    let time = read_time(field_at(fields, 2), 2, least)?;
    check_empty(field_at(fields, 3), 3)?;
    check_empty(field_at(fields, 4), 4)?;
    Ok(time)
}

#[tactic(auto, unfolding(table_fields::specs::Records::first_of))]
fn read_arrival(fields: &ByteRecord) -> Result<PortUse, TableWhy>
    requires { length (fields_of fields.now) ≡ 5 }
    ensures arrival { IfOk result (λ used. (times_fault Role.Input (fields_of fields.now) ≡ None) × (used ≡ PortUse.Arrival (time_of (field (fields_of fields.now) 2)) (time_of (field (fields_of fields.now) 3)))) }
    ensures fault { IfErr result (λ why. times_fault Role.Input (fields_of fields.now) ≡ Some why) }
{
    let low = read_time(field_at(fields, 2), 2, 0)?;
    let high = read_time(field_at(fields, 3), 3, 0)?;
    check_empty(field_at(fields, 4), 4)?;
    if low > high {
        return Err(TableWhy::Interval);
    }
    Ok(PortUse::Arrival { low, high })
}

#[tactic(auto, unfolding(table_fields::specs::Records::first_of))]
fn read_strobe(fields: &ByteRecord) -> Result<Strobe, TableWhy>
    requires { length (fields_of fields.now) ≡ 5 }
    ensures passed { OnOk result (times_fault Role.Output (fields_of fields.now) ≡ None) }
    ensures offset { IfOk result (λ strobe. strobe.offset ≡ time_of (field (fields_of fields.now) 2)) }
    ensures setup { IfOk result (λ strobe. strobe.setup ≡ time_of (field (fields_of fields.now) 3)) }
    ensures hold { IfOk result (λ strobe. strobe.hold ≡ time_of (field (fields_of fields.now) 4)) }
    ensures fault { IfErr result (λ why. times_fault Role.Output (fields_of fields.now) ≡ Some why) }
{
    let offset = read_time(field_at(fields, 2), 2, 0)?;
    let setup = read_time(field_at(fields, 3), 3, 1)?;
    let hold = read_time(field_at(fields, 4), 4, 1)?;
    Ok(Strobe {
        offset,
        setup,
        hold,
    })
}

fn read_port(alloc: Global, fields: &ByteRecord) -> Result<Name, TableWhy>
    requires count { length (fields_of fields.now) ≡ 5 }
    requires text { text_fault (fields_of fields.now) ≡ None }
    ensures port { IfOk result (λ port. port ≡ field (fields_of fields.now) 1) }
    ensures memory { IfErr result (λ why. why ≡ TableWhy.Memory) }
{
    Ok(Name::of(alloc, text_at(fields, 1))?)
}

fn read_as(alloc: Global, role: Role, fields: &ByteRecord) -> Result<Said, TableWhy>
    requires count { length (fields_of fields.now) ≡ 5 }
    requires text { text_fault (fields_of fields.now) ≡ None }
    ensures passed { OnOk result (times_fault role (fields_of fields.now) ≡ None) }
    ensures said { IfOk result (SaysAs role (fields_of fields.now)) }
    ensures fault { IfErr result (IsCause (times_fault role (fields_of fields.now))) }
{
    match role {
        Role::Period => Ok(Said::Period(read_one(fields, 1)?)),
        Role::Clock => {
            let jitter = read_one(fields, 0)?;
            Ok(Said::Line(EnvLine {
                port: read_port(alloc, fields)?,
                used: PortUse::Clock,
                jitter,
            }))
        }
        Role::Input => {
            let used = read_arrival(fields)?;
            Ok(Said::Line(EnvLine {
                port: read_port(alloc, fields)?,
                used,
                jitter: 0,
            }))
        }
        Role::Output => {
            let strobe = read_strobe(fields)?;
            Ok(Said::Line(EnvLine {
                port: read_port(alloc, fields)?,
                used: PortUse::Strobed(strobe),
                jitter: 0,
            }))
        }
    }
}

/// Reads what a record says, whatever the records before it say.
#[tactic(auto, unfolding(table_fields::specs::Records::first_of))]
pub(crate) fn read_line(alloc: Global, fields: &ByteRecord) -> Result<Said, TableWhy>
    ensures start { OnOk result (start_fault (fields_of fields.now) ≡ None) }
    ensures times { OnOk result (times_fault (role_in (fields_of fields.now)) (fields_of fields.now) ≡ None) }
    ensures said { IfOk result (SaysAs (role_in (fields_of fields.now)) (fields_of fields.now)) }
    ensures fault { IfErr result (IsCause (first_of (start_fault (fields_of fields.now) ∷ times_fault (role_in (fields_of fields.now)) (fields_of fields.now) ∷ []))) }
{
    let role = read_start(fields)?;
    read_as(alloc, role, fields)
}
