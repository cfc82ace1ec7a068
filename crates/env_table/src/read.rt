//! The timing table as a whole.

ghost use Rattle.std.specs.Prelude.{◌≡◌, ◌≢◌, ◌+◌, ◌<◌, ◌≤◌, ◌^◌, ℕ, suc, zero, OnOk, IfOk, IfErr, IfSome, None, Some, length, map, option_map, ◌-◌};
ghost use Rattle.csv.specs.Records.{fields_of};
ghost use Rattle.rsfq_ids.specs.declared.table_fault.TableWhy.{TableWhy};
ghost use Rattle.table_fields.specs.Records.{head_fault, records_of};
ghost use Rattle.env_table.specs.Lines.{AreLinesOf, IsEnv, IsFirstEnvFault, head, row_fault};
ghost use Rattle.env_table.specs.Said.{Adds, Blocks, IsReadUpTo};

use crate::env::{Env, EnvLine};
use crate::line::{Said, read_line};
use csv::ByteRecord;
use rsfq_ids::list::List;
use rsfq_ids::table_fault::{TableFault, TableWhy};
use std::alloc::Global;
use table_fields::checks::check_head;
use table_fields::records::read_records;

const NO_MEMORY: TableFault = TableFault {
    row: 0,
    why: TableWhy::Memory,
};

/// The period, and the place of its record behind the head.
#[derive(Clone, Copy)]
struct FoundPeriod {
    place: u32,
    time: i64,
}

/// What is read so far.
#[derive(Drop)]
struct SoFar {
    period: Option<FoundPeriod>,
    lines: List<EnvLine>,
}

fn check_env_head(fields: &ByteRecord) -> Result<(), TableWhy>
    ensures passed { OnOk result (head_fault head (fields_of fields.now) ≡ None) }
    ensures fault { IfErr result (λ why. head_fault head (fields_of fields.now) ≡ Some why) }
{
    check_head(fields, &["role", "port", "x", "y", "z"])
}

fn check_start(records: &[ByteRecord]) -> Result<(), TableFault>
    ensures passed { OnOk result (row_fault (map fields_of records.now) zero ≡ None) }
    ensures some { OnOk result (0 < length records.now) }
    ensures fault { IfErr result (λ fault. fault.why ≢ TableWhy.Memory → IsFirstEnvFault (map fields_of records.now) fault) }
{
    if records.is_empty() {
        return Err(TableFault {
            row: 0,
            why: TableWhy::Header,
        });
    }
    match check_env_head(&records[0]) {
        Ok(()) => Ok(()),
        Err(why) => Err(TableFault { row: 0, why }),
    }
}

/// Adds what the record at a place says.
fn add_said(so_far: &mut SoFar, place: u32, said: Said) -> Result<(), TableWhy>
    requires small { place < 2 ^ 32 - 1 }
    requires found { IfSome so_far.old.period (λ found. found.place < place) }
    ensures added { OnOk result (Adds so_far.old place said so_far.new) }
    ensures fault { IfErr result (λ why. why ≢ TableWhy.Memory → Blocks so_far.old said why) }
{
    match said {
        Said::Line(line) => {
            so_far.lines.push(line)?;
            Ok(())
        }
        Said::Period(time) => match so_far.period {
            Some(found) => Err(TableWhy::Repeated(found.place + 1)),
            None => {
                so_far.period = Some(FoundPeriod { place, time });
                Ok(())
            }
        },
    }
}

/// Reads the record at a place behind the head, from 0.
fn add_line(
    alloc: Global,
    records: &[ByteRecord],
    place: usize,
    so_far: &mut SoFar,
) -> Result<(), TableWhy>
    requires there { place + 1 < length records.now }
    requires few { length records.now < 2 ^ 32 }
    requires so_far { IsReadUpTo (map fields_of records.now) place so_far.old }
    ensures read { OnOk result (IsReadUpTo (map fields_of records.now) (place + 1) so_far.new) }
    ensures fault { IfErr result (λ why. why ≢ TableWhy.Memory → row_fault (map fields_of records.now) (suc place) ≡ Some why) }
{
    let said = match read_line(alloc, &records[place + 1]) {
        Ok(said) => said,
        Err(why) => return Err(why),
    };
    add_said(so_far, place as u32, said)
}

/// Ends a table of so many rows.
fn finish(so_far: SoFar, rows: u32) -> Result<Env, TableFault>
    ensures env { IfOk result (λ env. (option_map (λ found. found.time) so_far.period ≡ Some env.period) × (env.lines ≡ so_far.lines)) }
    ensures fault { IfErr result (λ fault. (fault.row ≡ rows) × (fault.why ≡ TableWhy.Period) × (so_far.period ≡ None)) }
{
    match so_far.period {
        None => Err(TableFault {
            row: rows,
            why: TableWhy::Period,
        }),
        Some(found) => Ok(Env {
            period: found.time,
            lines: so_far.lines,
        }),
    }
}

fn read_lines(alloc: Global, records: &[ByteRecord]) -> Result<Env, TableFault>
    requires some { 0 < length records.now }
    requires few { length records.now < 2 ^ 32 }
    requires head { row_fault (map fields_of records.now) zero ≡ None }
    ensures lines { IfOk result (AreLinesOf (map fields_of records.now)) }
    ensures fault { IfErr result (λ fault. fault.why ≢ TableWhy.Memory → IsFirstEnvFault (map fields_of records.now) fault) }
{
    let mut so_far = SoFar {
        period: None,
        lines: List::new(alloc),
    };
    for place in 0..records.len() - 1 {
        match add_line(alloc, records, place, &mut so_far) {
            Ok(()) => {}
            Err(why) => {
                return Err(TableFault {
                    row: place as u32 + 1,
                    why,
                });
            }
        }
    }
    finish(so_far, records.len() as u32)
}

/// Reads the bytes of a timing table.
///
/// A `TableFault` comes exactly where the bytes are no table, and names the first row, from 0, and the first cause;
/// want of memory alone is tied to no cause. Fewer rows than 2^32 are read, so that a `u32` counts them.
pub fn read_env(alloc: Global, bytes: &[u8]) -> Result<Env, TableFault>
    ensures few { OnOk result (length (records_of bytes.now) < 2 ^ 32) }
    ensures lines { IfOk result (AreLinesOf (records_of bytes.now)) }
    ensures well_formed { IfOk result IsEnv }
    ensures fault { IfErr result (λ fault. fault.why ≢ TableWhy.Memory → IsFirstEnvFault (records_of bytes.now) fault) }
    ensures few_refused { IfErr result (λ fault. fault.why ≢ TableWhy.Memory → length (records_of bytes.now) < 2 ^ 32) }
{
    let Ok(records) = read_records(alloc, bytes) else {
        return Err(NO_MEMORY);
    };
    check_start(&records)?;
    read_lines(alloc, &records)
}
