//! The checks of a record's fields that both tables make.

ghost use Rattle.std.specs.Prelude.{◌≡◌, None, Some, OnOk, IfOk, IfErr, map};
ghost use Rattle.std.specs.Str.{bytes_eq, is_utf8};
ghost use Rattle.csv.specs.Records.{fields_of};
ghost use Rattle.table_fields.specs.Records.{are_fields, count_fault, empty_fault, head_fault, text_fault, time_fault, time_of};

use crate::records::field_at;
use csv::ByteRecord;
use decimal_text::{NumberRead, read_digits};
use rsfq_ids::limits::TIME_LIMIT;
use rsfq_ids::table_fault::TableWhy;

fn is_text(field: &[u8]) -> bool
    ensures { result ≡ is_utf8 field.now }
{
    match std::str::from_utf8(field) {
        Ok(_) => true,
        Err(_) => false,
    }
}

/// Checks that every field of a record is UTF-8.
pub fn check_text(fields: &ByteRecord) -> Result<(), TableWhy>
    ensures good { OnOk result (text_fault (fields_of fields.now) ≡ None) }
    ensures fault { IfErr result (λ why. text_fault (fields_of fields.now) ≡ Some why) }
{
    for place in 0..fields.len() {
        if !is_text(field_at(fields, place)) {
            return Err(TableWhy::Utf8);
        }
    }
    Ok(())
}

/// Checks that a record has so many fields.
pub fn check_count(fields: &ByteRecord, count: usize) -> Result<(), TableWhy>
    ensures good { OnOk result (count_fault count (fields_of fields.now) ≡ None) }
    ensures fault { IfErr result (λ why. count_fault count (fields_of fields.now) ≡ Some why) }
{
    if fields.len() != count {
        return Err(TableWhy::Fields(fields.len() as u64));
    }
    Ok(())
}

/// Reads the field of a column, from 0, that holds a time of at least so many femtoseconds.
pub fn read_time(field: &[u8], column: u32, least: u64) -> Result<i64, TableWhy>
    ensures time { IfOk result (λ time. (time_fault column least field.now ≡ None) × (time ≡ time_of field.now)) }
    ensures fault { IfErr result (λ why. time_fault column least field.now ≡ Some why) }
{
    match read_digits(field, TIME_LIMIT) {
        NumberRead::Malformed => Err(TableWhy::Number(column)),
        NumberRead::TooLarge => Err(TableWhy::OutOfRange(column)),
        NumberRead::Value(number) => {
            if number < least {
                Err(TableWhy::OutOfRange(column))
            } else {
                Ok(number as i64)
            }
        }
    }
}

/// Checks that the field of a column is empty.
pub fn check_empty(field: &[u8], column: u32) -> Result<(), TableWhy>
    ensures good { OnOk result (empty_fault column field.now ≡ None) }
    ensures fault { IfErr result (λ why. empty_fault column field.now ≡ Some why) }
{
    if field.is_empty() {
        Ok(())
    } else {
        Err(TableWhy::Number(column))
    }
}

fn is_same(field: &[u8], wanted: &[u8]) -> bool
    ensures { result ≡ bytes_eq field.now wanted.now }
{
    field == wanted
}

fn are_fields(fields: &ByteRecord, wanted: &[&str]) -> bool
    ensures { result ≡ are_fields (map (λ field. field.now) wanted.now) (fields_of fields.now) }
{
    if fields.len() != wanted.len() {
        return false;
    }
    for place in 0..wanted.len() {
        if !is_same(field_at(fields, place), wanted[place].as_bytes()) {
            return false;
        }
    }
    true
}

/// Checks that a record is the head of a table.
#[tactic(auto, unfolding(crate::specs::Records::first_of))]
pub fn check_head(fields: &ByteRecord, head: &[&str]) -> Result<(), TableWhy>
    ensures good { OnOk result (head_fault (map (λ field. field.now) head.now) (fields_of fields.now) ≡ None) }
    ensures fault { IfErr result (λ why. head_fault (map (λ field. field.now) head.now) (fields_of fields.now) ≡ Some why) }
{
    check_text(fields)?;
    if !are_fields(fields, head) {
        return Err(TableWhy::Header);
    }
    Ok(())
}
