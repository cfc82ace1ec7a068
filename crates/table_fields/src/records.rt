//! The records of a table, by csv's rules.

ghost use Rattle.std.specs.Prelude.{◌≡◌, ◌<◌, ◌^◌, IfOk, OnOk, None, map, length};
ghost use Rattle.csv.specs.Records.{fields_of};
ghost use Rattle.table_fields.specs.Records.{field, records_of, text_fault};

use csv::{ByteRecord, ReaderBuilder};
use rsfq_ids::list::NoMemory;
use std::alloc::Global;

/// All records of the bytes, none of them a head, with any number of fields each.
/// More records than a `u32` counts are answered as want of memory.
pub fn read_records(alloc: Global, bytes: &[u8]) -> Result<Vec<ByteRecord>, NoMemory>
    ensures records { IfOk result (λ v. map fields_of v.items ≡ records_of bytes.now) }
    ensures few { IfOk result (λ v. length v.items < 2 ^ 32) }
    ensures rows { OnOk result (length (records_of bytes.now) < 2 ^ 32) }
{
    let reader = ReaderBuilder::new()
        .has_headers(false)
        .flexible(true)
        .from_reader(alloc, bytes);
    let mut rows = Vec::new(alloc);
    for row in reader.into_byte_records() {
        // A slice can't fail to be read, no record has a wrong length or must be text: this is memory.
        let Ok(row) = row else {
            return Err(NoMemory);
        };
        rows.push(row)?;
    }
    if rows.len() > 0xffff_ffff {
        return Err(NoMemory);
    }
    Ok(rows)
}

/// The field at a place that the record has.
pub fn field_at(row: &ByteRecord, place: usize) -> &[u8]
    requires { place < length (fields_of row.now) }
    ensures { result.now ≡ field (fields_of row.now) place }
{
    row.get(place).unwrap()
}

/// The same field as a text, of a record whose fields are all UTF-8.
pub fn text_at(row: &ByteRecord, place: usize) -> &str
    requires place { place < length (fields_of row.now) }
    requires text { text_fault (fields_of row.now) ≡ None }
    ensures { result.now ≡ field (fields_of row.now) place }
{
    std::str::from_utf8(field_at(row, place)).unwrap()
}
