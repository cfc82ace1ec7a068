//! The cell table as a whole.

ghost use Rattle.std.specs.Prelude.{◌≡◌, ◌≢◌, ◌+◌, ◌-◌, ◌<◌, ◌≤◌, ◌^◌, ◌++◌, ◌∷◌, ℕ, [], suc, zero, OnOk, IfOk, IfErr, None, Some, length, map, slice_index_or};
ghost use Rattle.std.specs.List.{All};
ghost use Rattle.csv.specs.Records.{fields_of};
ghost use Rattle.rsfq_ids.specs.WellFormed.{IsTable};
ghost use Rattle.rsfq_ids.specs.declared.table.CellRow.{CellRow};
ghost use Rattle.rsfq_ids.specs.declared.table_fault.TableWhy.{TableWhy};
ghost use Rattle.table_fields.specs.Records.{head_fault, records_of};
ghost use Rattle.cell_table.specs.Cells.{AreCellsOf, HasPlainNames, HaveDigits, IsFirstCellFault, StandsFor, first_names, head, row_fault};

use crate::cell::read_cell;
use csv::ByteRecord;
use name_table::{NameTable, TextKeyed};
use rsfq_ids::list::List;
use rsfq_ids::table::{CellRow, CellTable};
use rsfq_ids::table_fault::{TableFault, TableWhy};
use std::alloc::Global;
use table_fields::checks::check_head;
use table_fields::records::{read_records, text_at};

const NO_MEMORY: TableFault = TableFault {
    row: 0,
    why: TableWhy::Memory,
};

fn check_cell_head(fields: &ByteRecord) -> Result<(), TableWhy>
    ensures passed { OnOk result (head_fault head (fields_of fields.now) ≡ None) }
    ensures fault { IfErr result (λ why. head_fault head (fields_of fields.now) ≡ Some why) }
{
    let head = [
        "cell", "kind", "inputs", "clock", "outputs", "function", "lo", "hi", "setup", "hold",
        "dead",
    ];
    check_head(fields, &head)
}

fn check_start(records: &[ByteRecord]) -> Result<(), TableFault>
    ensures passed { OnOk result (row_fault (map fields_of records.now) zero ≡ None) }
    ensures some { OnOk result (0 < length records.now) }
    ensures fault { IfErr result (λ fault. fault.why ≢ TableWhy.Memory → IsFirstCellFault (map fields_of records.now) fault) }
{
    if records.is_empty() {
        return Err(TableFault {
            row: 0,
            why: TableWhy::Header,
        });
    }
    match check_cell_head(&records[0]) {
        Ok(()) => Ok(()),
        Err(why) => Err(TableFault { row: 0, why }),
    }
}

/// Reads the cell at a place, from 0, which stands in the row after it, and adds it and its name.
fn add_cell<'a>(
    alloc: Global,
    records: &'a [ByteRecord],
    place: usize,
    names: &mut NameTable<'a>,
    cells: &mut List<CellRow>,
) -> Result<(), TableWhy>
    requires there { place + 1 < length records.now }
    requires few { length records.now < 2 ^ 32 }
    requires names { names.old ≡ first_names (map fields_of records.now) place }
    ensures passed { OnOk result (row_fault (map fields_of records.now) (suc place) ≡ None) }
    ensures cell { OnOk result ((cell : CellRow) × (cells.new ≡ cells.old ++ cell ∷ []) × StandsFor (slice_index_or (map fields_of records.now) (suc place) []) cell) }
    ensures names { OnOk result (names.new ≡ first_names (map fields_of records.now) (place + 1)) }
    ensures fault { IfErr result (λ why. why ≢ TableWhy.Memory → row_fault (map fields_of records.now) (suc place) ≡ Some why) }
{
    let fields = &records[place + 1];
    let cell = read_cell(alloc, fields, names)?;
    names.see(text_at(fields, 0))?;
    cells.push(cell)?;
    Ok(())
}

/// Reads the rows behind the head, whose names are hashed by these keys.
fn read_rows(
    alloc: Global,
    records: &[ByteRecord],
    keys: TextKeyed,
) -> Result<CellTable, TableFault>
    requires some { 0 < length records.now }
    requires few { length records.now < 2 ^ 32 }
    requires head { row_fault (map fields_of records.now) zero ≡ None }
    ensures cells { IfOk result (AreCellsOf (map fields_of records.now)) }
    ensures fault { IfErr result (λ fault. fault.why ≢ TableWhy.Memory → IsFirstCellFault (map fields_of records.now) fault) }
{
    let mut names = NameTable::new(alloc, keys);
    let mut rows = List::new(alloc);
    for place in 0..records.len() - 1 {
        match add_cell(alloc, records, place, &mut names, &mut rows) {
            Ok(()) => {}
            Err(why) => {
                return Err(TableFault {
                    row: place as u32 + 1,
                    why,
                });
            }
        }
    }
    Ok(CellTable { rows })
}

/// Reads the bytes of a cell table.
///
/// A `TableFault` comes exactly where the bytes are no table, and names the first row, from 0, and the first cause;
/// want of memory alone is tied to no cause. Fewer rows than 2^32 are read, so that a `u32` counts them.
pub fn read_cells(alloc: Global, bytes: &[u8]) -> Result<CellTable, TableFault>
    ensures few { OnOk result (length (records_of bytes.now) < 2 ^ 32) }
    ensures cells { IfOk result (AreCellsOf (records_of bytes.now)) }
    ensures well_formed { IfOk result IsTable }
    ensures plain { IfOk result (λ table. All HasPlainNames table.rows) }
    ensures digits { IfOk result (HaveDigits (records_of bytes.now)) }
    ensures fault { IfErr result (λ fault. fault.why ≢ TableWhy.Memory → IsFirstCellFault (records_of bytes.now) fault) }
    ensures few_refused { IfErr result (λ fault. fault.why ≢ TableWhy.Memory → length (records_of bytes.now) < 2 ^ 32) }
{
    let Ok(records) = read_records(alloc, bytes) else {
        return Err(NO_MEMORY);
    };
    check_start(&records)?;
    read_rows(alloc, &records, TextKeyed::of(bytes))
}
