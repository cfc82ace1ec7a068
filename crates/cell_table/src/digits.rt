//! The truth string of a cell.

ghost use Rattle.std.specs.Prelude.{◌≡◌, ◌≤◌, ◌<◌, ◌^◌, ◌==◌, true, length, OnOk, IfOk, IfErr, None, Some};
ghost use Rattle.std.specs.List.{list_all};
ghost use Rattle.cell_table.specs.Fields.{fits_function, function_fault, is_bit, truth_of};

use rsfq_ids::table::Kind;
use rsfq_ids::table_fault::TableWhy;

fn are_bits(digits: &[u8]) -> bool
    ensures { result ≡ list_all is_bit digits.now }
{
    digits.iter().all(|digit| *digit == b'0' || *digit == b'1')
}

fn fits_function(kind: Kind, inputs: usize, digits: &[u8]) -> bool
    requires { inputs ≤ 4 }
    ensures { result ≡ fits_function kind inputs digits.now }
{
    match kind {
        Kind::Jtl => digits.is_empty(),
        Kind::Split => digits.is_empty(),
        Kind::Merge => digits.is_empty(),
        Kind::Gate => digits.len() == 1 << inputs && are_bits(digits),
    }
}

fn truth_of(digits: &[u8]) -> u16
    requires few { length digits.now ≤ 16 }
    requires bits { list_all is_bit digits.now ≡ true }
    ensures value { result ≡ truth_of digits.now }
    ensures small { result < 2 ^ length digits.now }
{
    if digits.is_empty() {
        return 0;
    }
    u16::from(digits[0] - b'0') + 2 * truth_of(&digits[1..])
}

/// Reads the truth string of a cell of so many inputs.
pub(crate) fn read_function(kind: Kind, inputs: usize, digits: &[u8]) -> Result<u16, TableWhy>
    requires { inputs ≤ 4 }
    ensures passed { OnOk result (function_fault kind inputs digits.now ≡ None) }
    ensures truth { IfOk result (λ truth. truth ≡ truth_of digits.now) }
    ensures fault { IfErr result (λ why. function_fault kind inputs digits.now ≡ Some why) }
{
    if !fits_function(kind, inputs, digits) {
        return Err(TableWhy::Function);
    }
    Ok(truth_of(digits))
}
