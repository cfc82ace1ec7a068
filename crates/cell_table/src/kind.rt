//! The kinds of cells by their words.

ghost use Rattle.std.specs.Prelude.{◌≡◌};
ghost use Rattle.cell_table.specs.Kinds.{fits_clock, fits_inputs, fits_outputs, kind_of};

use rsfq_ids::table::Kind;

/// The kind of a word, if it is one of the four.
pub(crate) fn kind_of(word: &[u8]) -> Option<Kind>
    ensures { result ≡ kind_of word.now }
{
    if word == b"jtl".as_slice() {
        Some(Kind::Jtl)
    } else if word == b"split".as_slice() {
        Some(Kind::Split)
    } else if word == b"merge".as_slice() {
        Some(Kind::Merge)
    } else if word == b"gate".as_slice() {
        Some(Kind::Gate)
    } else {
        None
    }
}

/// Whether a cell of the kind has so many inputs.
pub(crate) fn fits_inputs(kind: Kind, count: usize) -> bool
    ensures { result ≡ fits_inputs kind count }
{
    match kind {
        Kind::Jtl => count == 1,
        Kind::Split => count == 1,
        Kind::Merge => count == 2,
        Kind::Gate => 1 <= count && count <= 3,
    }
}

/// Whether a cell of the kind has so many outputs.
pub(crate) fn fits_outputs(kind: Kind, count: usize) -> bool
    ensures { result ≡ fits_outputs kind count }
{
    match kind {
        Kind::Jtl => count == 1,
        Kind::Split => count == 2,
        Kind::Merge => count == 1,
        Kind::Gate => count == 1,
    }
}

/// Whether a cell of the kind has such a clock field: any at a gate, else none.
pub(crate) fn fits_clock(kind: Kind, clock: &str) -> bool
    ensures { result ≡ fits_clock kind clock.now }
{
    match kind {
        Kind::Jtl => clock.is_empty(),
        Kind::Split => clock.is_empty(),
        Kind::Merge => clock.is_empty(),
        Kind::Gate => true,
    }
}
