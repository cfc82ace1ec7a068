//! Numbers and literals in decimal digits, read and written.
ghost use Rattle.std.specs.Int.{w64};
ghost use Rattle.rsfq_ids.specs.declared.limits.TheConstants.{FORMULA_LIMIT};
ghost use Rattle.std.specs.Prelude.{FitsSigned, ◌≡◌, ◌<◌, ◌≤◌, ◌++◌, length, take, OnOk, OnErr};
ghost use Rattle.dimacs_text.specs.Text.{literal_text};
ghost use Rattle.dimacs_text.specs.Number.{signed_of, whole_of, literal_of};

use decimal_text::{append_number, read_number};
use rsfq_ids::id::{Id, Lit};
use std::alloc::AllocError;

/// Appends a literal. After a refusal some bytes may stand behind those that were there.
pub fn append_literal(out: &mut Vec<u8>, lit: Lit) -> Result<(), AllocError>
    ensures ok { OnOk result (out.new.items ≡ out.old.items ++ literal_text lit) }
    ensures err { OnErr result (take (length out.old.items) out.new.items ≡ out.old.items) }
{
    let number = lit.index() as u64;
    if number % 2 == 1 {
        out.extend_from_slice(b"-")?;
    }
    append_number(out, number / 2 + 1)
}

/// A number as a field writes it: behind a hyphen or not, and its size. `-0` is one too.
#[derive(Clone, Copy, Debug, PartialEq, Eq)]
pub struct Signed {
    pub negative: bool,
    pub size: u32,
}

impl Signed {
    /// The number as it is read: below 0 behind a hyphen.
    pub fn whole(self) -> i64
        ensures whole { result ≡ whole_of self }
        ensures fits { FitsSigned w64 result }
    {
        let size = i64::from(self.size);
        if self.negative { -size } else { size }
    }

    /// The literal of the number. 0 gives that of 1.
    pub fn literal(self) -> Lit
        requires { self.size ≤ FORMULA_LIMIT }
        ensures { result ≡ literal_of self }
    {
        Lit::of(2 * self.size.saturating_sub(1) + u32::from(self.negative))
    }
}

/// The number of a field that is digits with an optional hyphen, of a size up to 4,294,967,295, and else `None`.
pub fn read_signed(field: &[u8]) -> Option<Signed>
    ensures { result ≡ signed_of field.now }
{
    let negative = !field.is_empty() && field[0] == b'-';
    let digits = if negative { &field[1..] } else { field };
    match read_number(digits, u32::MAX) {
        Some(size) => Some(Signed { negative, size }),
        None => None,
    }
}
