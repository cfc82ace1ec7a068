//! The bits that an operand takes of a wire.

ghost use Rattle.std.specs.Prelude.{◌≡◌, ℕ, Some};
ghost use Rattle.bind_sites.specs.Refused.{IsOutside};
ghost use Rattle.bind_sites.specs.Small.{AreSmall};
ghost use Rattle.verilog_bind.specs.Fitting.{AreBits};

use bind_names::{select, width_of};

/// The bits that an operand takes of a wire of this range: the place of the first, from the right end, and how many. All of them, where the
/// operand is a whole name.
pub(crate) fn bits_of(range: Option<(u32, u32)>, wanted: Option<(u32, u32)>) -> (u32, u32)
    requires small { AreSmall range }
    requires inside { (ends : ℕ × ℕ) → wanted ≡ Some ends → ¬ IsOutside range ends }
    ensures { AreBits range wanted result.0 result.1 }
{
    match (wanted, range) {
        (None, _) => (0, width_of(range) as u32),
        (Some(ends), Some(range)) => match select(range, ends) {
            Some((bit, count)) => (bit, count as u32),
            None => unreachable!(),
        },
        (Some(_), None) => unreachable!(),
    }
}
