//! Names of bits as they are written, and the places of bits in ranges.

ghost use Rattle.std.specs.Prelude.{◌≡◌, ◌≢◌, ℕ, ◌<◌, ◌^◌, ◌++◌, List, codes, decimal, Some, MatchOption};
ghost use Rattle.bind_sites.specs.Selects.{width_of, index_at};

use itoa::Buffer;

/// Splits the printed name of a vector's bit, as `a[3]`, into the vector's name and the index.
///
/// The index stands without a sign and without leading zeros, and fits 32 bits.
pub(crate) fn split_bit(printed: &str) -> Option<(&str, u32)>
    ensures { MatchOption result
        ((name : List ℕ) (index : ℕ) → index < 2 ^ 32 → printed.now ≢ name ++ codes "[" ++ decimal index ++ codes "]")
        (λ parts. (parts.1 < 2 ^ 32) × (printed.now ≡ parts.0.now ++ codes "[" ++ decimal parts.1 ++ codes "]")) }
{
    let (name, digits) = printed.strip_suffix(']')?.rsplit_once('[')?;
    let index = digits.parse().ok()?;
    let mut buffer = Buffer::new();
    if buffer.format(index) == digits {
        Some((name, index))
    } else {
        None
    }
}

/// The place of the bit with an index in a range `[left:right]`, where the right end is place 0.
pub(crate) fn place_in(left: u32, right: u32, index: u32) -> Option<u32>
    ensures { MatchOption result
        ((place : ℕ) → place < width_of (Some (left, right)) → index_at (left, right) place ≢ index)
        (λ place. (place < width_of (Some (left, right))) × (index_at (left, right) place ≡ index)) }
{
    if right <= index && index <= left {
        Some(index - right)
    } else if left <= index && index <= right {
        Some(right - index)
    } else {
        None
    }
}
