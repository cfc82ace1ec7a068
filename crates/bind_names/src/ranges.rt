//! Selects of a range.

ghost use Rattle.std.specs.Prelude.{◌≡◌, ◌+◌, ◌<◌, ℕ, Some, IfSome, IfNone};
ghost use Rattle.bind_sites.specs.Selects.{width_of, index_at, Selects};

/// The number of bits of a range.
pub fn width_of(range: Option<(u32, u32)>) -> u64
    ensures { result ≡ width_of range }
{
    match range {
        None => 1,
        Some((left, right)) => left.abs_diff(right) as u64 + 1,
    }
}

/// The place of the bit of an index, where the right end of the range is place 0; `None` where the range lacks the index.
fn place_of(range: (u32, u32), index: u32) -> Option<u32>
    ensures found { IfSome result (λ place. (place < width_of (Some range)) × (index_at range place ≡ index)) }
    ensures missed { IfNone result ((place : ℕ) → place < width_of (Some range) → ¬ (index_at range place ≡ index)) }
{
    let (left, right) = range;
    if right <= left {
        if right <= index && index <= left {
            return Some(index - right);
        }
        return None;
    }
    if left <= index && index <= right {
        return Some(right - index);
    }
    None
}

/// The bits that a select takes of a range: the place of the first, from the right end, and how many. `None` where the select is outside the
/// range or against its direction.
pub fn select(range: (u32, u32), select: (u32, u32)) -> Option<(u32, u64)>
    ensures found { IfSome result (λ part. Selects range select part.0 part.1) }
    ensures missed { IfNone result ((bit count : ℕ) → ¬ Selects range select bit count) }
{
    let last = place_of(range, select.0)?;
    let bit = place_of(range, select.1)?;
    if bit <= last {
        Some((bit, (last - bit) as u64 + 1))
    } else {
        None
    }
}
