//! The ANDs of the binary form: two differences of literals each, in groups of seven bits, low group first.

ghost use Rattle.std.specs.Prelude.{◌≡◌, ◌≤◌, ◌+◌, ◌*◌};
ghost use Rattle.rsfq_ids.specs.declared.limits.TheConstants.{AIG_LIMIT};
ghost use Rattle.std.specs.Option.{option_map};
ghost use Rattle.aiger_parts.specs.Reading.{Gives, groups_at, is_cut, difference_at, and_at, many_at};

use crate::fault::{AigerWhy, ReadStop, Stop};
use golden_aig::And;
use rsfq_ids::list::List;
use std::alloc::Global;

/// The number in at most `most` groups, if it is below 2^32, and the bytes behind it.
fn take_groups(most: u32, bytes: &[u8]) -> Option<(u32, &[u8])>
    ensures { option_map (λ x. (x.0, x.1.now)) result ≡ groups_at most bytes.now }
{
    if most == 0 {
        return None;
    }
    match bytes {
        [] => None,
        [byte, behind @ ..] => {
            if *byte < 128 {
                return Some((u32::from(*byte), behind));
            }
            let (high, rest) = take_groups(most - 1, behind)?;
            let value = u64::from(*byte - 128) + 128 * u64::from(high);
            if value < 4_294_967_296 {
                Some((value as u32, rest))
            } else {
                None
            }
        }
    }
}

/// Whether the file ends before the last of at most `most` groups.
fn is_cut(most: u32, bytes: &[u8]) -> bool
    ensures { result ≡ is_cut most bytes.now }
{
    if most == 0 {
        return false;
    }
    match bytes {
        [] => true,
        [byte, behind @ ..] => {
            if *byte < 128 {
                return false;
            }
            is_cut(most - 1, behind)
        }
    }
}

/// A difference, in at most five groups.
#[tactic(auto, unfolding(crate::specs::Reading::difference_at))]
fn take_difference(bytes: &[u8]) -> Result<(u32, &[u8]), ReadStop>
    ensures { Gives (λ x. (x.0, x.1.now)) result (difference_at bytes.now) }
{
    if is_cut(5, bytes) {
        return Err(ReadStop::At(Stop {
            left: 0,
            why: AigerWhy::Truncated,
        }));
    }
    match take_groups(5, bytes) {
        Some(found) => Ok(found),
        None => Err(ReadStop::At(Stop {
            left: bytes.len(),
            why: AigerWhy::Number,
        })),
    }
}

/// An AND of a literal, by the differences from the literal to its operands.
#[tactic(auto, unfolding(crate::specs::Reading::and_at))]
fn take_and(lhs: u32, bytes: &[u8]) -> Result<(And, &[u8]), ReadStop>
    ensures { Gives (λ x. (x.0, x.1.now)) result (and_at lhs bytes.now) }
{
    let (first, rest) = take_difference(bytes)?;
    if first == 0 || lhs < first {
        return Err(ReadStop::At(Stop {
            left: bytes.len(),
            why: AigerWhy::Order,
        }));
    }
    let rhs0 = lhs - first;
    let (second, behind) = take_difference(rest)?;
    if rhs0 < second {
        return Err(ReadStop::At(Stop {
            left: rest.len(),
            why: AigerWhy::Order,
        }));
    }
    let and = And {
        lhs,
        rhs0,
        rhs1: rhs0 - second,
    };
    Ok((and, behind))
}

/// `count` ANDs, which make the variables behind the inputs, and the bytes behind them. There are at most 1,000,000 inputs and ANDs
/// together.
///
/// # Errors
///
/// The first fault: `Truncated` at the end of a file that ends before or inside a difference; at a difference `Number`, where it has more
/// than five groups or is not below 2^32, or `Order`, where it leads below 0 or is a first one of 0; or want of memory.
pub fn take_ands(
    alloc: Global,
    inputs: u32,
    count: u32,
    bytes: &[u8],
) -> Result<(List<And>, &[u8]), ReadStop>
    requires { inputs + count ≤ AIG_LIMIT }
    ensures { Gives (λ x. (x.0, x.1.now)) result (many_at (λ place. and_at (2 * (inputs + place + 1))) 0 count bytes.now) }
{
    let mut ands = List::new(alloc);
    let mut rest = bytes;
    for place in 0..count {
        let (and, behind) = take_and(2 * (inputs + place + 1), rest)?;
        ands.push(and)?;
        rest = behind;
    }
    Ok((ands, rest))
}
