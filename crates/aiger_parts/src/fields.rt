//! Fields of lines: numbers in digits, and what stands behind them.

ghost use Rattle.std.specs.Prelude.{◌≡◌, ◌≢◌, ◌≤◌, length, IfErr};
ghost use Rattle.aiger_parts.specs.Reading.{Gives, with_digit, number_of, ends_field, field_length, number_at, field_at};

use crate::fault::{AigerWhy, ReadStop, Stop};

/// The number that a digit makes of those before it, if it is a digit and the number is below 2^32.
fn add_digit(value: u32, byte: u8) -> Option<u32>
    ensures { result ≡ with_digit value byte }
{
    if !byte.is_ascii_digit() {
        return None;
    }
    let next = u64::from(value) * 10 + u64::from(byte.saturating_sub(b'0'));
    if next < 4_294_967_296 {
        Some(next as u32)
    } else {
        None
    }
}

/// The number that a field writes, if it is one or more digits of a value below 2^32.
pub(crate) fn parse_number(field: &[u8]) -> Option<u32>
    ensures { result ≡ number_of field.now }
{
    if field.is_empty() {
        return None;
    }
    let mut value: u32 = 0;
    for byte in field {
        value = add_digit(value, *byte)?;
    }
    Some(value)
}

/// Whether a field ends before this byte: at a space or a newline.
fn ends_field(byte: u8) -> bool
    ensures { result ≡ ends_field byte }
{
    byte == b' ' || byte == b'\n'
}

/// How many bytes stand before the next space, newline or end.
pub(crate) fn measure_field(bytes: &[u8]) -> usize
    ensures is { result ≡ field_length bytes.now }
    ensures within { result ≤ length bytes.now }
{
    for (place, byte) in bytes.iter().enumerate() {
        if ends_field(*byte) {
            return place;
        }
    }
    bytes.len()
}

/// The number that stands at the front, up to a space, a newline or the end, and the bytes from there on.
///
/// # Errors
///
/// `Number` at the front, where what stands there up to the space, newline or end is not one digit or more of a value below 2^32.
pub fn take_number(bytes: &[u8]) -> Result<(u32, &[u8]), ReadStop>
    ensures is { Gives (λ x. (x.0, x.1.now)) result (number_at bytes.now) }
    ensures memory { IfErr result (λ e. e ≢ ReadStop.Memory) }
{
    let end = measure_field(bytes);
    match parse_number(&bytes[..end]) {
        Some(value) => Ok((value, &bytes[end..])),
        None => Err(ReadStop::At(Stop {
            left: bytes.len(),
            why: AigerWhy::Number,
        })),
    }
}

/// The same, and the bytes behind the space or newline.
pub(crate) fn take_field(bytes: &[u8]) -> Result<(u32, &[u8]), ReadStop>
    ensures is { Gives (λ x. (x.0, x.1.now)) result (field_at bytes.now) }
    ensures memory { IfErr result (λ e. e ≢ ReadStop.Memory) }
{
    let (value, rest) = take_number(bytes)?;
    match rest {
        [] => Ok((value, rest)),
        [_, behind @ ..] => Ok((value, behind)),
    }
}
