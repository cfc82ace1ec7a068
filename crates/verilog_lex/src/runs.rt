//! Runs of bytes of one class: names, digits, escaped names, rests of lines.

ghost use Rattle.std.specs.Prelude.{◌≡◌, ◌≤◌, ◌+◌, length, drop, nat_le};
ghost use Rattle.std.specs.Char.{is_ascii_digit, is_ascii_graphic};
ghost use Rattle.std.specs.Str.Parse.{AllDigits, digits_value};
ghost use Rattle.verilog_lex.specs.Bytes.{is_part, is_in_line};
ghost use Rattle.verilog_lex.specs.Scan.{front};

use crate::byte_classes::is_part;
use memchr::memchr;

/// The end of a name's bytes from a place on.
pub(crate) fn name_end(text: &[u8], at: usize) -> usize
    requires { at ≤ length text.now }
    ensures end { result ≡ at + length (front is_part (drop at text.now)) }
    ensures within { result ≤ length text.now }
{
    let mut end = at;
    'more: while end < text.len() && is_part(text[end]) {
        end += 1;
    }
    end
}

/// The end of the digits from a place on.
pub(crate) fn digits_end(text: &[u8], at: usize) -> usize
    requires { at ≤ length text.now }
    ensures end { result ≡ at + length (front is_ascii_digit (drop at text.now)) }
    ensures within { result ≤ length text.now }
{
    let mut end = at;
    'more: while end < text.len() && text[end].is_ascii_digit() {
        end += 1;
    }
    end
}

/// The end of an escaped name's bytes from a place on.
pub(crate) fn graphic_end(text: &[u8], at: usize) -> usize
    requires { at ≤ length text.now }
    ensures end { result ≡ at + length (front is_ascii_graphic (drop at text.now)) }
    ensures within { result ≤ length text.now }
{
    let mut end = at;
    'more: while end < text.len() && text[end].is_ascii_graphic() {
        end += 1;
    }
    end
}

/// The end of the line that goes on at a place.
pub(crate) fn line_end(text: &[u8], at: usize) -> usize
    requires { at ≤ length text.now }
    ensures end { result ≡ at + length (front is_in_line (drop at text.now)) }
{
    match memchr(b'\n', &text[at..]) {
        Some(place) => at + place,
        None => text.len(),
    }
}

/// Whether the value of these digits is at most 999,999,999. Leading zeros do not count.
pub(crate) fn is_small(digits: &[u8]) -> bool
    requires { AllDigits 10 digits.now }
    ensures { result ≡ nat_le (digits_value 10 digits.now) 999999999 }
{
    let mut value: u64 = 0;
    for byte in digits {
        if value <= 999_999_999 {
            value = value * 10 + u64::from(byte.saturating_sub(b'0'));
        }
    }
    value <= 999_999_999
}
