//! Numbers that fields of digits write.

ghost use Rattle.std.specs.Prelude.{◌≡◌, ◌<◌, ◌≤◌, ◌^◌, IfSome};
ghost use Rattle.decimal_text.specs.Number.{Reads, number_up_to};

/// What a field of digits is.
#[derive(Clone, Copy, Debug, PartialEq, Eq)]
pub enum NumberRead {
    /// Digits of this value.
    Value(u64),
    /// Empty, or with a byte that is no digit.
    Malformed,
    /// Digits of a value above the limit.
    TooLarge,
}

/// Reads a field of one or more digits, of a value up to `most`; leading zeros are fine. No field is too long.
pub fn read_digits(field: &[u8], most: u64) -> NumberRead
    requires { most < 2 ^ 60 }
    ensures { Reads field.now most result }
{
    if field.is_empty() {
        return NumberRead::Malformed;
    }
    let mut value: u64 = 0;
    for byte in field {
        if *byte < b'0' || *byte > b'9' {
            return NumberRead::Malformed;
        }
        if value <= most {
            value = value * 10 + u64::from(*byte - b'0');
        }
    }
    if value <= most {
        NumberRead::Value(value)
    } else {
        NumberRead::TooLarge
    }
}

/// The number of a field that is digits of a value up to `most`, and else `None`.
pub fn read_number(field: &[u8], most: u32) -> Option<u32>
    ensures number { result ≡ number_up_to most field.now }
    ensures small { IfSome result (λ n. n ≤ most) }
{
    match read_digits(field, u64::from(most)) {
        NumberRead::Value(number) => Some(number as u32),
        NumberRead::Malformed => None,
        NumberRead::TooLarge => None,
    }
}
