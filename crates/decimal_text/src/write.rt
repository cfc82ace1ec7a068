//! Numbers in their shortest form, appended whole or not at all.

ghost use Rattle.std.specs.Prelude.{◌≡◌, ◌++◌, decimal, string_bytes, OnOk, OnErr};
ghost use Rattle.std.specs.Fmt.{signed_decimal};

use itoa::Buffer;
use std::alloc::AllocError;

/// Appends a number. After a refusal the bytes are as they were.
pub fn append_number(out: &mut Vec<u8>, number: u64) -> Result<(), AllocError>
    ensures ok { OnOk result (out.new.items ≡ out.old.items ++ decimal number) }
    ensures kept { OnErr result (out.new.items ≡ out.old.items) }
{
    let mut buffer = Buffer::new();
    out.extend_from_slice(buffer.format(number).as_bytes())
}

/// Appends a number that stands behind a hyphen if it is below 0. After a refusal the bytes are as they were.
pub fn append_signed(out: &mut Vec<u8>, number: i128) -> Result<(), AllocError>
    ensures ok { OnOk result (out.new.items ≡ out.old.items ++ signed_decimal number) }
    ensures kept { OnErr result (out.new.items ≡ out.old.items) }
{
    let mut buffer = Buffer::new();
    out.extend_from_slice(buffer.format(number).as_bytes())
}

/// Appends a number to a string. After a refusal the string is as it was.
pub fn push_number(out: &mut String, number: u64) -> Result<(), AllocError>
    ensures ok { OnOk result (string_bytes out.new ≡ string_bytes out.old ++ decimal number) }
    ensures kept { OnErr result (string_bytes out.new ≡ string_bytes out.old) }
{
    let mut buffer = Buffer::new();
    out.push_str(buffer.format(number))
}
