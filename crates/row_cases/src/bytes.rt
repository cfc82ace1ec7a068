//! The lines of bytes.
use crate::read::Fault;
use itoa::Buffer;

// The value of a digit in hex.
fn hex_value(digit: u8) -> Option<u8> {
    match digit {
        b'0'..=b'9' => Some(digit - b'0'),
        b'a'..=b'f' => Some(digit - b'a' + 10),
        _ => None,
    }
}

// Adds bytes in hex. Spaces may stand between bytes.
fn add_hex(bytes: &mut Vec<u8>, text: &str) -> Result<(), Fault> {
    let mut high = None;
    for digit in text.as_bytes() {
        if *digit == b' ' && high.is_none() {
            continue;
        }
        match (high, hex_value(*digit)) {
            (_, None) => return Err(Fault::Line("these are no bytes in hex")),
            (None, Some(value)) => high = Some(value),
            (Some(first), Some(value)) => {
                bytes.push((first & 15) * 16 + (value & 15))?;
                high = None;
            }
        }
    }
    match high {
        None => Ok(()),
        Some(_) => Err(Fault::Line("half a byte is wanting")),
    }
}

// How often a text stands, and the text.
fn read_count(line: &str) -> Result<(u32, &str), Fault> {
    let (count, piece) = line.split_once(' ').unwrap_or((line, ""));
    match count.parse::<u32>() {
        Ok(count) => Ok((count, piece)),
        Err(_) => Err(Fault::Line("this is no number that fits here")),
    }
}

// Adds a line with this number in the place of each `#`, and the next one in the place of each `^`.
fn add_numbered(bytes: &mut Vec<u8>, text: &str, number: u32) -> Result<(), Fault> {
    let mut buffer = Buffer::new();
    for byte in text.as_bytes() {
        match byte {
            b'#' => bytes.extend_from_slice(buffer.format(number).as_bytes())?,
            b'^' => {
                let next = number.saturating_add(1);
                bytes.extend_from_slice(buffer.format(next).as_bytes())?;
            }
            _ => bytes.push(*byte)?,
        }
    }
    bytes.push(b'\n')?;
    Ok(())
}

// Adds a text so many times.
fn add_copies(bytes: &mut Vec<u8>, text: &str) -> Result<(), Fault> {
    let (count, piece) = read_count(text)?;
    for _ in 0..count {
        bytes.extend_from_slice(piece.as_bytes())?;
    }
    Ok(())
}

// Adds so many lines, numbered from 0.
fn add_lines(bytes: &mut Vec<u8>, text: &str) -> Result<(), Fault> {
    let (count, piece) = read_count(text)?;
    for number in 0..count {
        add_numbered(bytes, piece, number)?;
    }
    Ok(())
}

/// Adds the bytes that a line says, or answers that it is no line of bytes.
pub(crate) fn add_bytes(bytes: &mut Vec<u8>, line: &str) -> Result<bool, Fault> {
    if let Some(text) = line.strip_prefix('|') {
        bytes.extend_from_slice(text.as_bytes())?;
        bytes.push(b'\n')?;
    } else if let Some(text) = line.strip_prefix('+') {
        bytes.extend_from_slice(text.as_bytes())?;
    } else if let Some(text) = line.strip_prefix('=') {
        add_hex(bytes, text)?;
    } else if let Some(text) = line.strip_prefix('*') {
        add_copies(bytes, text)?;
    } else if let Some(text) = line.strip_prefix('@') {
        add_lines(bytes, text)?;
    } else {
        return Ok(false);
    }
    Ok(true)
}
