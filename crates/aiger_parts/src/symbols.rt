//! The lines behind the ANDs: symbols of inputs and outputs, up to a line `c` or the end of the file.

ghost use Rattle.std.specs.Prelude.{◌≡◌, ◌≤◌, ◌+◌, length, replicate, drop, take, None, Some, IfOk, IfErr, MatchBool};
ghost use Rattle.std.specs.Option.{option_map};
ghost use Rattle.aiger_parts.specs.Reading.{Gives};
ghost use Rattle.aiger_parts.specs.Symbols.{line_length, name_of, symbol_of, with_symbol, ends_symbols, symbols_at, with_line};
ghost use Rattle.aiger_parts.specs.declared.fault.ReadStop.TheVariants as stop;

use crate::fault::{AigerWhy, ReadStop, Stop};
use crate::fields::{measure_field, parse_number};
use rsfq_ids::name::Name;
use std::alloc::Global;
use std::str;

/// The symbols of the inputs and of the outputs.
#[derive(Debug, Drop)]
pub struct Symbols {
    /// The symbol of each input, if it has one.
    pub inputs: Vec<Option<Name>>,
    /// The symbol of each output, if it has one.
    pub outputs: Vec<Option<Name>>,
}

/// So many entries without a symbol.
fn make_entries(alloc: Global, count: u32) -> Result<Vec<Option<Name>>, ReadStop>
    ensures ok { IfOk result (λ entries. entries.items ≡ replicate count None) }
    ensures err { IfErr result (λ e. e ≡ stop.Memory) }
{
    let mut entries = Vec::new(alloc);
    for _ in 0..count {
        entries.push(None)?;
    }
    Ok(entries)
}

/// How many bytes stand before the next newline or the end.
fn measure_line(bytes: &[u8]) -> usize
    ensures is { result ≡ line_length bytes.now }
    ensures within { result ≤ length bytes.now }
{
    for (place, byte) in bytes.iter().enumerate() {
        if *byte == b'\n' {
            return place;
        }
    }
    bytes.len()
}

/// A name: not empty, and UTF-8.
fn parse_name(bytes: &[u8]) -> Option<&str>
    ensures { option_map (λ x. x.now) result ≡ name_of bytes.now }
{
    if bytes.is_empty() {
        return None;
    }
    match str::from_utf8(bytes) {
        Ok(text) => Some(text),
        Err(_) => None,
    }
}

/// The number and the name of a symbol, behind the byte that says of what it is.
#[tactic(auto, unfolding(crate::specs::Symbols::symbol_of))]
fn parse_symbol(bytes: &[u8]) -> Option<(u32, &str)>
    ensures { option_map (λ x. (x.0, x.1.now)) result ≡ symbol_of bytes.now }
{
    let end = measure_field(bytes);
    let place = parse_number(&bytes[..end])?;
    match &bytes[end..] {
        [b' ', name @ ..] => {
            let text = parse_name(name)?;
            Some((place, text))
        }
        _ => None,
    }
}

/// Whether the symbols end here: at the end, or at a line `c`.
fn ends_here(bytes: &[u8]) -> bool
    ensures { result ≡ ends_symbols bytes.now }
{
    if bytes.is_empty() {
        return true;
    }
    let end = measure_line(bytes);
    &bytes[..end] == b"c".as_slice()
}

/// Puts a symbol in, and answers whether it is one, its number is in range and it was free.
fn put_symbol(
    alloc: Global,
    entries: &mut Vec<Option<Name>>,
    bytes: &[u8],
) -> Result<bool, ReadStop>
    ensures ok { IfOk result (λ done. MatchBool done (with_symbol entries.old.items (symbol_of bytes.now) ≡ Some entries.new.items) (with_symbol entries.old.items (symbol_of bytes.now) ≡ None)) }
    ensures err { IfErr result (λ e. e ≡ stop.Memory) }
{
    let Some((place, text)) = parse_symbol(bytes) else {
        return Ok(false);
    };
    let place = place as usize;
    if place >= entries.len() {
        return Ok(false);
    }
    if entries[place].is_some() {
        return Ok(false);
    }
    entries[place] = Some(Name::of(alloc, text)?);
    Ok(true)
}

/// Takes the line at the front as a symbol.
fn put_line(alloc: Global, symbols: &mut Symbols, bytes: &[u8]) -> Result<bool, ReadStop>
    ensures ok { IfOk result (λ done. MatchBool done
        (with_line (symbols.old.inputs.items, symbols.old.outputs.items) (take (line_length bytes.now) bytes.now) ≡ Some (symbols.new.inputs.items, symbols.new.outputs.items))
        (with_line (symbols.old.inputs.items, symbols.old.outputs.items) (take (line_length bytes.now) bytes.now) ≡ None)) }
    ensures err { IfErr result (λ e. e ≡ stop.Memory) }
{
    let line = &bytes[..measure_line(bytes)];
    match line {
        [b'i', symbol @ ..] => put_symbol(alloc, &mut symbols.inputs, symbol),
        [b'o', symbol @ ..] => put_symbol(alloc, &mut symbols.outputs, symbol),
        _ => Ok(false),
    }
}

/// The symbols of the lines up to a line `c` or the end of the file, where there are so many inputs and outputs.
///
/// # Errors
///
/// `Symbol` at the first of these lines that is no symbol of an input or output that still has none, or want of memory.
pub fn take_symbols(
    alloc: Global,
    inputs: u32,
    outputs: u32,
    bytes: &[u8],
) -> Result<Symbols, ReadStop>
    ensures { Gives (λ x. (x.inputs.items, x.outputs.items)) result (symbols_at (length bytes.now) (replicate inputs None, replicate outputs None) bytes.now) }
{
    let mut symbols = Symbols {
        inputs: make_entries(alloc, inputs)?,
        outputs: make_entries(alloc, outputs)?,
    };
    let mut rest = bytes;
    for _ in 0..bytes.len() {
        if ends_here(rest) {
            return Ok(symbols);
        }
        if !put_line(alloc, &mut symbols, rest)? {
            return Err(ReadStop::At(Stop {
                left: rest.len(),
                why: AigerWhy::Symbol,
            }));
        }
        rest = behind_line(rest);
    }
    Ok(symbols)
}

/// The bytes behind the line at the front.
fn behind_line(bytes: &[u8]) -> &[u8]
    ensures { result.now ≡ drop (line_length bytes.entry.now + 1) bytes.entry.now }
{
    let end = measure_line(bytes);
    if end < bytes.len() {
        &bytes[end + 1..]
    } else {
        &bytes[end..]
    }
}
