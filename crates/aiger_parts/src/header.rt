//! The first line of a file: `aag M I L O A` or `aig M I L O A`, and at most four further numbers.

ghost use Rattle.std.specs.Prelude.{◌≡◌, ◌≢◌, ◌≤◌, ◌+◌, IfOk, IfErr};
ghost use Rattle.rsfq_ids.specs.declared.limits.TheConstants.{AIG_LIMIT};
ghost use Rattle.aiger_parts.specs.Reading.{Gives};
ghost use Rattle.aiger_parts.specs.Header.{spaces_in, has_head, fits_form, zeros_at, variables_at, latches_at, counts_at, header_at};

use crate::fault::{AigerWhy, ReadStop, Stop};
use crate::fields::take_field;
use rsfq_ids::limits::AIG_LIMIT;

/// The two forms of a file.
#[derive(Clone, Copy, Debug, PartialEq, Eq)]
pub enum Form {
    /// In lines of digits: `aag`. There may be more variables than inputs and ANDs.
    Ascii,
    /// In bytes: `aig`. The variables are those of the inputs and the ANDs.
    Binary,
}

/// The highest variable of a file, and how many inputs, outputs and ANDs it has.
#[derive(Clone, Copy, Debug, PartialEq, Eq, Drop)]
pub struct Header {
    /// M, the highest variable.
    pub variables: u32,
    /// I, the number of inputs.
    pub inputs: u32,
    /// O, the number of outputs.
    pub outputs: u32,
    /// A, the number of ANDs.
    pub ands: u32,
}

/// How many spaces the first line has.
fn count_spaces(bytes: &[u8]) -> usize
    ensures { result ≡ spaces_in bytes.now }
{
    let mut count = 0;
    for byte in bytes {
        if *byte == b'\n' {
            return count;
        }
        if *byte == b' ' {
            count += 1;
        }
    }
    count
}

/// Whether the first line begins with the word of its form and has five to nine fields behind it.
fn begins_file(form: Form, bytes: &[u8]) -> bool
    ensures { result ≡ has_head form bytes.now }
{
    let spaces = count_spaces(bytes);
    let begins = match form {
        Form::Ascii => bytes.starts_with(b"aag "),
        Form::Binary => bytes.starts_with(b"aig "),
    };
    begins && 5 <= spaces && spaces <= 9
}

/// Whether a file of the form may have so many variables beside its inputs and ANDs.
fn fits_form(form: Form, header: Header) -> bool
    ensures { result ≡ fits_form form header }
{
    let defined = u64::from(header.inputs) + u64::from(header.ands);
    match form {
        Form::Ascii => defined <= u64::from(header.variables),
        Form::Binary => u64::from(header.variables) == defined,
    }
}

/// So many fields that are 0.
fn take_zeros(count: usize, bytes: &[u8]) -> Result<&[u8], ReadStop>
    ensures is { Gives (λ x. x.now) result (zeros_at count bytes.now) }
    ensures memory { IfErr result (λ e. e ≢ ReadStop.Memory) }
{
    if count == 0 {
        return Ok(bytes);
    }
    let (value, rest) = take_field(bytes)?;
    if value != 0 {
        return Err(ReadStop::At(Stop {
            left: bytes.len(),
            why: AigerWhy::Extended,
        }));
    }
    take_zeros(count - 1, rest)
}

/// The number of variables.
fn take_variables(bytes: &[u8]) -> Result<(u32, &[u8]), ReadStop>
    ensures is { Gives (λ x. (x.0, x.1.now)) result (variables_at bytes.now) }
    ensures few { IfOk result (λ x. x.0 ≤ AIG_LIMIT) }
    ensures memory { IfErr result (λ e. e ≢ ReadStop.Memory) }
{
    let (variables, rest) = take_field(bytes)?;
    if u64::from(variables) > AIG_LIMIT {
        return Err(ReadStop::At(Stop {
            left: bytes.len(),
            why: AigerWhy::Limit(variables),
        }));
    }
    Ok((variables, rest))
}

/// The bytes behind the number of latches, which is 0.
fn take_latches(bytes: &[u8]) -> Result<&[u8], ReadStop>
    ensures is { Gives (λ x. x.now) result (latches_at bytes.now) }
    ensures memory { IfErr result (λ e. e ≢ ReadStop.Memory) }
{
    let (latches, rest) = take_field(bytes)?;
    if latches != 0 {
        return Err(ReadStop::At(Stop {
            left: bytes.len(),
            why: AigerWhy::Latches,
        }));
    }
    Ok(rest)
}

/// The numbers of inputs, latches, outputs and ANDs.
#[tactic(auto, unfolding(crate::specs::Header::counts_at))]
fn take_counts(variables: u32, bytes: &[u8]) -> Result<(Header, &[u8]), ReadStop>
    ensures is { Gives (λ x. (x.0, x.1.now)) result (counts_at variables bytes.now) }
    ensures top { IfOk result (λ x. x.0.variables ≡ variables) }
    ensures memory { IfErr result (λ e. e ≢ ReadStop.Memory) }
{
    let (inputs, rest) = take_field(bytes)?;
    let rest = take_latches(rest)?;
    let (outputs, rest) = take_field(rest)?;
    let (ands, rest) = take_field(rest)?;
    let header = Header {
        variables,
        inputs,
        outputs,
        ands,
    };
    Ok((header, rest))
}

/// The first line, and the bytes behind it. There are at most 1,000,000 variables, and no more inputs and ANDs than variables.
///
/// # Errors
///
/// `Header` at the front, where the word of the form does not stand there or the number of fields is wrong; else the first wrong field,
/// at the field: `Number`, `Limit` for M, `Latches` for L, `Extended` for a further number that is not 0; else `Header` at the front,
/// where the form may not have so many variables.
#[tactic(auto, unfolding(crate::specs::Header::header_at))]
pub fn take_header(form: Form, bytes: &[u8]) -> Result<(Header, &[u8]), ReadStop>
    ensures is { Gives (λ x. (x.0, x.1.now)) result (header_at form bytes.now) }
    ensures few { IfOk result (λ x. x.0.variables ≤ AIG_LIMIT) }
    ensures fits { IfOk result (λ x. x.0.inputs + x.0.ands ≤ x.0.variables) }
    ensures memory { IfErr result (λ e. e ≢ ReadStop.Memory) }
{
    if !begins_file(form, bytes) {
        return Err(ReadStop::At(Stop {
            left: bytes.len(),
            why: AigerWhy::Header,
        }));
    }
    let (variables, rest) = take_variables(&bytes[4..])?;
    let (header, rest) = take_counts(variables, rest)?;
    let behind = take_zeros(count_spaces(bytes) - 5, rest)?;
    if !fits_form(form, header) {
        return Err(ReadStop::At(Stop {
            left: bytes.len(),
            why: AigerWhy::Header,
        }));
    }
    Ok((header, behind))
}
