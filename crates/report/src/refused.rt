//! The line of a netlist that is refused.

ghost use Rattle.std.specs.Prelude.{◌≡◌, ◌++◌, IfOk, OnOk};
ghost use Rattle.report.specs.Refused.{spaced, counted, all_spaced, lex_words, bind_words, flat_words, refusal_words, refusal_line};

use crate::line::Line;
use flattener::FlatFault;
use loading::Refusal;
use rsfq_ids::list::NoMemory;
use rsfq_ids::name::Name;
use std::alloc::Global;
use verilog_bind::BindFault;
use verilog_lex::LexWhy;

/// The words of a cause by which a text has no tokens.
fn lex_words(why: LexWhy) -> &'static str
    ensures { result.now ≡ lex_words why }
{
    match why {
        LexWhy::BadByte => "bad byte",
        LexWhy::UnendedComment => "unended comment",
        LexWhy::UnendedAttribute => "unended attribute",
        LexWhy::EmptyEscape => "empty escape",
        LexWhy::Directive => "directive",
        LexWhy::BigNumber => "big number",
        LexWhy::Memory => "",
    }
}

/// Adds words and a name.
fn push_name(line: &mut Line, words: &[u8], name: &Name) -> Result<(), NoMemory>
    ensures { OnOk result (line.new.bytes.items ≡ line.old.bytes.items ++ (words.now ++ spaced name.now)) }
{
    line.words(words)?;
    line.name(name.as_str())
}

/// Adds words and two names.
fn push_pair(line: &mut Line, words: &[u8], first: &Name, second: &Name) -> Result<(), NoMemory>
    ensures { OnOk result (line.new.bytes.items ≡ line.old.bytes.items ++ (words.now ++ spaced first.now ++ spaced second.now)) }
{
    push_name(line, words, first)?;
    line.name(second.as_str())
}

/// Adds words and three names.
fn push_three(
    line: &mut Line,
    words: &[u8],
    first: &Name,
    second: &Name,
    third: &Name,
) -> Result<(), NoMemory>
    ensures { OnOk result (line.new.bytes.items ≡ line.old.bytes.items ++ (words.now ++ spaced first.now ++ spaced second.now ++ spaced third.now)) }
{
    push_pair(line, words, first, second)?;
    line.name(third.as_str())
}

/// Adds words and names.
fn push_names(line: &mut Line, words: &[u8], names: &[Name]) -> Result<(), NoMemory>
    ensures { OnOk result (line.new.bytes.items ≡ line.old.bytes.items ++ (words.now ++ all_spaced names.now)) }
{
    line.words(words)?;
    line.names(names)
}

/// Adds words and a number.
fn push_number(line: &mut Line, words: &[u8], number: u64) -> Result<(), NoMemory>
    ensures { OnOk result (line.new.bytes.items ≡ line.old.bytes.items ++ (words.now ++ counted number)) }
{
    line.words(words)?;
    line.number(number)
}

/// Adds words and two numbers.
fn push_numbers(line: &mut Line, words: &[u8], have: u64, want: u64) -> Result<(), NoMemory>
    ensures { OnOk result (line.new.bytes.items ≡ line.old.bytes.items ++ (words.now ++ counted have ++ counted want)) }
{
    push_number(line, words, have)?;
    line.number(want)
}

/// Adds the words of a fault of binding.
fn push_bind(line: &mut Line, fault: &BindFault) -> Result<(), NoMemory>
    ensures { OnOk result (line.new.bytes.items ≡ line.old.bytes.items ++ bind_words fault.now) }
{
    match fault {
        BindFault::DuplicateName(first, second) => push_pair(
            line,
            b"bind duplicate",
            first,
            second,
        ),
        BindFault::NoTop => line.words(b"bind no top"),
        BindFault::TwoTops(first, second) => push_pair(line, b"bind two tops", first, second),
        BindFault::NoSuchModule(name) => push_name(line, b"bind no module", name),
        BindFault::Recursive(names) => push_names(line, b"bind recursive", names.as_slice()),
        BindFault::UnknownPort(name) => push_name(line, b"bind port", name),
        BindFault::PortTwice(name) => push_name(line, b"bind port twice", name),
        BindFault::TooMany(have, want) => push_numbers(line, b"bind too many", *have, *want),
        BindFault::NoSuchName(name) => push_name(line, b"bind no name", name),
        BindFault::Range(name) => push_name(line, b"bind range", name),
        BindFault::Width(have, want) => push_numbers(line, b"bind width", *have, *want),
        BindFault::WidthLimit(width) => push_number(line, b"limit width", *width),
        BindFault::Memory => Ok(()),
    }
}

/// Adds the words of a fault of flattening.
fn push_flat(line: &mut Line, fault: &FlatFault) -> Result<(), NoMemory>
    ensures { OnOk result (line.new.bytes.items ≡ line.old.bytes.items ++ flat_words fault.now) }
{
    match fault {
        FlatFault::NestingLimit(count) => push_number(line, b"limit nesting", *count),
        FlatFault::CellLimit(count) => push_number(line, b"limit cells", *count),
        FlatFault::WireLimit(count) => push_number(line, b"limit wires", *count),
        FlatFault::TwoDrivers(wire, first, second) => {
            push_three(line, b"flat two drivers", wire, first, second)
        }
        FlatFault::AliasLoop(wires) => push_names(line, b"flat alias loop", wires.as_slice()),
        FlatFault::NoDriver(pin) => push_name(line, b"flat no driver", pin),
        FlatFault::Memory => Ok(()),
    }
}

/// Adds the words of a refusal.
fn push_refusal(line: &mut Line, refusal: &Refusal) -> Result<(), NoMemory>
    ensures { OnOk result (line.new.bytes.items ≡ line.old.bytes.items ++ refusal_words refusal.now) }
{
    match refusal {
        Refusal::Lex(fault) => {
            push_number(line, b"lex", u64::from(fault.offset))?;
            line.name(lex_words(fault.why))
        }
        Refusal::Parse(place) => push_number(line, b"parse", u64::from(*place)),
        Refusal::Bind(fault) => push_bind(line, fault),
        Refusal::Flat(fault) => push_flat(line, fault),
        Refusal::Memory => Ok(()),
    }
}

/// The line of a netlist that is refused, as `refused bind no top`.
///
/// # Errors
///
/// `NoMemory` alone, which may come at any time.
pub fn refusal_line(alloc: Global, refusal: &Refusal) -> Result<Vec<u8>, NoMemory>
    ensures { IfOk result (λ text. text.items ≡ refusal_line refusal.now) }
{
    let mut line = Line::of(alloc, b"refused ")?;
    push_refusal(&mut line, refusal)?;
    line.words(b"\n")?;
    Ok(line.bytes)
}
