//! The ends of comments and attributes: the only lexemes that may go on over many lines.
//!
//! Both are searched for by `memchr`. In an attribute a closing counts only outside strings, so the search there stops at each star and quote
//! outside strings, and at each quote and backslash in one.

ghost use Rattle.std.specs.Prelude.{◌≡◌, ◌≤◌, ◌+◌, length, drop, option_map, ◌<◌, slice_index};
ghost use Rattle.memchr.specs.Find.{IsFirstByte};
ghost use Rattle.verilog_lex.specs.Bytes.{star, slash, close_paren};
ghost use Rattle.verilog_lex.specs.Scan.{quoted, unquoted, counts, is_close, close};
ghost use Rattle.verilog_lex.specs.declared.closing.Quoting.TheVariants.{Outside};

use memchr::{memchr2, memmem};

/// Where a byte of an attribute stands: outside strings, in one, or behind a backslash in one.
#[derive(Clone, Copy, PartialEq, Eq)]
pub(crate) enum Quoting {
    Outside,
    Inside,
    Behind,
}

/// Where the byte behind this one stands.
#[inline]
fn after(place: Quoting, byte: u8) -> Quoting
    ensures { result ≡ quoted place byte }
{
    match place {
        Quoting::Outside => {
            if byte == b'"' {
                Quoting::Inside
            } else {
                Quoting::Outside
            }
        }
        Quoting::Inside => {
            if byte == b'"' {
                Quoting::Outside
            } else if byte == b'\\' {
                Quoting::Behind
            } else {
                Quoting::Inside
            }
        }
        Quoting::Behind => Quoting::Inside,
    }
}

/// The end of a comment whose body begins at a place, with its closing.
pub(crate) fn comment_end(text: &[u8], at: usize) -> Option<usize>
    requires { at ≤ length text.now }
    ensures { result ≡ option_map (λ n. at + n) (close star slash unquoted Outside (drop at text.now)) }
{
    match memmem::find(&text[at..], b"*/") {
        Some(place) => Some(at + place + 2),
        None => None,
    }
}

/// Whether an attribute closes at a place.
#[inline]
fn closes(text: &[u8], at: usize, place: Quoting) -> bool
    requires { at < length text.now }
    ensures { result ≡ is_close star close_paren place (slice_index text.now at) (drop (at + 1) text.now) }
{
    if at + 1 == text.len() {
        return false;
    }
    text[at + 1] == b')' && text[at] == b'*' && place == Quoting::Outside
}

/// The first place in the rest of an attribute whose byte counts there: it may close the attribute, or begin or end a string.
fn first_counting(rest: &[u8], place: Quoting) -> Option<usize>
    requires { 0 < length rest.now }
    ensures { IsFirstByte (counts place) rest.now result }
{
    match place {
        Quoting::Outside => memchr2(b'*', b'"', rest),
        Quoting::Inside => memchr2(b'"', b'\\', rest),
        Quoting::Behind => Some(0),
    }
}

/// The end of an attribute whose body begins at a place, with its closing.
pub(crate) fn attribute_end(text: &[u8], at: usize) -> Option<usize>
    requires { at ≤ length text.now }
    ensures { result ≡ option_map (λ n. at + n) (close star close_paren quoted Outside (drop at text.now)) }
{
    let mut place = Quoting::Outside;
    let mut from = at;
    'more: while from < text.len() {
        match first_counting(&text[from..], place) {
            Some(passed) => {
                let here = from + passed;
                if closes(text, here, place) {
                    return Some(here + 2);
                }
                place = after(place, text[here]);
                from = here + 1;
            }
            None => return None,
        }
    }
    None
}
