//! Where the parts of a text end.
ghost use Rattle.std.specs.Prelude.{◌≡◌, ◌≤◌, ◌<◌, ◌+◌, ◌-◌, [], ◌∷◌, length, take, drop, MatchOption};
ghost use Rattle.dimacs_text.specs.Parts.{front, lines, words, is_newline, is_blank, is_space, IsFirstField};

use memchr::memchr;

/// The end of the line that goes on at a place: its newline, or the text's end.
pub fn line_end(text: &[u8], at: usize) -> usize
    requires { at ≤ length text.now }
    ensures end { result ≡ at + length (front is_newline (drop at text.now)) }
    ensures within { result ≤ length text.now }
    ensures line { at < length text.now → lines at (drop at text.now) ≡ record { start = at; bytes = take (result - at) (drop at text.now) } ∷ lines (result + 1) (drop (result + 1) text.now) }
{
    newline_from(text, at)
}

/// The place of the first newline from a place on, or the text's end.
fn newline_from(text: &[u8], at: usize) -> usize
    requires { at ≤ length text.now }
    ensures end { result ≡ at + length (front is_newline (drop at text.now)) }
    ensures within { result ≤ length text.now }
{
    match memchr(b'\n', &text[at..]) {
        Some(place) => at + place,
        None => text.len(),
    }
}

/// The first word from a place on, where spaces alone part words: where it begins and where it ends. `None` where there is none.
pub fn next_field(text: &[u8], at: usize) -> Option<(usize, usize)>
    ensures { MatchOption result (words is_space at (drop at text.now) ≡ []) (λ field. IsFirstField text.now at field.0 field.1) }
{
    let mut start = at;
    'more: while start < text.len() {
        let end = field_end(text, start);
        if start < end {
            return Some((start, end));
        }
        start = end + 1;
    }
    None
}

/// The end of the word that goes on at a place: its space, or the text's end.
pub(crate) fn field_end(text: &[u8], at: usize) -> usize
    requires { at ≤ length text.now }
    ensures end { result ≡ at + length (front is_space (drop at text.now)) }
    ensures within { result ≤ length text.now }
{
    let mut end = at;
    'more: while end < text.len() && text[end] != b' ' {
        end += 1;
    }
    end
}

/// The end of the word that goes on at a place: its blank, or the text's end.
pub fn word_end(text: &[u8], at: usize) -> usize
    requires { at ≤ length text.now }
    ensures end { result ≡ at + length (front is_blank (drop at text.now)) }
    ensures within { result ≤ length text.now }
{
    let mut end = at;
    'more: while end < text.len() && !is_blank(text[end]) {
        end += 1;
    }
    end
}

/// Space, newline, tab, carriage return, form feed.
fn is_blank(byte: u8) -> bool
    ensures { result ≡ is_blank byte }
{
    byte <= b' ' && (byte == b' ' || byte == b'\n' || byte == b'\t' || byte == b'\r' || byte == 12)
}
