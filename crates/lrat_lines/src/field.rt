//! Fields of a list, and lists.
ghost use Rattle.std.specs.Prelude.{◌≡◌, ◌≤◌, Some, None, length, drop, IfOk, IfSome};
ghost use Rattle.dimacs_text.specs.Parts.{words, is_space};
ghost use Rattle.lrat_lines.specs.Lines.{field_of, list_of};

use dimacs_text::{Signed, next_field, read_signed};
use rsfq_ids::list::NoMemory;

/// A field of a list.
#[derive(Clone, Copy)]
pub(crate) enum Field {
    /// The one digit 0, which ends the list.
    End,
    /// A number that is not 0.
    Number(Signed),
    /// Anything else.
    Broken,
}

/// What a field of a list is.
fn read_field(field: &[u8]) -> Field
    ensures { result ≡ field_of field.now }
{
    if field == b"0".as_slice() {
        return Field::End;
    }
    match read_signed(field) {
        Some(number) if number.size != 0 => Field::Number(number),
        _ => Field::Broken,
    }
}

/// Reads the list that begins at a place, up to its 0, in place of what was in `list`, and answers the place behind it. `None` where no
/// list stands there.
pub(crate) fn read_list(
    line: &[u8],
    start: usize,
    list: &mut Vec<Signed>,
) -> Result<Option<usize>, NoMemory>
    requires { start ≤ length line.now }
    ensures none { IfOk result (λ end. end ≡ None → list_of (words is_space start (drop start line.now)) ≡ None) }
    ensures some { IfOk result (λ end. IfSome end (λ place. list_of (words is_space start (drop start line.now)) ≡ Some (list.new.items, words is_space place (drop place line.now)))) }
    ensures within { IfOk result (λ end. IfSome end (λ place. place ≤ length line.now)) }
{
    list.clear();
    let mut at = start;
    'more: while let Some((from, to)) = next_field(line, at) {
        at = to;
        match read_field(&line[from..to]) {
            Field::End => return Ok(Some(at)),
            Field::Number(number) => list.push(number)?,
            Field::Broken => return Ok(None),
        }
    }
    Ok(None)
}
