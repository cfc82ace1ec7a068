//! Which texts are names of cells and pins.

ghost use Rattle.std.specs.Prelude.{◌≡◌};
ghost use Rattle.std.specs.List.{list_all};
ghost use Rattle.table_fields.specs.Names.{has_form, is_part, is_plain_name, is_reserved, is_start};

fn is_start(byte: u8) -> bool
    ensures { result ≡ is_start byte }
{
    byte.is_ascii_alphabetic() || byte == b'_'
}

fn is_part(byte: u8) -> bool
    ensures { result ≡ is_part byte }
{
    is_start(byte) || byte.is_ascii_digit() || byte == b'$'
}

#[tactic(auto, unfolding(crate::specs::Names::is_reserved))]
fn is_reserved(word: &[u8]) -> bool
    ensures { result ≡ is_reserved word.now }
{
    word == b"module".as_slice()
        || word == b"endmodule".as_slice()
        || word == b"input".as_slice()
        || word == b"output".as_slice()
        || word == b"inout".as_slice()
        || word == b"wire".as_slice()
        || word == b"assign".as_slice()
        || word == b"reg".as_slice()
        || word == b"parameter".as_slice()
        || word == b"defparam".as_slice()
        || word == b"generate".as_slice()
        || word == b"always".as_slice()
        || word == b"initial".as_slice()
        || word == b"function".as_slice()
        || word == b"task".as_slice()
}

fn are_parts(word: &[u8]) -> bool
    ensures { result ≡ list_all is_part word.now }
{
    word.iter().all(|byte| is_part(*byte))
}

fn has_form(word: &[u8]) -> bool
    ensures { result ≡ has_form word.now }
{
    if word.is_empty() {
        return false;
    }
    if !is_start(word[0]) {
        return false;
    }
    are_parts(word)
}

/// Whether the bytes are a plain name that is not reserved: a name of a cell or a pin.
pub fn is_plain_name(word: &[u8]) -> bool
    ensures { result ≡ is_plain_name word.now }
{
    has_form(word) && !is_reserved(word)
}
