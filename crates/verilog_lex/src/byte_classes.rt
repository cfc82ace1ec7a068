//! Classes of bytes, as `specs/Bytes.antt` defines them.

ghost use Rattle.std.specs.Prelude.{◌≡◌};
ghost use Rattle.verilog_lex.specs.Bytes.{is_blank, is_start, is_part, is_mark, is_reserved, is_skipped};

/// Whether the byte is a blank: a space, newline, tab, carriage return or form feed.
#[inline]
pub fn is_blank(byte: u8) -> bool
    ensures { result ≡ is_blank byte }
{
    byte == b' ' || byte == b'\n' || byte == b'\t' || byte == b'\r' || byte == 12
}

/// Whether a name may begin with the byte.
#[inline]
pub(crate) fn is_start(byte: u8) -> bool
    ensures { result ≡ is_start byte }
{
    byte.is_ascii_alphabetic() || byte == b'_'
}

/// Whether the byte may stand in a name behind the first.
#[inline]
pub(crate) fn is_part(byte: u8) -> bool
    ensures { result ≡ is_part byte }
{
    is_start(byte) || byte.is_ascii_digit() || byte == b'$'
}

/// Whether the byte is a mark.
#[inline]
pub(crate) fn is_mark(byte: u8) -> bool
    ensures { result ≡ is_mark byte }
{
    byte == b'('
        || byte == b')'
        || byte == b'['
        || byte == b']'
        || byte == b'{'
        || byte == b'}'
        || byte == b','
        || byte == b';'
        || byte == b':'
        || byte == b'.'
        || byte == b'='
}

/// Whether a plain name of these bytes is a reserved word.
#[tactic(auto, unfolding(crate::specs::Bytes::is_reserved))]
pub(crate) fn is_reserved(word: &[u8]) -> bool
    ensures { result ≡ is_reserved word.now }
{
    word == b"module".as_slice()
        || word == b"endmodule".as_slice()
        || word == b"input".as_slice()
        || word == b"output".as_slice()
        || word == b"inout".as_slice()
        || word == b"wire".as_slice()
        || word == b"assign".as_slice()
        || word == b"reg".as_slice()
        || word == b"parameter".as_slice()
        || word == b"defparam".as_slice()
        || word == b"generate".as_slice()
        || word == b"always".as_slice()
        || word == b"initial".as_slice()
        || word == b"function".as_slice()
        || word == b"task".as_slice()
}

/// Whether a directive of this name is skipped.
#[tactic(auto, unfolding(crate::specs::Bytes::is_skipped))]
pub(crate) fn is_skipped(word: &[u8]) -> bool
    ensures { result ≡ is_skipped word.now }
{
    word == b"timescale".as_slice()
        || word == b"celldefine".as_slice()
        || word == b"endcelldefine".as_slice()
}
