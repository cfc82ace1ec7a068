//! Why a text is no formula.
ghost use Rattle.std.specs.Prelude.{◌≡◌};
ghost use Rattle.dimacs_text.specs.declared.fault.TextWhy.TheVariants.{Memory};

use rsfq_ids::list::NoMemory;
use thiserror::Error;

/// Why a text is no formula.
#[derive(Clone, Copy, Debug, PartialEq, Eq, Error)]
pub enum TextWhy {
    /// The first line that is no comment is not `p cnf V C` with numbers up to 2,147,483,647, or there is none.
    #[error("header")]
    Header,
    /// A word is not digits with an optional hyphen, or above 4,294,967,295.
    #[error("number")]
    Number,
    /// A literal is of no variable that the head names.
    #[error("range {0}")]
    Range(i64),
    /// The last clause has no 0.
    #[error("unended")]
    Unended,
    /// So many clauses there are, and so many the head names.
    #[error("count {0} {1}")]
    Count(u64, u64),
    /// There was no memory for the formula. It says nothing of the text.
    #[error("out of memory")]
    Memory,
}

/// The first fault of a text: its cause and its place, in bytes from 0.
///
/// The place is the first byte of the line that should be the head, or of the word. For a head that is missing, a clause that is not ended
/// and a wrong count it is the text's length. At `Memory` it has no meaning.
#[derive(Clone, Copy, Debug, PartialEq, Eq, Error)]
#[error("{offset} {why}")]
pub struct TextFault {
    pub offset: u32,
    pub why: TextWhy,
}

impl From<NoMemory> for TextFault {
    ghost from_gives = { λ _ e. e.why ≡ Memory };

    fn from(_: NoMemory) -> Self {
        TextFault {
            offset: 0,
            why: TextWhy::Memory,
        }
    }
}
