//! The hasher of the names of one text.

ghost use Rattle.std.specs.Prelude.{◌≡◌};
ghost use Rattle.std.specs.Hash.DefaultHasher as sip;

use std::fmt::{Debug, Formatter, Result, Write};
use std::hash::{BuildHasher, DefaultHasher, Hasher};

/// What hashes the names of one text: SipHash-1-3 that has read the whole text, or all its names, before it reads a name. Its state
/// depends on every byte that it has read, so that names which are written to collide do not.
#[derive(Clone, Copy)]
pub struct TextKeyed {
    hasher: DefaultHasher,
}

impl TextKeyed {
    /// The hasher of the names of this text. It reads the text once, and takes no memory.
    pub fn of(text: &[u8]) -> TextKeyed
        ensures { result.hasher ≡ sip.write sip.initial text.now }
    {
        let mut hasher = DefaultHasher::new();
        hasher.write(text);
        TextKeyed { hasher }
    }

    /// The same, after it has read more. It takes no memory.
    pub fn and(self, more: &[u8]) -> TextKeyed
        ensures { result.hasher ≡ sip.write self.hasher more.now }
    {
        let mut hasher = self.hasher;
        hasher.write(more);
        TextKeyed { hasher }
    }
}

impl BuildHasher for TextKeyed {
    type Hasher = DefaultHasher;

    ghost build_hasher = { λ keys. keys.hasher };

    fn build_hasher(&self) -> DefaultHasher {
        self.hasher
    }
}

impl Debug for TextKeyed {
    fn fmt<W: Write>(&self, f: &mut Formatter<W>) -> Result {
        f.write_str("TextKeyed")
    }
}
