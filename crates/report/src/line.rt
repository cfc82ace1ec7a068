//! A line of words, names and numbers, which is made piece by piece.

ghost use Rattle.std.specs.Prelude.{◌≡◌, ◌++◌, codes, IfOk, OnOk};
ghost use Rattle.report.specs.Refused.{spaced, counted, all_spaced};

use itoa::Buffer;
use rsfq_ids::list::NoMemory;
use rsfq_ids::name::Name;
use std::alloc::Global;

/// The bytes of a line so far.
#[derive(Debug, Drop)]
pub struct Line {
    pub bytes: Vec<u8>,
}

impl Line {
    /// A line that begins with these bytes.
    pub fn of(alloc: Global, bytes: &[u8]) -> Result<Line, NoMemory>
        ensures { IfOk result (λ line. line.bytes.items ≡ bytes.now) }
    {
        Ok(Line {
            bytes: Vec::from_slice(alloc, bytes)?,
        })
    }

    /// Adds words.
    pub fn words(&mut self, words: &[u8]) -> Result<(), NoMemory>
        ensures { OnOk result (self.new.bytes.items ≡ self.old.bytes.items ++ words.now) }
    {
        self.bytes.extend_from_slice(words)?;
        Ok(())
    }

    /// Adds a name behind a space.
    pub fn name(&mut self, name: &str) -> Result<(), NoMemory>
        ensures { OnOk result (self.new.bytes.items ≡ self.old.bytes.items ++ spaced name.now) }
    {
        self.words(b" ")?;
        self.words(name.as_bytes())
    }

    /// Adds a number behind a space.
    pub fn number(&mut self, number: u64) -> Result<(), NoMemory>
        ensures { OnOk result (self.new.bytes.items ≡ self.old.bytes.items ++ counted number) }
    {
        let mut buffer = Buffer::new();
        self.words(b" ")?;
        self.words(buffer.format(number).as_bytes())
    }

    /// Adds names, each behind a space.
    pub fn names(&mut self, names: &[Name]) -> Result<(), NoMemory>
        ensures { OnOk result (self.new.bytes.items ≡ self.old.bytes.items ++ all_spaced names.now) }
    {
        for name in names {
            self.name(name.as_str())?;
        }
        Ok(())
    }
}
