//! A printer of words, which contracts see as the text that is written: each word goes behind the
//! text with its blank. The phrases are built of these methods alone.

ghost use Rattle.std.specs.Prelude.{◌≡◌, [], ◌∷◌, ◌++◌, OnOk};
ghost use Rattle.verilog_tree.specs.Words.{name, keyword, number, mark};
ghost use Rattle.verilog_print.specs.Onto.{onto};

use itoa::Buffer;
use rsfq_ids::list::NoMemory;
use rsfq_ids::name::Name;
use std::alloc::Global;
use std::marker::Model;
use verilog_lex::is_plain_name;
use verilog_tree::Keyword;

/// The text that is written so far.
#[derive(Drop)]
pub(crate) struct Printer {
    text: Vec<u8>,
}

impl Model for Printer {
    ghost use Rattle.std.specs.Prelude.{List, ℕ};

    ghost Value = { List ℕ };

    ghost view = { λ p. p.text.items };
}

impl Printer {
    /// An empty text.
    pub(crate) fn new(alloc: Global) -> Printer
        ensures { result ≡ [] }
    {
        Printer {
            text: Vec::new(alloc),
        }
    }

    /// The text.
    pub(crate) fn text(&self) -> &[u8]
        ensures { result.now ≡ self.now }
    {
        self.text.as_slice()
    }

    /// Some bytes and a blank.
    fn put(&mut self, bytes: &[u8], blank: u8) -> Result<(), NoMemory>
        ensures { OnOk result (self.new ≡ self.old ++ (bytes.now ++ blank ∷ [])) }
    {
        self.text.extend_from_slice(bytes)?;
        self.text.push(blank)?;
        Ok(())
    }

    /// A mark.
    pub(crate) fn mark(&mut self, byte: u8) -> Result<(), NoMemory>
        ensures { OnOk result (self.new ≡ onto (mark byte) self.old) }
    {
        if byte == b';' {
            return self.put(&[byte], b'\n');
        }
        self.put(&[byte], b' ')
    }

    /// A reserved word. `Other` stands for any of the reserved words that no tree has.
    pub(crate) fn key(&mut self, key: Keyword) -> Result<(), NoMemory>
        ensures { OnOk result (self.new ≡ onto (keyword key) self.old) }
    {
        match key {
            Keyword::Module => self.put(b"module", b' '),
            Keyword::Endmodule => self.put(b"endmodule", b'\n'),
            Keyword::Input => self.put(b"input", b' '),
            Keyword::Output => self.put(b"output", b' '),
            Keyword::Wire => self.put(b"wire", b' '),
            Keyword::Assign => self.put(b"assign", b' '),
            Keyword::Other => self.put(b"reg", b' '),
        }
    }

    /// A name, behind a backslash where it is no plain name or is reserved.
    pub(crate) fn name(&mut self, text: &Name) -> Result<(), NoMemory>
        ensures { OnOk result (self.new ≡ onto (name text.now) self.old) }
    {
        let bytes = text.as_str().as_bytes();
        if is_plain_name(bytes) {
            return self.put(bytes, b' ');
        }
        self.text.push(b'\\')?;
        self.put(bytes, b' ')
    }

    /// A number in its shortest form.
    pub(crate) fn number(&mut self, value: u32) -> Result<(), NoMemory>
        ensures { OnOk result (self.new ≡ onto (number value) self.old) }
    {
        let mut buffer = Buffer::new();
        self.put(buffer.format(value).as_bytes(), b' ')
    }
}
