//! A folder and a sink that never fail: over them a run has no fault, and that it has none is proved.
ghost use Rattle.std.specs.Prelude.{◌≡◌, ◌≤◌, [], Some, None, OnOk, OnErr, IfOk, IsOkUnless, length, vec_len};
ghost use Rattle.std.specs.Option.{option_copied};
ghost use Rattle.std.specs.FinMap as map;
ghost use Rattle.rsfq_outside.specs.Told.{IsFront};

use crate::contents::{Contents, copy_front};
use crate::{Folder, FolderFault, Sink, SinkFailed};
use std::alloc::Global;
use std::marker::Model;

/// A folder in memory that tells its files and never fails. A name that is absent is read as no bytes.
#[derive(Drop)]
pub struct SteadyFolder {
    alloc: Global,
    contents: Contents,
}

impl Model for SteadyFolder {
    ghost use Rattle.std.specs.Ordering.{nat_cmp};
    ghost use Rattle.std.specs.Coded.{coded_ℕ, coded_list};
    ghost use Rattle.std.specs.FinMap as map;
    ghost use Rattle.rsfq_outside.specs.Told.{Files};

    ghost Value = { Files };

    ghost coded = { map.code (coded_list coded_ℕ) (coded_list coded_ℕ) };

    ghost view = { λ f. f.contents };
}

impl SteadyFolder {
    /// An empty folder.
    pub fn new(alloc: Global) -> Self
        ensures { result ≡ map.empty }
    {
        SteadyFolder {
            alloc,
            contents: Contents::new(alloc),
        }
    }

    /// Sets the content of a name.
    ///
    /// # Errors
    ///
    /// `Memory` alone, and then nothing has changed.
    pub fn put(&mut self, name: &str, bytes: &[u8]) -> Result<(), FolderFault>
        ensures ok { OnOk result (self.new ≡ map.insert self.old name.now bytes.now) }
        ensures err { OnErr result (self.new ≡ self.old) }
        ensures memory { IsOkUnless result FolderFault.Memory }
    {
        self.contents.put(name, bytes)?;
        Ok(())
    }

    /// The content of a name, or `None` where the name is absent.
    pub fn content(&self, name: &str) -> Option<&[u8]>
        ensures { option_copied result ≡ map.get self.now name.now }
    {
        self.contents.get(name)
    }
}

impl Folder for SteadyFolder {
    ghost told = { λ f. Some f };

    ghost faults = { λ _. 0 };

    ghost blamed = { λ _. None };

    fn read_front(&mut self, name: &str, limit: usize) -> Result<Vec<u8>, FolderFault>
        ensures front { IfOk result (λ bytes. IsFront (map.get self.old name.now) limit bytes.items) }
        ensures bound { IfOk result (λ bytes. vec_len bytes ≤ limit) }
        ensures told { self.new ≡ self.old }
        ensures memory { IsOkUnless result FolderFault.Memory }

        // A name that is absent has no bytes.
        ensures absent { map.get self.old name.now ≡ None → IfOk result (λ bytes. bytes.items ≡ []) }
    {
        match self.contents.get(name) {
            None => Ok(Vec::new(self.alloc)),
            Some(content) => Ok(copy_front(self.alloc, content, limit)?),
        }
    }

    fn write_whole(&mut self, name: &str, bytes: &[u8]) -> Result<(), FolderFault>
        ensures written { OnOk result (self.new ≡ map.insert self.old name.now bytes.now) }
        ensures err { OnErr result (self.new ≡ self.old) }
        ensures memory { IsOkUnless result FolderFault.Memory }
    {
        self.contents.put(name, bytes)?;
        Ok(())
    }
}

/// A sink that takes each piece whole, keeps nothing and never fails.
#[derive(Drop)]
pub struct SteadySink {}

impl SteadySink {
    /// The sink.
    pub fn new() -> Self
        ensures written { ⟦<SteadySink as Sink>⟧.written result ≡ None }
        ensures faults { ⟦<SteadySink as Sink>⟧.faults result ≡ 0 }
    {
        SteadySink {}
    }
}

impl Sink for SteadySink {
    ghost written = { λ _. None };

    ghost faults = { λ _. 0 };

    fn write(&mut self, piece: &[u8]) -> Result<usize, SinkFailed>
        ensures whole { result ≡ Ok (length piece.now) }
    {
        Ok(piece.len())
    }
}
