//! A folder in memory that fails at the calls that it is told to: it shows what a program does where a read or a write fails.
ghost use Rattle.std.specs.Prelude.{◌≡◌, ◌+◌, ◌≤◌, ◌⊎◌, Some, None, IsErr, OnOk, OnErr, IfOk, IsOkUnless, IsErrOf, IsTrue, ◌↔◌, Contains, string_bytes, vec_len};
ghost use Rattle.std.specs.Option.{option_copied};
ghost use Rattle.std.specs.FinMap as map;
ghost use Rattle.rsfq_outside.specs.Causes.{Rose, HasBlame};
ghost use Rattle.rsfq_outside.specs.Told.{IsFront};
ghost use Rattle.rsfq_outside.specs.Held.{next_call, after_call, after_failed_call};
ghost use Rattle.rsfq_outside.specs.declared.fault.CallKind.TheVariants.{Read, Write};

use crate::blamed::Blamed;
use crate::contents::{Contents, copy_front};
use crate::{CallKind, Folder, FolderFault};
use std::alloc::Global;
use std::marker::Model;

/// A folder in memory that tells its files, and some of whose calls fail. A read of a name that is absent fails too.
///
/// Its reads and writes are numbered from 1, failed ones among them. A call that wants memory has no number: it changes
/// nothing.
#[derive(Drop)]
pub struct MemoryFolder {
    alloc: Global,
    contents: Contents,
    failing: Vec<u64>,
    calls_made: u64,
    failed: u64,
    last: Option<Blamed>,
}

impl Model for MemoryFolder {
    ghost use Rattle.rsfq_outside.specs.Blame.{call_of};
    ghost use Rattle.rsfq_outside.specs.Held.{HeldFolder, held_folder_code};

    ghost Value = { HeldFolder };

    ghost coded = { held_folder_code };

    ghost view = { λ f. record {
      files = f.contents;
      fails = f.failing.items;
      calls = f.calls_made;
      faults = f.failed;
      blamed = call_of f.last;
    } };
}

impl MemoryFolder {
    /// An empty folder. `fails` has the numbers of the reads and writes that fail, counted from 1.
    pub fn new(alloc: Global, fails: Vec<u64>) -> Self
        ensures { result ≡ record { files = map.empty; fails = fails.items; calls = 0; faults = 0; blamed = None } }
    {
        MemoryFolder {
            alloc,
            contents: Contents::new(alloc),
            failing: fails,
            calls_made: 0,
            failed: 0,
            last: None,
        }
    }

    /// Sets the content of a name. It is no read or write, and has no number.
    ///
    /// # Errors
    ///
    /// `Memory` alone, and then nothing has changed.
    pub fn put(&mut self, name: &str, bytes: &[u8]) -> Result<(), FolderFault>
        ensures ok { OnOk result (self.new ≡ record self.old { files = map.insert self.old.files name.now bytes.now }) }
        ensures err { OnErr result (self.new ≡ self.old) }
        ensures memory { IsOkUnless result FolderFault.Memory }
    {
        self.contents.put(name, bytes)?;
        Ok(())
    }

    /// The content of a name, or `None` where the name is absent.
    pub fn content(&self, name: &str) -> Option<&[u8]>
        ensures { option_copied result ≡ map.get self.now.files name.now }
    {
        self.contents.get(name)
    }

    // Whether the next call is one of those that fail.
    fn is_next_failing(&self) -> bool
        ensures { IsTrue result ↔ Contains self.now.fails (next_call self.now) }
    {
        self.failing.contains(&self.calls_made.saturating_add(1))
    }

    // Counts a call.
    fn count_call(&mut self)
        ensures { self.new ≡ after_call self.old }
    {
        self.calls_made = self.calls_made.saturating_add(1);
    }

    // Counts a call that failed, and keeps it as the one to blame.
    fn fail(&mut self, kind: CallKind, name: String) -> FolderFault
        ensures failed { result ≡ FolderFault.Failed }
        ensures held { self.new ≡ after_failed_call self.old (kind, string_bytes name) }
        ensures rose { Rose self.old.faults self.new.faults }
        ensures later { self.old.faults ≤ self.new.faults }
    {
        self.count_call();
        self.failed = self.failed.saturating_add(1);
        self.last = Some(Blamed { kind, name });
        FolderFault::Failed
    }
}

impl Folder for MemoryFolder {
    ghost told = { λ f. Some f.files };

    ghost faults = { λ f. f.faults };

    ghost blamed = { λ f. f.blamed };

    fn read_front(&mut self, name: &str, limit: usize) -> Result<Vec<u8>, FolderFault>
        ensures front { IfOk result (λ bytes. IsFront (map.get self.old.files name.now) limit bytes.items) }
        ensures bound { IfOk result (λ bytes. vec_len bytes ≤ limit) }
        ensures told { self.new.files ≡ self.old.files }
        ensures cause { HasBlame self.old.faults self.new.faults self.old.blamed self.new.blamed (Read, name.now) result }

        // It fails at the numbers that were given, and where the name is absent.
        ensures fails { Contains self.old.fails (next_call self.old) ⊎ (map.get self.old.files name.now ≡ None) → IsErr result }
        ensures only { IsErrOf result FolderFault.Failed → Contains self.old.fails (next_call self.old) ⊎ (map.get self.old.files name.now ≡ None) }

        // What it then holds.
        ensures ok { OnOk result (self.new ≡ after_call self.old) }
        ensures failed { IsErrOf result FolderFault.Failed → self.new ≡ after_failed_call self.old (Read, name.now) }
        ensures memory { IsErrOf result FolderFault.Memory → self.new ≡ self.old }
    {
        let blame = String::from_str(self.alloc, name)?;
        if self.is_next_failing() {
            return Err(self.fail(CallKind::Read, blame));
        }
        let Some(content) = self.contents.get(name) else {
            return Err(self.fail(CallKind::Read, blame));
        };
        let bytes = copy_front(self.alloc, content, limit)?;
        self.count_call();
        Ok(bytes)
    }

    fn write_whole(&mut self, name: &str, bytes: &[u8]) -> Result<(), FolderFault>
        ensures cause { HasBlame self.old.faults self.new.faults self.old.blamed self.new.blamed (Write, name.now) result }

        // It fails at the numbers that were given.
        ensures fails { Contains self.old.fails (next_call self.old) → IsErr result }
        ensures only { IsErrOf result FolderFault.Failed → Contains self.old.fails (next_call self.old) }

        // What it then holds.
        ensures ok { OnOk result (self.new ≡ record (after_call self.old) { files = map.insert self.old.files name.now bytes.now }) }
        ensures failed { IsErrOf result FolderFault.Failed → self.new ≡ after_failed_call self.old (Write, name.now) }
        ensures memory { IsErrOf result FolderFault.Memory → self.new ≡ self.old }
    {
        let blame = String::from_str(self.alloc, name)?;
        if self.is_next_failing() {
            return Err(self.fail(CallKind::Write, blame));
        }
        self.contents.put(name, bytes)?;
        self.count_call();
        Ok(())
    }
}
