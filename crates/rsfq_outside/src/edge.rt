//! The real folder and standard output: the trusted edge. No contract can say what a disk or a terminal holds, so they tell
//! nothing of content, and each is a few lines over std.
ghost use Rattle.std.specs.Prelude.{◌≡◌, ◌+◌, ◌≤◌, Some, None, IfOk, IfSome, IsOkUnless, string_bytes, vec_len};
ghost use Rattle.rsfq_outside.specs.Causes.{Rose};
ghost use Rattle.rsfq_outside.specs.Blame.{call_of};

use crate::blamed::Blamed;
use crate::{CallKind, Folder, FolderFault, Sink, SinkFailed};
use std::alloc::Global;
use std::fs;
use std::io::Read;
use std::rt::Files;

// The most bytes that one read of a file takes.
const PIECE: usize = 65536;

/// The real folder that a program is run in. It tells nothing of its files, and fails where the system can't open, read or
/// write one, an absent one among them.
#[derive(Drop)]
pub struct DiskFolder<R: Files> {
    rt: R,
    alloc: Global,
    failed: u64,
    last: Option<Blamed>,
}

impl<R: Files> DiskFolder<R> {
    /// The folder that the program runs in, with no fault counted and no call to blame.
    pub fn new(alloc: Global, rt: R) -> Self
        ensures told { ⟦<DiskFolder<R> as Folder>⟧.told result ≡ None }
        ensures faults { ⟦<DiskFolder<R> as Folder>⟧.faults result ≡ 0 }
        ensures blamed { ⟦<DiskFolder<R> as Folder>⟧.blamed result ≡ None }
    {
        DiskFolder {
            rt,
            alloc,
            failed: 0,
            last: None,
        }
    }

    // Counts a call that failed, and keeps it as the one to blame.
    fn fail(&mut self, kind: CallKind, name: String) -> FolderFault
        ensures failed { result ≡ FolderFault.Failed }
        ensures blamed { call_of self.new.last ≡ Some (kind, string_bytes name) }
        ensures rose { Rose self.old.failed self.new.failed }
        ensures later { self.old.failed ≤ self.new.failed }
    {
        self.failed = self.failed.saturating_add(1);
        self.last = Some(Blamed { kind, name });
        FolderFault::Failed
    }
}

// The first bytes that are left in a file, at most `limit`, or nothing where a read fails.
fn read_at_most(
    alloc: Global,
    file: &mut impl Read,
    limit: usize,
) -> Result<Option<Vec<u8>>, FolderFault>
    ensures bound { IfOk result (λ read. IfSome read (λ bytes. vec_len bytes ≤ limit)) }
    ensures memory { IsOkUnless result FolderFault.Memory }
{
    let mut buffer = vec![in alloc; 0; PIECE]?;
    let mut bytes = Vec::new(alloc);
    while bytes.len() < limit {
        let wanted = (limit - bytes.len()).min(PIECE);
        match file.read(&mut buffer[..wanted]) {
            Ok(0) => break,
            Ok(count) => bytes.extend_from_slice(&buffer[..count])?,
            Err(_) => return Ok(None),
        }
    }
    Ok(Some(bytes))
}

impl<R: Files> Folder for DiskFolder<R> {
    ghost told = { λ _. None };

    ghost faults = { λ f. f.failed };

    ghost blamed = { λ f. call_of f.last };

    fn read_front(&mut self, name: &str, limit: usize) -> Result<Vec<u8>, FolderFault> {
        let blame = String::from_str(self.alloc, name)?;
        let Ok(mut file) = fs::open(&self.rt, name) else {
            return Err(self.fail(CallKind::Read, blame));
        };
        match read_at_most(self.alloc, &mut file, limit)? {
            None => Err(self.fail(CallKind::Read, blame)),
            Some(bytes) => Ok(bytes),
        }
    }

    fn write_whole(&mut self, name: &str, bytes: &[u8]) -> Result<(), FolderFault> {
        let blame = String::from_str(self.alloc, name)?;
        if fs::write(&self.rt, name, bytes).is_err() {
            return Err(self.fail(CallKind::Write, blame));
        }
        Ok(())
    }
}

/// Standard output, unbuffered. It tells nothing of its bytes, and fails where the system takes none of a piece.
#[derive(Drop)]
pub struct StdoutSink<R: Print> {
    rt: R,
    failed: u64,
}

impl<R: Print> StdoutSink<R> {
    /// Standard output, with no fault counted.
    pub fn new(rt: R) -> Self
        ensures written { ⟦<StdoutSink<R> as Sink>⟧.written result ≡ None }
        ensures faults { ⟦<StdoutSink<R> as Sink>⟧.faults result ≡ 0 }
    {
        StdoutSink { rt, failed: 0 }
    }
}

impl<R: Print> Sink for StdoutSink<R> {
    ghost written = { λ _. None };

    ghost faults = { λ s. s.failed };

    fn write(&mut self, piece: &[u8]) -> Result<usize, SinkFailed> {
        match self.rt.write_some(piece) {
            Ok(taken) if taken > 0 || piece.is_empty() => Ok(taken),
            _ => {
                self.failed = self.failed.saturating_add(1);
                Err(SinkFailed)
            }
        }
    }
}
