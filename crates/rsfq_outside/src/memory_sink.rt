//! A sink in memory that fails at the writes that it is told to, and where its room ends.
ghost use Rattle.std.specs.Prelude.{◌≡◌, ◌≤◌, ◌<◌, ◌-◌, ◌⊎◌, ◌++◌, [], Some, IfOk, OnErr, IsErr, IsOkUnless, Contains, min, take, length};
ghost use Rattle.rsfq_outside.specs.Causes.{HasCause};
ghost use Rattle.rsfq_outside.specs.Held.{HeldSink, next_write, after_write, after_failed_write};

use crate::{FolderFault, Sink, SinkFailed};
use std::alloc::Global;
use std::marker::Model;

/// A sink that tells its bytes, takes a fixed number of them in all, and some of whose writes fail.
///
/// A write that finds no room left for a piece that is not empty fails too. Its writes are numbered from 1, failed ones
/// among them.
#[derive(Drop)]
pub struct MemorySink {
    kept: Vec<u8>,
    limit: usize,
    failing: Vec<u64>,
    calls_made: u64,
    failed: u64,
}

impl Model for MemorySink {
    ghost use Rattle.std.specs.Prelude.{◌≤◌, vec_len, vec_capacity};
    ghost use Rattle.rsfq_outside.specs.Held.{HeldSink, held_sink_code};

    ghost Value = { HeldSink };

    ghost coded = { held_sink_code };

    ghost view = { λ s. record {
      written = s.kept.items;
      room = s.limit;
      fails = s.failing.items;
      calls = s.calls_made;
      faults = s.failed;
    } };

    // The room was reserved when the sink was made, so that no write takes memory.
    ghost invariant = { λ s. (vec_len s.kept ≤ s.limit) × (s.limit ≤ vec_capacity s.kept) };
}

impl MemorySink {
    /// A sink that takes at most `room` bytes in all. `fails` has the numbers of the writes that fail, counted from 1.
    ///
    /// # Errors
    ///
    /// `Memory` alone, where the room can't be had.
    pub fn new(alloc: Global, room: usize, fails: Vec<u64>) -> Result<Self, FolderFault>
        ensures ok { IfOk result (λ sink. sink ≡ record { written = []; room = room; fails = fails.items; calls = 0; faults = 0 }) }
        ensures memory { IsOkUnless result FolderFault.Memory }
    {
        let kept = Vec::with_capacity(alloc, room)?;
        Ok(MemorySink {
            kept,
            limit: room,
            failing: fails,
            calls_made: 0,
            failed: 0,
        })
    }

    /// The bytes written.
    pub fn bytes(&self) -> &[u8]
        ensures { result.now ≡ self.now.written }
    {
        &self.kept
    }
}

impl Sink for MemorySink {
    ghost written = { λ s. Some s.written };

    ghost faults = { λ s. s.faults };

    fn write(&mut self, piece: &[u8]) -> Result<usize, SinkFailed>
        ensures bound { IfOk result (λ taken. taken ≤ length piece.now) }
        ensures some { IfOk result (λ taken. 0 < length piece.now → 0 < taken) }
        ensures cause { HasCause self.old.faults self.new.faults result }

        // It fails at the numbers that were given, and where no room is left for a piece that is not empty.
        ensures fails { Contains self.old.fails (next_write self.old) ⊎ ((self.old.room ≤ length self.old.written) × (0 < length piece.now)) → IsErr result }
        ensures only { IsErr result → Contains self.old.fails (next_write self.old) ⊎ ((self.old.room ≤ length self.old.written) × (0 < length piece.now)) }

        // It takes all that it has room for, and this is what it then holds.
        ensures taken { IfOk result (λ taken. taken ≡ min (length piece.now) (self.old.room - length self.old.written)) }
        ensures ok { IfOk result (λ taken. self.new ≡ after_write self.old (take taken piece.now)) }
        ensures failed { OnErr result (self.new ≡ after_failed_write self.old) }
    {
        self.calls_made = self.calls_made.saturating_add(1);
        let taken = piece.len().min(self.limit - self.kept.len());
        let fails = self.failing.contains(&self.calls_made) || (taken == 0 && !piece.is_empty());
        if fails || self.kept.extend_from_slice(&piece[..taken]).is_err() {
            self.failed = self.failed.saturating_add(1);
            return Err(SinkFailed);
        }
        Ok(taken)
    }
}
