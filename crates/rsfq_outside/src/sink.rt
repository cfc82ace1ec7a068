//! A sink of bytes, by its two meanings: what was written, where it tells that, and how often it failed.
ghost use Rattle.std.specs.Prelude.{◌≡◌, ◌≤◌, ◌<◌, ℕ, List, length, take, IfOk, OnOk, OnErr};
ghost use Rattle.std.specs.declared.option.Option.{Option};
ghost use Rattle.rsfq_outside.specs.Causes.{HasCause};
ghost use Rattle.rsfq_outside.specs.Told.{Grows};

use crate::{SinkFailed, WriteFault};

/// A sink that bytes are written to, in pieces.
pub trait Sink {
    /// The bytes written so far, where the sink tells them.
    ghost written: { Self → Option (List ℕ) };

    /// How often a write has failed. The count never falls.
    ghost faults: { Self → ℕ };

    /// Takes a prefix of the piece, and answers how many bytes that is: at least one of a piece that is not empty. It takes
    /// no memory.
    ///
    /// # Errors
    ///
    /// `SinkFailed` where the sink fails; then its count of faults has risen, and nothing was written.
    fn write(&mut self, piece: &[u8]) -> Result<usize, SinkFailed>
        ensures bound { IfOk result (λ taken. taken ≤ length piece.now) }
        ensures some { IfOk result (λ taken. 0 < length piece.now → 0 < taken) }
        ensures grows { IfOk result (λ taken. Grows (written self.old) (written self.new) (take taken piece.now)) }
        ensures unchanged { OnErr result (written self.new ≡ written self.old) }
        ensures cause { HasCause (faults self.old) (faults self.new) result };
}

/// Writes all of the bytes. It takes no memory.
///
/// # Errors
///
/// `WriteFault` where a write fails; then the sink's count of faults has risen, and a prefix of the bytes was written.
pub fn write_all_to<S: Sink>(out: &mut S, bytes: &[u8]) -> Result<(), WriteFault>
    ensures whole { OnOk result (Grows (S.written out.old) (S.written out.new) bytes.now) }
    ensures part { OnErr result ((n : ℕ) × Grows (S.written out.old) (S.written out.new) (take n bytes.now)) }
    ensures cause { HasCause (S.faults out.old) (S.faults out.new) result }
{
    let mut done = 0;
    while done < bytes.len() {
        match out.write(&bytes[done..]) {
            Ok(taken) => done += taken,
            Err(SinkFailed) => return Err(WriteFault),
        }
    }
    Ok(())
}
