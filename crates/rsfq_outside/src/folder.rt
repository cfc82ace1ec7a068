//! A folder of files, by its three meanings: what it tells of its files, how often it failed, and which call failed last.
ghost use Rattle.std.specs.Prelude.{◌≡◌, ◌≤◌, ℕ, List, IfOk, OnOk, IsErrOf, vec_len};
ghost use Rattle.std.specs.declared.option.Option.{Option};
ghost use Rattle.rsfq_outside.specs.declared.fault.CallKind.TheVariants.{Read, Write};
ghost use Rattle.rsfq_outside.specs.Causes.{Call, HasBlame};
ghost use Rattle.rsfq_outside.specs.Told.{Files, told_content, IsFront, with_file, IsPartWritten};

use crate::FolderFault;

/// A folder of files, each read and written by its name.
pub trait Folder {
    /// The content of each file, where the folder tells it.
    ghost told: { Self → Option Files };

    /// How often a call has failed. The count never falls.
    ghost faults: { Self → ℕ };

    /// The last call that answered `Failed`: its kind and its name.
    ghost blamed: { Self → Option Call };

    /// The first `limit` bytes of a file, or all of it where it is shorter. No content is changed.
    ///
    /// What it answers for a name that is absent is the folder's own matter.
    ///
    /// # Errors
    ///
    /// `Failed` where the folder can't read the file; then the count of faults has risen, and this read is the call to
    /// blame. `Memory` where memory is wanting.
    fn read_front(&mut self, name: &str, limit: usize) -> Result<Vec<u8>, FolderFault>
        ensures front { IfOk result (λ bytes. IsFront (told_content (told self.old) name.now) limit bytes.items) }
        ensures bound { IfOk result (λ bytes. vec_len bytes ≤ limit) }
        ensures told { told self.new ≡ told self.old }
        ensures sound { ¬ IsErrOf result FolderFault.Failed → faults self.new ≡ faults self.old }
        ensures cause { HasBlame (faults self.old) (faults self.new) (blamed self.old) (blamed self.new) (Read, name.now) result };

    /// Makes these bytes the content of a file, whether or not it was there. No other file is changed.
    ///
    /// # Errors
    ///
    /// `Failed` where the folder can't write the file; then the count of faults has risen, this write is the call to
    /// blame, and the file is as before, or absent, or holds a prefix of the bytes. `Memory` where memory is wanting, and
    /// then nothing has changed.
    fn write_whole(&mut self, name: &str, bytes: &[u8]) -> Result<(), FolderFault>
        ensures written { OnOk result (told self.new ≡ with_file (told self.old) name.now bytes.now) }
        ensures failed { IsErrOf result FolderFault.Failed → IsPartWritten (told self.old) name.now bytes.now (told self.new) }
        ensures memory { IsErrOf result FolderFault.Memory → (told self.new ≡ told self.old) × (faults self.new ≡ faults self.old) }
        ensures sound { ¬ IsErrOf result FolderFault.Failed → faults self.new ≡ faults self.old }
        ensures cause { HasBlame (faults self.old) (faults self.new) (blamed self.old) (blamed self.new) (Write, name.now) result };
}
