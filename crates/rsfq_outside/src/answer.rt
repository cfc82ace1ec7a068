//! What the top calls of all programs share: a read of one file that may stop the run, the line of a fault, and the delivery
//! of the text that is due.
//!
//! A top call first reads and decides, and makes each text that may be due. Only then it writes, and no write of its own
//! needs memory. So want of memory never follows a part of an answer.
ghost use Rattle.std.specs.Prelude.{◌≡◌, ◌≤◌, ◌<◌, ◌++◌, IfOk, IfErr, OnOk, codes};
ghost use Rattle.rsfq_outside.specs.declared.answer.Stop.TheVariants.{Memory};
ghost use Rattle.rsfq_outside.specs.declared.fault.CallKind.TheVariants.{Read};
ghost use Rattle.rsfq_outside.specs.Answers.{Delivers, FaultDue, fault_line};
ghost use Rattle.rsfq_outside.specs.Reads.{IsWholeFile, IsReadStop, IfFaultStops, IfRefusalStops};

use crate::{CallKind, Folder, FolderFault, Sink, Status, WriteFault, write_all_to};
use std::alloc::{AllocError, Global};

/// The most bytes that a file of a sign-off or of a replay may have: 16 MiB.
pub const FILE_LIMIT: usize = 16_777_216;

/// A status with its whole text, as bytes.
#[derive(Drop)]
pub struct Reply {
    pub status: Status,
    pub text: Vec<u8>,
}

/// Why a run stops before its end.
#[derive(Drop)]
pub enum Stop {
    /// A reply is due.
    Due(Reply),
    /// Memory was wanting.
    Memory,
}

impl From<AllocError> for Stop {
    ghost from_gives = { λ _ e. e ≡ Memory };

    fn from(_: AllocError) -> Self {
        Stop::Memory
    }
}

// A line of a text and a name after it.
fn make_line(alloc: Global, text: &[u8], name: &str) -> Result<Vec<u8>, AllocError>
    ensures { IfOk result (λ line. line.items ≡ text.now ++ name.now ++ codes "\n") }
{
    let mut line = Vec::from_slice(alloc, text)?;
    line.extend_from_slice(name.as_bytes())?;
    line.extend_from_slice(b"\n")?;
    Ok(line)
}

/// The line that names a folder's call that failed: `fault read NAME` or `fault write NAME`, and a newline.
///
/// # Errors
///
/// `AllocError` where memory is wanting.
pub fn make_fault_line(alloc: Global, kind: CallKind, name: &str) -> Result<Vec<u8>, AllocError>
    ensures { IfOk result (λ line. line.items ≡ fault_line (kind, name.now)) }
{
    match kind {
        CallKind::Read => make_line(alloc, b"fault read ", name),
        CallKind::Write => make_line(alloc, b"fault write ", name),
    }
}

/// All bytes of a file that has at most `most` of them. It asks the folder for one byte more, by which it sees that a file
/// is longer.
///
/// # Errors
///
/// `Due` with `Fault` and the line `fault read NAME` where the folder can't read the file, and with `Refused` and the line
/// `refused long NAME` where it gives more than `most` bytes. `Memory` where memory is wanting.
pub fn read_file<F: Folder>(
    alloc: Global,
    name: &str,
    most: usize,
    folder: &mut F,
) -> Result<Vec<u8>, Stop>
    requires { most < usize.MAX }
    ensures read { IfOk result (λ bytes. IsWholeFile (F.told folder.old) name.now most bytes.items) }
    ensures stop { IfErr result (IsReadStop (F.told folder.old) name.now most) }
    ensures fault { IfErr result (λ stop. IfFaultStops stop (FaultDue (F.faults folder.old) (F.faults folder.new) (F.blamed folder.new) (λ call. call ≡ (Read, name.now)))) }

    // What stays, and what never falls.
    ensures told { F.told folder.new ≡ F.told folder.old }
    ensures sound { OnOk result (F.faults folder.new ≡ F.faults folder.old) }
    ensures refusal_sound { IfErr result (λ stop. IfRefusalStops stop (F.faults folder.new ≡ F.faults folder.old)) }
    ensures later { F.faults folder.old ≤ F.faults folder.new }
{
    match folder.read_front(name, most + 1) {
        Ok(bytes) if bytes.len() <= most => Ok(bytes),
        Ok(_) => Err(Stop::Due(Reply {
            status: Status::Refused,
            text: make_line(alloc, b"refused long ", name)?,
        })),
        Err(FolderFault::Failed) => Err(Stop::Due(Reply {
            status: Status::Fault,
            text: make_fault_line(alloc, CallKind::Read, name)?,
        })),
        Err(FolderFault::Memory) => Err(Stop::Memory),
    }
}

/// Writes the text that is due, and answers its status, or `Fault` where the sink fails before it has the whole text. It
/// takes no memory.
pub fn deliver<S: Sink>(reply: &Reply, out: &mut S) -> Status
    ensures delivers { Delivers reply.now.status reply.now.text.items result (S.written out.old) (S.written out.new) (S.faults out.old) (S.faults out.new) }
    ensures later { S.faults out.old ≤ S.faults out.new }
{
    match write_all_to(out, &reply.text) {
        Ok(()) => reply.status,
        Err(WriteFault) => Status::Fault,
    }
}
