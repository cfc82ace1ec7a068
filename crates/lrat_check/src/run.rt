//! The top call: reads and decides, makes the text that is due, and only then writes it.
ghost use Rattle.std.specs.Prelude.{◌≡◌, ◌≢◌, ◌≤◌, ◌<◌, ◌⊎◌, ℕ, List, [], IfOk, length};
ghost use Rattle.clap.specs.Words.{fault_of};
ghost use Rattle.rsfq_outside.specs.Answers.{ExactlyWhere};
ghost use Rattle.rsfq_outside.specs.Told.{Grows};
ghost use Rattle.lrat_check.specs.Run.{texts, usage_text, AsksNothing, IsReplied, IsDue, Runs, folder_run, sink_run, IfTold, reply_of, IsTheReply, IsVerified, IsRefuted, HasFaultCause};
ghost use Rattle.lrat_check.specs.Usage.{lrat_command};

use crate::laws::refused_words_ask_for_nothing;
use crate::report::verify;
use crate::words::{WordsFault, lrat_words_of};
use proof_arena::{denials_are_sound, readings_are_sound};
use rsfq_ids::list::NoMemory;
use rsfq_outside::{Folder, Reply, Sink, Status, Stop, deliver, read_file};
use std::alloc::Global;

/// The most bytes that a formula or a proof may have: 256 MiB.
const TEXT_LIMIT: usize = 268_435_456;

/// The status that is due, with its whole text. It reads at most the two files, and writes nothing.
fn prepare<F: Folder>(alloc: Global, words: &[String], folder: &mut F) -> Result<Reply, NoMemory>
    ensures due { IfOk result (λ reply. IsDue (folder_run (F.told folder.old) (F.faults folder.old) (F.faults folder.new) (F.blamed folder.new)) (texts words.now) reply.status reply.text.items) }
    ensures told { F.told folder.new ≡ F.told folder.old }
    ensures later { F.faults folder.old ≤ F.faults folder.new }
{
    let names = match lrat_words_of(alloc, words) {
        Ok(names) => names,
        Err(WordsFault::Words) => {
            return Ok(Reply {
                status: Status::Words,
                text: Vec::from_slice(alloc, b"usage: rsfq_lrat CNF PROOF\n")?,
            });
        }
        Err(WordsFault::Memory) => return Err(NoMemory),
    };
    match read_file(alloc, names.cnf, TEXT_LIMIT, folder) {
        Ok(cnf) => prepare_proof(alloc, cnf, names.proof, folder),
        Err(Stop::Due(reply)) => Ok(reply),
        Err(Stop::Memory) => Err(NoMemory),
    }
}

/// The status that is due on the text of a formula, with its whole text. It reads at most the proof.
fn prepare_proof<F: Folder>(
    alloc: Global,
    cnf: Vec<u8>,
    proof: &str,
    folder: &mut F,
) -> Result<Reply, NoMemory>
    requires { length cnf.items ≤ 268435456 }
    ensures due { IfOk result (λ reply. IsReplied (folder_run (F.told folder.old) (F.faults folder.old) (F.faults folder.new) (F.blamed folder.new)) proof.now cnf.items reply.status reply.text.items) }
    ensures told { F.told folder.new ≡ F.told folder.old }
    ensures later { F.faults folder.old ≤ F.faults folder.new }
{
    match read_file(alloc, proof, TEXT_LIMIT, folder) {
        Ok(text) => verify(alloc, cnf, &text),
        Err(Stop::Due(reply)) => Ok(reply),
        Err(Stop::Memory) => Err(NoMemory),
    }
}

/// Checks a proof in the LRAT text format against a formula in the DIMACS format, and writes the answer to `out`.
///
/// The words are `CNF PROOF`: the names of two files in `folder`.
///
/// `Accepted` with the line `verified` where every line of the proof holds and an empty clause is added; then no assignment satisfies the
/// formula. `Refused` with the first cause: a file of more than 256 MiB, the first fault of the formula's text, or of the proof's. `Words`
/// with the usage line where the words are not two values, which is where the simple command `rsfq_lrat CNF PROOF` refuses them. `Fault`
/// where the folder fails at a read, with the line that says so, or where the sink fails. `Memory` where memory is wanting, and then nothing
/// was written.
pub fn lrat_run<F: Folder, S: Sink>(
    alloc: Global,
    words: &[String],
    folder: &mut F,
    out: &mut S,
) -> Status
    ensures answer { Runs (folder_run (F.told folder.old) (F.faults folder.old) (F.faults folder.new) (F.blamed folder.new)) (texts words.now) result
        (sink_run (S.written out.old) (S.written out.new) (S.faults out.old) (S.faults out.new)) }

    // When each answer comes, and what then stands on the sink. Those on the files speak where the folder tells them.
    ensures words { ExactlyWhere (AsksNothing (texts words.now)) Status.Words result }
    ensures command { ExactlyWhere (fault_of lrat_command (texts words.now) ≢ []) Status.Words result }
    ensures reply { IfTold (F.told folder.old) (texts words.now) (λ cnf proof formula_text proof_text. result ≢ Status.Memory → result ≢ Status.Fault →
        IsTheReply (reply_of cnf proof formula_text proof_text) result (sink_run (S.written out.old) (S.written out.new) (S.faults out.old) (S.faults out.new))) }
    ensures accepted { IfTold (F.told folder.old) (texts words.now) (λ cnf proof formula_text proof_text. ExactlyWhere (IsVerified formula_text proof_text) Status.Accepted result) }
    ensures fault { result ≡ Status.Fault → HasFaultCause (folder_run (F.told folder.old) (F.faults folder.old) (F.faults folder.new) (F.blamed folder.new)) (texts words.now)
        (sink_run (S.written out.old) (S.written out.new) (S.faults out.old) (S.faults out.new)) }

    // A read that fails is a fault: the count of faults stays at every other answer, but for want of memory.
    ensures sound { result ≢ Status.Memory → result ≢ Status.Fault → F.faults folder.new ≡ F.faults folder.old }
    ensures usage { result ≡ Status.Words → Grows (S.written out.old) (S.written out.new) usage_text }
    ensures memory { result ≡ Status.Memory → S.written out.new ≡ S.written out.old }

    // What Accepted means.
    ensures refutes { IfTold (F.told folder.old) (texts words.now) (λ cnf proof formula_text proof_text. result ≡ Status.Accepted → IsRefuted formula_text) }

    // What stays, and what never falls.
    ensures told { F.told folder.new ≡ F.told folder.old }
    ensures folder_later { F.faults folder.old ≤ F.faults folder.new }
    ensures sink_later { S.faults out.old ≤ S.faults out.new }
{
    readings_are_sound();
    denials_are_sound();
    refused_words_ask_for_nothing(words);
    let Ok(reply) = prepare(alloc, words, folder) else {
        return Status::Memory;
    };
    deliver(&reply, out)
}
