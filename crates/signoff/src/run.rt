//! The top call: reads and decides, makes the text that is due, and only then writes it.
ghost use Rattle.std.specs.Prelude.{◌≡◌, ◌≢◌, ◌≤◌, ◌<◌, ◌⊎◌, ℕ, List, IfOk, length};
ghost use Rattle.rsfq_ids.specs.Offence.{HasNoWindow};
ghost use Rattle.rsfq_outside.specs.Answers.{ExactlyWhere};
ghost use Rattle.rsfq_outside.specs.Reads.{long_line};
ghost use Rattle.rsfq_outside.specs.Told.{Grows};
ghost use Rattle.signoff.specs.Words.{AsksNothing, texts};
ghost use Rattle.signoff.specs.Text.{usage_text};
ghost use Rattle.signoff.specs.Verdict.{HasWindow, IsShallow};
ghost use Rattle.signoff.specs.Run.{IsDue, Runs, folder_run, sink_run, IfTold, IsTooLarge, IsRefusable, HasDesign, HasRefusal, HasFaultCause, HasReport, HasHeadline};

use crate::verdict::verdict;
use crate::words::read_words;
use rsfq_ids::list::NoMemory;
use rsfq_outside::{FILE_LIMIT, Folder, Reply, Sink, Status, Stop, deliver, read_file};
use std::alloc::Global;

/// The status that is due, with its whole text. It reads at most the netlist, and writes nothing.
fn prepare<F: Folder>(alloc: Global, words: &[String], folder: &mut F) -> Result<Reply, NoMemory>
    ensures due { IfOk result (λ reply. IsDue (folder_run (F.told folder.old) (F.faults folder.old) (F.faults folder.new) (F.blamed folder.new)) (texts words.now) reply.status reply.text.items) }
    ensures told { F.told folder.new ≡ F.told folder.old }
    ensures later { F.faults folder.old ≤ F.faults folder.new }
{
    let Some((netlist, times)) = read_words(words) else {
        return Ok(Reply {
            status: Status::Words,
            text: Vec::from_slice(alloc, b"usage: rsfq_signoff NETLIST PERIOD LOW HIGH\n")?,
        });
    };
    match read_file(alloc, netlist, FILE_LIMIT, folder) {
        Ok(bytes) => verdict(alloc, &bytes, times),
        Err(Stop::Due(reply)) => Ok(reply),
        Err(Stop::Memory) => Err(NoMemory),
    }
}

/// Signs off a netlist of JTL wires, and writes the answer to `out`.
///
/// The words are `NETLIST PERIOD LOW HIGH`: the name of a file in `folder`, the clock's period, and the earliest and the latest
/// arrival of a data pulse behind its tick, all in femtoseconds.
///
/// `Accepted` with the depth of each output and the input at the other end of its wire. Then every run is clean, whatever the
/// words, the number of clock pulses and the delay of each pulse, and the output's bit `j + depth` is the bit of word `j` at that
/// input. `Rejected` with the first pulse that may come in the zone around a strobe, `Words` with the usage line, or `Refused` where
/// the netlist is longer than 16 MiB, has no circuit (with the first stage that refuses it: its lexemes, its grammar, its names and
/// widths, its drivers, a limit), where its circuit is not of the form, or an output is deeper than 1,000,000. `Fault` where the
/// folder fails at the read, with the line that says so, or where the sink fails. `Memory` where memory is wanting, and then nothing
/// was written.
pub fn sign_off_run<F: Folder, S: Sink>(
    alloc: Global,
    words: &[String],
    folder: &mut F,
    out: &mut S,
) -> Status
    ensures answer { Runs (folder_run (F.told folder.old) (F.faults folder.old) (F.faults folder.new) (F.blamed folder.new)) (texts words.now) result
        (sink_run (S.written out.old) (S.written out.new) (S.faults out.old) (S.faults out.new)) }

    // When each answer comes. Those on the netlist speak where the folder tells it.
    ensures words { ExactlyWhere (AsksNothing (texts words.now)) Status.Words result }
    ensures refused { IfTold (F.told folder.old) (texts words.now) (λ name times netlist. ExactlyWhere (IsRefusable times netlist) Status.Refused result) }
    ensures accepted { IfTold (F.told folder.old) (texts words.now) (λ name times netlist. ExactlyWhere (HasDesign times netlist (λ design. HasNoWindow design × IsShallow design)) Status.Accepted result) }
    ensures rejected { IfTold (F.told folder.old) (texts words.now) (λ name times netlist. ExactlyWhere (HasDesign times netlist HasWindow) Status.Rejected result) }
    ensures fault { result ≡ Status.Fault → HasFaultCause (folder_run (F.told folder.old) (F.faults folder.old) (F.faults folder.new) (F.blamed folder.new)) (texts words.now)
        (sink_run (S.written out.old) (S.written out.new) (S.faults out.old) (S.faults out.new)) }

    // A read that fails is a fault: the count of faults stays at every other answer, but for want of memory.
    ensures sound { result ≢ Status.Memory → result ≢ Status.Fault → F.faults folder.new ≡ F.faults folder.old }

    // What stands on the sink. At a fault of the sink it is a prefix of what was due, as `answer` says.
    ensures usage { result ≡ Status.Words → Grows (S.written out.old) (S.written out.new) usage_text }
    ensures long { IfTold (F.told folder.old) (texts words.now) (λ name times netlist. IsTooLarge netlist → result ≡ Status.Refused → Grows (S.written out.old) (S.written out.new) (long_line name)) }
    ensures refusal { IfTold (F.told folder.old) (texts words.now) (λ name times netlist. ¬ IsTooLarge netlist → result ≡ Status.Refused →
        HasRefusal times netlist (sink_run (S.written out.old) (S.written out.new) (S.faults out.old) (S.faults out.new))) }
    ensures report { IfTold (F.told folder.old) (texts words.now) (λ name times netlist. (result ≡ Status.Accepted) ⊎ (result ≡ Status.Rejected) →
        HasReport times netlist result (sink_run (S.written out.old) (S.written out.new) (S.faults out.old) (S.faults out.new))) }
    ensures memory { result ≡ Status.Memory → S.written out.new ≡ S.written out.old }

    // What Accepted means for every run of the netlist's circuit.
    ensures headline { IfTold (F.told folder.old) (texts words.now) (λ name times netlist. result ≡ Status.Accepted →
        HasHeadline times netlist (sink_run (S.written out.old) (S.written out.new) (S.faults out.old) (S.faults out.new))) }

    // What stays, and what never falls.
    ensures told { F.told folder.new ≡ F.told folder.old }
    ensures folder_later { F.faults folder.old ≤ F.faults folder.new }
    ensures sink_later { S.faults out.old ≤ S.faults out.new }
{
    let Ok(reply) = prepare(alloc, words, folder) else {
        return Status::Memory;
    };
    deliver(&reply, out)
}
