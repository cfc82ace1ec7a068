//! Reading the text of a formula.
ghost use Rattle.std.specs.Prelude.{◌≡◌, ◌≢◌, ◌≤◌, ◌+◌, ◌^◌, ◌<◌, slice_index, length, drop, IfOk, IfErr, Ok, Err};
ghost use Rattle.rsfq_ids.specs.declared.limits.TheConstants.{FORMULA_LIMIT, PROOF_FILE_LIMIT};
ghost use Rattle.rsfq_ids.specs.Formula.{IsFormula};
ghost use Rattle.dimacs_text.specs.Parts.{lines};
ghost use Rattle.dimacs_text.specs.Reading.{reading, without_comments, after_head};
ghost use Rattle.dimacs_text.specs.Spelled.{Spells};
ghost use Rattle.rsfq_ids.specs.declared.circuit.Cnf.{Cnf};

use crate::clauses::Clauses;
use crate::fault::{TextFault, TextWhy};
use crate::head::{Head, read_head};
use crate::parts::line_end;
use rsfq_ids::circuit::Cnf;
use std::alloc::Global;

/// The formula that a text of at most 268,435,456 bytes says, in the DIMACS format: the one that the text spells.
///
/// # Errors
///
/// The first fault of the text, where it has one: exactly where the text spells no formula. Only `TextWhy::Memory` may come of any text.
pub fn read_dimacs(alloc: Global, bytes: &[u8]) -> Result<Cnf, TextFault>
    requires { length bytes.now ≤ PROOF_FILE_LIMIT }
    ensures ok { IfOk result (λ cnf. reading bytes.now ≡ Ok cnf) }
    ensures formula { IfOk result IsFormula }
    ensures err { IfErr result (λ fault. fault.why ≢ TextWhy.Memory → reading bytes.now ≡ Err fault) }
    ensures spelled { IfOk result (λ cnf. Spells bytes.now cnf) }
    ensures unspelled { IfErr result (λ fault. fault.why ≢ TextWhy.Memory → (cnf : Cnf) → ¬ Spells bytes.now cnf) }
{
    let at = comments_end(bytes);
    let header = TextFault {
        offset: at as u32,
        why: TextWhy::Header,
    };
    if at == bytes.len() {
        return Err(header);
    }
    let end = line_end(bytes, at);
    let Some(head) = read_head(&bytes[at..end]) else {
        return Err(header);
    };
    read_clauses(alloc, bytes, end + 1, head)
}

/// The place of the first line that is no comment, or the text's end.
fn comments_end(bytes: &[u8]) -> usize
    ensures first { without_comments (lines 0 bytes.now) ≡ without_comments (lines result (drop result bytes.now)) }
    ensures within { result ≤ length bytes.now }
    ensures other { result < length bytes.now → slice_index bytes.now result ≢ 99 }
{
    let mut at = 0;
    'more: while at < bytes.len() && bytes[at] == b'c' {
        at = line_end(bytes, at);
        if at < bytes.len() {
            at += 1;
        }
    }
    at
}

/// The formula of a head and of the lines that follow it, from a place on.
fn read_clauses(alloc: Global, bytes: &[u8], start: usize, head: Head) -> Result<Cnf, TextFault>
    requires vars { head.vars ≤ FORMULA_LIMIT }
    requires limit { length bytes.now ≤ PROOF_FILE_LIMIT }
    ensures ok { IfOk result (λ cnf. after_head (length bytes.now) (lines start (drop start bytes.now)) head ≡ Ok cnf) }
    ensures err { IfErr result (λ fault. fault.why ≢ TextWhy.Memory → after_head (length bytes.now) (lines start (drop start bytes.now)) head ≡ Err fault) }
{
    let mut clauses = Clauses::new(alloc);
    let mut at = start;
    'more: while at < bytes.len() {
        let end = line_end(bytes, at);
        clauses.read_line(head.vars, &bytes[at..end], at)?;
        at = end + 1;
    }
    clauses.finish(bytes.len(), head)
}
