//! The verdict on two files, and its text.
ghost use Rattle.std.specs.Prelude.{◌≡◌, ◌≢◌, ◌≤◌, ◌++◌, length, decimal, codes, IfOk, OnOk};
ghost use Rattle.std.specs.Fmt.{signed_decimal};
ghost use Rattle.lrat_check.specs.Report.{cnf_why, cnf_line, proof_why, proof_line, verdict_of};

use crate::check::check_text;
use crate::fault::{LratFault, LratWhy};
use bumpalo::Bump;
use decimal_text::append_number;
use dimacs_text::{TextFault, TextWhy, read_dimacs};
use itoa::Buffer;
use rsfq_ids::list::NoMemory;
use rsfq_outside::{Reply, Status};
use std::alloc::{AllocError, Global};

/// The verdict on the text of a formula, which is dropped once it is read, and the text of a proof.
pub(crate) fn verify(alloc: Global, cnf: Vec<u8>, proof: &[u8]) -> Result<Reply, NoMemory>
    requires cnf { length cnf.items ≤ 268435456 }
    requires proof { length proof.now ≤ 268435456 }
    ensures { IfOk result (λ reply. verdict_of cnf.items proof.now ≡ record { status = reply.status; text = reply.text.items }) }
{
    let read = read_dimacs(alloc, &cnf);
    drop(cnf);
    let formula = match read {
        Ok(formula) => formula,
        Err(fault) => return refuse_cnf(alloc, fault),
    };
    let arena = Bump::new(alloc);
    match check_text(alloc, &formula, proof, &arena) {
        Ok(()) => Ok(Reply {
            status: Status::Accepted,
            text: Vec::from_slice(alloc, b"verified\n")?,
        }),
        Err(fault) => refuse_proof(alloc, fault),
    }
}

/// The refusal of the text of a formula, but for want of memory.
fn refuse_cnf(alloc: Global, fault: TextFault) -> Result<Reply, NoMemory>
    ensures status { IfOk result (λ reply. reply.status ≡ Status.Refused) }
    ensures text { IfOk result (λ reply. reply.text.items ≡ cnf_line fault) }
    ensures memory { IfOk result (λ reply. fault.why ≢ TextWhy.Memory) }
{
    if fault.why == TextWhy::Memory {
        return Err(NoMemory);
    }
    let mut text = start_refusal(alloc, b"refused cnf ", fault.offset)?;
    append_cnf_why(&mut text, fault.why)?;
    text.extend_from_slice(b"\n")?;
    Ok(Reply {
        status: Status::Refused,
        text,
    })
}

/// The refusal of a proof, but for want of memory.
fn refuse_proof(alloc: Global, fault: LratFault) -> Result<Reply, NoMemory>
    ensures status { IfOk result (λ reply. reply.status ≡ Status.Refused) }
    ensures text { IfOk result (λ reply. reply.text.items ≡ proof_line fault) }
    ensures memory { IfOk result (λ reply. fault.why ≢ LratWhy.Memory) }
{
    if fault.why == LratWhy::Memory {
        return Err(NoMemory);
    }
    let mut text = start_refusal(alloc, b"refused proof ", fault.line)?;
    append_proof_why(&mut text, fault.why)?;
    text.extend_from_slice(b"\n")?;
    Ok(Reply {
        status: Status::Refused,
        text,
    })
}

/// The words of a refusal, the number of its place, and a space.
fn start_refusal(alloc: Global, words: &[u8], place: u32) -> Result<Vec<u8>, NoMemory>
    ensures { IfOk result (λ text. text.items ≡ words.now ++ decimal place ++ codes " ") }
{
    let mut text = Vec::from_slice(alloc, words)?;
    append_number(&mut text, u64::from(place))?;
    text.extend_from_slice(b" ")?;
    Ok(text)
}

/// Appends why a text is no formula.
fn append_cnf_why(text: &mut Vec<u8>, why: TextWhy) -> Result<(), AllocError>
    ensures { OnOk result (text.new.items ≡ text.old.items ++ cnf_why why) }
{
    match why {
        TextWhy::Header => text.extend_from_slice(b"header"),
        TextWhy::Number => text.extend_from_slice(b"number"),
        TextWhy::Range(lit) => {
            text.extend_from_slice(b"range ")?;
            append_signed(text, lit)
        }
        TextWhy::Unended => text.extend_from_slice(b"unended"),
        TextWhy::Count(have, want) => append_counts(text, have, want),
        TextWhy::Memory => Ok(()),
    }
}

/// Appends how many clauses there are and how many the head names.
fn append_counts(text: &mut Vec<u8>, have: u64, want: u64) -> Result<(), AllocError>
    ensures { OnOk result (text.new.items ≡ text.old.items ++ codes "count " ++ decimal have ++ codes " " ++ decimal want) }
{
    text.extend_from_slice(b"count ")?;
    append_number(text, have)?;
    text.extend_from_slice(b" ")?;
    append_number(text, want)
}

/// Appends why a proof fails.
fn append_proof_why(text: &mut Vec<u8>, why: LratWhy) -> Result<(), AllocError>
    ensures { OnOk result (text.new.items ≡ text.old.items ++ proof_why why) }
{
    match why {
        LratWhy::Syntax => text.extend_from_slice(b"syntax"),
        LratWhy::Id => text.extend_from_slice(b"id"),
        LratWhy::Range(lit) => {
            text.extend_from_slice(b"range ")?;
            append_signed(text, lit)
        }
        LratWhy::NoClause(id) => {
            text.extend_from_slice(b"no clause ")?;
            append_number(text, u64::from(id))
        }
        LratWhy::Rat => text.extend_from_slice(b"rat"),
        LratWhy::Tautology => text.extend_from_slice(b"tautology"),
        LratWhy::NotUnit(hint) => {
            text.extend_from_slice(b"not unit ")?;
            append_number(text, u64::from(hint))
        }
        LratWhy::NoConflict => text.extend_from_slice(b"no conflict"),
        LratWhy::NoEmpty => text.extend_from_slice(b"no empty"),
        LratWhy::Memory => Ok(()),
    }
}

/// Appends a number that may be below 0.
fn append_signed(text: &mut Vec<u8>, number: i64) -> Result<(), AllocError>
    ensures { OnOk result (text.new.items ≡ text.old.items ++ signed_decimal number) }
{
    let mut buffer = Buffer::new();
    text.extend_from_slice(buffer.format(number).as_bytes())
}
