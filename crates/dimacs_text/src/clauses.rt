//! The clauses of a text, word by word.
ghost use Rattle.std.specs.Prelude.{◌≡◌, ◌≢◌, ◌≤◌, ◌<◌, ◌+◌, ◌*◌, ◌^◌, ◌++◌, ◌∷◌, ◌==◌, [], length, IfOk, IfErr, OnOk, Ok, Err};
ghost use Rattle.rsfq_ids.specs.declared.limits.TheConstants.{FORMULA_LIMIT, PROOF_FILE_LIMIT};
ghost use Rattle.std.specs.List.{list_any};
ghost use Rattle.dimacs_text.specs.Parts.{words, is_blank};
ghost use Rattle.dimacs_text.specs.Number.{literal_of};
ghost use Rattle.dimacs_text.specs.Reading.{after_line, after_word, after_words, once, at_end, nothing_said};

use crate::fault::{TextFault, TextWhy};
use crate::head::Head;
use crate::number::{Signed, read_signed};
use crate::parts::word_end;
use rsfq_ids::circuit::Cnf;
use rsfq_ids::id::{Id, Lit};
use rsfq_ids::list::{List, NoMemory};
use std::alloc::Global;
use std::collections::BTreeSet;
use std::marker::Model;

/// The clauses that are closed, and the literals of the one that is open.
#[derive(Drop)]
pub(crate) struct Clauses {
    alloc: Global,
    closed: List<List<Lit>>,
    pending: Vec<Lit>,
}

impl Model for Clauses {
    ghost use Rattle.dimacs_text.specs.Reading.{Said};

    ghost Value = { Said };

    ghost view = { λ c. record { closed = c.closed; pending = c.pending.items } };
}

impl Clauses {
    /// No clause, and none open.
    pub fn new(alloc: Global) -> Clauses
        ensures { result ≡ nothing_said }
    {
        Clauses {
            alloc,
            closed: List::new(alloc),
            pending: Vec::new(alloc),
        }
    }

    /// Reads a line that begins at a place.
    pub fn read_line(&mut self, vars: u32, line: &[u8], start: usize) -> Result<(), TextFault>
        requires vars { vars ≤ FORMULA_LIMIT }
        requires place { start + length line.now ≤ PROOF_FILE_LIMIT }
        ensures ok { OnOk result (after_line vars self.old (record { start = start; bytes = line.now }) ≡ Ok self.new) }
        ensures err { IfErr result (λ f. f.why ≢ TextWhy.Memory → after_line vars self.old (record { start = start; bytes = line.now }) ≡ Err f) }
    {
        if self.pending.is_empty() && !line.is_empty() && line[0] == b'c' {
            return Ok(());
        }
        self.read_words(vars, line, start)
    }

    /// Reads the words of a line that begins at a place.
    fn read_words(&mut self, vars: u32, line: &[u8], start: usize) -> Result<(), TextFault>
        requires vars { vars ≤ FORMULA_LIMIT }
        requires place { start + length line.now ≤ PROOF_FILE_LIMIT }
        ensures ok { OnOk result (after_words vars self.old (words is_blank start line.now) ≡ Ok self.new) }
        ensures err { IfErr result (λ f. f.why ≢ TextWhy.Memory → after_words vars self.old (words is_blank start line.now) ≡ Err f) }
    {
        let mut at = 0;
        'more: while at < line.len() {
            let end = word_end(line, at);
            if at < end {
                self.read_word(vars, &line[at..end], start + at)?;
            }
            at = end + 1;
        }
        Ok(())
    }

    /// Reads a word that begins at a place.
    fn read_word(&mut self, vars: u32, word: &[u8], start: usize) -> Result<(), TextFault>
        requires vars { vars ≤ FORMULA_LIMIT }
        requires place { start ≤ PROOF_FILE_LIMIT }
        ensures ok { OnOk result (after_word vars self.old (record { start = start; bytes = word.now }) ≡ Ok self.new) }
        ensures err { IfErr result (λ f. f.why ≢ TextWhy.Memory → after_word vars self.old (record { start = start; bytes = word.now }) ≡ Err f) }
    {
        let offset = start as u32;
        let Some(number) = read_signed(word) else {
            return Err(TextFault {
                offset,
                why: TextWhy::Number,
            });
        };
        if number.size == 0 {
            self.close()?;
            return Ok(());
        }
        if number.size > vars {
            return Err(TextFault {
                offset,
                why: TextWhy::Range(number.whole()),
            });
        }
        self.take(number)?;
        Ok(())
    }

    /// Takes a literal to the clause that is open.
    fn take(&mut self, number: Signed) -> Result<(), NoMemory>
        requires { number.size ≤ FORMULA_LIMIT }
        ensures { OnOk result (self.new ≡ record { closed = self.old.closed; pending = self.old.pending ++ literal_of number ∷ [] }) }
    {
        self.pending.push(number.literal())?;
        Ok(())
    }

    /// Closes the clause that is open.
    fn close(&mut self) -> Result<(), NoMemory>
        ensures { OnOk result (self.new ≡ record { closed = self.old.closed ++ once self.old.pending ∷ []; pending = [] }) }
    {
        let clause = make_once(self.alloc, &self.pending)?;
        self.closed.push(clause)?;
        self.pending.clear();
        Ok(())
    }

    /// The formula, where the text of so many bytes ends here.
    pub fn finish(self, len: usize, head: Head) -> Result<Cnf, TextFault>
        requires { len ≤ PROOF_FILE_LIMIT }
        ensures { result ≡ at_end len head self }
    {
        let offset = len as u32;
        if !self.pending.is_empty() {
            return Err(TextFault {
                offset,
                why: TextWhy::Unended,
            });
        }
        let have = self.closed.len() as u64;
        let want = u64::from(head.clauses);
        if have != want {
            return Err(TextFault {
                offset,
                why: TextWhy::Count(have, want),
            });
        }
        Ok(Cnf {
            vars: head.vars,
            clauses: self.closed,
        })
    }
}

/// The most literals of a clause whose repeated literals are found by a scan.
const SHORT: usize = 16;

/// Each literal once, at its first place.
fn make_once(alloc: Global, lits: &[Lit]) -> Result<List<Lit>, NoMemory>
    ensures { IfOk result (λ clause. clause ≡ once lits.now) }
{
    if lits.len() <= SHORT {
        once_by_scan(alloc, lits)
    } else {
        once_by_set(alloc, lits)
    }
}

/// Each literal once, where those before it are looked through, so that a short clause takes no memory but its own.
fn once_by_scan(alloc: Global, lits: &[Lit]) -> Result<List<Lit>, NoMemory>
    ensures { IfOk result (λ clause. clause ≡ once lits.now) }
{
    let mut clause = List::of(Vec::with_capacity(alloc, lits.len())?);
    for lit in lits {
        if !has_literal(clause.as_slice(), *lit) {
            clause.push(*lit)?;
        }
    }
    Ok(clause)
}

/// Whether a clause has a literal.
fn has_literal(clause: &[Lit], lit: Lit) -> bool
    ensures { result ≡ list_any (λ other. lit == other) clause.now }
{
    clause.contains(&lit)
}

/// Each literal once, where those before it stand in an ordered set.
fn once_by_set(alloc: Global, lits: &[Lit]) -> Result<List<Lit>, NoMemory>
    ensures { IfOk result (λ clause. clause ≡ once lits.now) }
{
    let mut clause = List::new(alloc);
    let mut seen = BTreeSet::new(alloc);
    for lit in lits {
        if seen.insert(lit.index())? {
            clause.push(*lit)?;
        }
    }
    Ok(clause)
}
