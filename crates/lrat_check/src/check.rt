//! The check of a proof.
ghost use Rattle.std.specs.Prelude.{◌≡◌, ◌≢◌, ◌≤◌, ◌<◌, ◌+◌, None, Some, Ok, Err, false, min, length, IfErr, OnOk, IfOk};
ghost use Rattle.rsfq_ids.specs.declared.limits.TheConstants.{FORMULA_LIMIT, PROOF_FILE_LIMIT};
ghost use Rattle.std.specs.List.{concat};
ghost use Rattle.rsfq_ids.specs.Formula.{IsFormula, HasSolution};
ghost use Rattle.proof_arena.specs.Table.{falses_of};
ghost use Rattle.dimacs_text.specs.Parts.{lines};
ghost use Rattle.lrat_lines.specs.Forms.{form_of};
ghost use Rattle.lrat_lines.specs.Lines.{line_of};
ghost use Rattle.lrat_table.specs.Entries.{found_of};
ghost use Rattle.lrat_check.specs.Tables.{known_of, HasNearTable, MeetsAtMost};
ghost use Rattle.lrat_check.specs.Reached.{vars_up_to};
ghost use Rattle.lrat_check.specs.Check.{after_line, addition_fault, added, clause_of, deleted, hints_fault, range_fault, text_fault, unless_why, keeps, at_end, known_at_first};

use crate::fault::{LratFault, LratWhy};
use crate::reach::Reach;
use bumpalo::Bump;
use dimacs_text::{Signed, line_end};
use lrat_lines::{Form, Numbers};
use lrat_table::ClauseTable;
use proof_arena::{HintReading, Marks, denials_are_sound, readings_are_sound};
use rsfq_ids::circuit::Cnf;
use rsfq_ids::id::Lit;
use rsfq_ids::list::NoMemory;
use std::alloc::Global;

/// What is known while a proof is checked.
#[derive(Drop)]
struct Checker<'a> {
    vars: u32,
    arena: &'a Bump,
    table: ClauseTable<'a>,
    refuted: bool,
    reach: Reach,
    marks: Marks,
    clause: Vec<Lit>,
}

impl<'a> Checker<'a> {
    /// What is known of a formula before the first line.
    fn new(alloc: Global, cnf: &'a Cnf, arena: &'a Bump) -> Result<Checker<'a>, NoMemory>
        requires { IsFormula cnf.now }
        ensures known { IfOk result (λ checker. (checker.vars ≡ cnf.entry.now.vars) × (known_of checker ≡ known_at_first cnf.entry.now)) }
        ensures near { IfOk result (λ checker. HasNearTable checker) }
        ensures met { IfOk result (λ checker. checker.reach.met ≡ min (length (concat cnf.entry.now.clauses)) 4294967295) }
        ensures reach { IfOk result (λ checker. checker.reach.vars ≡ vars_up_to (concat cnf.entry.now.clauses)) }
    {
        let reach = Reach::of(cnf);
        Ok(Checker {
            vars: cnf.vars,
            arena,
            table: ClauseTable::new(alloc, cnf)?,
            refuted: false,
            reach,
            marks: Marks::new(alloc, reach.near())?,
            clause: Vec::new(alloc),
        })
    }

    /// Checks a line.
    fn check_line(&mut self, line: &[u8], numbers: &mut Numbers) -> Result<(), LratWhy>
        requires vars { self.old.vars ≤ FORMULA_LIMIT }
        requires near { HasNearTable self.old }
        ensures ok { OnOk result (after_line self.old.vars (known_of self.old) (line_of line.now) ≡ Ok (known_of self.new)) }
        ensures err { IfErr result (λ why. why ≢ LratWhy.Memory → after_line self.old.vars (known_of self.old) (line_of line.now) ≡ Err why) }
        ensures vars { self.new.vars ≡ self.old.vars }
        ensures near { HasNearTable self.new }
        ensures meets { MeetsAtMost self.old self.new (clause_of numbers.new.lits.items) }
    {
        match numbers.read_line(line) {
            Ok(form) => self.take_line(form, numbers),
            Err(NoMemory) => Err(LratWhy::Memory),
        }
    }

    /// What the check of all lines, of which there were so many, comes to.
    fn finish(&self, lines: u32) -> Result<(), LratFault>
        ensures ok { OnOk result (at_end lines (known_of self.now) ≡ None) }
        ensures err { IfErr result (λ fault. at_end lines (known_of self.now) ≡ Some fault) }
    {
        if self.refuted {
            Ok(())
        } else {
            Err(LratFault {
                line: lines,
                why: LratWhy::NoEmpty,
            })
        }
    }

    /// Reads what a line says, of the numbers that it has.
    fn take_line(&mut self, form: Form, numbers: &Numbers) -> Result<(), LratWhy>
        requires vars { self.old.vars ≤ FORMULA_LIMIT }
        requires near { HasNearTable self.old }
        ensures ok { OnOk result (after_line self.old.vars (known_of self.old) (form_of form numbers.now.lits.items numbers.now.hints.items) ≡ Ok (known_of self.new)) }
        ensures err { IfErr result (λ why. why ≢ LratWhy.Memory → after_line self.old.vars (known_of self.old) (form_of form numbers.now.lits.items numbers.now.hints.items) ≡ Err why) }
        ensures vars { self.new.vars ≡ self.old.vars }
        ensures near { HasNearTable self.new }
        ensures meets { MeetsAtMost self.old self.new (clause_of numbers.now.lits.items) }
    {
        match form {
            Form::Skipped => Ok(()),
            Form::Broken => Err(LratWhy::Syntax),
            Form::Addition(id) => self.add(id, &numbers.lits, &numbers.hints),
            Form::Deletion => self.delete(&numbers.lits),
        }
    }

    /// Deletes clauses one by one.
    fn delete(&mut self, ids: &[Signed]) -> Result<(), LratWhy>
        ensures ok { OnOk result (keeps (known_of self.old) (deleted (known_of self.old).found ids.now) ≡ Ok (known_of self.new)) }
        ensures err { IfErr result (λ why. why ≢ LratWhy.Memory → keeps (known_of self.old) (deleted (known_of self.old).found ids.now) ≡ Err why) }
        ensures vars { self.new.vars ≡ self.old.vars }
        ensures marks { self.new.marks ≡ self.old.marks }
        ensures reach { self.new.reach ≡ self.old.reach }
    {
        for id in ids {
            if !self.table.remove(id.size) {
                return Err(LratWhy::NoClause(id.size));
            }
        }
        Ok(())
    }

    /// Adds a clause, if it holds.
    fn add(&mut self, id: u32, lits: &[Signed], hints: &[Signed]) -> Result<(), LratWhy>
        requires vars { self.old.vars ≤ FORMULA_LIMIT }
        requires near { HasNearTable self.old }
        ensures ok { OnOk result (unless_why (addition_fault self.old.vars (known_of self.old) id lits.now hints.now) (added (known_of self.old) id (clause_of lits.now)) ≡ Ok (known_of self.new)) }
        ensures err { IfErr result (λ why. why ≢ LratWhy.Memory → unless_why (addition_fault self.old.vars (known_of self.old) id lits.now hints.now) (added (known_of self.old) id (clause_of lits.now)) ≡ Err why) }
        ensures vars { self.new.vars ≡ self.old.vars }
        ensures near { HasNearTable self.new }
        ensures meets { MeetsAtMost self.old self.new (clause_of lits.now) }
    {
        if id <= self.table.last() {
            return Err(LratWhy::Id);
        }
        read_clause(self.vars, lits, &mut self.clause)?;
        self.reach.meet(&self.clause);
        self.marks.clear_for(self.reach.near())?;
        self.marks.deny_any(&self.clause)?;
        if self.marks.has_true(&self.clause) {
            return Err(LratWhy::Tautology);
        }
        find_conflict(&self.table, hints, &mut self.marks)?;
        let Ok(clause) = self.arena.try_alloc_slice_copy(&self.clause) else {
            return Err(LratWhy::Memory);
        };
        self.table.add(id, clause)?;
        self.refuted = self.refuted || lits.is_empty();
        Ok(())
    }
}

/// Reads the literals of a clause in place of those that were in it.
fn read_clause(vars: u32, lits: &[Signed], clause: &mut Vec<Lit>) -> Result<(), LratWhy>
    requires vars { vars ≤ FORMULA_LIMIT }
    ensures ok { OnOk result ((range_fault vars lits.now ≡ None) × (clause.new.items ≡ clause_of lits.now)) }
    ensures err { IfErr result (λ why. why ≢ LratWhy.Memory → range_fault vars lits.now ≡ Some why) }
{
    clause.clear();
    for lit in lits {
        if lit.size > vars {
            return Err(LratWhy::Range(lit.whole()));
        }
        match clause.push(lit.literal()) {
            Ok(()) => {}
            Err(_) => return Err(LratWhy::Memory),
        }
    }
    Ok(())
}

/// Reads hints in order up to a conflict. The marks are used up.
fn find_conflict(
    table: &ClauseTable<'_>,
    hints: &[Signed],
    marks: &mut Marks,
) -> Result<(), LratWhy>
    ensures ok { OnOk result (hints_fault (found_of table.now) (falses_of marks.old) hints.now ≡ None) }
    ensures err { IfErr result (λ why. why ≢ LratWhy.Memory → hints_fault (found_of table.now) (falses_of marks.old) hints.now ≡ Some why) }
    ensures size { length marks.new.table ≡ length marks.old.table }
{
    for hint in hints {
        if hint.negative {
            return Err(LratWhy::Rat);
        }
        let Some(clause) = table.find(hint.size) else {
            return Err(LratWhy::NoClause(hint.size));
        };
        match marks.read(clause) {
            HintReading::Conflict => return Ok(()),
            HintReading::Passed => {}
            HintReading::Unit(lit) => marks.make_any_false(lit.opposite())?,
            HintReading::NotUnit => return Err(LratWhy::NotUnit(hint.size)),
        }
    }
    Err(LratWhy::NoConflict)
}

/// Checks a proof of at most 268,435,456 bytes in the LRAT text format (without RAT) against a formula, whose clauses have the ids from 1 on.
/// Clauses that are added are copied into the arena. `Ok` comes exactly where every line holds and an empty clause was added; then no
/// assignment satisfies the formula.
///
/// # Errors
///
/// The first line that fails with the first of its causes, or `NoEmpty`. Only `LratWhy::Memory` may come of any text.
pub fn check_text(alloc: Global, cnf: &Cnf, bytes: &[u8], arena: &Bump) -> Result<(), LratFault>
    requires formula { IsFormula cnf.now }
    requires limit { length bytes.now ≤ PROOF_FILE_LIMIT }
    ensures ok { OnOk result (text_fault cnf.now bytes.now ≡ None) }
    ensures err { IfErr result (λ fault. fault.why ≢ LratWhy.Memory → text_fault cnf.now bytes.now ≡ Some fault) }
    ensures refutes { OnOk result (¬ (HasSolution cnf.now.clauses)) }
{
    readings_are_sound();
    denials_are_sound();
    check_lines(alloc, cnf, bytes, arena)
}

/// Checks the lines of a proof.
fn check_lines(alloc: Global, cnf: &Cnf, bytes: &[u8], arena: &Bump) -> Result<(), LratFault>
    requires formula { IsFormula cnf.now }
    requires limit { length bytes.now ≤ PROOF_FILE_LIMIT }
    ensures ok { OnOk result (text_fault cnf.now bytes.now ≡ None) }
    ensures err { IfErr result (λ fault. fault.why ≢ LratWhy.Memory → text_fault cnf.now bytes.now ≡ Some fault) }
{
    let mut checker = Checker::new(alloc, cnf, arena)?;
    let mut numbers = Numbers::new(alloc);
    let mut at = 0;
    let mut line = 0;
    'more: while at < bytes.len() {
        let end = line_end(bytes, at);
        line += 1;
        if let Err(why) = checker.check_line(&bytes[at..end], &mut numbers) {
            return Err(LratFault { line, why });
        }
        at = end + 1;
    }
    checker.finish(line)
}
