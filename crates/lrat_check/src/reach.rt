//! How many variables the table of marks is made for.
ghost use Rattle.std.specs.Prelude.{◌≡◌, ◌≤◌, ◌+◌, min, max, length};
ghost use Rattle.std.specs.List.{concat};
ghost use Rattle.lrat_check.specs.Reached.{vars_up_to};

use rsfq_ids::circuit::Cnf;
use rsfq_ids::id::{Id, Lit};

/// The most variables that always may have a place in the table of marks.
const NEAR: u32 = 1 << 16;

/// The literals that were met: how many, and how many variables there are up to the greatest.
#[derive(Clone, Copy)]
pub(crate) struct Reach {
    met: u32,
    vars: u32,
}

impl Reach {
    /// Those of a formula. A count that does not fit is the greatest that does.
    pub fn of(cnf: &Cnf) -> Reach
        ensures met { result.met ≡ min (length (concat cnf.now.clauses)) 4294967295 }
        ensures vars { result.vars ≡ vars_up_to (concat cnf.now.clauses) }
    {
        let mut reach = Reach { met: 0, vars: 0 };
        for clause in cnf.clauses.as_slice() {
            reach.meet(clause.as_slice());
        }
        reach
    }

    /// Meets the literals of a clause.
    pub fn meet(&mut self, clause: &[Lit])
        ensures met { self.new.met ≡ min (self.old.met + length clause.now) 4294967295 }
        ensures vars { self.new.vars ≡ max self.old.vars (vars_up_to clause.now) }
        ensures more { self.old.met ≤ self.new.met }
    {
        let mut vars = self.vars;
        for lit in clause {
            vars = vars.max((lit.index() / 2) as u32 + 1);
        }
        self.vars = vars;
        let more = u32::try_from(clause.len()).unwrap_or(u32::MAX);
        self.met = self.met.saturating_add(more);
    }

    /// How many variables have a place in the table: all up to the greatest, where they are not many more than the literals that were met.
    /// So the table goes by what was read, and not by a number in a head or in one literal.
    pub fn near(self) -> u32
        ensures { result ≡ min self.vars (max 65536 self.met) }
    {
        self.vars.min(NEAR.max(self.met))
    }
}
