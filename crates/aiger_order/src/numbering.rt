//! The new numbers of the file's variables.

ghost use Rattle.std.specs.Prelude.{◌≡◌, ◌<◌, ◌≤◌, ◌/◌, ◌++◌, [], ◌∷◌, length, true, false, IfOk, OnOk};
ghost use Rattle.rsfq_ids.specs.declared.limits.TheConstants.{AIG_LIMIT};
ghost use Rattle.aiger_order.specs.Numbers.{Known, Numbers, file_literal};

use rsfq_ids::list::NoMemory;
use std::alloc::Global;

/// Which variable of the file each number stands for, and which number each variable has.
#[derive(Debug, Drop)]
pub(crate) struct Numbering {
    /// The variables in the order of their numbers.
    pub(crate) names: Vec<u32>,
    /// The number of each variable up to the highest.
    pub(crate) numbers: Vec<Option<u32>>,
}

impl Numbering {
    /// The constant alone has a number, which is 0.
    pub(crate) fn new(alloc: Global, top: u32) -> Result<Numbering, NoMemory>
        requires { top ≤ AIG_LIMIT }
        ensures numbers { IfOk result (Numbers top) }
        ensures names { IfOk result (λ numbering. numbering.names.items ≡ 0 ∷ []) }
    {
        let numbers = vec![in alloc; None; top as usize + 1]?;
        let mut numbering = Numbering {
            names: Vec::new(alloc),
            numbers,
        };
        numbering.give(top, 0)?;
        Ok(numbering)
    }

    /// Gives the variable of a literal the next number.
    pub(crate) fn give(&mut self, top: u32, literal: u32) -> Result<(), NoMemory>
        requires numbers { Numbers top self.old }
        requires small { top ≤ AIG_LIMIT }
        requires inside { literal / 2 ≤ top }
        requires fresh { ¬ Known self.old.names.items (literal / 2) }
        ensures numbers { OnOk result (Numbers top self.new) }
        ensures names { OnOk result (self.new.names.items ≡ self.old.names.items ++ literal / 2 ∷ []) }
    {
        let variable = literal / 2;
        let number = self.names.len() as u32;
        self.names.push(variable)?;
        self.numbers[variable as usize] = Some(number);
        Ok(())
    }

    /// Whether the variable of a literal has a number.
    pub(crate) fn knows(&self, top: u32, literal: u32) -> bool
        requires numbers { Numbers top self.now }
        requires inside { literal / 2 ≤ top }
        ensures yes { result ≡ true → Known self.now.names.items (literal / 2) }
        ensures no { result ≡ false → ¬ Known self.now.names.items (literal / 2) }
    {
        self.numbers[(literal / 2) as usize].is_some()
    }

    /// The literal of the graph that a literal of the file stands for.
    pub(crate) fn renumbered(&self, top: u32, literal: u32) -> u32
        requires numbers { Numbers top self.now }
        requires small { top ≤ AIG_LIMIT }
        requires inside { literal / 2 ≤ top }
        requires known { Known self.now.names.items (literal / 2) }
        ensures same { file_literal self.now.names.items result ≡ literal }
        ensures within { result / 2 < length self.now.names.items }
    {
        match self.numbers[(literal / 2) as usize] {
            Some(number) => 2 * number + literal % 2,
            None => unreachable!(),
        }
    }
}
