//! The numbers of the modules that are bound.

ghost use Rattle.std.specs.Prelude.{◌≡◌, ◌+◌, ◌<◌, length, IfOk, OnOk};
ghost use Rattle.verilog_bind.specs.Places.{ArePlaces, HasPlacesTo};

use rsfq_ids::list::NoMemory;
use std::alloc::Global;

/// The modules that are bound: their places in the text, in text order, and for each module of the text its number among them.
#[derive(Debug, Drop)]
pub(crate) struct Places {
    pub(crate) places: Vec<usize>,
    pub(crate) numbers: Vec<Option<u32>>,
}

impl Places {
    /// The places and the numbers of the modules with a flag.
    pub(crate) fn of(alloc: Global, reached: &[bool]) -> Result<Places, NoMemory>
        ensures { IfOk result (λ all. ArePlaces reached.now all.places.items all.numbers.items) }
    {
        let mut all = Places {
            places: Vec::new(alloc),
            numbers: Vec::new(alloc),
        };
        for at in 0..reached.len() {
            all.add(reached, at)?;
        }
        Ok(all)
    }

    /// Takes the module at a place, which is the next one.
    fn add(&mut self, reached: &[bool], at: usize) -> Result<(), NoMemory>
        requires there { at < length reached.now }
        requires before { HasPlacesTo reached.now at self.old.places.items self.old.numbers.items }
        ensures { OnOk result (HasPlacesTo reached.now (at + 1) self.new.places.items self.new.numbers.items) }
    {
        if !reached[at] {
            self.numbers.push(None)?;
            return Ok(());
        }
        let number = self.places.len();
        if number > u32::MAX as usize {
            return Err(NoMemory);
        }
        self.places.push(at)?;
        self.numbers.push(Some(number as u32))?;
        Ok(())
    }
}
