//! What is bound, and the modules that are bound.

ghost use Rattle.std.specs.Prelude.{◌≡◌, ◌<◌, Some, length, slice_get};
ghost use Rattle.std.specs.List.{Contains};
ghost use Rattle.verilog_bind.specs.Places.{AreNumbers};

use bind_kinds::Netlist;

/// What is bound, the places of the modules that are bound, in text order, and for each module of the text its number among them.
#[derive(Clone, Copy, Debug)]
pub(crate) struct Binder<'d, 'a> {
    pub(crate) netlist: &'d Netlist<'d, 'a>,
    pub(crate) places: &'d [usize],
    pub(crate) numbers: &'d [Option<u32>],
}

impl Binder<'_, '_> {
    /// The number of the module at a place of the text, which is bound.
    pub(crate) fn number_of(&self, at: usize) -> u32
        requires numbers { AreNumbers self.now.places.now self.now.numbers.now }
        requires there { at < length self.now.numbers.now }
        requires bound { Contains self.now.places.now at }
        ensures { slice_get self.now.places.now result ≡ Some at }
    {
        self.numbers[at].unwrap()
    }
}
