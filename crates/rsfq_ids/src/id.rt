//! Ids: numbers below 2^32 that name one kind of thing each, so that a net is not taken for a cell.
//!
//! Contracts see an id as its number.
ghost use Rattle.std.specs.Prelude.{◌≡◌, ℕ, ◌<◌, ◌^◌, refl};

use std::marker::Model;

/// A number that names one kind of thing.
pub trait Id: Copy {
    /// The number of an id.
    ghost number: { Self → ℕ };

    /// The id of a number.
    ghost numbered: { ℕ → Self };

    /// The number of the id, as a place in a list.
    fn index(self) -> usize
        ensures number { result ≡ number self }
        ensures small { result < 2 ^ 32 };

    /// The id of a number.
    fn of(i: u32) -> Self
        ensures { result ≡ numbered i };

    /// `of` and `index` undo each other.
    ghost number_of_numbered: { (n : ℕ) → n < 2 ^ 32 → number (numbered n) ≡ n };

    /// And the other way round.
    ghost numbered_of_number: { (i : Self) → numbered (number i) ≡ i };
}

/// A net of a circuit, numbered by what drives it: the input bits in port order, then the cell outputs in cell order.
#[derive(Clone, Copy, Debug, PartialEq, Eq, PartialOrd, Ord)]
pub struct NetId(u32);

impl Model for NetId {
    ghost use Rattle.std.specs.Prelude.{ℕ, ◌<◌, ◌^◌};

    ghost Value = { ℕ };

    ghost view = { λ a. a.0 };

    ghost invariant = { λ a. a.0 < 2 ^ 32 };

    ghost inverse = { λ n. record { 0 = n } };
}

impl Id for NetId {
    ghost number = { λ i. i };

    ghost numbered = { λ n. n };

    ghost number_of_numbered = { λ n small. refl };

    ghost numbered_of_number = { λ i. refl };

    fn index(self) -> usize {
        self.0 as usize
    }

    fn of(i: u32) -> Self {
        NetId(i)
    }
}

/// A cell of a circuit, numbered depth first in text order.
#[derive(Clone, Copy, Debug, PartialEq, Eq, PartialOrd, Ord)]
pub struct CellId(u32);

impl Model for CellId {
    ghost use Rattle.std.specs.Prelude.{ℕ, ◌<◌, ◌^◌};

    ghost Value = { ℕ };

    ghost view = { λ a. a.0 };

    ghost invariant = { λ a. a.0 < 2 ^ 32 };

    ghost inverse = { λ n. record { 0 = n } };
}

impl Id for CellId {
    ghost number = { λ i. i };

    ghost numbered = { λ n. n };

    ghost number_of_numbered = { λ n small. refl };

    ghost numbered_of_number = { λ i. refl };

    fn index(self) -> usize {
        self.0 as usize
    }

    fn of(i: u32) -> Self {
        CellId(i)
    }
}

/// A place of a circuit that reads a net: the pins of the cells in cell order and pin order, then the output bits in port order.
#[derive(Clone, Copy, Debug, PartialEq, Eq, PartialOrd, Ord)]
pub struct PinId(u32);

impl Model for PinId {
    ghost use Rattle.std.specs.Prelude.{ℕ, ◌<◌, ◌^◌};

    ghost Value = { ℕ };

    ghost view = { λ a. a.0 };

    ghost invariant = { λ a. a.0 < 2 ^ 32 };

    ghost inverse = { λ n. record { 0 = n } };
}

impl Id for PinId {
    ghost number = { λ i. i };

    ghost numbered = { λ n. n };

    ghost number_of_numbered = { λ n small. refl };

    ghost numbered_of_number = { λ i. refl };

    fn index(self) -> usize {
        self.0 as usize
    }

    fn of(i: u32) -> Self {
        PinId(i)
    }
}

/// A port bit of a circuit, in port order.
#[derive(Clone, Copy, Debug, PartialEq, Eq, PartialOrd, Ord)]
pub struct PortId(u32);

impl Model for PortId {
    ghost use Rattle.std.specs.Prelude.{ℕ, ◌<◌, ◌^◌};

    ghost Value = { ℕ };

    ghost view = { λ a. a.0 };

    ghost invariant = { λ a. a.0 < 2 ^ 32 };

    ghost inverse = { λ n. record { 0 = n } };
}

impl Id for PortId {
    ghost number = { λ i. i };

    ghost numbered = { λ n. n };

    ghost number_of_numbered = { λ n small. refl };

    ghost numbered_of_number = { λ i. refl };

    fn index(self) -> usize {
        self.0 as usize
    }

    fn of(i: u32) -> Self {
        PortId(i)
    }
}

/// A timing path of a circuit.
#[derive(Clone, Copy, Debug, PartialEq, Eq, PartialOrd, Ord)]
pub struct LaneId(u32);

impl Model for LaneId {
    ghost use Rattle.std.specs.Prelude.{ℕ, ◌<◌, ◌^◌};

    ghost Value = { ℕ };

    ghost view = { λ a. a.0 };

    ghost invariant = { λ a. a.0 < 2 ^ 32 };

    ghost inverse = { λ n. record { 0 = n } };
}

impl Id for LaneId {
    ghost number = { λ i. i };

    ghost numbered = { λ n. n };

    ghost number_of_numbered = { λ n small. refl };

    ghost numbered_of_number = { λ i. refl };

    fn index(self) -> usize {
        self.0 as usize
    }

    fn of(i: u32) -> Self {
        LaneId(i)
    }
}

/// A variable of a formula.
#[derive(Clone, Copy, Debug, PartialEq, Eq, PartialOrd, Ord)]
pub struct Var(u32);

impl Model for Var {
    ghost use Rattle.std.specs.Prelude.{ℕ, ◌<◌, ◌^◌};

    ghost Value = { ℕ };

    ghost view = { λ a. a.0 };

    ghost invariant = { λ a. a.0 < 2 ^ 32 };

    ghost inverse = { λ n. record { 0 = n } };
}

impl Id for Var {
    ghost number = { λ i. i };

    ghost numbered = { λ n. n };

    ghost number_of_numbered = { λ n small. refl };

    ghost numbered_of_number = { λ i. refl };

    fn index(self) -> usize {
        self.0 as usize
    }

    fn of(i: u32) -> Self {
        Var(i)
    }
}

/// A variable or its negation: twice the variable, plus 1 for the negation.
#[derive(Clone, Copy, Debug, PartialEq, Eq, PartialOrd, Ord)]
pub struct Lit(u32);

impl Model for Lit {
    ghost use Rattle.std.specs.Prelude.{ℕ, ◌<◌, ◌^◌};

    ghost Value = { ℕ };

    ghost view = { λ a. a.0 };

    ghost invariant = { λ a. a.0 < 2 ^ 32 };

    ghost inverse = { λ n. record { 0 = n } };
}

impl Id for Lit {
    ghost number = { λ i. i };

    ghost numbered = { λ n. n };

    ghost number_of_numbered = { λ n small. refl };

    ghost numbered_of_number = { λ i. refl };

    fn index(self) -> usize {
        self.0 as usize
    }

    fn of(i: u32) -> Self {
        Lit(i)
    }
}

impl Lit {
    ghost use Rattle.rsfq_ids.specs.Formula.{opposite};

    /// The other literal of the same variable, which is true exactly where this one is false.
    pub fn opposite(self) -> Lit
        ensures { result ≡ opposite self }
    {
        if self.0 % 2 == 0 {
            Lit(self.0 + 1)
        } else {
            Lit(self.0 - 1)
        }
    }
}

/// A clause of a formula or a step of a proof.
#[derive(Clone, Copy, Debug, PartialEq, Eq, PartialOrd, Ord)]
pub struct ClauseId(u32);

impl Model for ClauseId {
    ghost use Rattle.std.specs.Prelude.{ℕ, ◌<◌, ◌^◌};

    ghost Value = { ℕ };

    ghost view = { λ a. a.0 };

    ghost invariant = { λ a. a.0 < 2 ^ 32 };

    ghost inverse = { λ n. record { 0 = n } };
}

impl Id for ClauseId {
    ghost number = { λ i. i };

    ghost numbered = { λ n. n };

    ghost number_of_numbered = { λ n small. refl };

    ghost numbered_of_number = { λ i. refl };

    fn index(self) -> usize {
        self.0 as usize
    }

    fn of(i: u32) -> Self {
        ClauseId(i)
    }
}
