//! What is known to drive a place.

ghost use Rattle.std.specs.Prelude.{IsTrue, ◌≡◌, ◌↔◌};
ghost use Rattle.flat_aliases.specs.Spreads.{IsSettled, with_driver};

/// The drivers that are known to drive a place: the first two at most.
#[derive(Clone, Copy, Debug, PartialEq, Eq)]
pub enum Held {
    Nothing,
    One(u32),
    Two(u32, u32),
}

impl Held {
    /// Whether a driver is known or would be the third.
    pub fn is_settled(self, driver: u32) -> bool
        ensures { IsTrue result ↔ IsSettled driver self }
    {
        match self {
            Held::Nothing => false,
            Held::One(first) => first == driver,
            Held::Two(_, _) => true,
        }
    }

    /// With one more driver behind those that are known.
    pub fn with(self, driver: u32) -> Held
        ensures { result ≡ with_driver driver self }
    {
        match self {
            Held::Nothing => Held::One(driver),
            Held::One(first) => Held::Two(first, driver),
            Held::Two(first, second) => Held::Two(first, second),
        }
    }
}
