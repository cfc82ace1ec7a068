//! Crossings: bits of a scalar and of a vector that have one printed name.

ghost use Rattle.std.specs.Prelude.{◌≡◌, ◌⊎◌, ◌↔◌, IsTrue, MatchOption};
ghost use Rattle.std.specs.Option.{IfSome};
ghost use Rattle.bind_names.specs.Crossing.{IsNoLater};

/// Bits of two ports with one printed name, by the port that is listed later.
#[derive(Clone, Copy, Debug)]
pub(crate) struct Crossing<'a> {
    /// The place in the list of sites at which the port is listed.
    pub(crate) at: usize,
    /// The place of its bit, counted from the right end of its range.
    pub(crate) bit: u32,
    pub(crate) printed: &'a str,
}

impl<'a> Crossing<'a> {
    fn is_no_later(&self, other: &Crossing) -> bool
        ensures { IsTrue result ↔ IsNoLater self.now other.now.at other.now.bit }
    {
        self.at < other.at || (self.at == other.at && self.bit <= other.bit)
    }
}

/// The first of two crossings, where there is one.
pub(crate) fn first_of<'a>(
    found: Option<Crossing<'a>>,
    other: Option<Crossing<'a>>,
) -> Option<Crossing<'a>>
    ensures { MatchOption result
        ((found.entry ≡ None) × (other.entry ≡ None))
        (λ first. ((found.entry ≡ Some first) ⊎ (other.entry ≡ Some first))
        × IfSome found.entry (λ f. IsNoLater first f.at f.bit)
        × IfSome other.entry (λ o. IsNoLater first o.at o.bit)) }
{
    let Some(one) = found else {
        return other;
    };
    match other {
        Some(next) if !one.is_no_later(&next) => Some(next),
        _ => Some(one),
    }
}
