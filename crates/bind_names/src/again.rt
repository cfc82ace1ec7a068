//! The first bit of a port whose printed name a bit of an earlier port has.

ghost use Rattle.std.specs.Prelude.{ℕ, ◌<◌, List, map, MatchOption, IfOk};
ghost use Rattle.bind_sites.specs.View.{view_site};
ghost use Rattle.bind_sites.specs.Again.{IsAgain, IsBitAgain};

use crate::ports::Ports;
use bind_sites::Site;
use rsfq_ids::list::NoMemory;
use rsfq_ids::name::Name;
use std::alloc::Global;

/// The first listed port, among the sites before the limit, of which a bit has the printed name of a bit of a port that is listed
/// before it: its place in the list of sites, and the printed name. Of its bits it is the first such, from the right end of its range.
///
/// No name stands twice in one sort of things before the limit.
pub fn find_bit_again(
    alloc: Global,
    sites: &[Site],
    limit: usize,
) -> Result<Option<(usize, Name)>, NoMemory>
    requires { (at : ℕ) (name : List ℕ) → at < limit → ¬ IsAgain (map view_site sites.now) at name }
    ensures { IfOk result (λ found. MatchOption found
        ((at : ℕ) (printed : List ℕ) → at < limit → ¬ IsBitAgain (map view_site sites.now) at printed)
        (λ f. (f.0 < limit) × IsBitAgain (map view_site sites.now) f.0 f.1
        × ((at : ℕ) (printed : List ℕ) → at < f.0 → ¬ IsBitAgain (map view_site sites.now) at printed))) }
{
    let ports = Ports::of(alloc, sites)?;
    match ports.first_crossing(sites, limit) {
        Some(crossing) => Ok(Some((crossing.at, Name::of(alloc, crossing.printed)?))),
        None => Ok(None),
    }
}
