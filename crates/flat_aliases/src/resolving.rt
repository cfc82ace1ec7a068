//! The one driver of each place.

ghost use Rattle.std.specs.Prelude.{◌<◌, ◌^◌, length, IfOk, IfErr};
ghost use Rattle.flat_aliases.specs.Drives.{AreInside, IsResolved, IsAliasFault};
ghost use Rattle.flat_aliases.specs.Spreads.{AreHeld, AreSingle, IsHeldTwice};

use crate::held::Held;
use crate::link::{AliasFault, Link};
use crate::net::Net;
use crate::rings::find_ring;
use crate::spread::{Spread, spread_all};
use rsfq_ids::list::{List, NoMemory};
use std::alloc::Global;

/// What each place holds after all drivers were spread.
fn hold_drivers(
    alloc: Global,
    links: &[Link],
    starts: &[Option<u32>],
    places: usize,
) -> Result<Vec<Held>, NoMemory>
    requires inside { AreInside links.now starts.now places }
    requires starts { length starts.now < 2 ^ 32 }
    ensures { IfOk result (λ held. AreHeld links.now starts.now places held.items) }
{
    let net = Net::new(alloc, links, starts, places)?;
    let spread = spread_all(alloc, &net)?;
    let Spread { held, waiting: _ } = spread;
    Ok(held)
}

/// The one driver of each place that holds at most one; or the first place that holds two.
fn list_drivers(alloc: Global, held: &[Held]) -> Result<List<Option<u32>>, AliasFault>
    requires { length held.now < 2 ^ 32 }
    ensures ok { IfOk result (AreSingle held.now) }
    ensures err { IfErr result (IsHeldTwice held.now) }
{
    let mut drivers = List::new(alloc);
    for (place, known) in held.iter().enumerate() {
        match *known {
            Held::Nothing => drivers.push(None)?,
            Held::One(driver) => drivers.push(Some(driver))?,
            Held::Two(first, second) => {
                let place = place as u32;
                return Err(AliasFault::TwoDrivers {
                    place,
                    first,
                    second,
                });
            }
        }
    }
    Ok(drivers)
}

/// For each place the driver that drives it, if one does.
///
/// Driver `k` starts at the place `starts[k]`, if it starts at one. Places are numbered from 0 and fewer than `places`.
/// Two drivers at one place are looked for in all places before rings are. Takes time linear in the links, starts and places.
///
/// # Errors
///
/// `TwoDrivers` exactly where two different drivers drive one place, for the first such place and its first two drivers.
/// `Ring` exactly where no place has two drivers and links lead around in a ring. `Memory` where memory could not be had.
pub fn resolve(
    alloc: Global,
    links: &[Link],
    starts: &[Option<u32>],
    places: usize,
) -> Result<List<Option<u32>>, AliasFault>
    requires inside { AreInside links.now starts.now places }
    requires places { places < 2 ^ 32 }
    requires starts { length starts.now < 2 ^ 32 }
    ensures ok { IfOk result (IsResolved links.now starts.now places) }
    ensures err { IfErr result (IsAliasFault links.now starts.now) }
{
    let held = hold_drivers(alloc, links, starts, places)?;
    let drivers = list_drivers(alloc, held.as_slice())?;
    let found = find_ring(alloc, links, places)?;
    match found {
        Some(ring) => Err(AliasFault::Ring(ring)),
        None => Ok(drivers),
    }
}
