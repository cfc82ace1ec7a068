//! Spreading one driver after another along the links, until each place holds its first two.

ghost use Rattle.std.specs.Prelude.{◌≡◌, ◌+◌, ◌<◌, ◌^◌, length, slice_get, IfOk, OnOk, Some};
ghost use Rattle.flat_aliases.specs.Nets.{IsNet, DrivesIn, IsOnItsWay, IsDone, HasStarted};
ghost use Rattle.flat_aliases.specs.Spreads.{GoesOn, IsSettledAt, AreSettledFrom, IsClosed};

use crate::held::Held;
use crate::net::Net;
use rsfq_ids::list::NoMemory;
use std::alloc::Global;

/// What each place holds, and the places from which the driver on its way has to go on.
#[derive(Drop)]
pub struct Spread {
    pub held: Vec<Held>,
    pub waiting: Vec<u32>,
}

/// No driver is known of any place.
fn start(alloc: Global, net: &Net<'_>) -> Result<Spread, NoMemory>
    ensures { IfOk result (IsDone net.now 0) }
{
    let held = vec![in alloc; Held::Nothing; net.places]?;
    let waiting = Vec::new(alloc);
    Ok(Spread { held, waiting })
}

/// The driver comes to a place.
fn reach(net: &Net<'_>, spread: &mut Spread, driver: u32, place: u32) -> Result<(), NoMemory>
    requires inside { place < net.now.places }
    requires drives { DrivesIn net.now driver place }
    requires spreading { IsOnItsWay net.now driver spread.old }
    ensures spreading { OnOk result (IsOnItsWay net.now driver spread.new) }
    ensures on { OnOk result (GoesOn driver spread.old spread.new) }
    ensures settled { OnOk result (IsSettledAt spread.new.held.items driver place) }
{
    let _ = net;
    let at = place as usize;
    let held = spread.held[at];
    if held.is_settled(driver) {
        return Ok(());
    }
    spread.waiting.push(place)?;
    spread.held[at] = held.with(driver);
    Ok(())
}

/// The driver comes to each place that a link leads to from the place.
fn reach_next(net: &Net<'_>, spread: &mut Spread, driver: u32, place: u32) -> Result<(), NoMemory>
    requires net { IsNet net.now }
    requires place { place < net.now.places }
    requires drives { DrivesIn net.now driver place }
    requires spreading { IsOnItsWay net.now driver spread.old }
    ensures spreading { OnOk result (IsOnItsWay net.now driver spread.new) }
    ensures on { OnOk result (GoesOn driver spread.old spread.new) }
    ensures settled { OnOk result (AreSettledFrom net.now.links.now spread.new.held.items driver place 0) }
{
    let links = net.links;
    let mut cursor = net.threads.last[place as usize];
    'along: while let Some(at) = cursor {
        reach(net, spread, driver, links[at].to)?;
        cursor = net.threads.before[at];
    }
    Ok(())
}

/// The driver goes on until no place waits.
fn run(net: &Net<'_>, spread: &mut Spread, driver: u32) -> Result<(), NoMemory>
    requires net { IsNet net.now }
    requires spreading { IsOnItsWay net.now driver spread.old }
    requires closed { IsClosed net.now.links.now driver spread.old }
    requires start { HasStarted net.now driver spread.old }
    ensures { OnOk result (IsDone net.now (driver + 1) spread.new) }
{
    'along: while let Some(place) = spread.waiting.pop() {
        reach_next(net, spread, driver, place)?;
    }
    Ok(())
}

/// A driver is spread from the place where it starts.
fn spread_driver(
    net: &Net<'_>,
    spread: &mut Spread,
    driver: u32,
    start: Option<u32>,
) -> Result<(), NoMemory>
    requires net { IsNet net.now }
    requires start { slice_get net.now.starts.now driver ≡ Some start }
    requires spread { IsDone net.now driver spread.old }
    ensures { OnOk result (IsDone net.now (driver + 1) spread.new) }
{
    if let Some(place) = start {
        reach(net, spread, driver, place)?;
        run(net, spread, driver)?;
    }
    Ok(())
}

/// What each place holds after all drivers were spread.
pub fn spread_all(alloc: Global, net: &Net<'_>) -> Result<Spread, NoMemory>
    requires net { IsNet net.now }
    requires few { length net.now.starts.now < 2 ^ 32 }
    ensures { IfOk result (IsDone net.now (length net.now.starts.now)) }
{
    let mut spread = start(alloc, net)?;
    let starts = net.starts;
    for (driver, place) in starts.iter().enumerate() {
        spread_driver(net, &mut spread, driver as u32, *place)?;
    }
    Ok(spread)
}
