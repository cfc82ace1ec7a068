//! The links that lead from each place.

ghost use Rattle.std.specs.Prelude.{◌<◌, IfOk};
ghost use Rattle.flat_aliases.specs.Drives.{AreLinksInside};
ghost use Rattle.flat_aliases.specs.Threads.{AreThreads};

use crate::link::Link;
use rsfq_ids::list::NoMemory;
use std::alloc::Global;

/// For each place the last link that leads from it, and for each link the one before it from the same place.
#[derive(Drop)]
pub struct Threads {
    pub last: Vec<Option<usize>>,
    pub before: Vec<Option<usize>>,
}

/// Lists the links by the place that they lead from.
pub fn thread(alloc: Global, links: &[Link], places: usize) -> Result<Threads, NoMemory>
    requires { AreLinksInside links.now places }
    ensures { IfOk result (AreThreads links.now places) }
{
    let mut last: Vec<Option<usize>> = vec![in alloc; None; places]?;
    let mut before = Vec::new(alloc);
    for (at, link) in links.iter().enumerate() {
        let place = link.from as usize;
        before.push(last[place])?;
        last[place] = Some(at);
    }
    Ok(Threads { last, before })
}
