//! The links and starts that are worked on.

ghost use Rattle.std.specs.Prelude.{IfOk};
ghost use Rattle.flat_aliases.specs.Drives.{AreInside};

use crate::link::Link;
use crate::threads::{Threads, thread};
use rsfq_ids::list::NoMemory;
use std::alloc::Global;

/// Links, the place where each driver starts, how many places there are, and the links by the place that they lead from.
#[derive(Drop)]
pub struct Net<'a> {
    pub links: &'a [Link],
    pub starts: &'a [Option<u32>],
    pub places: usize,
    pub threads: Threads,
}

impl<'a> Net<'a> {
    ghost use Rattle.flat_aliases.specs.Nets.{IsNetOf};

    /// The links, by the place that they lead from.
    pub fn new(
        alloc: Global,
        links: &'a [Link],
        starts: &'a [Option<u32>],
        places: usize,
    ) -> Result<Net<'a>, NoMemory>
        requires { AreInside links.now starts.now places }
        ensures { IfOk result (IsNetOf links.entry.now starts.entry.now places) }
    {
        let threads = thread(alloc, links, places)?;
        Ok(Net {
            links,
            starts,
            places,
            threads,
        })
    }
}
