//! Rings among the places, found by a walk along the links.

ghost use Rattle.std.specs.Prelude.{◌≡◌, ◌≢◌, ◌+◌, ◌<◌, ◌^◌, ◌≤◌, ℕ, List, [], drop, replicate, length, slice_get, IfOk, IfSome, IfNone, OnOk, Some};
ghost use Rattle.std.specs.List.{All, AllPairs};
ghost use Rattle.flat_aliases.specs.Drives.{AreLinksInside, IsRing, IsNamedRing};
ghost use Rattle.flat_aliases.specs.Walks.{IsWalk, IsMarked, IsResting, IsRingAt, IsOpened, EndsIn, StaysSeen, left_to_walk};
ghost use Rattle.flat_aliases.specs.declared.rings.Mark.TheVariants as mark;

use crate::link::Link;
use crate::threads::{Threads, thread};
use rsfq_ids::list::{List, NoMemory};
use std::alloc::Global;

/// How far the walk is with a place.
#[derive(Clone, Copy, Debug, PartialEq, Eq)]
pub enum Mark {
    New,
    /// It stands on the path, at this place of it.
    Open(usize),
    Done,
}

/// A walk along the links, depth first.
#[derive(Drop)]
pub struct Walk {
    pub marks: Vec<Mark>,
    /// For each place the last link from it that was not walked yet.
    pub cursors: Vec<Option<usize>>,
    /// For each link the one before it from the same place.
    pub before: Vec<Option<usize>>,
    /// The places that are open. A link leads from each to the next.
    pub path: Vec<u32>,
}

/// Every place is new.
fn no_marks(alloc: Global, places: usize) -> Result<Vec<Mark>, NoMemory>
    ensures { IfOk result (λ marks. marks.items ≡ replicate places mark.New) }
{
    let marks = vec![in alloc; Mark::New; places]?;
    Ok(marks)
}

/// Nothing is walked yet.
fn start(alloc: Global, links: &[Link], places: usize) -> Result<Walk, NoMemory>
    requires { AreLinksInside links.now places }
    ensures { IfOk result (IsResting links.now places) }
{
    let Threads { last, before } = thread(alloc, links, places)?;
    let marks = no_marks(alloc, places)?;
    let path = Vec::new(alloc);
    Ok(Walk {
        marks,
        cursors: last,
        before,
        path,
    })
}

/// Puts a new place at the end of the path.
fn open(walk: &mut Walk, place: u32) -> Result<(), NoMemory>
    requires { IsMarked walk.old.marks.items place mark.New }
    ensures { OnOk result (IsOpened place walk.old walk.new) }
{
    let at = walk.path.len();
    walk.path.push(place)?;
    walk.marks[place as usize] = Mark::Open(at);
    Ok(())
}

/// Goes on from the last place of the path, along its next link or back. If that link closes a ring, the answer is where on the path the ring begins.
fn step(
    walk: &mut Walk,
    links: &[Link],
    places: usize,
    place: u32,
) -> Result<Option<usize>, NoMemory>
    requires inside { AreLinksInside links.now places }
    requires walk { IsWalk links.now places walk.old }
    requires end { EndsIn walk.old.path.items place }
    ensures walk { IfOk result (λ found. IfNone found (IsWalk links.now places walk.new)) }
    ensures less { IfOk result (λ found. IfNone found (left_to_walk walk.new < left_to_walk walk.old)) }
    ensures seen { IfOk result (λ found. IfNone found (StaysSeen walk.old.marks.items walk.new.marks.items)) }
    ensures ring { IfOk result (λ found. IfSome found (λ first. IsRingAt links.now walk.new.path.items first)) }
{
    let _ = places;
    let at = place as usize;
    match walk.cursors[at] {
        None => {
            walk.path.pop();
            walk.marks[at] = Mark::Done;
            Ok(None)
        }
        Some(link) => {
            walk.cursors[at] = walk.before[link];
            let to = links[link].to;
            match walk.marks[to as usize] {
                Mark::New => {
                    open(walk, to)?;
                    Ok(None)
                }
                Mark::Open(first) => Ok(Some(first)),
                Mark::Done => Ok(None),
            }
        }
    }
}

/// Walks until the path is empty or a ring is found.
fn run(walk: &mut Walk, links: &[Link], places: usize) -> Result<Option<usize>, NoMemory>
    requires inside { AreLinksInside links.now places }
    requires walk { IsWalk links.now places walk.old }
    ensures rest { IfOk result (λ found. IfNone found (IsResting links.now places walk.new)) }
    ensures seen { IfOk result (λ found. IfNone found (StaysSeen walk.old.marks.items walk.new.marks.items)) }
    ensures ring { IfOk result (λ found. IfSome found (λ first. IsRingAt links.now walk.new.path.items first)) }
{
    'along: while let Some(place) = walk.path.last().copied() {
        let found = step(walk, links, places, place)?;
        if found.is_some() {
            return Ok(found);
        }
    }
    Ok(None)
}

/// Walks from a place, if it is new.
fn run_from(
    walk: &mut Walk,
    links: &[Link],
    places: usize,
    place: u32,
) -> Result<Option<usize>, NoMemory>
    requires inside { AreLinksInside links.now places }
    requires place { place < places }
    requires rest { IsResting links.now places walk.old }
    ensures rest { IfOk result (λ found. IfNone found (IsResting links.now places walk.new)) }
    ensures seen { IfOk result (λ found. IfNone found (StaysSeen walk.old.marks.items walk.new.marks.items)) }
    ensures place { IfOk result (λ found. IfNone found (¬ IsMarked walk.new.marks.items place mark.New)) }
    ensures ring { IfOk result (λ found. IfSome found (λ first. IsRingAt links.now walk.new.path.items first)) }
{
    if let Mark::New = walk.marks[place as usize] {
        open(walk, place)?;
        let found = run(walk, links, places)?;
        return Ok(found);
    }
    Ok(None)
}

/// Walks from every place.
fn run_all(walk: &mut Walk, links: &[Link], places: usize) -> Result<Option<usize>, NoMemory>
    requires inside { AreLinksInside links.now places }
    requires few { places < 2 ^ 32 }
    requires rest { IsResting links.now places walk.old }
    ensures no_ring { IfOk result (λ found. IfNone found ((ring : List ℕ) → ¬ IsRing links.now ring)) }
    ensures ring { IfOk result (λ found. IfSome found (λ first. IsRingAt links.now walk.new.path.items first)) }
{
    for place in 0..places {
        let found = run_from(walk, links, places, place as u32)?;
        if found.is_some() {
            return Ok(found);
        }
    }
    Ok(None)
}

/// Where the least of some places stands.
fn place_of_least(ring: &[u32]) -> usize
    requires { 0 < length ring.now }
    ensures inside { result < length ring.now }
    ensures least { (least : ℕ) → slice_get ring.now result ≡ Some least → All (λ other. least ≤ other) ring.now }
{
    let mut least = 0;
    for (at, place) in ring.iter().enumerate() {
        if *place < ring[least] {
            least = at;
        }
    }
    least
}

/// The ring at the end of a path, turned to begin at its least place.
fn name_ring(
    alloc: Global,
    links: &[Link],
    path: &[u32],
    first: usize,
) -> Result<List<u32>, NoMemory>
    requires { IsRingAt links.now path.now first }
    ensures { IfOk result (IsNamedRing links.now) }
{
    let _ = links;
    let ring = &path[first..];
    let least = place_of_least(ring);
    let mut named = Vec::new(alloc);
    named.extend_from_slice(&ring[least..])?;
    named.extend_from_slice(&ring[..least])?;
    Ok(List::of(named))
}

/// A ring of places along the links: each leads to the next and the last to the first, each stands once, and none comes before the first.
///
/// `None` exactly where links lead around in no ring. Takes time linear in the links and places.
///
/// # Errors
///
/// `NoMemory` where memory could not be had.
pub fn find_ring(
    alloc: Global,
    links: &[Link],
    places: usize,
) -> Result<Option<List<u32>>, NoMemory>
    requires inside { AreLinksInside links.now places }
    requires few { places < 2 ^ 32 }
    ensures no_ring { IfOk result (λ found. IfNone found ((ring : List ℕ) → ¬ IsRing links.now ring)) }
    ensures ring { IfOk result (λ found. IfSome found (IsNamedRing links.now)) }
{
    let mut walk = start(alloc, links, places)?;
    match run_all(&mut walk, links, places)? {
        None => Ok(None),
        Some(first) => {
            let ring = name_ring(alloc, links, walk.path.as_slice(), first)?;
            Ok(Some(ring))
        }
    }
}
