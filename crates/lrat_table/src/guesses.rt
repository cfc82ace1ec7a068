//! Where the entry of an id probably stands.
//!
//! Ids that leave gaps do not name the places of their entries. So each such entry's place is kept in a bucket that its id names, in no more
//! memory than the entries take. A bucket forgets its oldest places: who asks looks whether the id stands at a place, and searches if not.

use crate::table::Entry;
use std::alloc::Global;

/// An odd number near 2^32 divided by the golden ratio, by whose multiples ids are spread (Knuth, The Art of Computer Programming, volume 3,
/// section 6.4).
const SPREAD: u32 = 2_654_435_769;

/// The places that were told last for the ids of a bucket.
type Places = [u32; 4];

/// The places of entries that stand behind a gap.
#[derive(Drop)]
pub(crate) struct Guesses {
    buckets: Vec<Places>,
    count: u32,
    told: u32,
}

impl Guesses {
    /// No places. It takes no memory; later calls take it from `alloc`.
    pub fn new(alloc: Global) -> Guesses {
        Guesses {
            buckets: Vec::new(alloc),
            count: 0,
            told: 0,
        }
    }

    /// The places at which an id may stand.
    pub fn of(&self, id: u32) -> Places {
        match self.buckets.get(self.bucket_of(id)) {
            Some(places) => *places,
            None => [0; 4],
        }
    }

    /// Notes the last of these entries, if it stands behind a gap. Where there is no memory for more places, older ones are forgotten.
    pub fn note(&mut self, entries: &[Entry<'_>]) {
        let Some(last) = entries.last() else {
            return;
        };
        if last.id as usize == entries.len() {
            return;
        }
        if self.told / 2 >= self.count {
            self.grow(entries);
        } else {
            self.tell(last.id, entries.len() - 1);
        }
    }

    /// Makes a bucket for every other entry, and tells all places anew.
    fn grow(&mut self, entries: &[Entry<'_>]) {
        let size = entries.len() / 2 + 16;
        let Ok(count) = u32::try_from(size) else {
            return;
        };
        if self.buckets.resize(size, [0; 4]).is_err() {
            return;
        }
        self.count = count;
        self.told = 0;
        for (place, entry) in entries.iter().enumerate() {
            if entry.id as usize != place + 1 {
                self.tell(entry.id, place);
            }
        }
    }

    /// Tells the place of an id.
    fn tell(&mut self, id: u32, place: usize) {
        let Ok(place) = u32::try_from(place) else {
            return;
        };
        let bucket = self.bucket_of(id);
        if let Some(places) = self.buckets.get_mut(bucket) {
            *places = [place, places[0], places[1], places[2]];
        }
        self.told = self.told.saturating_add(1);
    }

    /// The bucket of an id.
    fn bucket_of(&self, id: u32) -> usize {
        let spread = u64::from(id.wrapping_mul(SPREAD));
        ((spread * u64::from(self.count)) >> 32) as usize
    }
}
