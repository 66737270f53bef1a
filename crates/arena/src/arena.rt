// Records of one kind, each in its place. Which places are in use changes here alone; a holder changes a record in place.
ghost use Rattle.std.specs.Prelude.{◌≡◌, ◌≤◌, true, Some, IfOk, vec_len, vec_capacity};
ghost use Rattle.std.specs.Borrow.{sem};
ghost use Rattle.arena.specs.Pools.{live, next_place, room, unused_pool, Next, Sound};
ghost use Rattle.arena.specs.Shelves.{at, pool_of};

use crate::handle::Handle;
use crate::slot::{Place, Slot, State};
use std::alloc::{AllocError, Global};

// A record stands at the place of its handle. All memory is taken when it is built: `freed` has room for every place.
// Kept: records in places named by handles, with the freed places beside them, since handles of a place and a version, of which
// the place freed last is taken first, are a rule of the project.
#[derive(Drop)]
pub struct Arena<T> {
    places: Vec<Place<T>>,
    freed: Vec<usize>,
    fresh: usize,
    taken: u64,
    ghost few: { vec_len places ≤ 65535 },
    ghost roomy: { vec_len places ≤ vec_capacity freed },
    ghost sound: { ∥ Sound (pool_of places.items freed.items fresh taken) ∥₁ },
}

impl<T: Copy + Clone> Arena<T> {
    ghost use Rattle.arena.specs.Recorded.{capacity, shelf, Ends, LendsRecord, Makes};

    // `size` places, none of which was ever taken; `blank` stands in each until then.
    pub fn new(heap: Global, blank: T, size: u16) -> Result<Arena<T>, AllocError>
        ensures unused { IfOk result (λ a. (shelf a).pool ≡ unused_pool size) }
        ensures capacity { IfOk result (λ a. capacity a ≡ size) }
    {
        let unused = Slot {
            version: 1,
            state: State::Vacant,
        };
        let place = Place {
            slot: unused,
            value: blank,
        };
        let places = vec![in heap; place; size as usize]?;
        let freed = Vec::with_capacity(heap, size as usize)?;
        Ok(Arena {
            places,
            freed,
            fresh: 0,
            taken: 0,
        })
    }

    // Whether the handle names a record.
    pub fn is_live(&self, h: Handle) -> bool
        ensures { result ≡ live (shelf self.now).pool h }
    {
        self.places
            .get(h.place)
            .is_some_and(|place| place.slot.is_live(h.version))
    }

    // How many places there are.
    pub fn capacity(&self) -> usize
        ensures { result ≡ capacity self.now }
    {
        self.places.len()
    }

    // How many records can still be made.
    pub fn room(&self) -> usize
        ensures { result ≡ room (shelf self.now).pool }
    {
        self.freed.len() + (self.places.len() - self.fresh)
    }

    // How many records were ever made.
    pub fn made(&self) -> u64
        ensures { result ≡ (shelf self.now).pool.taken }
    {
        self.taken
    }

    // The place freed last, or else the lowest never used.
    fn next_place(&self) -> usize
        ensures { result ≡ next_place (shelf self.now).pool }
    {
        self.freed.last().copied().unwrap_or(self.fresh)
    }

    // The handle of the record made next.
    pub fn next(&self) -> Option<Handle>
        ensures { Next (shelf self.now).pool result }
    {
        let place = self.next_place();
        let version = self.places.get(place)?.slot.version;
        Some(Handle { place, version })
    }

    // The record that the handle names.
    pub fn get(&self, h: Handle) -> Option<T>
        ensures { result ≡ at (shelf self.now) h }
    {
        self.is_live(h).then(|| *self.record(h))
    }

    // The record that a live handle names.
    pub fn record(&self, h: Handle) -> &T
        requires { live (shelf self.now).pool h ≡ true }
        ensures { at (shelf self.now) h ≡ Some result.now }
    {
        &self.places[h.place].value
    }

    // The record that a live handle names, to change it in place.
    pub fn record_mut(&mut self, h: Handle) -> &mut T
        requires { live (shelf self.old).pool h ≡ true }
        ensures* lends { sem 𝓛 (LendsRecord T.row self.entry h result) }
        ensures value { at (shelf self.old) h ≡ Some result.now }
    {
        &mut self.places[h.place].value
    }

    // Puts a record into the place freed last, or else into the lowest never used.
    pub fn make(&mut self, x: T) -> Option<Handle>
        ensures { Makes self.old x result self.new }
    {
        let h = self.next()?;
        if self.freed.pop().is_none() {
            self.fresh += 1;
        }
        let slot = Slot {
            version: h.version,
            state: State::Live,
        };
        self.places[h.place] = Place { slot, value: x };
        self.taken += 1;
        Some(h)
    }

    // Ends the record of a live handle and gives it back; at a dead one nothing is done.
    pub fn free(&mut self, h: Handle) -> Option<T>
        ensures { Ends self.old h result self.new }
    {
        let x = self.get(h)?;
        self.places[h.place].slot = Slot::raised(h.version);
        if h.version < u32::MAX {
            self.freed.push_reserved(h.place);
        }
        Some(x)
    }
}
