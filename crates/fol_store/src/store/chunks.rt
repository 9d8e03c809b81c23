//! The region of a listed bag has a chunk more or a chunk less.

ghost use Rattle.std.specs.Prelude.{◌≡◌, ◌≢◌, ◌<◌, ◌≤◌, ◌&&◌, ◌||◌, true, false, ℕ, [], ◌∷◌, ◌++◌, length, None, Some, IsTrue, OnOk, OnErr};
ghost use Rattle.std.specs.Option.{is_none, ForSome};
ghost use Rattle.std.specs.List.Sorted.{IsStrictlySortedBy};
ghost use Rattle.fol_model.specs.ActionStep.{at_id};
ghost use Rattle.fol_chunks.specs.Contents.{is_recorded, size_within};
ghost use Rattle.fol_chunks.specs.Order.{chunk_cmp};
ghost use Rattle.fol_bags.specs.Places.{place_at};
ghost use Rattle.fol_bags.specs.Things.{Key, things};
ghost use Rattle.fol_bags.specs.Clear.{HasNoTask, IsClearOf};
ghost use Rattle.fol_store.specs.Relisted.{IsInOrder, Narrowed, Widened};

use crate::store::Store;
use fol_bags::{Place, has_bag, slots, spots};
use fol_model::ChunkPos;
use std::alloc::AllocError;

impl Store {
    ghost use Rattle.fol_store.specs.Stock.{Stock, flat_of, jobs_of, bag_of, next_of, place, slot, spot};
    ghost use Rattle.fol_store.specs.Steps.{SameMeaning};

    /// The region of a bag has a chunk more. A listed bag that is here gets the chunk, if it has it not, and is calm no more unless
    /// nothing waits and nothing lies in the chunk's spot, so that what lies there goes into it when it is settled; one that a worker has
    /// notes the chunk. Where another bag has the chunk, or memory runs out, the bag has to be gathered anew.
    pub fn gain(&mut self, id: u64, c: ChunkPos)
        requires known { ((bag_of self.old id).here || (bag_of self.old id).taken) ≡ true }
        requires order { IsInOrder (bag_of self.old id) }
        ensures own { Widened c (bag_of self.old id) (bag_of self.new id) }
        ensures others { (u : ℕ) → u ≢ id → bag_of self.new u ≡ bag_of self.old u }
        ensures next { next_of self.new ≡ next_of self.old }
        ensures contents { flat_of self.new ≡ flat_of self.old }
        ensures tasks { jobs_of self.new ≡ jobs_of self.old }
        ensures spare { self.new.spare ≡ self.old.spare }
        ensures slots { self.new.slots ≡ self.old.slots }
    {
        let place = self.places.at(c);
        if !slots::is_ready(&self.bags, id as usize) {
            self.note_change(id, c);
        } else if place.bag.is_none() {
            self.admit(id as usize, c, place);
        } else if !has_bag(place, id as usize) {
            self.unsettle(id);
        }
    }

    /// A listed bag gets a chunk that no bag has. If memory runs out, it has to be gathered anew.
    fn admit(&mut self, id: usize, c: ChunkPos, place: Place)
        requires here { (bag_of self.old id).here ≡ true }
        requires listed { (bag_of self.old id).listed ≡ true }
        requires order { IsStrictlySortedBy chunk_cmp (bag_of self.old id).chunks }
        requires there { place ≡ place_at self.old.places c }
        requires none { place.bag ≡ None }
        ensures own { Widened c (bag_of self.old id) (bag_of self.new id) }
        ensures others { (u : ℕ) → u ≢ id → bag_of self.new u ≡ bag_of self.old u }
        ensures same { SameMeaning self.old self.new }
        ensures spare { self.new.spare ≡ self.old.spare }
        ensures slots { self.new.slots ≡ self.old.slots }
    {
        let claimed = Place {
            spot: place.spot,
            bag: Some(id),
        };
        let quiet = self.none_waits(place);
        match slots::admit(&mut self.bags, id, c, quiet) {
            Ok(()) => match self.places.set(c, claimed) {
                Ok(()) => {}
                Err(_) => slots::unlist(&mut self.bags, id),
            },
            Err(_) => {}
        }
    }

    /// Whether no task waits, and nothing lies in the spot of a chunk with this place.
    fn none_waits(&self, place: Place) -> bool
        requires { (i : ℕ) → place.spot ≡ Some i → i < length self.now.spots }
        ensures waiting { IsTrue result → self.now.arrivals ≡ [] }
        ensures bare { IsTrue result → (i : ℕ) (k : Key) → place.spot ≡ Some i
            → things (spot self.now i) k ≡ None }
    {
        self.arrivals.is_empty() && spots::is_bare(&self.spots, place)
    }

    /// The region of a bag has a chunk less, on which no queued task lies. A listed bag that is here loses the chunk, if it has it, and the
    /// blocks and entities on it go into the chunk's spot; one that a worker has notes the chunk, whatever lies on it. Each is as calm as
    /// it was. Where memory runs out, the bag has to be gathered anew. Queued tasks cost it nothing.
    pub fn lose(&mut self, id: u64, c: ChunkPos)
        requires known { ((bag_of self.old id).here || (bag_of self.old id).taken) ≡ true }
        requires order { IsInOrder (bag_of self.old id) }
        requires no_task { (bag_of self.old id).taken ≡ false → HasNoTask c (jobs_of self.old) }
        ensures own { Narrowed c (bag_of self.old id) (bag_of self.new id) }
        ensures away { (bag_of self.old id).taken ≡ true → (bag_of self.new id).listed ≡ true
            → is_recorded (bag_of self.new id).since c ≡ true }
        ensures calm { (bag_of self.new id).calm ≡ (bag_of self.old id).calm }
        ensures others { (u : ℕ) → u ≢ id → bag_of self.new u ≡ bag_of self.old u }
        ensures next { next_of self.new ≡ next_of self.old }
        ensures contents { flat_of self.new ≡ flat_of self.old }
        ensures tasks { jobs_of self.new ≡ jobs_of self.old }
        ensures spare { self.old.spare ≤ self.new.spare }
        ensures slots { self.old.slots ≤ self.new.slots }
    {
        if !slots::is_ready(&self.bags, id as usize) {
            self.note_change(id, c);
        } else if has_bag(self.places.at(c), id as usize) {
            self.expel(id as usize, c);
        }
    }

    /// Notes that a chunk may have come or left, for a listed bag that a worker has; any other has to be gathered anew, as has this one
    /// where memory runs out.
    fn note_change(&mut self, id: u64, c: ChunkPos)
        requires known { ((bag_of self.old id).here || (bag_of self.old id).taken) ≡ true }
        requires away { ((bag_of self.old id).here && (bag_of self.old id).listed) ≡ false }
        ensures noted { (bag_of self.new id).listed ≡ true
            → ((bag_of self.old id).listed ≡ true) × ((bag_of self.new id).since
            ≡ (bag_of self.old id).since ++ c ∷ []) }
        ensures here { (bag_of self.old id).taken ≡ false
            → (bag_of self.new id).since ≡ (bag_of self.old id).since }
        ensures bags { bag_of self.new
            ≡ at_id (bag_of self.old) id (record (bag_of self.old id) {
              listed = (bag_of self.new id).listed;
              since = (bag_of self.new id).since;
            }) }
        ensures next { next_of self.new ≡ next_of self.old }
        ensures contents { flat_of self.new ≡ flat_of self.old }
        ensures tasks { jobs_of self.new ≡ jobs_of self.old }
        ensures spare { self.new.spare ≡ self.old.spare }
        ensures slots { self.new.slots ≡ self.old.slots }
    {
        slots::note_change(&mut self.bags, id as usize, c);
    }

    /// Takes one of the chunks that may have come or left while a worker had the bag, which is here again; `None` where no more is
    /// noted.
    pub fn next_change(&mut self, id: u64) -> Option<ChunkPos>
        requires here { (bag_of self.old id).here ≡ true }
        ensures some { ForSome result (λ c. (bag_of self.old id).since
            ≡ (bag_of self.new id).since ++ c ∷ []) }
        ensures none { IsTrue (is_none result) → (bag_of self.old id).since ≡ [] }
        ensures left { IsTrue (is_none result) → (bag_of self.new id).since ≡ [] }
        ensures bags { bag_of self.new
            ≡ at_id (bag_of self.old) id
            (record (bag_of self.old id) { since = (bag_of self.new id).since }) }
        ensures next { next_of self.new ≡ next_of self.old }
        ensures contents { flat_of self.new ≡ flat_of self.old }
        ensures tasks { jobs_of self.new ≡ jobs_of self.old }
        ensures spare { self.new.spare ≡ self.old.spare }
        ensures slots { self.new.slots ≡ self.old.slots }
    {
        slots::next_change(self.alloc, &mut self.bags, id as usize)
    }

    /// A listed bag that has the chunk loses it. If memory runs out, it has to be gathered anew.
    fn expel(&mut self, id: usize, c: ChunkPos)
        requires here { (bag_of self.old id).here ≡ true }
        requires listed { (bag_of self.old id).listed ≡ true }
        requires order { IsStrictlySortedBy chunk_cmp (bag_of self.old id).chunks }
        requires home { (place self.old c).bag ≡ Some id }
        requires no_task { HasNoTask c (jobs_of self.old) }
        ensures own { Narrowed c (bag_of self.old id) (bag_of self.new id) }
        ensures calm { (bag_of self.new id).calm ≡ (bag_of self.old id).calm }
        ensures others { (u : ℕ) → u ≢ id → bag_of self.new u ≡ bag_of self.old u }
        ensures next { next_of self.new ≡ next_of self.old }
        ensures contents { flat_of self.new ≡ flat_of self.old }
        ensures tasks { jobs_of self.new ≡ jobs_of self.old }
        ensures spare { self.old.spare ≤ self.new.spare }
        ensures slots { self.old.slots ≤ self.new.slots }
    {
        match self.try_expel(id, c) {
            Ok(()) => {}
            Err(_) => self.unsettle(id as u64),
        }
    }

    /// A listed bag that has the chunk loses it, unless memory runs out. Where nothing lies on the chunk, it needs no spot.
    fn try_expel(&mut self, id: usize, c: ChunkPos) -> Result<(), AllocError>
        requires here { (bag_of self.old id).here ≡ true }
        requires listed { (bag_of self.old id).listed ≡ true }
        requires order { IsStrictlySortedBy chunk_cmp (bag_of self.old id).chunks }
        requires home { (place self.old c).bag ≡ Some id }
        requires no_task { HasNoTask c (jobs_of self.old) }
        ensures own { OnOk result (Narrowed c (bag_of self.old id) (bag_of self.new id)) }
        ensures others { OnOk result ((u : ℕ) → u ≢ id → bag_of self.new u ≡ bag_of self.old u) }
        ensures calm { OnOk result ((bag_of self.new id).calm ≡ (bag_of self.old id).calm) }
        ensures err { OnErr result (bag_of self.new ≡ bag_of self.old) }
        ensures same { SameMeaning self.old self.new }
    {
        let size = self.size_on(id, c);
        if size == 0 {
            self.expel_bare(id, c);
            return Ok(());
        }
        let i = self.spot_of(c)?;
        self.expel_to(i, id, c, size)
    }

    /// How many blocks and entities in a bag lie on the chunk. Where no task does, and there is none of them, nothing does.
    fn size_on(&self, id: usize, c: ChunkPos) -> u64
        requires { (bag_of self.now id).here ≡ true }
        ensures size { result ≡ size_within (is_recorded (c ∷ [])) (slot self.now id).body.chunks }
        ensures none { result ≡ 0 → HasNoTask c (jobs_of self.now)
            → IsClearOf c (slot self.now id).body }
    {
        self.bags.slot(id).body.chunks.size_listed(&[c])
    }

    /// A listed bag loses a chunk that it has, on which nothing in it lies.
    fn expel_bare(&mut self, id: usize, c: ChunkPos)
        requires here { (bag_of self.old id).here ≡ true }
        requires listed { (bag_of self.old id).listed ≡ true }
        requires order { IsStrictlySortedBy chunk_cmp (bag_of self.old id).chunks }
        requires home { (place self.old c).bag ≡ Some id }
        requires bare { IsClearOf c (slot self.old id).body }
        ensures own { Narrowed c (bag_of self.old id) (bag_of self.new id) }
        ensures calm { (bag_of self.new id).calm ≡ (bag_of self.old id).calm }
        ensures others { (u : ℕ) → u ≢ id → bag_of self.new u ≡ bag_of self.old u }
        ensures same { SameMeaning self.old self.new }
    {
        self.places.unname(c);
        slots::dismiss(&mut self.bags, id, c);
    }

    /// A listed bag that has the chunk loses it, and the blocks and entities that lie on it, which are `size`, go into the chunk's spot,
    /// unless memory runs out.
    fn expel_to(&mut self, i: usize, id: usize, c: ChunkPos, size: u64) -> Result<(), AllocError>
        requires here { (bag_of self.old id).here ≡ true }
        requires listed { (bag_of self.old id).listed ≡ true }
        requires order { IsStrictlySortedBy chunk_cmp (bag_of self.old id).chunks }
        requires spot { (place self.old c).spot ≡ Some i }
        requires home { (place self.old c).bag ≡ Some id }
        requires size { size_within (is_recorded (c ∷ [])) (slot self.old id).body.chunks ≤ size }
        requires no_task { HasNoTask c (jobs_of self.old) }
        ensures own { OnOk result (Narrowed c (bag_of self.old id) (bag_of self.new id)) }
        ensures others { OnOk result ((u : ℕ) → u ≢ id → bag_of self.new u ≡ bag_of self.old u) }
        ensures calm { OnOk result ((bag_of self.new id).calm ≡ (bag_of self.old id).calm) }
        ensures err { OnErr result (bag_of self.new ≡ bag_of self.old) }
        ensures same { SameMeaning self.old self.new }
    {
        spots::shift_contents_from_bag(&mut self.bags, id, c, size, &mut self.spots, i)?;
        self.places.unname(c);
        slots::dismiss(&mut self.bags, id, c);
        Ok(())
    }
}
