//! A region falls apart, and its parts get what lies on their chunks.

ghost use Rattle.std.specs.Prelude.{◌≡◌, ◌≢◌, ◌≤◌, ℕ, true, not, filter, Some, IfSome, OnOk};
ghost use Rattle.std.specs.List.Sorted.{IsStrictlySortedBy};
ghost use Rattle.fol_model.specs.declared.places.ChunkPos.{ChunkPos};
ghost use Rattle.fol_chunks.specs.Contents.{is_recorded};
ghost use Rattle.fol_chunks.specs.Order.{chunk_cmp};
ghost use Rattle.fol_store.specs.Bag.{no_bag};
ghost use Rattle.fol_store.specs.Relisted.{IsInOrder, IsUngathered, Receives, Stays};

use crate::store::Store;
use fol_bags::{Listing, Place, has_bag, slots};
use fol_model::ChunkPos;
use std::alloc::AllocError;

impl Store {
    ghost use Rattle.fol_store.specs.Stock.{Stock, flat_of, jobs_of, bag_of, next_of, place};
    ghost use Rattle.fol_store.specs.Noted.{AreNoted};
    ghost use Rattle.fol_store.specs.Steps.{SameWorld};

    /// What lies on these chunks in the bag of a region goes into the bag of one of its parts, which is then listed for the chunks and is not calm. Where the region's bag
    /// was listed, it is listed for the others then. Where it does not have all of them, or memory runs out, nothing moves, the part's bag has to be gathered, and the region's
    /// bag too.
    pub fn hand_over(&mut self, from: u64, to: u64, chunks: Vec<ChunkPos>)
        requires here { (bag_of self.old from).here ≡ true }
        requires fresh { IsUngathered (bag_of self.old to) }
        requires differ { from ≢ to }
        requires order { IsStrictlySortedBy chunk_cmp chunks.items }
        requires from_order { IsInOrder (bag_of self.old from) }
        ensures rest { bag_of self.new from ≡ record (bag_of self.old from) {
          listed = (bag_of self.new from).listed;
          chunks = (bag_of self.new from).chunks;
        } }
        ensures left { (bag_of self.new from).listed ≡ true
            → ((bag_of self.old from).listed ≡ true) × ((bag_of self.new from).chunks
            ≡ filter (λ q. not (is_recorded chunks.items q)) (bag_of self.old from).chunks) }
        ensures in_order { IsInOrder (bag_of self.new from) }
        ensures own { Stays (bag_of self.old to) (bag_of self.new to) }
        ensures chunks { (bag_of self.new to).listed ≡ true
            → (bag_of self.new to).chunks ≡ chunks.items }
        ensures others { (u : ℕ) → u ≢ from → u ≢ to → bag_of self.new u ≡ bag_of self.old u }
        ensures next { next_of self.new ≡ next_of self.old }
        ensures contents { flat_of self.new ≡ flat_of self.old }
        ensures tasks { jobs_of self.new ≡ jobs_of self.old }
        ensures spare { self.old.spare ≤ self.new.spare }
        ensures slots { self.old.slots ≤ self.new.slots }
    {
        match self.spots_among(from as usize, &chunks) {
            Some(touched) => self.move_some(
                from as usize,
                to as usize,
                Listing { chunks, touched },
            ),
            None => self.unsettle(from),
        }
    }

    /// A region is over, and a part of it takes its place: the part's bag is the region's then, with its list and all that lies in it; nothing moves. The region's bag is closed. Takes no
    /// memory.
    pub fn succeed(&mut self, from: u64, to: u64)
        requires here { (bag_of self.old from).here ≡ true }
        requires fresh { IsUngathered (bag_of self.old to) }
        requires differ { from ≢ to }
        requires tick { (bag_of self.old from).tick ≡ (bag_of self.old to).tick }
        requires owed { (bag_of self.old from).owed ≡ (bag_of self.old to).owed }
        ensures gone { bag_of self.new from ≡ no_bag }
        ensures own { bag_of self.new to ≡ bag_of self.old from }
        ensures others { (u : ℕ) → u ≢ from → u ≢ to → bag_of self.new u ≡ bag_of self.old u }
        ensures next { next_of self.new ≡ next_of self.old }
        ensures contents { flat_of self.new ≡ flat_of self.old }
        ensures tasks { jobs_of self.new ≡ jobs_of self.old }
        ensures spare { self.old.spare ≤ self.new.spare }
        ensures slots { self.old.slots ≤ self.new.slots }
    {
        self.exchange(from as usize, to as usize);
        self.close(from);
    }

    /// Moves what lies on the chunks of these lists from a bag that has them to another, which gets the lists. If memory runs out,
    /// nothing has moved.
    fn move_some(&mut self, from: usize, to: usize, lists: Listing)
        requires here { (bag_of self.old from).here ≡ true }
        requires fresh { IsUngathered (bag_of self.old to) }
        requires differ { from ≢ to }
        requires order { IsStrictlySortedBy chunk_cmp lists.chunks.items }
        requires from_order { IsInOrder (bag_of self.old from) }
        requires homes { (q : ChunkPos) → is_recorded lists.chunks.items q ≡ true
            → (place self.old q).bag ≡ Some from }
        requires touched { AreNoted self.old lists.chunks.items lists.touched.items }
        ensures received { Receives from to lists.chunks.items (bag_of self.old) (bag_of self.new) }
        ensures same { SameWorld self.old self.new }
    {
        let listed = self.is_listed(from as u64);
        match slots::shift_bags(self.alloc, &mut self.bags, from, &lists.chunks, to) {
            Ok(()) => {
                self.places.rehome(&lists.chunks, from, to);
                slots::list_others(&mut self.bags, from, &lists.chunks, listed);
                slots::list(&mut self.bags, to, lists);
            }
            Err(_) => {}
        }
    }

    /// A bag and a fresh one are exchanged, and the places of the chunks of the first name it where it is then.
    fn exchange(&mut self, from: usize, to: usize)
        requires here { (bag_of self.old from).here ≡ true }
        requires fresh { IsUngathered (bag_of self.old to) }
        requires differ { from ≢ to }
        requires tick { (bag_of self.old from).tick ≡ (bag_of self.old to).tick }
        requires owed { (bag_of self.old from).owed ≡ (bag_of self.old to).owed }
        ensures from { bag_of self.new from ≡ bag_of self.old to }
        ensures to { bag_of self.new to ≡ bag_of self.old from }
        ensures others { (u : ℕ) → u ≢ from → u ≢ to → bag_of self.new u ≡ bag_of self.old u }
        ensures same { SameWorld self.old self.new }
    {
        slots::exchange(&mut self.bags, from, to);
        self.places.exchange(from, to);
    }

    /// Those of the chunks that have a spot, where the bag has each of the chunks. `None` also where memory runs out.
    fn spots_among(&self, id: usize, chunks: &[ChunkPos]) -> Option<Vec<ChunkPos>>
        ensures homes { IfSome result (λ list. (q : ChunkPos) → is_recorded chunks.now q ≡ true
            → (place self.now q).bag ≡ Some id) }
        ensures noted { IfSome result (λ list. AreNoted self.now chunks.now list.items) }
    {
        let mut list = Vec::new(self.alloc);
        for c in chunks {
            let place = self.places.at(*c);
            if !has_bag(place, id) {
                return None;
            }
            match note_spot(&mut list, *c, place) {
                Ok(()) => {}
                Err(_) => return None,
            }
        }
        Some(list)
    }
}

/// Adds a chunk with this place to the list, where it has a spot.
fn note_spot(list: &mut Vec<ChunkPos>, c: ChunkPos, place: Place) -> Result<(), AllocError>
    ensures noted { OnOk result ((i : ℕ) → place.spot ≡ Some i
        → is_recorded list.new.items c ≡ true) }
    ensures kept { (q : ChunkPos) → is_recorded list.old.items q ≡ true
        → is_recorded list.new.items q ≡ true }
{
    match place.spot {
        Some(_) => slots::add(list, c),
        None => Ok(()),
    }
}
