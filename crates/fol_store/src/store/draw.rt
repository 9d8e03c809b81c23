//! What lies on some chunks goes into the bag of a region.

ghost use Rattle.std.specs.Prelude.{◌≡◌, ◌≢◌, ◌<◌, ◌≤◌, true, false, ℕ, length, slice_index_or, IsTrue, OnOk, OnErr};
ghost use Rattle.std.specs.List.Sorted.{IsStrictlySortedBy};
ghost use Rattle.fol_model.specs.declared.places.ChunkPos.{ChunkPos};
ghost use Rattle.fol_chunks.specs.Contents.{is_recorded};
ghost use Rattle.fol_chunks.specs.Order.{chunk_cmp};
ghost use Rattle.fol_bags.specs.Places.{place_at};

use crate::store::Store;
use fol_bags::{Place, slots, spots};
use fol_model::ChunkPos;
use std::alloc::AllocError;

impl Store {
    ghost use Rattle.fol_store.specs.Stock.{Stock, bag_of, place};
    ghost use Rattle.fol_store.specs.Steps.{Draws, IsTarget, IsGathered};

    /// Moves all that lies on the chunks into the bag of a region, whose chunks they are.
    pub(super) fn draw_all(&mut self, id: usize, chunks: &[ChunkPos]) -> Result<(), AllocError>
        requires order { IsStrictlySortedBy chunk_cmp chunks.now }
        requires target { IsTarget id chunks.now self.old }
        ensures draws { Draws id chunks.now self.old self.new }
        ensures gathered { OnOk result ((q : ChunkPos) → is_recorded chunks.now q ≡ true
            → IsGathered self.new id q) }
    {
        for c in chunks {
            self.draw(id, chunks, *c)?;
        }
        Ok(())
    }

    /// Moves all that lies on one of the chunks into the bag.
    fn draw(&mut self, id: usize, chunks: &[ChunkPos], c: ChunkPos) -> Result<(), AllocError>
        requires order { IsStrictlySortedBy chunk_cmp chunks.now }
        requires target { IsTarget id chunks.now self.old }
        requires listed { is_recorded chunks.now c ≡ true }
        ensures draws { Draws id chunks.now self.old self.new }
        ensures gathered { OnOk result (IsGathered self.new id c) }
    {
        match self.draw_home(id, chunks, c) {
            Ok(()) => self.draw_rest(id, c),
            Err(_) => Err(AllocError),
        }
    }

    /// Moves what lies in the spot of a chunk into the bag that has the chunk.
    pub(super) fn draw_rest(&mut self, id: usize, c: ChunkPos) -> Result<(), AllocError>
        requires target { IsTarget id (bag_of self.old id).chunks self.old }
        requires home { (place self.old c).bag ≡ Some id }
        ensures draws { Draws id (bag_of self.old id).chunks self.old self.new }
        ensures gathered { OnOk result (IsGathered self.new id c) }
        ensures places { self.new.places ≡ self.old.places }
    {
        match self.places.at(c).spot {
            Some(i) => self.draw_spot(i, id, c),
            None => Ok(()),
        }
    }

    /// Makes the bag that of one of the chunks, and moves what lies on the chunks in the bag that had the chunk.
    fn draw_home(&mut self, id: usize, chunks: &[ChunkPos], c: ChunkPos) -> Result<(), AllocError>
        requires order { IsStrictlySortedBy chunk_cmp chunks.now }
        requires target { IsTarget id chunks.now self.old }
        requires listed { is_recorded chunks.now c ≡ true }
        ensures draws { Draws id chunks.now self.old self.new }
        ensures home { OnOk result ((place self.new c).bag ≡ Some id) }
    {
        let place = self.places.at(c);
        match place.bag {
            Some(from) => {
                if from == id {
                    Ok(())
                } else {
                    self.draw_bag(from, id, chunks, c)
                }
            }
            None => self.claim(id, chunks, c, place),
        }
    }

    /// Moves what lies on the chunks from another bag, which has one of them. If that was closed before and is empty then, its
    /// memory goes back.
    fn draw_bag(
        &mut self,
        from: usize,
        id: usize,
        chunks: &[ChunkPos],
        c: ChunkPos,
    ) -> Result<(), AllocError>
        requires order { IsStrictlySortedBy chunk_cmp chunks.now }
        requires target { IsTarget id chunks.now self.old }
        requires apart { from ≢ id }
        requires listed { is_recorded chunks.now c ≡ true }
        requires named { (place self.old c).bag ≡ Some from }
        ensures draws { Draws id chunks.now self.old self.new }
        ensures home { OnOk result ((place self.new c).bag ≡ Some id) }
    {
        self.pull(from, id, chunks, c)?;
        self.release(from);
        Ok(())
    }

    /// Moves what lies on the chunks from another bag, which has one of them.
    fn pull(
        &mut self,
        from: usize,
        id: usize,
        chunks: &[ChunkPos],
        c: ChunkPos,
    ) -> Result<(), AllocError>
        requires order { IsStrictlySortedBy chunk_cmp chunks.now }
        requires target { IsTarget id chunks.now self.old }
        requires apart { from ≢ id }
        requires listed { is_recorded chunks.now c ≡ true }
        requires named { (place self.old c).bag ≡ Some from }
        ensures draws { Draws id chunks.now self.old self.new }
        ensures home { OnOk result ((place self.new c).bag ≡ Some id) }
        ensures there { from < length self.new.bags }
    {
        match slots::shift_bags(self.alloc, &mut self.bags, from, chunks, id) {
            Ok(()) => {
                self.places.rehome(chunks, from, id);
                Ok(())
            }
            Err(_) => Err(AllocError),
        }
    }

    /// Moves what lies in the spot of a chunk into the bag that has the chunk.
    fn draw_spot(&mut self, i: usize, id: usize, c: ChunkPos) -> Result<(), AllocError>
        requires target { IsTarget id (bag_of self.old id).chunks self.old }
        requires spot { (place self.old c).spot ≡ Some i }
        requires home { (place self.old c).bag ≡ Some id }
        ensures draws { Draws id (bag_of self.old id).chunks self.old self.new }
        ensures gathered { OnOk result (IsGathered self.new id c) }
        ensures places { self.new.places ≡ self.old.places }
    {
        spots::shift_to_bag(&mut self.spots, i, &[c], &mut self.bags, id)
    }

    /// Makes the bag that of one of the chunks, which had none.
    fn claim(
        &mut self,
        id: usize,
        chunks: &[ChunkPos],
        c: ChunkPos,
        place: Place,
    ) -> Result<(), AllocError>
        requires target { IsTarget id chunks.now self.old }
        requires listed { is_recorded chunks.now c ≡ true }
        requires there { place ≡ place_at self.old.places c }
        requires none { place.bag ≡ None }
        ensures draws { Draws id chunks.now self.old self.new }
        ensures home { OnOk result ((place_at self.new.places c).bag ≡ Some id) }
    {
        let claimed = Place {
            spot: place.spot,
            bag: Some(id),
        };
        self.places.set(c, claimed)
    }
}
