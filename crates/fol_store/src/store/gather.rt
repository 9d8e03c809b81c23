//! The bag of a region is made to hold just what lies on its chunks.

ghost use Rattle.std.specs.Prelude.{◌≡◌, ◌≢◌, ◌<◌, ◌≤◌, [], true, false, ℕ, length, slice_index_or, IsTrue, OnOk, OnErr, All, ◌⊎◌};
ghost use Rattle.std.specs.List.Sorted.{IsStrictlySortedBy};
ghost use Rattle.fol_model.specs.ActionStep.{at_id};
ghost use Rattle.fol_model.specs.Geometry.{is_chunk};
ghost use Rattle.fol_model.specs.declared.places.ChunkPos.{ChunkPos};
ghost use Rattle.fol_chunks.specs.Contents.{is_recorded};
ghost use Rattle.fol_chunks.specs.Order.{chunk_cmp};
ghost use Rattle.fol_store.specs.Gathered.{AreFree, OthersSpared, Touched};

use crate::store::Store;
use fol_bags::slots;
use fol_model::ChunkPos;
use std::alloc::AllocError;

impl Store {
    ghost use Rattle.fol_store.specs.Stock.{Stock, flat_of, jobs_of, bag_of, next_of, place};
    ghost use Rattle.fol_store.specs.Steps.{SameMeaning, IsGathered};

    /// Moves what lies on the chunks into the bag of a region, and all else out of it. Takes memory; contents and tasks stay either way.
    pub fn gather(&mut self, id: u64, chunks: &[ChunkPos]) -> Result<(), AllocError>
        requires here { (bag_of self.old id).here ≡ true }
        requires order { IsStrictlySortedBy chunk_cmp chunks.now }
        requires places { All (λ c. IsTrue (is_chunk c)) chunks.now }
        requires free { AreFree (bag_of self.old) chunks.now }
        ensures whole { OnOk result (bag_of self.new id
            ≡ record (bag_of self.old id) { listed = true; calm = true; chunks = chunks.now }) }
        ensures err { OnErr result (Touched (bag_of self.old id) (bag_of self.new id)) }
        ensures others { OthersSpared id chunks.now (bag_of self.old) (bag_of self.new) }
        ensures next { next_of self.new ≡ next_of self.old }
        ensures contents { flat_of self.new ≡ flat_of self.old }
        ensures tasks { jobs_of self.new ≡ jobs_of self.old }
        ensures spare { self.old.spare ≤ self.new.spare }
        ensures slots { self.old.slots ≤ self.new.slots }
    {
        let listed = Vec::from_slice(self.alloc, chunks)?;
        self.unsettle(id);
        self.fill(id as usize, chunks, listed)
    }

    /// Moves what lies on the chunks into a bag, and all else out of it.
    fn fill(
        &mut self,
        id: usize,
        chunks: &[ChunkPos],
        listed: Vec<ChunkPos>,
    ) -> Result<(), AllocError>
        requires here { (bag_of self.old id).here ≡ true }
        requires not_taken { (bag_of self.old id).taken ≡ false }
        requires not_listed { (bag_of self.old id).listed ≡ false }
        requires order { IsStrictlySortedBy chunk_cmp chunks.now }
        requires free { AreFree (bag_of self.old) chunks.now }
        requires listed { listed.items ≡ chunks.now }
        ensures same { SameMeaning self.old self.new }
        ensures whole { OnOk result (bag_of self.new id
            ≡ record (bag_of self.old id) { listed = true; calm = true; chunks = chunks.now }) }
        ensures err { OnErr result (Touched (bag_of self.old id) (bag_of self.new id)) }
        ensures others { OthersSpared id chunks.now (bag_of self.old) (bag_of self.new) }
    {
        self.prepare(id, chunks, listed)?;
        self.draw_all(id, chunks)?;
        self.finish(id);
        Ok(())
    }

    /// Hands out what came, moves what lies on other chunks out of a bag, and gives the bag these chunks.
    fn prepare(
        &mut self,
        id: usize,
        chunks: &[ChunkPos],
        listed: Vec<ChunkPos>,
    ) -> Result<(), AllocError>
        requires here { (bag_of self.old id).here ≡ true }
        requires not_listed { (bag_of self.old id).listed ≡ false }
        requires order { IsStrictlySortedBy chunk_cmp chunks.now }
        requires listed { listed.items ≡ chunks.now }
        ensures same { SameMeaning self.old self.new }
        ensures ok { OnOk result (bag_of self.new
            ≡ at_id (bag_of self.old) id (record (bag_of self.old id) { chunks = chunks.now })) }
        ensures err { OnErr result (bag_of self.new ≡ bag_of self.old) }
        ensures empty { OnOk result (self.new.arrivals ≡ []) }
    {
        self.hand_out()?;
        self.drop_others(id, chunks)?;
        self.relist(id, chunks, listed);
        Ok(())
    }

    /// Gives a bag other chunks, where nothing lies on any that it had and has no more.
    fn relist(&mut self, id: usize, chunks: &[ChunkPos], listed: Vec<ChunkPos>)
        requires here { (bag_of self.old id).here ≡ true }
        requires not_listed { (bag_of self.old id).listed ≡ false }
        requires listed { listed.items ≡ chunks.now }
        requires gone { (k : ℕ) (d : ChunkPos) → k < length (bag_of self.old id).chunks
            → (is_recorded chunks.now (slice_index_or (bag_of self.old id).chunks k d) ≡ true)
            ⊎ ((place self.old (slice_index_or (bag_of self.old id).chunks k d)).bag ≡ Some id
            → ⊥) }
        ensures same { SameMeaning self.old self.new }
        ensures bags { bag_of self.new
            ≡ at_id (bag_of self.old) id (record (bag_of self.old id) { chunks = chunks.now }) }
        ensures arrivals { self.new.arrivals ≡ self.old.arrivals }
    {
        let _chunks = chunks;
        slots::relist(&mut self.bags, id, listed);
    }

    /// Says that a bag is whole, where all that lies on its chunks lies in it.
    pub(super) fn finish(&mut self, id: usize)
        requires here { (bag_of self.old id).here ≡ true }
        requires gathered { (q : ChunkPos) → is_recorded (bag_of self.old id).chunks q ≡ true
            → IsGathered self.old id q }
        ensures same { SameMeaning self.old self.new }
        ensures bags { bag_of self.new
            ≡ at_id (bag_of self.old) id
            (record (bag_of self.old id) { listed = true; calm = true }) }
    {
        slots::finish(self.alloc, &mut self.bags, id);
    }
}
