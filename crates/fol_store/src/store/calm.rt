//! The tasks that came on the chunks of a listed bag go into it.

ghost use Rattle.std.specs.Prelude.{◌≡◌, ◌≢◌, ◌≤◌, ◌<◌, [], true, false, ℕ, OnOk, OnErr};
ghost use Rattle.fol_model.specs.ActionStep.{at_id};
ghost use Rattle.fol_model.specs.declared.places.ChunkPos.{ChunkPos};
ghost use Rattle.fol_chunks.specs.Contents.{is_recorded};
ghost use Rattle.fol_store.specs.Gathered.{Touched};

use crate::store::Store;
use fol_bags::{has_bag, slots};
use fol_model::ChunkPos;
use std::alloc::AllocError;

impl Store {
    ghost use Rattle.fol_store.specs.Stock.{Stock, flat_of, jobs_of, bag_of, next_of, place};
    ghost use Rattle.fol_store.specs.Steps.{SameMeaning, Draws, IsTarget, IsGathered, IsReopened};

    /// Makes a listed bag whole: the tasks that came on its chunks go into it. Takes memory; contents and tasks stay either way, and
    /// if memory runs out, the bag may have to be gathered anew.
    pub fn settle(&mut self, id: u64) -> Result<(), AllocError>
        requires here { (bag_of self.old id).here ≡ true }
        requires listed { (bag_of self.old id).listed ≡ true }
        ensures whole { OnOk result (bag_of self.new id
            ≡ record (bag_of self.old id) { calm = true }) }
        ensures err { OnErr result (Touched (bag_of self.old id) (bag_of self.new id)) }
        ensures others { (u : ℕ) → u ≢ id → bag_of self.new u ≡ bag_of self.old u }
        ensures next { next_of self.new ≡ next_of self.old }
        ensures contents { flat_of self.new ≡ flat_of self.old }
        ensures tasks { jobs_of self.new ≡ jobs_of self.old }
        ensures spare { self.old.spare ≤ self.new.spare }
        ensures slots { self.old.slots ≤ self.new.slots }
    {
        self.hand_out()?;
        self.draw_noted(id as usize)
    }

    /// Moves what lies in the noted spots of a listed bag into it, where no task is to be handed out.
    fn draw_noted(&mut self, id: usize) -> Result<(), AllocError>
        requires here { (bag_of self.old id).here ≡ true }
        requires listed { (bag_of self.old id).listed ≡ true }
        requires empty { self.old.arrivals ≡ [] }
        ensures same { SameMeaning self.old self.new }
        ensures whole { OnOk result (bag_of self.new id
            ≡ record (bag_of self.old id) { calm = true }) }
        ensures err { OnErr result (bag_of self.new id
            ≡ record (bag_of self.old id) { listed = false }) }
        ensures others { (u : ℕ) → u ≢ id → bag_of self.new u ≡ bag_of self.old u }
    {
        let touched = self.reopen(id);
        self.draw_touched(id, &touched)?;
        self.finish(id);
        Ok(())
    }

    /// Takes the noted chunks of a listed bag, for which what came is to be drawn.
    fn reopen(&mut self, id: usize) -> Vec<ChunkPos>
        requires here { (bag_of self.old id).here ≡ true }
        requires listed { (bag_of self.old id).listed ≡ true }
        requires empty { self.old.arrivals ≡ [] }
        ensures same { SameMeaning self.old self.new }
        ensures bags { bag_of self.new
            ≡ at_id (bag_of self.old) id (record (bag_of self.old id) { listed = false }) }
        ensures reopened { IsReopened id (bag_of self.new id).chunks result.items self.new }
    {
        slots::reopen(self.alloc, &mut self.bags, id)
    }

    /// Moves what lies in the spots of the noted chunks into their bag.
    fn draw_touched(&mut self, id: usize, touched: &[ChunkPos]) -> Result<(), AllocError>
        requires { IsReopened id (bag_of self.old id).chunks touched.now self.old }
        ensures draws { Draws id (bag_of self.old id).chunks self.old self.new }
        ensures gathered { OnOk result ((q : ChunkPos)
            → is_recorded (bag_of self.old id).chunks q ≡ true → IsGathered self.new id q) }
    {
        for c in touched {
            self.draw_known(id, *c)?;
        }
        Ok(())
    }

    /// Moves what lies in the spot of a chunk into a bag, if the bag has the chunk.
    fn draw_known(&mut self, id: usize, c: ChunkPos) -> Result<(), AllocError>
        requires { IsTarget id (bag_of self.old id).chunks self.old }
        ensures draws { Draws id (bag_of self.old id).chunks self.old self.new }
        ensures places { self.new.places ≡ self.old.places }
        ensures gathered { OnOk result ((place self.old c).bag ≡ Some id
            → IsGathered self.new id c) }
    {
        if has_bag(self.places.at(c), id) {
            self.draw_rest(id, c)
        } else {
            Ok(())
        }
    }
}
