//! A region is over.

ghost use Rattle.std.specs.Prelude.{◌≡◌, ◌<◌, true, ℕ, List, length};
ghost use Rattle.fol_model.specs.ActionStep.{at_id};
ghost use Rattle.fol_model.specs.declared.places.ChunkPos.{ChunkPos};
ghost use Rattle.fol_store.specs.Bag.{no_bag};

use crate::store::Store;
use fol_bags::slots;

impl Store {
    ghost use Rattle.fol_store.specs.Stock.{Stock, flat_of, jobs_of, bag_of, next_of};
    ghost use Rattle.fol_store.specs.Steps.{Draws};

    /// Closes the bag of a region that is over. What lies in it stays in the store. Takes no memory: that of the bag goes back, where
    /// nothing lies in it, and else when the last of that has gone to another bag.
    pub fn close(&mut self, id: u64)
        requires here { (bag_of self.old id).here ≡ true }
        ensures bags { bag_of self.new ≡ at_id (bag_of self.old) id no_bag }
        ensures next { next_of self.new ≡ next_of self.old }
        ensures contents { flat_of self.new ≡ flat_of self.old }
        ensures tasks { jobs_of self.new ≡ jobs_of self.old }
        ensures spare { self.new.spare ≡ self.old.spare }
        ensures slots { self.new.slots ≡ self.old.slots }
    {
        slots::close(self.alloc, &mut self.bags, id as usize);
    }

    /// Gives back the memory of a closed bag, where nothing lies in it.
    pub(super) fn release(&mut self, id: usize)
        requires { id < length self.old.bags }
        ensures draws { (n : ℕ) (chunks : List ChunkPos) → Draws n chunks self.old self.new }
        ensures bags { bag_of self.new ≡ bag_of self.old }
        ensures places { self.new.places ≡ self.old.places }
    {
        self.bags.release(id);
    }
}
