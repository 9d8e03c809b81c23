//! Ticks of a region in which no task is due and few entities walk.

ghost use Rattle.std.specs.Prelude.{◌≡◌, ◌+◌, ◌<◌, ◌≤◌, ◌^◌, true, All, IsTrue};
ghost use Rattle.std.specs.List.Sorted.{IsStrictlySortedBy};
ghost use Rattle.fol_model.specs.Geometry.{is_chunk};
ghost use Rattle.fol_chunks.specs.Order.{chunk_cmp};
ghost use Rattle.fol_store.specs.Bag.{is_whole};

use crate::store::Store;
use fol_bags::slots;

/// In how many entities with a speed, at most, ticks are done in the store: moving these costs less than handing the bag to a worker and
/// taking it back.
const FEW_WALKERS: usize = 256;

/// So many movements of entities are made in one call at most: it stays short also where each has its chunk looked up.
const MOST_MOVES: usize = 64 * FEW_WALKERS;

impl Store {
    ghost use Rattle.fol_store.specs.Stock.{Stock, bag_of, due_by};
    ghost use Rattle.fol_store.specs.Passing.{PassesTimes};

    /// How many of the next ticks of a region need no worker's hands, `most` of them at most: its bag is whole, no task of it is due in them, and few
    /// entities in it have a speed. It may be fewer than there are.
    pub fn quiet_ticks(&self, id: u64, most: u32) -> u32
        requires { (bag_of self.now id).here ≡ true }
        ensures few { result ≤ most }
        ensures whole { 0 < result → is_whole (bag_of self.now id) ≡ true }
        ensures none_due { 0 < result → due_by result self.now id ≡ 0 }
        ensures owed { result ≤ (bag_of self.now id).owed }
    {
        if !self.is_whole(id) {
            return 0;
        }
        let most = most.min(self.owed(id)).min(self.most_ticks(id));
        self.idle_ticks(id, most)
    }

    /// In how many of the next ticks of a region no task of its bag is due, `most` of them at most. It may be fewer than there are: where a task is
    /// due in so many, half as many are tried.
    fn idle_ticks(&self, id: u64, most: u32) -> u32
        requires { (bag_of self.now id).here ≡ true }
        ensures few { result ≤ most }
        ensures none_due { 0 < result → due_by result self.now id ≡ 0 }
    {
        let mut ticks = most;
        while ticks > 0 && self.is_any_due(id, ticks) {
            ticks /= 2;
        }
        ticks
    }

    /// In how many ticks of a region at most its entities are moved in one call: the more of them have a speed the fewer, and in none where many do.
    fn most_ticks(&self, id: u64) -> u32
        requires { (bag_of self.now id).here ≡ true }
    {
        let walkers = self.bags.slot(id as usize).body.chunks.walkers();
        if walkers > FEW_WALKERS {
            return 0;
        }
        (MOST_MOVES / walkers.max(1)) as u32
    }

    /// So many ticks of a region pass in which no task is due: with each its tasks come a tick nearer, it owes one tick less, and the entities on its
    /// chunks move by their speeds. Takes no memory.
    pub fn pass(&mut self, id: u64, ticks: u32)
        requires here { (bag_of self.old id).here ≡ true }
        requires whole { is_whole (bag_of self.old id) ≡ true }
        requires none_due { due_by ticks self.old id ≡ 0 }
        requires owes { ticks ≤ (bag_of self.old id).owed }
        requires early { (bag_of self.old id).tick + ticks ≤ 2 ^ 62 }
        requires order { IsStrictlySortedBy chunk_cmp (bag_of self.old id).chunks }
        requires places { All (λ c. IsTrue (is_chunk c)) (bag_of self.old id).chunks }
        ensures passes { PassesTimes id ticks self.old self.new }
        ensures spare { self.new.spare ≡ self.old.spare }
        ensures slots { self.new.slots ≡ self.old.slots }
    {
        slots::count_ticks(&mut self.bags, id as usize, ticks);
    }
}
