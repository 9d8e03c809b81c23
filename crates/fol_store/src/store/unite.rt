//! The region of a bag joins another one.

ghost use Rattle.std.specs.Prelude.{◌≡◌, ◌≢◌, ◌≤◌, true, false, ℕ, IfOk, OnOk};
ghost use Rattle.fol_store.specs.Bag.{no_bag, is_whole};
ghost use Rattle.fol_store.specs.Relisted.{IsInOrder, Joined, Stays, United};

use crate::store::Store;
use fol_bags::slots;
use std::alloc::AllocError;

impl Store {
    ghost use Rattle.fol_store.specs.Stock.{Stock, flat_of, jobs_of, bag_of, next_of};
    ghost use Rattle.fol_store.specs.Steps.{SameWorld};

    /// A region joins another one, which then owes the greater number. Its bag is closed. Where both bags are listed, the other one gets
    /// its chunks, with what lies on them; where one is not, or memory runs out, the other has to be gathered anew.
    pub fn unite(&mut self, from: u64, into: u64)
        requires from { (bag_of self.old from).here ≡ true }
        requires into { (bag_of self.old into).here ≡ true }
        requires differ { from ≢ into }
        requires from_order { IsInOrder (bag_of self.old from) }
        requires into_order { IsInOrder (bag_of self.old into) }
        ensures gone { bag_of self.new from ≡ no_bag }
        ensures own { United (bag_of self.old from) (bag_of self.old into) (bag_of self.new into) }
        ensures others { (u : ℕ) → u ≢ from → u ≢ into → bag_of self.new u ≡ bag_of self.old u }
        ensures next { next_of self.new ≡ next_of self.old }
        ensures contents { flat_of self.new ≡ flat_of self.old }
        ensures tasks { jobs_of self.new ≡ jobs_of self.old }
        ensures spare { self.old.spare ≤ self.new.spare }
        ensures slots { self.old.slots ≤ self.new.slots }
    {
        let owed = self.owed(into).max(self.owed(from));
        self.set_owed(into, owed);
        if self.is_listed(from) && self.is_listed(into) {
            self.join(from, into);
        } else {
            self.dissolve(from, into);
        }
    }

    /// The chunks of a listed bag go to another listed one, or, if memory runs out, the other has to be gathered anew.
    fn join(&mut self, from: u64, into: u64)
        requires from { (bag_of self.old from).here ≡ true }
        requires into { (bag_of self.old into).here ≡ true }
        requires differ { from ≢ into }
        requires from_listed { (bag_of self.old from).listed ≡ true }
        requires into_listed { (bag_of self.old into).listed ≡ true }
        requires from_order { IsInOrder (bag_of self.old from) }
        requires into_order { IsInOrder (bag_of self.old into) }
        ensures joined { Joined from into (bag_of self.old) (bag_of self.new) }
        ensures same { SameWorld self.old self.new }
    {
        let _bags = &self.bags;
        match self.make_both_whole(from, into) {
            Ok(()) => {
                self.pour(from as usize, into as usize);
                self.release(from as usize);
            }
            Err(_) => self.dissolve(from, into),
        }
    }

    /// The bag of a region that joins another one is closed, and the other has to be gathered anew.
    fn dissolve(&mut self, from: u64, into: u64)
        requires from { (bag_of self.old from).here ≡ true }
        requires into { (bag_of self.old into).here ≡ true }
        requires differ { from ≢ into }
        ensures gone { bag_of self.new from ≡ no_bag }
        ensures own { bag_of self.new into ≡ record (bag_of self.old into) { listed = false } }
        ensures others { (u : ℕ) → u ≢ from → u ≢ into → bag_of self.new u ≡ bag_of self.old u }
        ensures same { SameWorld self.old self.new }
    {
        self.close(from);
        self.unsettle(into);
    }

    /// Makes two listed bags whole.
    fn make_both_whole(&mut self, from: u64, into: u64) -> Result<(), AllocError>
        requires from { (bag_of self.old from).here ≡ true }
        requires into { (bag_of self.old into).here ≡ true }
        requires differ { from ≢ into }
        requires from_listed { (bag_of self.old from).listed ≡ true }
        requires into_listed { (bag_of self.old into).listed ≡ true }
        ensures from { OnOk result (bag_of self.new from
            ≡ record (bag_of self.old from) { calm = true }) }
        ensures into { OnOk result (bag_of self.new into
            ≡ record (bag_of self.old into) { calm = true }) }
        ensures from_stays { Stays (bag_of self.old from) (bag_of self.new from) }
        ensures into_stays { Stays (bag_of self.old into) (bag_of self.new into) }
        ensures others { (u : ℕ) → u ≢ from → u ≢ into → bag_of self.new u ≡ bag_of self.old u }
        ensures same { SameWorld self.old self.new }
    {
        self.make_whole(from)?;
        self.make_whole(into)
    }

    /// Makes a listed bag whole, where it is not.
    fn make_whole(&mut self, id: u64) -> Result<(), AllocError>
        requires here { (bag_of self.old id).here ≡ true }
        requires listed { (bag_of self.old id).listed ≡ true }
        ensures whole { OnOk result (bag_of self.new id
            ≡ record (bag_of self.old id) { calm = true }) }
        ensures stays { Stays (bag_of self.old id) (bag_of self.new id) }
        ensures others { (u : ℕ) → u ≢ id → bag_of self.new u ≡ bag_of self.old u }
        ensures same { SameWorld self.old self.new }
    {
        if self.is_whole(id) {
            Ok(())
        } else {
            self.settle(id)
        }
    }

    /// A whole bag is closed, and its chunks go to another one, with what lies on them. If memory runs out, the other has to be gathered
    /// anew.
    fn pour(&mut self, from: usize, into: usize)
        requires from { (bag_of self.old from).here ≡ true }
        requires into { (bag_of self.old into).here ≡ true }
        requires differ { from ≢ into }
        requires from_whole { is_whole (bag_of self.old from) ≡ true }
        requires into_whole { is_whole (bag_of self.old into) ≡ true }
        requires from_order { IsInOrder (bag_of self.old from) }
        requires into_order { IsInOrder (bag_of self.old into) }
        ensures joined { Joined from into (bag_of self.old) (bag_of self.new) }
        ensures same { SameWorld self.old self.new }
    {
        match slots::merge(self.alloc, &mut self.bags, from, into) {
            Ok(moved) => self.places.rehome(&moved, from, into),
            Err(_) => {}
        }
    }
}
