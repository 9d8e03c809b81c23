//! Where the bag of a region lies.

ghost use Rattle.std.specs.Prelude.{◌≡◌, true, false, IfSome, IsTrue};
ghost use Rattle.std.specs.Option.{is_none};
ghost use Rattle.fol_bags.specs.Slots.{no_slot};
ghost use Rattle.fol_bags.specs.Things.{Key, things, IsTimely};

use crate::slot::Slot;
use fol_data::RegionData;
use std::marker::Model;

/// A bag behind a pointer, or none. Contracts see the bag, and `no_slot` where there is none.
#[derive(Drop)]
pub struct Kept {
    slot: Option<Box<Slot>>,
}

impl Model for Kept {
    ghost use Rattle.fol_bags.specs.declared.slot.Slot.{Slot};
    ghost use Rattle.fol_bags.specs.Slots.{slot_behind};

    ghost Value = { Slot };

    ghost view = { λ k. slot_behind k.slot };
}

impl Kept {
    ghost use Rattle.std.specs.Borrow.{sem};
    ghost use Rattle.fol_bags.specs.KeptLends.{LendsBag};

    /// No bag. Takes no memory.
    pub fn nothing() -> Kept
        ensures { result ≡ no_slot }
    {
        Kept { slot: None }
    }

    /// This bag. Takes no memory.
    pub fn of(slot: Box<Slot>) -> Kept
        ensures { result ≡ slot.value }
    {
        Kept { slot: Some(slot) }
    }

    /// The bag, to be looked at.
    pub fn get(&self) -> Option<&Slot>
        ensures some { IfSome result (λ r. r.now ≡ self.now) }
        ensures none { IsTrue (is_none result) → self.now ≡ no_slot }
    {
        match &self.slot {
            Some(slot) => Some(slot),
            None => None,
        }
    }

    /// Lends the bag.
    pub fn get_mut(&mut self) -> Option<&mut Slot>
        ensures* writes_back { sem 𝓛 (LendsBag self.entry result) }
        ensures some { IfSome result (λ r. r.now ≡ self.old) }
        ensures none { IsTrue (is_none result) → self.old ≡ no_slot }
    {
        match &mut self.slot {
            Some(slot) => Some(slot),
            None => None,
        }
    }

    /// What lies in the bag.
    pub fn into_body(self) -> Option<RegionData>
        ensures some { IfSome result (λ body. body ≡ self.body) }
        ensures none { IsTrue (is_none result) → self ≡ no_slot }
    {
        match self.slot {
            Some(slot) => Some(Box::into_inner(slot).body),
            None => None,
        }
    }

    /// Takes out the memory of a bag that no region has any more, where nothing lies in it.
    pub fn take_over(&mut self) -> Option<Box<Slot>>
        requires { self.old.taken ≡ false → self.old.list ≡ self.old.chunks }
        ensures things { (k : Key) → things self.new.body k ≡ things self.old.body k }
        ensures timely { IsTimely self.old.body → IsTimely self.new.body }
        ensures here { self.old.here ≡ true → self.new.body ≡ self.old.body }
        ensures rest { self.new ≡ record self.old { body = self.new.body } }
    {
        if self.is_over() {
            self.slot.take()
        } else {
            None
        }
    }

    /// Whether there is a bag that no region has any more, and in which nothing lies.
    fn is_over(&self) -> bool
        requires { self.now.taken ≡ false → self.now.list ≡ self.now.chunks }
        ensures things { IsTrue result → (k : Key) → things self.now.body k ≡ things no_slot.body k }
        ensures rest { IsTrue result → self.now ≡ record no_slot { body = self.now.body } }
    {
        match &self.slot {
            Some(slot) => slot.is_over(),
            None => false,
        }
    }
}
