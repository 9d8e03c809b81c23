//! What the keeper does, without a worker.
ghost use Rattle.std.specs.Prelude.{◌≡◌, ◌<◌, Some, None, IsSome, IsSomeAnd};
ghost use Rattle.std.specs.Option.{ForSome};
ghost use Rattle.fol_slots.specs.declared.word.Word.TheVariants.{Kept};

use crate::answer::Keep;
use crate::body::Body;
use crate::rule::{Keeping, Offering, PuttingBack, TakingOut};
use crate::seat::KeeperSeat;
use crate::slots::Slots;
use crate::word::{KEPT, READY, worker_in};

impl<T: Body> Slots<T> {
    ghost use Rattle.fol_slots.specs.Table.{slots_id, slot_count};
    ghost use Rattle.fol_slots.specs.Keeping.{Keeps, WordAfter};
    ghost use Rattle.fol_slots.specs.Moments.{WordIs};
    ghost use Rattle.fol_slots.specs.Shown.{place_at, keeping, offering};

    /// Tries to keep slot `i`, which the keeper does not keep, by one compare and exchange from Ready to Kept. The body
    /// last offered there is fit. After Kept it is the body of the slot. Busy has the worker that was found, which is one
    /// of those of `new` and was found at no other slot, and the seat then shows it.
    pub fn try_keep(&self, seat: &mut KeeperSeat<T>, i: u32) -> Keep
        requires slots { seat.old.slots ≡ slots_id self.now }
        requires not_kept { (place_at seat.old i).kept ≡ None }
        requires inside { i < slot_count self.now }
        ensures answer { Keeps T.fit seat.old i result seat.new }
        ensures word { WordAfter T.fit result i seat.new }
    {
        let shared = &self.table.shared;
        let found = shared.compare_exchange::<Keeping>(&mut seat.pass, i as usize, READY, KEPT);
        if found == READY {
            Keep::Kept
        } else {
            Keep::Busy(worker_in(found))
        }
    }

    /// Offers slot `i`, which the keeper keeps, with its body, which is fit: Kept becomes Ready.
    pub fn offer(&self, seat: &mut KeeperSeat<T>, i: u32)
        requires slots { seat.old.slots ≡ slots_id self.now }
        requires kept { IsSomeAnd (place_at seat.old i).kept T.fit }
        requires inside { i < slot_count self.now }
        ensures { seat.new ≡ offering seat.old i }
    {
        let shared = &self.table.shared;
        shared.store::<Offering>(&mut seat.pass, i as usize, READY);
    }

    /// Gives the body of slot `i`, which the keeper keeps, and puts another there. The body that was last offered there is
    /// fit, whatever became of it.
    pub fn body(&self, seat: &mut KeeperSeat<T>, i: u32, new: T) -> T
        requires slots { seat.old.slots ≡ slots_id self.now }
        requires kept { IsSome (place_at seat.old i).kept }
        requires inside { i < slot_count self.now }
        ensures old { (place_at seat.old i).kept ≡ Some result }
        ensures offered { ForSome (place_at seat.old i).offered T.fit }
        ensures seat { seat.new ≡ keeping seat.old i (Some new) }
        ensures word { WordIs T.fit seat.new i Kept }
    {
        let shared = &self.table.shared;
        let at = i as usize;
        shared.load::<TakingOut>(&mut seat.pass, at);
        let old = shared.exchange(&mut seat.pass, at, Some(new)).unwrap();
        shared.load::<PuttingBack>(&mut seat.pass, at);
        old
    }
}
