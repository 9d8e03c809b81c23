//! What the keeper does with the seat of a worker that holds a slot.
ghost use Rattle.std.specs.Prelude.{◌≡◌, ◌≤◌, ℕ, Some, None, IsSome, IsSomeAnd};
ghost use Rattle.fol_slots.specs.declared.word.Word.TheVariants.{Kept, Ticking};

use crate::body::Body;
use crate::rule::{Joining, Meeting, MeetingOut, Parting, TakingIn};
use crate::seat::{KeeperSeat, WorkerSeat};
use crate::slots::Slots;
use crate::word::KEPT;

impl<T: Body> Slots<T> {
    ghost use Rattle.fol_slots.specs.Table.{slots_id};
    ghost use Rattle.fol_slots.specs.Moments.{WordIs, WordIsOf};
    ghost use Rattle.fol_slots.specs.Shown.{FoundOnlyAt, place_at, held_slot, finding, freed, keeping};

    /// Shows what is known of the slot that the worker's seat holds: its word was Ticking with the worker's number, a
    /// worker that the keeper's seat showed as found there was this one, which it showed at no other slot, the keeper does
    /// not keep the slot, and the claimed body is fit, and the one last offered there. The worker's number is one of those
    /// of `new`. The keeper's seat then shows the worker as found.
    pub fn meet(&self, seat: WorkerSeat<T>, keeper: &mut KeeperSeat<T>) -> WorkerSeat<T>
        requires seat { seat.slots ≡ slots_id self.now }
        requires keeper { keeper.old.slots ≡ slots_id self.now }
        requires holds { IsSome seat.slot }
        ensures word { WordIsOf T.fit keeper.old seat (held_slot seat) (Ticking seat.number) }
        ensures found { (k : ℕ) → (place_at keeper.old (held_slot seat)).found ≡ Some k
            → k ≡ seat.number }
        ensures only { FoundOnlyAt keeper.old seat.number (held_slot seat) }
        ensures number { (1 ≤ seat.number) × (seat.number ≤ keeper.old.workers) }
        ensures not_kept { (place_at keeper.old (held_slot seat)).kept ≡ None }
        ensures claimed { seat.claimed ≡ (place_at keeper.old (held_slot seat)).offered }
        ensures fits { IsSomeAnd seat.claimed T.fit }
        ensures seat { result ≡ seat }
        ensures keeper { keeper.new ≡ finding keeper.old (held_slot seat) seat.number }
    {
        let WorkerSeat { number, slot, pass } = seat;
        let shared = &self.table.shared;
        let at = slot.unwrap() as usize;
        shared.join_seat::<Joining>(&mut keeper.pass, pass);
        shared.load::<Meeting>(&mut keeper.pass, at);
        let pass = shared.split_seat::<Parting>(&mut keeper.pass);
        WorkerSeat { number, slot, pass }
    }

    /// Takes a body into the slot that the worker's seat holds, which is then Kept. Of the slot the same was known
    /// before as `meet` shows. The keeper's seat then keeps the slot, with this body and no worker found there, and the
    /// worker's seat holds none.
    pub fn take_in(&self, seat: WorkerSeat<T>, keeper: &mut KeeperSeat<T>, body: T) -> WorkerSeat<T>
        requires seat { seat.slots ≡ slots_id self.now }
        requires keeper { keeper.old.slots ≡ slots_id self.now }
        requires holds { IsSome seat.slot }
        ensures word { WordIsOf T.fit keeper.old seat (held_slot seat) (Ticking seat.number) }
        ensures found { (k : ℕ) → (place_at keeper.old (held_slot seat)).found ≡ Some k
            → k ≡ seat.number }
        ensures only { FoundOnlyAt keeper.old seat.number (held_slot seat) }
        ensures number { (1 ≤ seat.number) × (seat.number ≤ keeper.old.workers) }
        ensures not_kept { (place_at keeper.old (held_slot seat)).kept ≡ None }
        ensures claimed { seat.claimed ≡ (place_at keeper.old (held_slot seat)).offered }
        ensures fits { IsSomeAnd seat.claimed T.fit }
        ensures seat { result ≡ freed seat }
        ensures keeper { keeper.new ≡ keeping keeper.old (held_slot seat) (Some body) }
        ensures word_after { WordIs T.fit keeper.new (held_slot seat) Kept }
    {
        let WorkerSeat { number, slot, pass } = seat;
        let shared = &self.table.shared;
        let at = slot.unwrap() as usize;
        shared.join_seat::<Joining>(&mut keeper.pass, pass);
        shared.load::<MeetingOut>(&mut keeper.pass, at);
        drop(shared.exchange(&mut keeper.pass, at, Some(body)));
        shared.store::<TakingIn>(&mut keeper.pass, at, KEPT);
        let pass = shared.split_seat::<Parting>(&mut keeper.pass);
        WorkerSeat {
            number,
            slot: None,
            pass,
        }
    }
}
