//! What a worker does, without the keeper.
ghost use Rattle.std.specs.Prelude.{◌≡◌, ◌<◌, None};

use crate::answer::Claim;
use crate::body::Body;
use crate::rule::{Claiming, Emptying, Looking};
use crate::seat::WorkerSeat;
use crate::slots::Slots;
use crate::word::{READY, read_word, ticking};

impl<T: Body> Slots<T> {
    ghost use Rattle.fol_slots.specs.Table.{slots_id, slot_count};
    ghost use Rattle.fol_slots.specs.Answers.{Claims};

    /// Tries to claim slot `i`, by one compare and exchange, where its word is Ready when it is looked at. After Claimed the seat holds the slot, and the body is fit
    /// and is the one that the seat shows as claimed. Taken has the word that was found, which is not Ready; the seat
    /// has then noted the slot with this word.
    pub fn try_claim(&self, seat: &mut WorkerSeat<T>, i: u32) -> Claim<T>
        requires slots { seat.old.slots ≡ slots_id self.now }
        requires free { seat.old.slot ≡ None }
        requires inside { i < slot_count self.now }
        ensures { Claims T.fit seat.old i result seat.new }
    {
        let shared = &self.table.shared;
        let at = i as usize;
        let seen = shared.load::<Looking>(&mut seat.pass, at);
        if seen != READY {
            return Claim::Taken(read_word(seen));
        }
        let claimed = ticking(seat.number);
        let found = shared.compare_exchange::<Claiming>(&mut seat.pass, at, READY, claimed);
        if found != READY {
            return Claim::Taken(read_word(found));
        }
        let body = shared.exchange(&mut seat.pass, at, None).unwrap();
        shared.load::<Emptying>(&mut seat.pass, at);
        seat.slot = Some(i);
        Claim::Claimed(body)
    }
}
