//! The seats of a new world.

ghost use Rattle.std.specs.Prelude.{IfOk};
ghost use Rattle.fol_live.specs.Seats.{AreFresh, DealsAll};

use crate::hand::Hand;
use crate::seat::Seat;
use crate::sight::Sight;
use crate::world::World;
use fol_offers::Offer;
use fol_slots::WorkerSeat;
use std::alloc::{AllocError, Global};

/// One seat for each of these seats of the lock: the first of them has no hand, and each other one that of the next worker.
pub(crate) fn deal(
    alloc: Global,
    seats: Vec<fol_lock::Seat<World>>,
    workers: Vec<WorkerSeat<Offer>>,
) -> Result<Vec<Seat>, AllocError>
    requires { AreFresh seats.items workers.items }
    ensures { IfOk result (λ dealt. DealsAll seats.items workers.items dealt.items) }
{
    let mut dealt = Vec::with_capacity(alloc, seats.len())?;
    let mut hand = None;
    let mut rest = workers.into_iter();
    for seat in seats {
        dealt.push_reserved(Seat {
            seat,
            hand,
            sight: Sight {
                front: 0,
                none_owing: false,
            },
        });
        hand = match rest.next() {
            Some(worker) => Some(Hand::of(worker)),
            None => None,
        };
    }
    Ok(dealt)
}
