//! What a worker's thread does.

ghost use Rattle.std.specs.Prelude.{◌≡◌};
ghost use Rattle.fol_live.specs.Lives.{live_id};
ghost use Rattle.fol_pool.specs.Works.{Rests, SameSeat, Works};

use crate::bell::Bell;
use crate::patience::Patience;
use crate::tick::{Rest, ticks};
use fol_io::Gate;
use fol_live::{Live, Seat};
use std::alloc::Global;
use std::snapshot::Snapshot;
use std::sync::Wait;
use std::thread::Promise;

/// The promise of a thread that was given a seat: it hands back the same seat, whose ticks are whole.
#[derive(Drop)]
pub(crate) struct HandsBack(pub(crate) Snapshot<Seat>);

impl Promise<Seat> for HandsBack {
    ghost use Rattle.fol_pool.specs.Works.{IsBack};

    ghost kept_by = { λ p seat. IsBack p.0.value seat };
}

/// Ticks until the history is over.
pub(crate) fn work<R: Wait, G: Gate + Sync>(
    rt: &R,
    alloc: Global,
    live: &Live,
    seat: Seat,
    bell: &Bell,
    gate: &G,
) -> Seat
    requires own { seat.lock ≡ live_id live.now }
    requires rests { Rests seat }
    ensures same { SameSeat seat result }
    ensures works { Works result }
{
    let mut seat = seat;
    let mut patience = Patience::of_worker();
    for _turn in rt.forever() {
        if patience.is_crowded(live.crowd()) {
            patience.step_back(rt, bell);
            continue;
        }
        let (back, rest) = ticks(rt, alloc, live, seat, &mut patience, gate);
        seat = back;
        match rest {
            Ok(Rest::Left) => patience.step_back(rt, bell),
            Ok(Rest::Idle) => {
                if is_over(rt, live, &mut seat, &patience) {
                    return seat;
                }
                patience.step_back(rt, bell);
            }
            Err(_) => return seat,
        }
    }
    unreachable!()
}

/// Whether the history is over, where it is time to ask.
fn is_over<R: Wait>(rt: &R, live: &Live, seat: &mut Seat, patience: &Patience) -> bool
    requires own { seat.old.lock ≡ live_id live.now }
    requires rests { Rests seat.old }
    ensures same { SameSeat seat.old seat.new }
    ensures rests { Rests seat.new }
{
    if patience.asks() {
        live.ended(rt, seat)
    } else {
        false
    }
}
