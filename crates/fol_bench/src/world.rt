//! Shared worlds, for workloads of several threads.

ghost use Rattle.std.specs.Prelude.{◌≡◌, ◌<◌, ◌≤◌, ◌-◌, None, All, IfOk, vec_len};
ghost use Rattle.fol_live.specs.Lives.{live_id};
ghost use Rattle.fol_live.specs.Seat.{held};

use crate::report::bare_opening;
use fol_live::{Live, LiveAndSeats, Seat};
use std::alloc::{AllocError, Global};

/// A world with nothing in it, with so many seats.
pub fn start(alloc: Global, seats: u32) -> Result<LiveAndSeats, AllocError>
    requires { (0 < seats) × (seats ≤ 65) }
    ensures many { IfOk result (λ made. vec_len made.seats ≡ seats) }
    ensures own { IfOk result (λ made. All (λ seat. seat.lock ≡ live_id made.live)
        made.seats.items) }
    ensures free { IfOk result (λ made. All (λ seat. held seat ≡ None) made.seats.items) }
{
    Live::start(alloc, bare_opening(alloc), seats)
}

/// The last seat that is left.
pub fn take_seat(live: &Live, seats: &mut Vec<Seat>) -> Seat
    requires some { 0 < vec_len seats.old }
    requires own { All (λ seat. seat.lock ≡ live_id live.now) seats.old.items }
    requires free { All (λ seat. held seat ≡ None) seats.old.items }
    ensures seat { (result.lock ≡ live_id live.now) × (held result ≡ None) }
    ensures fewer { vec_len seats.new ≡ vec_len seats.old - 1 }
    ensures own { All (λ seat. seat.lock ≡ live_id live.now) seats.new.items }
    ensures free { All (λ seat. held seat ≡ None) seats.new.items }
{
    let _world = live;
    let Some(seat) = seats.pop() else {
        unreachable!()
    };
    seat
}
