//! A seat as the host of its tick.

ghost use Rattle.std.specs.Prelude.{◌≡◌, IsSome};
ghost use Rattle.fol_live.specs.Goes.{Hosts};
ghost use Rattle.fol_live.specs.Lives.{live_id};
ghost use Rattle.fol_live.specs.Seat.{held};

use crate::live::Live;
use crate::seat::Seat;
use fol_model::{ChunkPos, Loaded, Unloaded};
use fol_tick::Host;
use std::alloc::{AllocError, Global};
use std::sync::Wait;

/// A seat that holds a tick, as the host of that tick: each load and unload is recorded as the seat's, with its answer. The history
/// can't be finished while the tick is open, so no answer is Over. The host owns the seat and gives it back, since a caller that only
/// lent it would know nothing of it afterwards.
#[derive(Drop)]
pub struct LiveHost<'a, R: Wait> {
    rt: &'a R,
    live: &'a Live,
    seat: Seat,
    ghost own: { seat.lock ≡ live_id live.now },
    ghost holds: { IsSome (held seat) },
}

impl<'a, R: Wait> LiveHost<'a, R> {
    /// The host of a seat of this world that holds a tick. Takes no memory.
    pub fn of(rt: &'a R, live: &'a Live, seat: Seat) -> LiveHost<'a, R>
        requires own { seat.lock ≡ live_id live.now }
        requires holds { IsSome (held seat) }
        ensures seat { result.seat ≡ seat }
    {
        LiveHost { rt, live, seat }
    }

    /// The seat, with all that it recorded as a host.
    pub fn into_seat(self) -> Seat
        ensures { result ≡ self.entry.seat }
    {
        let LiveHost {
            rt: _,
            live: _,
            seat,
        } = self;
        seat
    }
}

impl<'a, R: Wait> Host for LiveHost<'a, R> {
    ghost use Rattle.fol_live.specs.Goes.{hosts_none, hosts_both};

    ghost reaches = { λ a xs b. Hosts a.seat xs b.seat };

    fn load(&mut self, _alloc: Global, c: ChunkPos) -> Result<Loaded, AllocError> {
        self.live.load(self.rt, &mut self.seat, c)
    }

    fn unload(&mut self, _alloc: Global, c: ChunkPos) -> Result<Unloaded, AllocError> {
        self.live.unload(self.rt, &mut self.seat, c)
    }

    ghost stays = { λ h. hosts_none h.seat };

    ghost follows = { λ a b c xs ys p q. hosts_both a.seat b.seat c.seat xs ys p q };
}
