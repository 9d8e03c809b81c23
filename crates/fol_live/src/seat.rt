//! Seats.

ghost use Rattle.std.specs.Prelude.{◌≡◌, length, IsTrue};
ghost use Rattle.fol_core.specs.Meaning.{world_of};
ghost use Rattle.fol_live.specs.Seat.{meaning_of};
ghost use Rattle.fol_live.specs.Sights.{NoneOwing};

use crate::hand::Hand;
use crate::sight::Sight;
use crate::world::World;
use std::marker::Model;

/// The right to make calls under one number. Contracts see its world, the opening, its number, what it has `seen` of the history, the
/// entries that are `mine`, and what a worker has of the slots: the tick that it holds, if it claimed one.
#[derive(Drop)]
pub struct Seat {
    pub(crate) seat: fol_lock::Seat<World>,
    /// What it has of the slots; seat 0 has nothing there.
    pub(crate) hand: Option<Hand>,
    /// What it keeps of what it has seen.
    pub(crate) sight: Sight,
}

impl Model for Seat {
    ghost use Rattle.fol_live.specs.Seat.{HasHand, HasSight, IsSeat, Shown, origin_of, shown};

    ghost Value = { Shown };

    ghost view = { λ s. shown (origin_of s.seat.origin) s.seat s.hand };

    ghost invariant = { λ s. IsSeat (origin_of s.seat.origin) s.seat
        × HasHand (origin_of s.seat.origin) s.seat.number s.hand
        × HasSight (origin_of s.seat.origin) s.seat s.sight };
}

impl Seat {
    /// The seat's number, from 0. It never changes.
    pub fn number(&self) -> u32
        ensures { result ≡ self.now.number }
    {
        self.seat.number()
    }

    /// How many entries of the history the seat has seen.
    pub fn front(&self) -> u64
        ensures { result ≡ length self.now.seen }
    {
        self.sight.front
    }

    /// Whether the seat knows that after the entries that it has seen no region that is Ready owes a tick, so that there is none to be claimed until
    /// somebody records more. One-sided: where it is false, one may owe a tick or none.
    pub fn saw_none_owing(&self) -> bool
        ensures { IsTrue result → NoneOwing (world_of (meaning_of self.now)) }
    {
        self.sight.none_owing
    }
}
