//! The seats of the slots: the workers' and the keeper's.

ghost use Rattle.std.specs.Prelude.{◌≡◌, [], IsSome};

use crate::view::View;
use std::marker::Model;

/// The right of one worker to claim, under its number. A worker holds at most one slot at a time.
///
/// Contracts see its number, the slot that it holds, the body that it claimed there, and `found`: the slots and words
/// that its failed claims met since it last held a slot, in order.
#[derive(Drop)]
pub struct WorkerSeat<T> {
    pub(crate) number: u32,
    pub(crate) slot: Option<u32>,
    pub(crate) pass: atomic_table::Seat<Option<T>, View<T>>,
}

impl<T> Model for WorkerSeat<T> {
    ghost use Rattle.fol_slots.specs.Shown.{Worker, worker, IsWorker};

    ghost Value = { Worker T };

    ghost view = { λ s. worker s.pass.table_id s.pass.me.0 };

    ghost invariant = { λ s. IsWorker s.pass.table_id s.number s.slot s.pass.me };
}

impl<T> WorkerSeat<T> {
    /// The worker's number: 1 at the first seat, and so on. While the seat holds a slot it has a claimed body there,
    /// and no failed claims.
    pub fn number(&self) -> u32
        ensures number { result ≡ self.now.number }
        ensures held { IsSome self.now.slot → IsSome self.now.claimed × (self.now.found ≡ []) }
    {
        self.number
    }
}

/// The one right to offer slots, to keep them and to take bodies in.
///
/// Contracts see of each slot the body that it has, where the keeper keeps it, the body that the keeper last offered
/// there, which is fit, and the worker that it found there since; and how many workers have seats.
#[derive(Drop)]
pub struct KeeperSeat<T> {
    pub(crate) pass: atomic_table::Seat<Option<T>, View<T>>,
}

impl<T> Model for KeeperSeat<T> {
    ghost use Rattle.fol_slots.specs.Shown.{Keeper, keeper, IsKeeper};

    ghost Value = { Keeper T };

    ghost view = { λ s. keeper s.pass.table_id s.pass.me.0 };

    ghost invariant = { λ s. IsKeeper s.pass.me };
}
