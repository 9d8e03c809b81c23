//! The seats of a lock.

ghost use Rattle.std.specs.Prelude.{◌≡◌, List};
ghost use Rattle.fol_lock.specs.Seat.{Shown};

use crate::kept::Kept;
use crate::view::View;
use std::marker::Model;

/// The right to take turns under one number. Contracts see its lock, its number, the origin of the state, what it has
/// `seen` of the log, the entries that are `mine`, and whether it has the turn.
#[derive(Drop)]
pub struct Seat<S: Kept> {
    pub(crate) number: u32,
    pub(crate) pass: atomic_table::Seat<Option<S>, View<S::Origin, S::Entry>>,
}

impl<S: Kept> Model for Seat<S> {
    ghost use Rattle.fol_lock.specs.Seat.{Shown};
    ghost use Rattle.fol_lock.specs.Pass.{shown, Sits};

    ghost Value = { Shown S.Origin S.Entry };

    ghost view = { λ s. shown s.pass.table_id s.pass.me };

    ghost invariant = { λ s. Sits S.by s.number s.pass.me };
}

impl<S: Kept> Seat<S> {
    /// The seat's number, from 0. It never changes.
    pub fn number(&self) -> u32
        ensures { result ≡ self.now.number }
    {
        self.number
    }
}

/// The seats of a new lock. Contracts see the list of what each shows.
#[derive(Drop)]
pub struct Seats<S: Kept> {
    seats: Vec<Seat<S>>,
}

impl<S: Kept> Model for Seats<S> {
    ghost Value = { List (Shown S.Origin S.Entry) };

    ghost view = { λ s. s.seats.items };
}

impl<S: Kept> Seats<S> {
    pub(crate) fn of(seats: Vec<Seat<S>>) -> Seats<S>
        ensures { result ≡ seats.items }
    {
        Seats { seats }
    }

    /// The seats themselves, in order.
    pub fn into_vec(self) -> Vec<Seat<S>>
        ensures { result.items ≡ self }
    {
        self.seats
    }
}
