//! The list of the workers' seats.

ghost use Rattle.std.specs.Prelude.{◌≡◌, List};
ghost use Rattle.fol_slots.specs.Shown.{Worker};

use crate::seat::WorkerSeat;
use std::marker::Model;

/// The workers' seats of new slots. Contracts see the list of what each shows.
#[derive(Drop)]
pub struct WorkerSeats<T> {
    seats: Vec<WorkerSeat<T>>,
}

impl<T> Model for WorkerSeats<T> {
    ghost Value = { List (Worker T) };

    ghost view = { λ s. s.seats.items };
}

impl<T> WorkerSeats<T> {
    pub(crate) fn of(seats: Vec<WorkerSeat<T>>) -> WorkerSeats<T>
        ensures { result ≡ seats.items }
    {
        WorkerSeats { seats }
    }

    /// The seats themselves, in order.
    pub fn into_vec(self) -> Vec<WorkerSeat<T>>
        ensures { result.items ≡ self }
    {
        self.seats
    }
}
