//! The book.

ghost use Rattle.std.specs.Prelude.{◌≡◌, ◌<◌, ◌≤◌, true, All, IfOk};
ghost use Rattle.fol_lock.specs.Lock.{seat_count};
ghost use Rattle.fol_lock.specs.Seat.{AreAll, AreNew, IsIdle};
ghost use Rattle.fol_follow.specs.Books.{book_id};
ghost use Rattle.fol_follow.specs.Calls.{Asks, Closes, Visits};

use crate::entries::{Asked, BookClosing, Visiting};
use crate::ledger::Ledger;
use fol_data::Tick;
use fol_lock::{Lock, LockAndSeats, Seat};
use fol_model::Opening;
use std::alloc::{AllocError, Global};
use std::sync::Wait;

/// The right to make calls under one number. Contracts see of it what they see of a lock's seat: its number, the opening of its book, what it
/// has `seen` of the history, and the entries that are `mine`.
pub type BookSeat = Seat<Ledger>;

/// Who asked for the places of entities, and what the ticks that were shown told of them.
///
/// Each call with a seat waits for the seat's turn, and nothing is promised of when it returns. The seat has then seen the whole history, which
/// is a run of the opening; and its own entries have grown by the one event of the call, last in what it has seen, or by none. When out of
/// memory, nothing is recorded.
#[derive(Drop)]
pub struct Book {
    pub(crate) lock: Lock<Ledger>,
}

/// What `Book::start` makes.
pub struct BookAndSeats {
    pub book: Book,

    /// Numbered from 0, in order.
    pub seats: Vec<BookSeat>,
}

impl Book {
    /// The book of an opening, before any call, with 1 to 64 seats. The only error is out of memory.
    pub fn start(alloc: Global, opening: &Opening, seats: u32) -> Result<BookAndSeats, AllocError>
        requires count { (0 < seats) × (seats ≤ 64) }
        ensures count { IfOk result (λ made. seat_count made.book.lock ≡ seats) }
        ensures seats { IfOk result (λ made.
            AreNew (book_id made.book) opening.now seats made.seats.items) }
    {
        let ledger = Ledger::start(alloc, opening)?;
        let LockAndSeats { lock, seats } = Lock::new(alloc, ledger, seats)?;
        Ok(BookAndSeats {
            book: Book { lock },
            seats: seats.into_vec(),
        })
    }

    /// Asks for the place of an entity in the `delay`-th visit from now that has it. Unknown exactly where the opening has no such entity, else
    /// Queued with the next number, from 1. Both are recorded.
    pub fn ask<R: Wait>(
        &self,
        rt: &R,
        seat: &mut BookSeat,
        entity: u32,
        delay: u32,
    ) -> Result<Asked, AllocError>
        requires own { IsIdle (book_id self.now) seat.old }
        requires delay { (0 < delay) × (delay ≤ 1000000) }
        ensures { Asks seat.old seat.new entity delay result }
    {
        let by = seat.number();
        let mut turn = self.lock.take(rt, seat);
        let answer = turn.state().ask(by, entity, delay);
        self.lock.give(seat, turn);
        answer
    }

    /// Shows a finished tick to the book: the entities of the opening that stand in its body have their places. Again exactly where the history
    /// holds a visit with this tick's region and begin, and that is not recorded; else Made, with the visits that are due.
    pub fn visit<R: Wait>(
        &self,
        rt: &R,
        alloc: Global,
        seat: &mut BookSeat,
        tick: &Tick,
    ) -> Result<Visiting, AllocError>
        requires own { IsIdle (book_id self.now) seat.old }
        requires finished { tick.now.moved ≡ true }
        ensures { Visits seat.old seat.new tick.now result }
    {
        let by = seat.number();
        let mut turn = self.lock.take(rt, seat);
        let answer = turn.state().visit(alloc, by, tick);
        self.lock.give(seat, turn);
        answer
    }

    /// Ends the book, given all its seats: the history that they made, and the asks that were not visited. Takes no memory.
    pub fn close(self, seats: Vec<BookSeat>) -> BookClosing
        requires own { All (IsIdle (book_id self)) seats.items }
        requires all { AreAll (seat_count self.lock) seats.items }
        ensures { Closes seats.items result }
    {
        let Book { lock } = self;
        lock.close(seats).into_closing()
    }
}
