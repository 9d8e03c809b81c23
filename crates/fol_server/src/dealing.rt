//! How the seats of the world and of the book are dealt out: each in order of number.

ghost use Rattle.std.specs.Prelude.{◌≡◌, ◌<◌, ◌≤◌, ◌+◌, ◌-◌};
ghost use Rattle.fol_follow.specs.Books.{book_id};
ghost use Rattle.fol_live.specs.Lives.{live_id};
ghost use Rattle.fol_server.specs.Dealt.{AreFrom, IsNewPage, IsNewSeat};

use crate::worker::Worker;
use fol_follow::{Book, BookSeat};
use fol_live::{Live, Seat};

/// How many seats the world has, and how many the book of visits.
pub const SEATS: u32 = 6;

pub const PAGES: u32 = 4;

/// The next seat of the world, which has this number.
pub fn next_seat(live: &Live, seats: &mut Vec<Seat>, number: u32) -> Seat
    requires low { number < 6 }
    requires left { AreFrom (IsNewSeat (live_id live.now)) number (6 - number) seats.old.items }
    ensures seat { IsNewSeat (live_id live.now) number result }
    ensures left { AreFrom (IsNewSeat (live_id live.now)) (number + 1) (6 - (number + 1))
        seats.new.items }
{
    let _world = live;
    seats.remove(0)
}

/// The next seat of the book, which has this number.
pub fn next_page(book: &Book, pages: &mut Vec<BookSeat>, number: u32) -> BookSeat
    requires low { number < 4 }
    requires left { AreFrom (IsNewPage (book_id book.now)) number (4 - number) pages.old.items }
    ensures page { IsNewPage (book_id book.now) number result }
    ensures left { AreFrom (IsNewPage (book_id book.now)) (number + 1) (4 - (number + 1))
        pages.new.items }
{
    let _all = book;
    pages.remove(0)
}

/// A worker with the next seat of each, both of this number.
pub fn next_worker(
    live: &Live,
    book: &Book,
    seats: &mut Vec<Seat>,
    pages: &mut Vec<BookSeat>,
    number: u32,
) -> Worker
    requires low { number < 4 }
    requires seats { AreFrom (IsNewSeat (live_id live.now)) number (6 - number) seats.old.items }
    requires pages { AreFrom (IsNewPage (book_id book.now)) number (4 - number) pages.old.items }
    ensures seat { IsNewSeat (live_id live.now) number result.seat }
    ensures page { IsNewPage (book_id book.now) number result.pages }
    ensures seats { AreFrom (IsNewSeat (live_id live.now)) (number + 1) (6 - (number + 1))
        seats.new.items }
    ensures pages { AreFrom (IsNewPage (book_id book.now)) (number + 1) (4 - (number + 1))
        pages.new.items }
{
    let seat = next_seat(live, seats, number);
    let pages = next_page(book, pages, number);
    Worker { seat, pages }
}
