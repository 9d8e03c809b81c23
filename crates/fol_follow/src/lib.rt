//! Visits that follow an entity, wherever regions hand it over.
//!
//! A book takes asks for the place of an entity, and is shown each tick that has run. Whichever region has the entity then, its tick makes the
//! visits that are due, each with the block at which the entity stands. A visit changes nothing in the world.
//!
//! 1. `Book::start` makes a book of an opening, with 1 to 64 numbered seats.
//! 2. `Book::ask` asks for an entity in the n-th visit from now that has it, and returns a number, or Unknown.
//! 3. `Book::visit` shows a tick that has run, before it is given back, and returns the visits that it makes, or Again.
//! 4. `BookSeat::number` tells which seat it is.
//! 5. `Book::close` takes all seats back and gives all that was recorded, and the asks that are left.
//!
//! Each call with a seat is one turn of a lock. Contracts say of the history that it is a run (`specs/Visits.antt`), and the laws what follows.
#![tactic(auto)]

mod asks;
mod book;
mod entries;
mod laws;
mod ledger;

pub use book::{Book, BookAndSeats, BookSeat};
pub use entries::{Asked, BookClosing, BookEntry, BookEvent, EntityAt, Visit, Visiting, Waiting};
pub use laws::{asks_are_followed, tick_keeps_its_entities, visit_tells_the_end};
