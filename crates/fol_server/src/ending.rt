//! How everything is closed, and what came of it.

ghost use Rattle.std.specs.Prelude.{◌≡◌, ◌<◌, [], All, IfOk, vec_capacity};
ghost use Rattle.fol_lock.specs.Lock.{seat_count};
ghost use Rattle.fol_lock.specs.Seat.{AreAll, IsIdle};
ghost use Rattle.fol_live.specs.Lives.{live_id};
ghost use Rattle.fol_live.specs.Seats.{AreAllSeats};
ghost use Rattle.fol_follow.specs.Books.{book_id};
ghost use Rattle.fol_inbox.specs.Ids.{inbox_id};
ghost use Rattle.fol_server.specs.Crew.{IsSameSeat};
ghost use Rattle.fol_server.specs.Whole.{IsMapFor, IsWholeCrew};

use crate::lead::{GivesUp, Lead};
use crate::server::{Map, Server};
use crate::team::{Crew, Outcome};
use crate::towns::Town;
use crate::watcher::Watched;
use fol_follow::{Book, BookClosing, BookSeat};
use fol_inbox::{Closed, Drainer, Inbox, Receipt, Sender};
use fol_live::{Live, Seat};
use fol_model::Closing;
use fol_view::{OwnerReader, OwnerWriter, SeenOwner};
use std::alloc::Global;
use std::sync::Wait;

/// What came of it all.
#[derive(Drop)]
pub struct Played {
    /// The history of the world, and what stands after it.
    pub closing: Closing,
    /// The asks and the visits.
    pub visits: BookClosing,
    /// The receipts of the letters that were posted.
    pub receipts: Vec<Receipt>,
    /// How many letters were sent.
    pub sent: u32,
    pub watched: Watched,
    /// Who owns the towns at the end, by the view.
    pub owners: [SeenOwner; 3],
}

/// Closes everything. The view and the inbox give back the seats with which they began; the world and the book want all of theirs.
pub fn close<R: Wait>(
    rt: &R,
    alloc: Global,
    server: Server,
    map: Map,
    crew: Crew,
    outcome: Outcome,
) -> Result<Played, GivesUp>
    requires crew { IsWholeCrew server crew }
    requires map { IsMapFor crew.lead.writer crew.reader map }
{
    let Crew {
        lead,
        second,
        third,
        sender,
        reader,
    } = crew;
    let Lead {
        caller,
        pages,
        worker: first,
        drainer,
        writer,
    } = lead;
    let Server { live, book, inbox } = server;
    let (owners, publisher) = close_view(rt, map, writer, reader);
    let visits = close_book(alloc, book, [pages, first.pages, second.pages, third.pages]);
    let Ok((receipts, poster)) = close_inbox(rt, alloc, inbox, sender, drainer) else {
        drop(live);
        drop([caller, first.seat, second.seat, third.seat, publisher]);
        drop(visits);
        return Err(GivesUp);
    };
    let seats = [
        caller,
        first.seat,
        second.seat,
        third.seat,
        publisher,
        poster,
    ];
    let closing = close_world(alloc, live, seats);
    sum_up(outcome, owners, receipts, visits, closing)
}

/// What came of it all, where nothing failed.
fn sum_up(
    outcome: Outcome,
    owners: [SeenOwner; 3],
    receipts: Vec<Receipt>,
    visits: Result<BookClosing, GivesUp>,
    closing: Result<Closing, GivesUp>,
) -> Result<Played, GivesUp> {
    let Outcome { sent, watched } = outcome;
    match (sent, visits, closing) {
        (Ok(sent), Ok(visits), Ok(closing)) => Ok(Played {
            closing,
            visits,
            receipts,
            sent,
            watched,
            owners,
        }),
        (_, visits, closing) => {
            drop(receipts);
            drop(visits);
            drop(closing);
            Err(GivesUp)
        }
    }
}

/// Looks at the last map, and closes the view. Until the writer tells the reader, it might still see an older one.
fn close_view<R: Wait>(
    rt: &R,
    map: Map,
    mut writer: OwnerWriter,
    mut reader: OwnerReader,
) -> ([SeenOwner; 3], Seat)
    requires writer { writer.book ≡ map.view.book }
    requires reader { reader.book ≡ map.view.book }
    requires one { map.view.readers ≡ 1 }
    requires room { (map.readers.items ≡ []) × (0 < vec_capacity map.readers) }
    ensures same { IsSameSeat writer.seat result.1 }
{
    reader.learn(writer.tell());
    let owners = [
        reader.owner(rt, Town::First.section()),
        reader.owner(rt, Town::Second.section()),
        reader.owner(rt, Town::Third.section()),
    ];
    let Map { view, mut readers } = map;
    readers.push_reserved(reader);
    (owners, fol_view::close(rt, view, writer, readers))
}

/// Closes the inbox: all letters that were sent have a receipt by now.
fn close_inbox<R: Wait>(
    rt: &R,
    alloc: Global,
    inbox: Inbox,
    sender: Sender,
    drainer: Drainer,
) -> Result<(Vec<Receipt>, Seat), GivesUp>
    requires drainer { drainer.inbox ≡ inbox_id inbox }
    requires sender { sender.inbox ≡ inbox_id inbox }
    requires all { (drainer.senders ≡ 1) × (sender.number ≡ 0) }
    ensures seat { IfOk result (λ r. r.1 ≡ drainer.seat) }
{
    let Ok(senders) = Vec::from_array(alloc, [sender]) else {
        drop(inbox);
        drop(drainer);
        return Err(GivesUp);
    };
    let Closed {
        receipts,
        held: _,
        rest: _,
        seat,
    } = inbox.close(rt, senders, drainer);
    Ok((receipts, seat))
}

/// Closes the book, given all its seats.
fn close_book(alloc: Global, book: Book, pages: [BookSeat; 4]) -> Result<BookClosing, GivesUp>
    requires own { All (IsIdle (book_id book)) pages }
    requires all { AreAll (seat_count book.lock) pages }
{
    match Vec::from_array(alloc, pages) {
        Ok(pages) => Ok(book.close(pages)),
        Err(_) => {
            drop(book);
            Err(GivesUp)
        }
    }
}

/// Closes the world, given all its seats.
fn close_world(alloc: Global, live: Live, seats: [Seat; 6]) -> Result<Closing, GivesUp>
    requires own { All (λ seat. seat.lock ≡ live_id live) seats }
    requires all { AreAllSeats (seat_count live.lock) seats }
{
    let Ok(seats) = Vec::from_array(alloc, seats) else {
        drop(live);
        return Err(GivesUp);
    };
    match live.close(alloc, seats) {
        Ok(closing) => Ok(closing),
        Err(_) => Err(GivesUp),
    }
}
