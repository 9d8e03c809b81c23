//! What all share, and how it is opened.

ghost use Rattle.std.specs.Prelude.{◌≡◌, None, IfOk};
ghost use Rattle.fol_live.specs.Lives.{live_id};
ghost use Rattle.fol_live.specs.Seat.{held};
ghost use Rattle.fol_inbox.specs.Draining.{IsNewDrainer};
ghost use Rattle.fol_inbox.specs.Ids.{inbox_id};
ghost use Rattle.fol_server.specs.Crew.{AreFree, IsSameSeat};
ghost use Rattle.fol_server.specs.Whole.{AllDealt, IsMapFor, IsWholeCrew};

use crate::dealing::{PAGES, SEATS, next_page, next_seat, next_worker};
use crate::lead::{GivesUp, Lead};
use crate::team::Crew;
use crate::towns::opening;
use crate::worker::Worker;
use fol_follow::{Book, BookAndSeats, BookSeat};
use fol_inbox::{Drainer, Inbox, InboxParts, Sender};
use fol_live::{Live, LiveAndSeats, Seat};
use fol_view::{OwnerReader, OwnerWriter, View, ViewParts};
use std::alloc::Global;
use std::sync::Wait;

/// What every thread has a reference to.
#[derive(Drop)]
pub struct Server {
    /// The world, behind its lock.
    pub live: Live,
    /// Who asked for the places of entities, behind a lock of its own.
    pub book: Book,
    /// What is to be posted, for threads that don't wait for the world's lock.
    pub inbox: Inbox,
}

/// The view, for its end.
#[derive(Drop)]
pub struct Map {
    pub view: View,
    /// The vector in which the reader came. It is empty, and has room for it to come back, so that the end takes no memory.
    pub readers: Vec<OwnerReader>,
}

/// What `open` makes.
pub struct Opened {
    pub server: Server,
    pub map: Map,
    pub crew: Crew,
}

/// The world and the book, with the seats of the lead and of the workers.
#[derive(Drop)]
struct World {
    live: Live,
    book: Book,
    caller: Seat,
    page: BookSeat,
    first: Worker,
    second: Worker,
    third: Worker,
}

/// The same, with the seats from which the view and the inbox are opened.
struct Dealt {
    world: World,
    publisher: Seat,
    poster: Seat,
}

/// What leads to the world without its lock.
struct Ways {
    mail: Mail,
    sight: Sight,
}

/// The inbox, with who sends to it and who posts what was sent.
#[derive(Drop)]
struct Mail {
    inbox: Inbox,
    sender: Sender,
    drainer: Drainer,
}

/// The view, with who publishes and who looks.
struct Sight {
    map: Map,
    writer: OwnerWriter,
    reader: OwnerReader,
}

/// Opens everything. Whoever sends to the inbox or looks at the view needs no seat of the world: the drainer and the writer have one each.
///
/// The view comes last, since its writer can't be dropped: `ending` closes it.
pub fn open<R: Wait>(rt: &R, alloc: Global) -> Result<Opened, GivesUp>
    ensures crew { IfOk result (λ o. IsWholeCrew o.server o.crew) }
    ensures free { IfOk result (λ o. AreFree o.crew) }
    ensures map { IfOk result (λ o. IsMapFor o.crew.lead.writer o.crew.reader o.map) }
{
    let Dealt {
        world,
        publisher,
        poster,
    } = open_world(alloc)?;
    let Ok(Ways { mail, sight }) = open_ways(rt, alloc, &world.live, publisher, poster) else {
        drop(world);
        return Err(GivesUp);
    };
    let World {
        live,
        book,
        caller,
        page: pages,
        first: worker,
        second,
        third,
    } = world;
    let Mail {
        inbox,
        sender,
        drainer,
    } = mail;
    let Sight {
        map,
        writer,
        reader,
    } = sight;
    let lead = Lead {
        caller,
        pages,
        worker,
        drainer,
        writer,
    };
    let crew = Crew {
        lead,
        second,
        third,
        sender,
        reader,
    };
    let server = Server { live, book, inbox };
    Ok(Opened { server, map, crew })
}

/// Opens the inbox and the view.
fn open_ways<R: Wait>(
    rt: &R,
    alloc: Global,
    live: &Live,
    publisher: Seat,
    poster: Seat,
) -> Result<Ways, GivesUp>
    requires own { publisher.lock ≡ live_id live.now }
    requires no_tick { held poster ≡ None }
    ensures sender { IfOk result (λ w. (w.mail.sender.inbox ≡ inbox_id w.mail.inbox)
        × (w.mail.sender.number ≡ 0)) }
    ensures drainer { IfOk result (λ w.
        IsNewDrainer (inbox_id w.mail.inbox) 1 poster w.mail.drainer) }
    ensures seat { IfOk result (λ w. IsSameSeat publisher w.sight.writer.seat) }
    ensures map { IfOk result (λ w. IsMapFor w.sight.writer w.sight.reader w.sight.map) }
{
    let Ok(mail) = open_inbox(alloc, poster) else {
        drop(publisher);
        return Err(GivesUp);
    };
    match open_view(rt, alloc, live, publisher) {
        Ok(sight) => Ok(Ways { mail, sight }),
        Err(GivesUp) => {
            drop(mail);
            Err(GivesUp)
        }
    }
}

/// Opens an inbox with one sender.
fn open_inbox(alloc: Global, poster: Seat) -> Result<Mail, GivesUp>
    requires no_tick { held poster ≡ None }
    ensures sender { IfOk result (λ m. (m.sender.inbox ≡ inbox_id m.inbox)
        × (m.sender.number ≡ 0)) }
    ensures drainer { IfOk result (λ m. IsNewDrainer (inbox_id m.inbox) 1 poster m.drainer) }
{
    let Ok(parts) = Inbox::start(alloc, poster, 1) else {
        return Err(GivesUp);
    };
    let InboxParts {
        inbox,
        mut senders,
        drainer,
    } = parts;
    let sender = senders.remove(0);
    Ok(Mail {
        inbox,
        sender,
        drainer,
    })
}

/// Opens a view with one reader.
fn open_view<R: Wait>(rt: &R, alloc: Global, live: &Live, publisher: Seat) -> Result<Sight, GivesUp>
    requires own { publisher.lock ≡ live_id live.now }
    ensures seat { IfOk result (λ s. IsSameSeat publisher s.writer.seat) }
    ensures map { IfOk result (λ s. IsMapFor s.writer s.reader s.map) }
{
    let Ok(parts) = View::start(rt, alloc, live, publisher, 1) else {
        return Err(GivesUp);
    };
    let ViewParts {
        view,
        writer,
        mut readers,
    } = parts;
    let reader = readers.remove(0);
    let map = Map { view, readers };
    Ok(Sight {
        map,
        writer,
        reader,
    })
}

/// Opens the world, with six seats, and the book of visits, with four, and deals them out.
fn open_world(alloc: Global) -> Result<Dealt, GivesUp>
    ensures world { IfOk result (λ d. AllDealt d) }
{
    let opening = opening(alloc)?;
    let BookAndSeats {
        book,
        seats: mut pages,
    } = Book::start(alloc, &opening, PAGES)?;
    let LiveAndSeats { live, mut seats } = Live::start(alloc, opening, SEATS)?;
    let caller = next_seat(&live, &mut seats, 0);
    let page = next_page(&book, &mut pages, 0);
    let first = next_worker(&live, &book, &mut seats, &mut pages, 1);
    let second = next_worker(&live, &book, &mut seats, &mut pages, 2);
    let third = next_worker(&live, &book, &mut seats, &mut pages, 3);
    let publisher = next_seat(&live, &mut seats, 4);
    let poster = next_seat(&live, &mut seats, 5);
    let world = World {
        live,
        book,
        caller,
        page,
        first,
        second,
        third,
    };
    Ok(Dealt {
        world,
        publisher,
        poster,
    })
}
