//! Books beside a shared world: which ticks visit an entity, and where.

ghost use Rattle.std.specs.Prelude.{◌≡◌, ◌≢◌, ◌<◌, ◌≤◌, None};
ghost use Rattle.fol_lock.specs.Lock.{seat_count};
ghost use Rattle.fol_live.specs.Held.{HoldsTick};
ghost use Rattle.fol_live.specs.Lives.{live_id};
ghost use Rattle.fol_live.specs.Seat.{held};
ghost use Rattle.fol_lock.specs.Seat.{IsIdle};
ghost use Rattle.fol_follow.specs.Books.{book_id};

use crate::compare::same;
use crate::world::{
    HOME, are_of_two_regions, claim, close_phase, last, load, open_phase, opening, release, run,
    start,
};
use fol_data::Tick;
use fol_follow::{Asked, Book, BookAndSeats, BookSeat, Visit, Visiting};
use fol_live::{Close, Live, LiveAndSeats, LivePhase, Posting, Seat};
use fol_model::{Action, BlockPos, ChunkPos, Loaded, Opening};
use std::alloc::Global;
use std::process::Abort;
use std::sync::Wait;

/// A block in the chunk of region 2.
const AWAY: BlockPos = BlockPos {
    x: 160,
    y: 64,
    z: 0,
};

/// The visit that was asked for, at this block.
fn visit_at(at: BlockPos) -> Visit {
    Visit {
        number: 1,
        entity: 1,
        at,
    }
}

/// The book of an opening, and its only seat.
fn start_book(rt: &impl Abort, alloc: Global, opening: &Opening) -> (Book, BookSeat)
    ensures count { seat_count result.0.lock ≡ 1 }
    ensures own { IsIdle (book_id result.0) result.1 }
    ensures number { result.1.number ≡ 0 }
{
    let BookAndSeats { book, mut seats } = Book::start(alloc, opening, 1).expect(rt, "memory");
    let Some(seat) = seats.pop() else {
        panic!(rt; "a seat is left");
    };
    assert_eq!(rt; seat.number(), 0);
    (book, seat)
}

/// Posts a task for the next tick that sends entity 1 to a block.
#[tactic(auto, unfolding(fol_model::specs::Geometry::is_chunk, fol_model::specs::Limits::is_delay))]
fn post_send<R: Abort + Wait>(rt: &R, live: &Live, seat: &mut Seat, to: BlockPos)
    requires own { seat.old.lock ≡ live_id live.now }
    ensures own { seat.new.lock ≡ live_id live.now }
{
    assert!(rt; to.in_range());
    let chunk = ChunkPos { x: 0, z: 0 };
    match live.post(rt, seat, chunk, 1, Action::Send { entity: 1, to }) {
        Ok(Posting::Posted(_)) => {}
        _ => panic!(rt; "the task is posted"),
    }
}

/// Asks for an entity in the visit after so many, and is answered this.
fn ask<R: Abort + Wait>(
    rt: &R,
    book: &Book,
    seat: &mut BookSeat,
    entity: u32,
    delay: u32,
    wanted: Asked,
)
    requires own { IsIdle (book_id book.now) seat.old }
    requires delay { (0 < delay) × (delay ≤ 1000000) }
    ensures own { IsIdle (book_id book.now) seat.new }
    ensures number { seat.new.number ≡ seat.old.number }
{
    same(rt, &book.ask(rt, seat, entity, delay), &Ok(wanted));
}

/// Shows a tick that has run to the book: it makes just these visits, or was visited before where none are wanted.
fn visit<R: Abort + Wait>(
    rt: &R,
    alloc: Global,
    book: &Book,
    seat: &mut BookSeat,
    tick: &Tick,
    wanted: Option<&[Visit]>,
)
    requires own { IsIdle (book_id book.now) seat.old }
    ensures own { IsIdle (book_id book.now) seat.new }
    ensures number { seat.new.number ≡ seat.old.number }
{
    assert!(rt; tick.moved);
    match book.visit(rt, alloc, seat, tick) {
        Ok(answer) => expect_visits(rt, answer, wanted),
        Err(_) => panic!(rt; "memory"),
    }
}

/// Compares what the book answered with the visits that are wanted.
fn expect_visits(rt: &impl Abort, answer: Visiting, wanted: Option<&[Visit]>) {
    match (&answer, wanted) {
        (Visiting::Made(visits), Some(wanted)) => same(rt, &(visits.as_slice() == wanted), &true),
        (Visiting::Again, None) => {}
        _ => panic!(rt; "a tick is visited once"),
    }
}

/// Runs a tick and shows it to the book, which makes these visits; then ends it.
fn run_and_end<R: Abort + Wait>(
    rt: &R,
    alloc: Global,
    live: &Live,
    worker: Seat,
    book: &Book,
    seat: &mut BookSeat,
    mut tick: Box<Tick>,
    wanted: &[Visit],
) -> Seat
    requires own { worker.lock ≡ live_id live.now }
    requires holds { HoldsTick worker tick.value }
    requires book_own { IsIdle (book_id book.now) seat.old }
    ensures own { result.lock ≡ live_id live.now }
    ensures free { held result ≡ None }
    ensures number { result.number ≡ worker.number }
    ensures book_own { IsIdle (book_id book.now) seat.new }
    ensures book_number { seat.new.number ≡ seat.old.number }
{
    let mut worker = run(rt, alloc, live, worker, &mut *tick);
    visit(rt, alloc, book, seat, &*tick, Some(wanted));
    visit(rt, alloc, book, seat, &*tick, None);
    release(rt, live, &mut worker, tick);
    worker
}

/// One tick of the world, shown to the book: it makes these visits where its region is this one, and else none.
fn tick_of<R: Abort + Wait>(
    rt: &R,
    alloc: Global,
    live: &Live,
    mut worker: Seat,
    book: &Book,
    seat: &mut BookSeat,
    region: u64,
    wanted: &[Visit],
) -> Seat
    requires own { worker.lock ≡ live_id live.now }
    requires worker { worker.number ≢ 0 }
    requires free { held worker ≡ None }
    requires book_own { IsIdle (book_id book.now) seat.old }
    ensures own { result.lock ≡ live_id live.now }
    ensures free { held result ≡ None }
    ensures number { result.number ≡ worker.number }
    ensures book_own { IsIdle (book_id book.now) seat.new }
    ensures book_number { seat.new.number ≡ seat.old.number }
{
    let tick = claim(rt, live, &mut worker);
    let visits = if tick.region == region { wanted } else { &[] };
    run_and_end(rt, alloc, live, worker, book, seat, tick, visits)
}

/// The book's end: so many entries, and no ask that is left.
fn close(rt: &impl Abort, alloc: Global, book: Book, seat: BookSeat, entries: usize)
    requires count { seat_count book.lock ≡ 1 }
    requires own { IsIdle (book_id book) seat }
    requires number { seat.number ≡ 0 }
{
    let seats = Vec::from_array(alloc, [seat]).expect(rt, "memory");
    let closing = book.close(seats);
    let found = (closing.history.len(), closing.left.len());
    drop(closing);
    same(rt, &found, &(entries, 0));
}

#[test]
fn an_ask_is_visited_in_the_second_tick_that_has_its_entity(rt: HostRuntime) {
    let alloc = rt.alloc();
    let opening = opening(alloc, 1).expect(&rt, "memory");
    let (book, mut seat) = start_book(&rt, alloc, &opening);
    let LiveAndSeats { live, mut seats } = start(&rt, alloc, opening, 2);
    let worker = last(&rt, &live, &mut seats, 1);
    let mut caller = last(&rt, &live, &mut seats, 0);
    load(&rt, &live, &mut caller, 0, Loaded::Counted);
    open_phase(&rt, &live, &mut caller, 2, LivePhase::Opened);
    ask(&rt, &book, &mut seat, 1, 2, Asked::Queued(1));
    ask(&rt, &book, &mut seat, 7, 1, Asked::Unknown);
    let made = [visit_at(BlockPos { x: 2, y: 64, z: 0 })];
    let worker = tick_of(&rt, alloc, &live, worker, &book, &mut seat, 1, &[]);
    tick_of(&rt, alloc, &live, worker, &book, &mut seat, 1, &made);
    close(&rt, alloc, book, seat, 4);
}

/// Loads a chunk for each of two regions, and opens a phase of one tick, in which the entity goes away and is not there to come back.
fn open<R: Abort + Wait>(rt: &R, live: &Live, caller: &mut Seat)
    requires own { caller.old.lock ≡ live_id live.now }
    ensures own { caller.new.lock ≡ live_id live.now }
{
    load(rt, live, caller, 0, Loaded::Counted);
    load(rt, live, caller, 10, Loaded::Counted);
    post_send(rt, live, caller, AWAY);
    post_send(rt, live, caller, HOME);
    open_phase(rt, live, caller, 1, LivePhase::Opened);
}

/// Closes the phase and opens the next one.
fn go_on<R: Abort + Wait>(rt: &R, live: &Live, caller: &mut Seat)
    requires own { caller.old.lock ≡ live_id live.now }
    ensures own { caller.new.lock ≡ live_id live.now }
{
    close_phase(rt, live, caller, Close::Closed);
    open_phase(rt, live, caller, 1, LivePhase::Opened);
}

#[test]
fn a_visit_follows_an_entity_to_another_region(rt: HostRuntime) {
    let alloc = rt.alloc();
    let opening = opening(alloc, 0).expect(&rt, "memory");
    let (book, mut seat) = start_book(&rt, alloc, &opening);
    let LiveAndSeats { live, mut seats } = start(&rt, alloc, opening, 3);
    let mut second = last(&rt, &live, &mut seats, 2);
    let mut first = last(&rt, &live, &mut seats, 1);
    let mut caller = last(&rt, &live, &mut seats, 0);
    ask(&rt, &book, &mut seat, 1, 1, Asked::Queued(1));
    open(&rt, &live, &mut caller);
    let tick = claim(&rt, &live, &mut first);
    let other = claim(&rt, &live, &mut second);
    are_of_two_regions(&rt, &*tick, &*other);
    let second = run_and_end(&rt, alloc, &live, second, &book, &mut seat, other, &[]);
    let first = run_and_end(&rt, alloc, &live, first, &book, &mut seat, tick, &[]);
    go_on(&rt, &live, &mut caller);
    let made = [visit_at(AWAY)];
    tick_of(&rt, alloc, &live, first, &book, &mut seat, 2, &made);
    tick_of(&rt, alloc, &live, second, &book, &mut seat, 2, &made);
    close(&rt, alloc, book, seat, 5);
}
