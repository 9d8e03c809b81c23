//! Who ticks regions.

ghost use Rattle.std.specs.Prelude.{◌≡◌};
ghost use Rattle.fol_live.specs.Held.{HoldsRun, HoldsTick};
ghost use Rattle.fol_live.specs.Lives.{live_id};
ghost use Rattle.fol_server.specs.Crew.{IsFree, IsFreeAfter, IsSameWorker, IsWorkerOf, Ran};

use crate::server::Server;
use core::mem::replace_with;
use fol_data::Tick;
use fol_follow::BookSeat;
use fol_live::{Live, LiveHost, Seat, TryBegin};
use fol_tick::run_tick;
use std::alloc::Global;
use std::sync::Wait;
use std::thread::Parker;
use std::time::Duration;

/// How long one rests who found nothing to do.
const REST_MICROS: u64 = 50;

/// After how many looks in a row that found no tick a worker asks whether the history is over.
const PATIENCE: u32 = 4;

/// A worker has a seat in the world, and one at the book of visits.
#[derive(Drop)]
pub struct Worker {
    pub seat: Seat,
    pub pages: BookSeat,
}

/// What trying to tick came to.
#[derive(Clone, Copy, Debug, PartialEq, Eq)]
pub enum Tried {
    /// A region ticked.
    Done,
    /// No tick was found.
    Idle,
    /// Memory was not found, and the world was stopped.
    GaveUp,
}

/// Ticks until the history is over. A look for a tick takes no turn of the lock and does not tell whether the history is over. To ask for that
/// takes one, so a worker asks only when it found nothing again and again.
pub fn work<R: Wait>(rt: &R, alloc: Global, server: &Server, worker: &mut Worker)
    requires of { IsWorkerOf server.now worker.old }
    requires free { IsFree worker.old }
    ensures same { IsSameWorker worker.old worker.new }
{
    let mut misses = 0;
    for _turn in rt.forever() {
        match tick(rt, alloc, server, worker) {
            Tried::Done => misses = 0,
            Tried::Idle if misses < PATIENCE => {
                misses += 1;
                rest(rt);
            }
            Tried::Idle => {
                if server.live.ended(rt, &mut worker.seat) {
                    return;
                }
                misses = 0;
            }
            Tried::GaveUp => return,
        }
    }
}

/// Claims, runs and ends one tick, where one is found.
pub fn tick<R: Wait>(rt: &R, alloc: Global, server: &Server, worker: &mut Worker) -> Tried
    requires of { IsWorkerOf server.now worker.old }
    requires free { IsFree worker.old }
    ensures same { IsSameWorker worker.old worker.new }
    ensures free { IsFreeAfter result worker.new }
{
    match server.live.try_begin(&mut worker.seat) {
        TryBegin::Got(tick) => run_and_end(rt, alloc, server, worker, tick),
        TryBegin::Idle => Tried::Idle,
    }
}

/// Runs a tick that was claimed, shows it to the book of visits, and gives it back to the world.
fn run_and_end<R: Wait>(
    rt: &R,
    alloc: Global,
    server: &Server,
    worker: &mut Worker,
    tick: Box<Tick>,
) -> Tried
    requires of { IsWorkerOf server.now worker.old }
    requires holds { HoldsTick worker.old.seat tick.value }
    ensures same { IsSameWorker worker.old worker.new }
    ensures free { IsFreeAfter result worker.new }
{
    let live = &server.live;
    let ran = replace_with(
        &mut worker.seat,
        tick,
        |seat: Seat, tick: Box<Tick>| -> (Seat, Option<Box<Tick>>)
            requires { (seat.lock ≡ live_id live.now) × HoldsTick seat tick.value }
            ensures { Ran seat result.0 result.1 }
        { run(rt, alloc, live, seat, tick) },
    );
    match ran {
        Some(tick) => end(rt, alloc, server, worker, tick),
        None => give_up(rt, server, worker),
    }
}

/// Runs a tick, without the lock. The seat is its host meanwhile: what the tick loads and unloads is recorded as the seat's. Hands the seat
/// back, and the tick where it has run.
fn run<R: Wait>(
    rt: &R,
    alloc: Global,
    live: &Live,
    seat: Seat,
    tick: Box<Tick>,
) -> (Seat, Option<Box<Tick>>)
    requires own { seat.lock ≡ live_id live.now }
    requires holds { HoldsTick seat tick.value }
    ensures { Ran seat result.0 result.1 }
{
    let mut tick = tick;
    let mut host = LiveHost::of(rt, live, seat);
    let ran = run_tick(alloc, &mut *tick, &mut host);
    let seat = host.into_seat();
    match ran {
        Ok(()) => (seat, Some(tick)),
        Err(_) => {
            drop(tick);
            (seat, None)
        }
    }
}

/// Ends a tick that has run. The book sees it before the world takes it back, and keeps the visits that it makes. No tick behind it is passed
/// over, since the book is to see each.
fn end<R: Wait>(
    rt: &R,
    alloc: Global,
    server: &Server,
    worker: &mut Worker,
    tick: Box<Tick>,
) -> Tried
    requires of { IsWorkerOf server.now worker.old }
    requires holds { HoldsRun worker.old.seat tick.value }
    ensures same { IsSameWorker worker.old worker.new }
    ensures free { IsFreeAfter result worker.new }
{
    if server
        .book
        .visit(rt, alloc, &mut worker.pages, &*tick)
        .is_err()
    {
        drop(tick);
        return give_up(rt, server, worker);
    }
    match server.live.release(rt, &mut worker.seat, tick, 0) {
        Ok(_length) => Tried::Done,
        Err(_) => give_up(rt, server, worker),
    }
}

/// Stops the world, so that no other thread waits for the end of this tick.
fn give_up<R: Wait>(rt: &R, server: &Server, worker: &mut Worker) -> Tried
    requires of { IsWorkerOf server.now worker.old }
    ensures same { IsSameWorker worker.old worker.new }
    ensures free { IsFreeAfter result worker.new }
{
    server.live.stop(rt, &mut worker.seat);
    Tried::GaveUp
}

/// Stays away for a moment, and leaves the processor to those who have something to do.
pub fn rest<R: Wait>(rt: &R) {
    Parker::new().park_timeout(rt, Duration::from_micros(REST_MICROS));
}
