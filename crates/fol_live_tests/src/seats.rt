//! A small world, its numbered seats, and the ticks that they hold.

ghost use Rattle.std.specs.Prelude.{◌≡◌, ◌≢◌, ◌<◌, ◌≤◌, All};
ghost use Rattle.fol_lock.specs.Lock.{seat_count};
ghost use Rattle.fol_live.specs.Held.{HoldsRun, HoldsTick};
ghost use Rattle.fol_live.specs.Lives.{live_id};
ghost use Rattle.fol_live_tests.specs.FreeSeats.{IsFree};

use crate::compare::same;
use fol_data::Tick;
use fol_live::{Live, LiveAndSeats, LiveHost, Seat, TryBegin};
use fol_model::{Grid, Opening, Sequence};
use fol_tick::run_tick;
use std::alloc::Global;
use std::process::Abort;
use std::sync::Wait;

/// An empty world over sections of one chunk, with a create radius and a merge radius of 1.
fn opening(alloc: Global) -> Opening {
    let grid = Grid {
        shift: 0,
        create: 1,
        merge: 1,
        min: 2,
        num: 1,
        den: 6,
    };
    Opening {
        version: 1,
        grid,
        blocks: Sequence::new(alloc),
        entities: Sequence::new(alloc),
    }
}

/// The empty world, with so many seats.
pub fn start(rt: &impl Abort, alloc: Global, seats: u32) -> LiveAndSeats
    requires count { (0 < seats) × (seats ≤ 65) }
    ensures count { seat_count result.live.lock ≡ seats }
    ensures free { All (IsFree (live_id result.live)) result.seats.items }
{
    Live::start(alloc, opening(alloc), seats).expect(rt, "memory")
}

/// The seat with the highest number that is left, which is this one.
pub fn last(rt: &impl Abort, live: &Live, seats: &mut Vec<Seat>, number: u32) -> Seat
    requires free { All (IsFree (live_id live.now)) seats.old.items }
    ensures rest { All (IsFree (live_id live.now)) seats.new.items }
    ensures free { IsFree (live_id live.now) result }
    ensures number { result.number ≡ number }
{
    let Some(seat) = seats.pop() else {
        panic!(rt; "a seat is left");
    };
    assert_eq!(rt; seat.number(), number);
    seat
}

/// Claims a tick, which is offered. The seat sees nothing more of the history.
pub fn claim(rt: &impl Abort, live: &Live, seat: &mut Seat) -> Box<Tick>
    requires free { IsFree (live_id live.now) seat.old }
    requires worker { seat.old.number ≢ 0 }
    ensures own { seat.new.lock ≡ live_id live.now }
    ensures number { seat.new.number ≡ seat.old.number }
    ensures holds { HoldsTick seat.new result.value }
{
    match live.try_begin(seat) {
        TryBegin::Got(tick) => tick,
        TryBegin::Idle => panic!(rt; "a tick is offered"),
    }
}

/// No tick is offered.
pub fn finds_none(rt: &impl Abort, live: &Live, seat: &mut Seat)
    requires free { IsFree (live_id live.now) seat.old }
    requires worker { seat.old.number ≢ 0 }
    ensures free { IsFree (live_id live.now) seat.new }
    ensures number { seat.new.number ≡ seat.old.number }
{
    match live.try_begin(seat) {
        TryBegin::Idle => {}
        TryBegin::Got(_) => panic!(rt; "no tick is offered"),
    }
}

/// Runs a tick with its seat as the host.
fn run<R: Abort + Wait>(rt: &R, alloc: Global, live: &Live, seat: Seat, tick: &mut Tick) -> Seat
    requires own { seat.lock ≡ live_id live.now }
    requires holds { HoldsTick seat tick.old }
    ensures own { result.lock ≡ live_id live.now }
    ensures number { result.number ≡ seat.number }
    ensures holds { HoldsRun result tick.new }
{
    let mut host = LiveHost::of(rt, live, seat);
    match run_tick(alloc, tick, &mut host) {
        Ok(()) => host.into_seat(),
        Err(_) => panic!(rt; "memory"),
    }
}

/// Gives a tick back that has run. Of the quiet ticks behind it this many are passed over: each is a Begin and an End.
fn release<R: Abort + Wait>(rt: &R, live: &Live, seat: &mut Seat, tick: Box<Tick>, quiet: u32)
    requires own { seat.old.lock ≡ live_id live.now }
    requires holds { HoldsRun seat.old tick.value }
    ensures free { IsFree (live_id live.now) seat.new }
    ensures number { seat.new.number ≡ seat.old.number }
{
    match live.release(rt, seat, tick, quiet) {
        Ok(length) => same(
            rt,
            &seat.front().checked_sub(length),
            &Some(u64::from(quiet) * 2),
        ),
        Err(_) => panic!(rt; "memory"),
    }
}

/// Runs a tick and gives it back, with so many quiet ones behind it.
pub fn end<R: Abort + Wait>(
    rt: &R,
    alloc: Global,
    live: &Live,
    seat: Seat,
    mut tick: Box<Tick>,
    quiet: u32,
) -> Seat
    requires own { seat.lock ≡ live_id live.now }
    requires holds { HoldsTick seat tick.value }
    ensures free { IsFree (live_id live.now) result }
    ensures number { result.number ≡ seat.number }
{
    let mut seat = run(rt, alloc, live, seat, &mut *tick);
    release(rt, live, &mut seat, tick, quiet);
    seat
}

/// The ticks are of two regions, and each of the worker that claimed it.
pub fn are_two(rt: &impl Abort, tick: &Tick, other: &Tick) {
    assert!(rt; tick.region != other.region);
    same(rt, &tick.worker, &1);
    same(rt, &other.worker, &2);
}
