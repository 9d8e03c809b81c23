//! Ticks that are claimed, who learns of them, and what others are answered meanwhile.

ghost use Rattle.std.specs.Prelude.{◌≡◌, All};
ghost use Rattle.fol_lock.specs.Lock.{seat_count};
ghost use Rattle.fol_live.specs.Lives.{live_id};
ghost use Rattle.fol_live.specs.Seats.{AreAllSeats};

use crate::calls::{close_phase, ended, finish, load, open_phase, owner_rows, post, unload};
use crate::compare::same;
use crate::history::{has_entries, has_learnt};
use crate::seats::{are_two, claim, end, finds_none, last, start};
use fol_live::{Close, Finish, Live, LiveAndSeats, LivePhase, Seat};
use fol_model::{Closing, Loaded, Unloaded};
use std::alloc::Global;
use std::process::Abort;
use std::sync::Wait;

/// Loads a chunk in each of two regions, and opens a phase of one tick.
fn open<R: Abort + Wait>(rt: &R, live: &Live, caller: &mut Seat)
    requires own { caller.old.lock ≡ live_id live.now }
    ensures own { caller.new.lock ≡ live_id live.now }
    ensures number { caller.new.number ≡ caller.old.number }
{
    load(rt, live, caller, 0, Loaded::Counted);
    load(rt, live, caller, 6, Loaded::Counted);
    open_phase(rt, live, caller, 1, LivePhase::Opened);
    same(rt, &caller.front(), &3);
}

/// A chunk that lies near both regions, whose ticks are held, is loaded. By that the caller learns of both ticks: their Begins stand before,
/// and the chunk is of a region of its own until they end. Meanwhile the phase is closed by nobody, nor is another one opened or the
/// history finished.
fn ask_meanwhile<R: Abort + Wait>(rt: &R, live: &Live, caller: &mut Seat)
    requires own { caller.old.lock ≡ live_id live.now }
    ensures own { caller.new.lock ≡ live_id live.now }
    ensures number { caller.new.number ≡ caller.old.number }
{
    load(rt, live, caller, 3, Loaded::Counted);
    owner_rows(rt, live, caller, 27, 6, 3);
    close_phase(rt, live, caller, Close::NotYet(1));
    finish(rt, live, caller, Finish::InPhase);
    open_phase(rt, live, caller, 1, LivePhase::InPhase);
    post(rt, live, caller, 1);
}

/// Once no region ticks, all is one region of 9 by 3 sections, which is this one. The phase is closed and the history finished. A longer phase
/// than is left and a chunk after the end are refused.
fn ask_afterwards<R: Abort + Wait>(rt: &R, live: &Live, caller: &mut Seat, owner: u64)
    requires own { caller.old.lock ≡ live_id live.now }
    ensures own { caller.new.lock ≡ live_id live.now }
    ensures number { caller.new.number ≡ caller.old.number }
{
    owner_rows(rt, live, caller, 27, 9, owner);
    unload(rt, live, caller, 3, Unloaded::Lowered);
    close_phase(rt, live, caller, Close::Closed);
    open_phase(rt, live, caller, 10_000, LivePhase::TooMany(1));
    finish(rt, live, caller, Finish::Finished);
    load(rt, live, caller, 0, Loaded::Over);
}

/// Ends the world.
fn close(rt: &impl Abort, alloc: Global, live: Live, seats: [Seat; 4]) -> Closing
    requires own { All (λ seat. seat.lock ≡ live_id live) seats }
    requires all { AreAllSeats (seat_count live.lock) seats }
{
    let seats = Vec::from_array(alloc, seats).expect(rt, "memory");
    live.close(alloc, seats).expect(rt, "no region ticks")
}

#[test]
fn a_load_learns_of_two_claimed_ticks(rt: HostRuntime) {
    let alloc = rt.alloc();
    let LiveAndSeats { live, mut seats } = start(&rt, alloc, 4);
    let mut third = last(&rt, &live, &mut seats, 3);
    let mut second = last(&rt, &live, &mut seats, 2);
    let mut first = last(&rt, &live, &mut seats, 1);
    let mut caller = last(&rt, &live, &mut seats, 0);
    open(&rt, &live, &mut caller);
    let tick = claim(&rt, &live, &mut first);
    let other = claim(&rt, &live, &mut second);
    are_two(&rt, &*tick, &*other);
    finds_none(&rt, &live, &mut third);
    ask_meanwhile(&rt, &live, &mut caller);
    // The region between waits for both. At the first End it joins that region, which then waits for the other, and joins it at the second End.
    let owner = tick.region;
    let second = end(&rt, alloc, &live, second, other, 0);
    let mut first = end(&rt, alloc, &live, first, tick, 0);
    finds_none(&rt, &live, &mut first);
    ended(&rt, &live, &mut first, false);
    ask_afterwards(&rt, &live, &mut caller, owner);
    ended(&rt, &live, &mut first, true);
    let closing = close(&rt, alloc, live, [caller, first, second, third]);
    has_entries(&rt, &closing, 12);
    has_learnt(&rt, &closing);
}

/// Loads a chunk, and opens a phase of four ticks.
fn open_four<R: Abort + Wait>(rt: &R, live: &Live, caller: &mut Seat)
    requires own { caller.old.lock ≡ live_id live.now }
    ensures own { caller.new.lock ≡ live_id live.now }
    ensures number { caller.new.number ≡ caller.old.number }
{
    load(rt, live, caller, 0, Loaded::Counted);
    open_phase(rt, live, caller, 4, LivePhase::Opened);
}

#[test]
fn quiet_ticks_are_passed_over(rt: HostRuntime) {
    let alloc = rt.alloc();
    let LiveAndSeats { live, mut seats } = start(&rt, alloc, 4);
    let third = last(&rt, &live, &mut seats, 3);
    let second = last(&rt, &live, &mut seats, 2);
    let mut first = last(&rt, &live, &mut seats, 1);
    let mut caller = last(&rt, &live, &mut seats, 0);
    open_four(&rt, &live, &mut caller);
    let tick = claim(&rt, &live, &mut first);
    let mut first = end(&rt, alloc, &live, first, tick, 2);
    same(&rt, &first.saw_none_owing(), &false);
    let tick = claim(&rt, &live, &mut first);
    let first = end(&rt, alloc, &live, first, tick, 0);
    same(&rt, &first.saw_none_owing(), &true);
    close_phase(&rt, &live, &mut caller, Close::Closed);
    let closing = close(&rt, alloc, live, [caller, first, second, third]);
    has_entries(&rt, &closing, 11);
}

/// Loads a row of chunks that are of one region, gives the one between up again, and opens a phase of four ticks. At the next End the region
/// falls apart.
fn open_row<R: Abort + Wait>(rt: &R, live: &Live, caller: &mut Seat)
    requires own { caller.old.lock ≡ live_id live.now }
    ensures own { caller.new.lock ≡ live_id live.now }
    ensures number { caller.new.number ≡ caller.old.number }
{
    load(rt, live, caller, 0, Loaded::Counted);
    load(rt, live, caller, 3, Loaded::Counted);
    load(rt, live, caller, 6, Loaded::Counted);
    unload(rt, live, caller, 3, Unloaded::Lowered);
    open_phase(rt, live, caller, 4, LivePhase::Opened);
}

#[test]
fn quiet_ticks_of_parts_are_passed_over(rt: HostRuntime) {
    let alloc = rt.alloc();
    let LiveAndSeats { live, mut seats } = start(&rt, alloc, 4);
    let third = last(&rt, &live, &mut seats, 3);
    let second = last(&rt, &live, &mut seats, 2);
    let mut first = last(&rt, &live, &mut seats, 1);
    let mut caller = last(&rt, &live, &mut seats, 0);
    open_row(&rt, &live, &mut caller);
    let tick = claim(&rt, &live, &mut first);
    // Behind this End each of the two parts owes three ticks.
    let first = end(&rt, alloc, &live, first, tick, 6);
    same(&rt, &first.saw_none_owing(), &true);
    close_phase(&rt, &live, &mut caller, Close::Closed);
    let closing = close(&rt, alloc, live, [caller, first, second, third]);
    has_entries(&rt, &closing, 20);
}
