//! A list behind a lock, as a caller would use it.
ghost use Rattle.std.specs.Prelude.{◌≡◌, ◌∷◌, ◌++◌, [], IfOk};
ghost use Rattle.fol_lock.specs.Seat.{IsIdle};
ghost use Rattle.fol_lock.specs.Lock.{lock_id, seat_count};

use crate::compare::same;
use fol_lock::{Kept, Lock, LockAndSeats, Seat};
use std::alloc::{AllocError, Global};
use std::sync::Wait;
use std::thread::{Threads, join};

#[derive(Clone, Copy)]
struct Note {
    by: u32,
    value: u64,
}

#[derive(Drop)]
struct Notes {
    title: u32,
    notes: Vec<Note>,
}

impl Kept for Notes {
    type Origin = u32;

    type Entry = Note;

    ghost origin = { λ n. n.title };

    ghost log = { λ n. n.notes.items };

    ghost by = { λ e. e.by };
}

/// What stood last before, and the note given.
#[derive(Drop)]
struct Given {
    before: Option<u64>,
    note: Note,
}

fn add<R: Wait>(
    rt: &R,
    lock: &Lock<Notes>,
    seat: &mut Seat<Notes>,
    value: u64,
) -> Result<Given, AllocError>
    requires { IsIdle (lock_id lock.now) seat.old }
    ensures idle { IsIdle (lock_id lock.now) seat.new }
    ensures number { seat.new.number ≡ seat.old.number }
    ensures mine { IfOk result (λ given. seat.new.mine ≡ seat.old.mine ++ given.note ∷ []) }
{
    let note = Note {
        by: seat.number(),
        value,
    };
    let mut turn = lock.take(rt, seat);
    let before = turn.state_ref().notes.last().map(|note| note.value);
    let pushed = turn.state().notes.push(note);
    lock.give(seat, turn);
    pushed?;
    Ok(Given { before, note })
}

// Stops where memory runs out.
fn count_up<R: Wait>(rt: &R, lock: &Lock<Notes>, mut seat: Seat<Notes>, times: u64) -> Seat<Notes>
    requires { IsIdle (lock_id lock.now) seat }
    ensures { IsIdle (lock_id lock.now) result × (result.number ≡ seat.number) }
{
    for value in 0..times {
        if add(rt, lock, &mut seat, value).is_err() {
            break;
        }
    }
    seat
}

// A lock over an empty list, with the seats 0 and 1.
fn open_two(alloc: Global) -> Result<(Lock<Notes>, Seat<Notes>, Seat<Notes>), AllocError>
    ensures count { IfOk result (λ opened. seat_count opened.0 ≡ 2) }
    ensures first { IfOk result (λ opened. IsIdle (lock_id opened.0) opened.1
        × (opened.1.number ≡ 0)) }
    ensures second { IfOk result (λ opened. IsIdle (lock_id opened.0) opened.2
        × (opened.2.number ≡ 1)) }
{
    let state = Notes {
        title: 7,
        notes: Vec::new(alloc),
    };
    let LockAndSeats { lock, seats } = Lock::new(alloc, state, 2)?;
    let mut seats = seats.into_vec();
    let second = seats.remove(1);
    let first = seats.remove(0);
    Ok((lock, first, second))
}

fn close_two(
    alloc: Global,
    lock: Lock<Notes>,
    first: Seat<Notes>,
    second: Seat<Notes>,
) -> Result<Notes, AllocError>
    requires count { seat_count lock ≡ 2 }
    requires first { IsIdle (lock_id lock) first × (first.number ≡ 0) }
    requires second { IsIdle (lock_id lock) second × (second.number ≡ 1) }
{
    let mut seats = Vec::with_capacity(alloc, 2)?;
    seats.push_reserved(first);
    seats.push_reserved(second);
    Ok(lock.close(seats))
}

// Two threads give the numbers from 0 on, each with a seat of its own.
fn count_side_by_side<R: Threads + Wait + Sync>(
    rt: &R,
    alloc: Global,
    times: u64,
) -> Result<Notes, AllocError> {
    let (lock, first, second) = open_two(alloc)?;
    let shared = &lock;
    let (first, second) = join(
        rt,
        || -> Seat<Notes>
            requires { IsIdle (lock_id shared.now) first }
            ensures { IsIdle (lock_id shared.entry.now) result × (result.number ≡ first.number) }
        { count_up(rt, shared, first, times) },
        || -> Seat<Notes>
            requires { IsIdle (lock_id shared.now) second }
            ensures { IsIdle (lock_id shared.entry.now) result × (result.number ≡ second.number) }
        { count_up(rt, shared, second, times) },
    );
    close_two(alloc, lock, first, second)
}

/// What stood last before each of two notes, one of each seat.
fn add_both<R: Wait>(
    rt: &R,
    lock: &Lock<Notes>,
    first: &mut Seat<Notes>,
    second: &mut Seat<Notes>,
) -> Result<(Option<u64>, Option<u64>), AllocError>
    requires first { IsIdle (lock_id lock.now) first.old }
    requires second { IsIdle (lock_id lock.now) second.old }
    ensures first { IsIdle (lock_id lock.now) first.new
        × (first.new.number ≡ first.old.number) }
    ensures second { IsIdle (lock_id lock.now) second.new
        × (second.new.number ≡ second.old.number) }
{
    let five = add(rt, lock, first, 5)?;
    let six = add(rt, lock, second, 6)?;
    Ok((five.before, six.before))
}

/// Whether these are the notes of `add_both` and no others.
fn has_both(state: &Notes) -> bool {
    let notes = state.notes.as_slice();
    state.title == 7
        && notes.len() == 2
        && (notes[0].by, notes[0].value) == (0, 5)
        && (notes[1].by, notes[1].value) == (1, 6)
}

#[test]
fn the_second_seat_sees_what_the_first_gave(rt: HostRuntime) -> Result<(), AllocError> {
    let (lock, mut first, mut second) = open_two(rt.alloc())?;
    let numbers = (first.number(), second.number());
    let before = add_both(&rt, &lock, &mut first, &mut second);
    let state = close_two(rt.alloc(), lock, first, second)?;
    let is_kept = has_both(&state);
    drop(state);
    same(&rt, &numbers, &(0, 1));
    same(&rt, &before, &Ok((None, Some(5))));
    assert!(rt; is_kept);
    Ok(())
}

/// How many of the seat's notes have the values 0, 1, 2 and so on, in this order.
fn count_in_order(notes: &[Note], by: u32) -> u64 {
    let mut next = 0_u64;
    for note in notes {
        if note.by == by && note.value == next {
            next = next.saturating_add(1);
        }
    }
    next
}

#[test]
fn two_threads_lose_nothing_and_keep_their_order(rt: HostRuntime) -> Result<(), AllocError> {
    let state = count_side_by_side(&rt, rt.alloc(), 100)?;
    let notes = state.notes.as_slice();
    let counts = (
        notes.len(),
        count_in_order(notes, 0),
        count_in_order(notes, 1),
    );
    drop(state);
    same(&rt, &counts, &(200, 100, 100));
    Ok(())
}
