//! Turns of a lock beside those of std's `Mutex`: one thread alone, then two and four that wait for one another.
ghost use Rattle.std.specs.Prelude.{◌<◌, All, []};
ghost use Rattle.fol_lock.specs.Lock.{lock_id};
ghost use Rattle.fol_lock.specs.Seat.{IsIdle};

use crate::rate::per_second;
use fol_lock::{Kept, Lock, LockAndSeats, Seat};
use std::alloc::Global;
use std::io;
use std::rt::Clock;
use std::sync::{Mutex, Wait};
use std::thread::{Threads, for_each_mut};
use std::time::{Duration, Instant};

/// How often each thread takes a turn.
const TURNS: u64 = 500_000;

/// The most threads that a comparison has.
const MOST_THREADS: usize = 4;

/// What a turn changes. It keeps no log.
#[derive(Drop)]
struct Count {
    turns: u64,
}

impl Kept for Count {
    type Origin = ();

    type Entry = u32;

    ghost origin = { λ _. tt };

    ghost log = { λ _. [] };

    ghost by = { λ e. e };
}

/// Prints how many turns a second a lock and a mutex serve, to one, two and four threads.
pub fn run<R: Threads + Wait + Sync + Clock + Print>(rt: &R, alloc: Global) -> io::Result<()> {
    compare(rt, alloc, 1)?;
    compare(rt, alloc, 2)?;
    compare(rt, alloc, 4)
}

fn compare<R: Threads + Wait + Sync + Clock + Print>(
    rt: &R,
    alloc: Global,
    threads: u32,
) -> io::Result<()>
    requires { (0 < threads) × (threads < 65536) }
{
    let all = u64::from(threads) * TURNS;
    let lock = per_second(all, time_lock(rt, alloc, threads)?);
    let mutex = per_second(all, time_mutex(rt, alloc, threads)?);
    println!(rt; "lock, threads {threads}: {lock} turns a second, of Mutex {mutex}")
}

fn time_lock<R: Threads + Wait + Sync + Clock>(
    rt: &R,
    alloc: Global,
    threads: u32,
) -> io::Result<Duration>
    requires { (0 < threads) × (threads < 65536) }
{
    let LockAndSeats { lock, seats } = Lock::new(alloc, Count { turns: 0 }, threads)?;
    let mut seats = seats.into_vec();
    let start = Instant::now(rt)?;
    take_turns_together(rt, &lock, &mut seats);
    start.elapsed(rt)
}

fn take_turns_together<R: Threads + Wait + Sync>(
    rt: &R,
    lock: &Lock<Count>,
    seats: &mut [Seat<Count>],
)
    requires { All (IsIdle (lock_id lock.now)) seats.old }
    ensures { All (IsIdle (lock_id lock.now)) seats.new }
{
    for_each_mut(
        rt,
        seats,
        MOST_THREADS,
        &|_, seat: &mut Seat<Count>| take_turns(rt, lock, seat),
    );
}

fn take_turns<R: Wait>(rt: &R, lock: &Lock<Count>, seat: &mut Seat<Count>)
    requires { IsIdle (lock_id lock.now) seat.old }
    ensures { IsIdle (lock_id lock.now) seat.new }
{
    for _ in 0..TURNS {
        let mut turn = lock.take(rt, seat);
        let count = turn.state();
        count.turns = count.turns.wrapping_add(1);
        lock.give(seat, turn);
    }
}

fn time_mutex<R: Threads + Wait + Sync + Clock>(
    rt: &R,
    alloc: Global,
    threads: u32,
) -> io::Result<Duration> {
    let mutex = Mutex::new(0);
    let mut marks = vec![in alloc; 0u8; threads as usize]?;
    let start = Instant::now(rt)?;
    for_each_mut(
        rt,
        &mut marks,
        MOST_THREADS,
        &|_, mark: &mut u8| {
            lock_often(rt, &mutex);
            *mark = 1;
        },
    );
    start.elapsed(rt)
}

fn lock_often<R: Wait>(rt: &R, mutex: &Mutex<u64>) {
    for _ in 0..TURNS {
        let mut turns = mutex.lock(rt);
        *turns = turns.wrapping_add(1);
    }
}
