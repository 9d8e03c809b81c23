//! Letters that are sent to an inbox, beside posts that wait for the lock of the world.

ghost use Rattle.std.specs.Prelude.{◌≡◌, ◌<◌, ◌≤◌, None, All};
ghost use Rattle.fol_live.specs.Lives.{live_id};
ghost use Rattle.fol_live.specs.Seat.{held};
ghost use Rattle.fol_inbox.specs.Ids.{inbox_id};
ghost use Rattle.fol_inbox.specs.Sending.{Sending};

use crate::rate::per_second;
use crate::world::{start, take_seat};
use fol_inbox::{Inbox, InboxParts, Sender};
use fol_live::{Live, LiveAndSeats, Seat};
use fol_model::{Action, ChunkPos};
use std::alloc::{AllocError, Global};
use std::io;
use std::rt::Clock;
use std::sync::Wait;
use std::thread::{Threads, for_each_mut};
use std::time::{Duration, Instant};

/// How many tasks each thread asks for.
const TASKS: u64 = 50_000;

/// The most threads that a comparison has.
const MOST_THREADS: usize = 4;

/// Prints how many letters and how many posts a second there are, by one, two and four threads.
pub fn run<R: Threads + Wait + Sync + Clock + Print>(rt: &R, alloc: Global) -> io::Result<()> {
    compare(rt, alloc, 1)?;
    compare(rt, alloc, 2)?;
    compare(rt, alloc, 4)
}

fn compare<R: Threads + Wait + Sync + Clock + Print>(
    rt: &R,
    alloc: Global,
    threads: u32,
) -> io::Result<()>
    requires { (0 < threads) × (threads ≤ 64) }
{
    let all = u64::from(threads) * TASKS;
    let letters = per_second(all, time_letters(rt, alloc, threads)?);
    let posts = per_second(all, time_posts(rt, alloc, threads)?);
    println!(rt; "inbox, threads {threads}: {letters} letters a second, of posts {posts}")
}

/// How long so many threads send letters, which nobody takes meanwhile.
fn time_letters<R: Threads + Wait + Sync + Clock>(
    rt: &R,
    alloc: Global,
    threads: u32,
) -> io::Result<Duration>
    requires { (0 < threads) × (threads ≤ 64) }
{
    let LiveAndSeats { live, mut seats } = start(alloc, 1)?;
    let seat = take_seat(&live, &mut seats);
    let time = time_inbox(rt, alloc, seat, threads);
    drop(live);
    time
}

/// How long so many threads send letters to an inbox with this seat.
fn time_inbox<R: Threads + Wait + Sync + Clock>(
    rt: &R,
    alloc: Global,
    seat: Seat,
    threads: u32,
) -> io::Result<Duration>
    requires threads { (0 < threads) × (threads ≤ 64) }
    requires free { held seat ≡ None }
{
    let Ok(
        InboxParts {
            inbox,
            mut senders,
            drainer: _drainer,
        },
    ) = Inbox::start(alloc, seat, threads)
    else {
        return Err(AllocError.into());
    };
    let time = time_senders(rt, &inbox, &mut senders);
    drop(inbox);
    time
}

/// How long these senders take to send their letters.
fn time_senders<R: Threads + Wait + Sync + Clock>(
    rt: &R,
    inbox: &Inbox,
    senders: &mut [Sender],
) -> io::Result<Duration>
    requires { All (λ (s : Sending). s.inbox ≡ inbox_id inbox.now) senders.old }
{
    let start = Instant::now(rt)?;
    send_together(rt, inbox, senders);
    start.elapsed(rt)
}

fn send_together<R: Threads + Wait + Sync>(rt: &R, inbox: &Inbox, senders: &mut [Sender])
    requires { All (λ (s : Sending). s.inbox ≡ inbox_id inbox.now) senders.old }
{
    for_each_mut(
        rt,
        senders,
        MOST_THREADS,
        &|_, sender: &mut Sender| send_often(rt, inbox, sender),
    );
}

#[tactic(auto, unfolding(fol_model::specs::Geometry::is_chunk, fol_model::specs::Limits::is_delay, fol_model::specs::Limits::is_action, fol_model::specs::Limits::may_post))]
fn send_often<R: Wait>(rt: &R, inbox: &Inbox, sender: &mut Sender)
    requires { sender.old.inbox ≡ inbox_id inbox.now }
{
    let chunk = ChunkPos { x: 0, z: 0 };
    for _ in 0..TASKS {
        let _place = inbox.send(rt, sender, chunk, 1, Action::Unload(chunk));
    }
}

/// How long so many threads post.
fn time_posts<R: Threads + Wait + Sync + Clock>(
    rt: &R,
    alloc: Global,
    threads: u32,
) -> io::Result<Duration>
    requires { (0 < threads) × (threads ≤ 64) }
{
    let LiveAndSeats { live, mut seats } = start(alloc, threads)?;
    let time = time_seats(rt, &live, &mut seats);
    drop(live);
    time
}

/// How long those who have these seats take to post.
fn time_seats<R: Threads + Wait + Sync + Clock>(
    rt: &R,
    live: &Live,
    seats: &mut [Seat],
) -> io::Result<Duration>
    requires { All (λ seat. seat.lock ≡ live_id live.now) seats.old }
{
    let start = Instant::now(rt)?;
    post_together(rt, live, seats);
    start.elapsed(rt)
}

fn post_together<R: Threads + Wait + Sync>(rt: &R, live: &Live, seats: &mut [Seat])
    requires { All (λ seat. seat.lock ≡ live_id live.now) seats.old }
{
    for_each_mut(
        rt,
        seats,
        MOST_THREADS,
        &|_, seat: &mut Seat| post_often(rt, live, seat),
    );
}

#[tactic(auto, unfolding(fol_model::specs::Geometry::is_chunk, fol_model::specs::Limits::is_delay, fol_model::specs::Limits::is_action, fol_model::specs::Limits::may_post))]
fn post_often<R: Wait>(rt: &R, live: &Live, seat: &mut Seat)
    requires { seat.old.lock ≡ live_id live.now }
{
    let chunk = ChunkPos { x: 0, z: 0 };
    for _ in 0..TASKS {
        let _answer = live.post(rt, seat, chunk, 1, Action::Unload(chunk));
    }
}
