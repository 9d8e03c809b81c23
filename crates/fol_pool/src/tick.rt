//! The ticks of a worker.

ghost use Rattle.std.specs.Prelude.{◌≡◌, OnErr, OnOk};
ghost use Rattle.fol_live.specs.Lives.{live_id};
ghost use Rattle.fol_pool.specs.Works.{HasRun, Holds, IsStuck, Rests, SameSeat, Works};

use crate::patience::Patience;
use fol_core::Tick;
use fol_io::Gate;
use fol_live::{Live, LiveHost, Seat, TryBegin};
use fol_tick::run_tick;
use std::alloc::{AllocError, Global};
use std::sync::Wait;

/// How many quiet ticks are passed over in one turn of the lock, of any regions that owe one and are not offered, that of the tick first: as
/// many as take a few microseconds, or some more where entities walk, so that nobody waits long for the lock.
const QUIET_TICKS: u32 = 256;

/// Why a worker has no tick.
#[derive(Clone, Copy)]
pub(crate) enum Rest {
    /// It left the next one to others, since too many wait for the lock.
    Left,
    /// It found none in the slots, or saw at the end of its last one that none was left.
    Idle,
}

/// Claims, runs and ends ticks, until there is no next one. The gate is passed between the claim and the End of each; but where it does not
/// watch, quiet ticks of any region that owes one and is not offered are passed over with the End. If memory was not found, the world was
/// stopped.
pub(crate) fn ticks<R: Wait, G: Gate + Sync>(
    rt: &R,
    alloc: Global,
    live: &Live,
    seat: Seat,
    patience: &mut Patience,
    gate: &G,
) -> (Seat, Result<Rest, AllocError>)
    requires own { seat.lock ≡ live_id live.now }
    requires rests { Rests seat }
    ensures same { SameSeat seat result.0 }
    ensures works { Works result.0 }
    ensures rests { OnOk result.1 (Rests result.0) }
{
    let mut seat = seat;
    for _turn in rt.forever() {
        match live.try_begin(&mut seat) {
            TryBegin::Got(tick) => {
                gate.passed(tick.worker, tick.region);
                let (back, ended) = run_and_end(rt, alloc, live, seat, tick, gate);
                seat = back;
                match ended {
                    Ok(crowd) => {
                        if patience.leaves(crowd) {
                            return (seat, Ok(Rest::Left));
                        }
                        if seat.saw_none_owing() {
                            return (seat, Ok(Rest::Idle));
                        }
                    }
                    Err(_) => return (seat, Err(AllocError)),
                }
            }
            TryBegin::Idle => return (seat, Ok(Rest::Idle)),
        }
    }
    unreachable!()
}

/// Runs and ends a tick that was claimed, and returns how many seats were in the lock when it was to end. If memory was not found for that,
/// the world was stopped.
fn run_and_end<R: Wait, G: Gate + Sync>(
    rt: &R,
    alloc: Global,
    live: &Live,
    seat: Seat,
    tick: Box<Tick>,
    gate: &G,
) -> (Seat, Result<u64, AllocError>)
    requires own { seat.lock ≡ live_id live.now }
    requires holds { Holds seat tick.value }
    ensures same { SameSeat seat result.0 }
    ensures works { Works result.0 }
    ensures rests { OnOk result.1 (Rests result.0) }
{
    let mut tick = tick;
    let (mut seat, ran) = run(rt, alloc, live, seat, &mut *tick);
    if ran.is_err() {
        give_up(rt, live, &mut seat, tick);
        return (seat, Err(AllocError));
    }
    let crowd = live.crowd();
    let most = if gate.watches() { 0 } else { QUIET_TICKS };
    match live.release(rt, &mut seat, tick, most) {
        Ok(_) => (seat, Ok(crowd)),
        Err(tick) => {
            give_up(rt, live, &mut seat, tick);
            (seat, Err(AllocError))
        }
    }
}

/// Runs a tick that was claimed, but does not end it.
fn run<R: Wait>(
    rt: &R,
    alloc: Global,
    live: &Live,
    seat: Seat,
    tick: &mut Tick,
) -> (Seat, Result<(), AllocError>)
    requires own { seat.lock ≡ live_id live.now }
    requires holds { Holds seat tick.old }
    ensures same { SameSeat seat result.0 }
    ensures ran { OnOk result.1 (HasRun result.0 tick.new) }
    ensures stuck { OnErr result.1 (IsStuck result.0) }
{
    let mut host = LiveHost::of(rt, live, seat);
    let ran = run_tick(alloc, tick, &mut host);
    (host.into_seat(), ran)
}

/// Stops the world, where memory was not found in a tick, which is dropped. It is a call of its own, so that the ways on which ticks go
/// on have no drop in them.
#[cold]
#[inline(never)]
fn give_up<R: Wait>(rt: &R, live: &Live, seat: &mut Seat, _tick: Box<Tick>)
    requires own { seat.old.lock ≡ live_id live.now }
    requires stuck { IsStuck seat.old }
    ensures same { SameSeat seat.old seat.new }
    ensures works { Works seat.new }
{
    live.stop(rt, seat);
}
