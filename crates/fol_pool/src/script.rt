//! A script from its first command to its closing.

ghost use Rattle.std.specs.Prelude.{◌≡◌, ◌-◌, ◌<◌, ◌≤◌, ◌++◌, ◌∷◌, [], All, IfOk, OnOk, true, vec_len, vec_capacity};
ghost use Rattle.fol_live.specs.Lives.{live_id};
ghost use Rattle.fol_live.specs.Seats.{AreAllSeats, ClosesAll};
ghost use Rattle.fol_lock.specs.Lock.{seat_count};
ghost use Rattle.fol_model.specs.Legal.{Legal};
ghost use Rattle.fol_model.specs.Outputs.{Outputs};

use crate::team::{Ended, play};
use fol_io::Gate;
use fol_live::{Live, LiveAndSeats};
use fol_model::{Closing, Opening, Script};
use std::alloc::{AllocError, Global};
use std::sync::Wait;
use std::thread::Threads;

/// Runs a script on the world of an opening, with 1 to 64 workers, and passes the gate in each tick. Worker 1 ticks on the calling
/// thread, at the end of each phase alone, and each further worker on a thread of its own, where one can be started. Returns `AllocError`
/// where memory is short, and where a call of the live world gives an answer that only another use of it could bring, which no
/// clause rules out.
///
/// The closing is that of one legal history. With one worker the lines inside a run come before its ticks.
pub fn run_script<R: Threads + Wait + Sync, G: Gate + Sync>(
    rt: &R,
    alloc: Global,
    opening: Opening,
    script: Script,
    workers: u32,
    gate: &G,
) -> Result<Closing, AllocError>
    requires workers { (1 ≤ workers) × (workers ≤ 64) }
    ensures legal { IfOk result (λ c. Legal opening script workers c.history) }
    ensures outputs { IfOk result (λ c. Outputs opening c.history c) }
{
    // A proof learns where a field is read that the numbers of the grid are within their limits.
    let _grid = opening.grid;
    let LiveAndSeats { live, mut seats } = Live::start(alloc, opening, workers + 1)?;
    let caller = seats.remove(0);
    let Script { commands } = script;
    let commands = commands.into_vec();
    let ended = play(rt, alloc, &live, caller, seats, commands, gate);
    close(alloc, live, ended)
}

/// Closes the world, given all its seats, where the script was carried out and the history finished.
fn close(alloc: Global, live: Live, ended: Ended) -> Result<Closing, AllocError>
    requires own { All (λ seat. seat.lock ≡ live_id live)
        (ended.workers.items ++ ended.caller ∷ []) }
    requires all { AreAllSeats (seat_count live.lock) (ended.workers.items ++ ended.caller ∷ []) }
    requires room { vec_len ended.workers < vec_capacity ended.workers }
    ensures finished { OnOk result (ended.finished ≡ true) }
    ensures closing { IfOk result (λ c.
        ClosesAll (seat_count live.lock - 1) (ended.workers.items ++ ended.caller ∷ []) c) }
{
    let Ended {
        caller,
        mut workers,
        finished,
    } = ended;
    if !finished {
        return Err(AllocError);
    }
    workers.push_reserved(caller);
    match live.close(alloc, workers) {
        Ok(closing) => Ok(closing),
        Err(_) => Err(AllocError),
    }
}
