//! The calling thread's part: the caller's seat carries out the script, and a worker's seat ticks while it waits.

ghost use Rattle.std.specs.Prelude.{◌≡◌, IsTrue, OnOk, true};
ghost use Rattle.std.specs.List.{list_all};
ghost use Rattle.fol_live.specs.Lives.{live_id};
ghost use Rattle.fol_model.specs.IsScript.{is_command};
ghost use Rattle.fol_pool.specs.Script.{Carries, HasFinished, Issued};
ghost use Rattle.fol_pool.specs.Works.{IsBack, Rests, SameSeat};

use crate::bell::Bell;
use crate::commands::{GivesUp, finish, load, open_phase, post, repeated, unload};
use crate::phase::end_phase;
use fol_io::Gate;
use fol_live::{Live, Seat};
use fol_model::Command;
use std::alloc::Global;
use std::sync::Wait;

/// What the calling thread hands back.
pub(crate) struct Led {
    pub(crate) caller: Seat,
    pub(crate) worker: Seat,
    /// Whether all commands were carried out and the history was finished.
    pub(crate) finished: bool,
}

/// Carries out the commands and finishes the history, or else stops the world, and rings the bell.
pub(crate) fn lead<R: Wait, G: Gate + Sync>(
    rt: &R,
    alloc: Global,
    live: &Live,
    mut caller: Seat,
    worker: Seat,
    commands: Vec<Command>,
    bell: &Bell,
    gate: &G,
) -> Led
    requires own { caller.lock ≡ live_id live.now }
    requires starts { Carries caller commands.items commands.items }
    requires limits { IsTrue (list_all is_command commands.items) }
    requires worker_own { worker.lock ≡ live_id live.now }
    requires rests { Rests worker }
    ensures caller { SameSeat caller result.caller }
    ensures worker { IsBack worker result.worker }
    ensures finished { result.finished ≡ true → HasFinished result.caller commands.items }
{
    let (worker, done) = carry_out(rt, alloc, live, &mut caller, worker, commands, bell, gate);
    let finished = done.is_ok();
    if !finished {
        live.stop(rt, &mut caller);
    }
    bell.ring();
    Led {
        caller,
        worker,
        finished,
    }
}

/// Carries out the commands in order, and finishes the history. Hands the worker's seat back.
fn carry_out<R: Wait, G: Gate + Sync>(
    rt: &R,
    alloc: Global,
    live: &Live,
    caller: &mut Seat,
    worker: Seat,
    commands: Vec<Command>,
    bell: &Bell,
    gate: &G,
) -> (Seat, Result<(), GivesUp>)
    requires own { caller.old.lock ≡ live_id live.now }
    requires starts { Carries caller.old commands.items commands.items }
    requires limits { IsTrue (list_all is_command commands.items) }
    requires worker_own { worker.lock ≡ live_id live.now }
    requires rests { Rests worker }
    ensures same { SameSeat caller.old caller.new }
    ensures worker { IsBack worker result.0 }
    ensures finished { OnOk result.1 (HasFinished caller.new commands.items) }
{
    let mut worker = worker;
    for command in commands {
        let (back, issued) = issue(rt, alloc, live, caller, worker, command, bell, gate);
        worker = back;
        if issued.is_err() {
            return (worker, Err(GivesUp));
        }
    }
    (worker, finish(rt, live, caller))
}

/// Carries out one command. Hands the worker's seat back, which ticks at the end of a phase.
fn issue<R: Wait, G: Gate + Sync>(
    rt: &R,
    alloc: Global,
    live: &Live,
    caller: &mut Seat,
    worker: Seat,
    command: Command,
    bell: &Bell,
    gate: &G,
) -> (Seat, Result<(), GivesUp>)
    requires own { caller.old.lock ≡ live_id live.now }
    requires zero { caller.old.number ≡ 0 }
    requires limits { IsTrue (is_command command) }
    requires worker_own { worker.lock ≡ live_id live.now }
    requires rests { Rests worker }
    ensures same { SameSeat caller.old caller.new }
    ensures worker { IsBack worker result.0 }
    ensures rests { OnOk result.1 (Rests result.0) }
    ensures issued { OnOk result.1 (Issued caller.old caller.new command) }
{
    match command {
        Command::End => end_phase(rt, alloc, live, caller, worker, bell, gate),
        Command::Load(chunk) => (worker, load(rt, live, caller, chunk)),
        Command::Unload(chunk) => (worker, unload(rt, live, caller, chunk)),
        Command::Post {
            chunk,
            delay,
            action,
        } => (worker, post(rt, live, caller, chunk, delay, action)),
        Command::Every {
            chunk,
            delay,
            period,
            count,
            action,
        } => match repeated(alloc, period, count, action) {
            Ok(action) => (worker, post(rt, live, caller, chunk, delay, action)),
            Err(_) => (worker, Err(GivesUp)),
        },
        Command::Run(ticks) => (worker, open_phase(rt, live, caller, ticks)),
    }
}
