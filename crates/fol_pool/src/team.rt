//! The threads of the workers.

ghost use Rattle.std.specs.Prelude.{◌≡◌, ◌<◌, ◌≤◌, IsTrue, true, vec_len, vec_capacity};
ghost use Rattle.std.specs.List.{AllByRecursion, list_all};
ghost use Rattle.fol_live.specs.Lives.{live_id};
ghost use Rattle.fol_model.specs.IsScript.{is_command};
ghost use Rattle.fol_pool.specs.Script.{Carries, HasFinished};
ghost use Rattle.fol_pool.specs.Team.{AreBack, IsReady};
ghost use Rattle.fol_pool.specs.Works.{IsBack, Rests, SameSeat};

use crate::bell::Bell;
use crate::lead::{Led, lead};
use crate::work::{HandsBack, work};
use fol_io::Gate;
use fol_live::{Live, Seat};
use fol_model::Command;
use std::alloc::Global;
use std::snapshot::Snapshot;
use std::sync::Wait;
use std::thread;
use std::thread::{Scope, Threads};

/// The seats when all threads are back.
pub(crate) struct Ended {
    pub(crate) caller: Seat,
    /// In order of number, from 1.
    pub(crate) workers: Vec<Seat>,
    /// Whether all commands were carried out and the history was finished.
    pub(crate) finished: bool,
}

/// Carries out the commands with the caller's seat and the first worker's, while each further worker's seat ticks on a thread of its
/// own, until the history is over and all threads are back.
pub(crate) fn play<R: Threads + Wait + Sync, G: Gate + Sync>(
    rt: &R,
    alloc: Global,
    live: &Live,
    caller: Seat,
    workers: Vec<Seat>,
    commands: Vec<Command>,
    gate: &G,
) -> Ended
    requires own { caller.lock ≡ live_id live.now }
    requires starts { Carries caller commands.items commands.items }
    requires limits { IsTrue (list_all is_command commands.items) }
    requires some { 0 < vec_len workers }
    requires ready { AllByRecursion (IsReady (live_id live.now)) workers.items }
    ensures caller { SameSeat caller result.caller }
    ensures workers { AreBack workers.items result.workers.items }
    ensures room { vec_capacity result.workers ≡ vec_capacity workers }
    ensures finished { result.finished ≡ true → HasFinished result.caller commands.items }
{
    let bell = Bell::new();
    thread::scope(
        thread::scope_env(),
        rt,
        |scope| -> Ended
            requires own { caller.lock ≡ live_id live.now }
            requires starts { Carries caller commands.items commands.items }
            requires limits { IsTrue (list_all is_command commands.items) }
            requires some { 0 < vec_len workers }
            requires ready { AllByRecursion (IsReady (live_id live.now)) workers.items }
            ensures caller { SameSeat caller result.caller }
            ensures workers { AreBack workers.items result.workers.items }
            ensures room { vec_capacity result.workers ≡ vec_capacity workers }
            ensures finished { result.finished ≡ true → HasFinished result.caller commands.items }
        {
            team(
                rt, alloc, scope, live, caller, workers, commands, &bell, gate,
            )
        },
    )
}

/// The same inside a scope. Where a thread can't be started, its seat waits until the history is over, when it makes no calls.
fn team<'s, E, R: Threads + Wait + Sync, G: Gate + Sync>(
    rt: &'s R,
    alloc: Global,
    scope: &Scope<'s, E>,
    live: &'s Live,
    caller: Seat,
    mut workers: Vec<Seat>,
    commands: Vec<Command>,
    bell: &'s Bell,
    gate: &'s G,
) -> Ended
    requires own { caller.lock ≡ live_id live.now }
    requires starts { Carries caller commands.items commands.items }
    requires limits { IsTrue (list_all is_command commands.items) }
    requires some { 0 < vec_len workers }
    requires ready { AllByRecursion (IsReady (live_id live.now)) workers.items }
    ensures caller { SameSeat caller result.caller }
    ensures workers { AreBack workers.items result.workers.items }
    ensures room { vec_capacity result.workers ≡ vec_capacity workers }
    ensures finished { result.finished ≡ true → HasFinished result.caller commands.items }
{
    let Some(seat) = workers.pop() else {
        unreachable!()
    };
    if workers.is_empty() {
        let Led {
            caller,
            worker,
            finished,
        } = lead(rt, alloc, live, caller, seat, commands, bell, gate);
        workers.push_reserved(worker);
        return Ended {
            caller,
            workers,
            finished,
        };
    }
    match scope.spawn_with(
        HandsBack(Snapshot::of(&seat)),
        move || -> Seat
            requires own { seat.lock ≡ live_id live.now }
            requires rests { Rests seat }
            ensures { IsBack seat result }
        { work(rt, alloc, live, seat, bell, gate) },
    ) {
        Ok(child) => {
            let mut ended = team(
                rt, alloc, scope, live, caller, workers, commands, bell, gate,
            );
            ended.workers.push_reserved(child.join(rt));
            ended
        }
        Err(refused) => {
            let mut ended = team(
                rt, alloc, scope, live, caller, workers, commands, bell, gate,
            );
            ended.workers.push_reserved((refused.value)());
            ended
        }
    }
}
