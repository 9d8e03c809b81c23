//! The end of a phase.

ghost use Rattle.std.specs.Prelude.{◌≡◌, OnOk};
ghost use Rattle.fol_live.specs.Lives.{live_id};
ghost use Rattle.fol_model.specs.declared.scripts.Command.TheVariants as commands;
ghost use Rattle.fol_pool.specs.Script.{Issued};
ghost use Rattle.fol_pool.specs.Works.{IsBack, Rests, SameSeat};

use crate::bell::Bell;
use crate::commands::GivesUp;
use crate::patience::Patience;
use crate::tick::ticks;
use fol_io::Gate;
use fol_live::{Close, Live, Seat};
use std::alloc::Global;
use std::sync::Wait;

/// Ticks with a worker's seat, and closes the phase with the caller's, as soon as no region ticks or owes a tick. Hands the worker's
/// seat back.
pub(crate) fn end_phase<R: Wait, G: Gate + Sync>(
    rt: &R,
    alloc: Global,
    live: &Live,
    caller: &mut Seat,
    worker: Seat,
    bell: &Bell,
    gate: &G,
) -> (Seat, Result<(), GivesUp>)
    requires own { caller.old.lock ≡ live_id live.now }
    requires zero { caller.old.number ≡ 0 }
    requires worker_own { worker.lock ≡ live_id live.now }
    requires rests { Rests worker }
    ensures same { SameSeat caller.old caller.new }
    ensures worker { IsBack worker result.0 }
    ensures rests { OnOk result.1 (Rests result.0) }
    ensures issued { OnOk result.1 (Issued caller.old caller.new commands.End) }
{
    let mut worker = worker;
    let mut patience = Patience::of_caller();
    for _turn in rt.forever() {
        let (back, rest) = ticks(rt, alloc, live, worker, &mut patience, gate);
        worker = back;
        match rest {
            Err(_) => return (worker, Err(GivesUp)),
            Ok(_) => match live.close_phase(rt, caller) {
                Ok(Close::Closed) => return (worker, Ok(())),
                Ok(Close::NotYet(_)) => patience.step_back(rt, bell),
                Ok(Close::NoPhase | Close::Over) | Err(_) => return (worker, Err(GivesUp)),
            },
        }
    }
    unreachable!()
}
