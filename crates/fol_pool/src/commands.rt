//! What the caller's seat does for the lines of a script, but for the end of a phase.

ghost use Rattle.std.specs.Prelude.{◌≡◌, IfOk, IsTrue, OnOk};
ghost use Rattle.fol_live.specs.Lives.{live_id};
ghost use Rattle.fol_model.specs.declared.actions.Action.TheVariants as actions;
ghost use Rattle.fol_model.specs.declared.scripts.Command.TheVariants as commands;
ghost use Rattle.fol_model.specs.Geometry.{is_chunk};
ghost use Rattle.fol_model.specs.Limits.{is_action, is_delay, may_post};
ghost use Rattle.fol_model.specs.Nesting.{deed_of};
ghost use Rattle.fol_pool.specs.Script.{Finished, Issued};
ghost use Rattle.fol_pool.specs.Works.{SameSeat};

use fol_live::{Finish, Live, LivePhase, Posting, Seat};
use fol_model::{Action, ChunkPos, Loaded, Nested, Unloaded};
use std::alloc::{AllocError, Global};
use std::sync::Wait;

/// A line could not be carried out: memory was not found, or another seat stopped the world.
#[derive(Clone, Copy)]
pub(crate) struct GivesUp;

/// Adds a ticket to a chunk. Counted and Full alike are recorded.
pub(crate) fn load<R: Wait>(
    rt: &R,
    live: &Live,
    caller: &mut Seat,
    chunk: ChunkPos,
) -> Result<(), GivesUp>
    requires own { caller.old.lock ≡ live_id live.now }
    requires zero { caller.old.number ≡ 0 }
    requires in_range { IsTrue (is_chunk chunk) }
    ensures same { SameSeat caller.old caller.new }
    ensures issued { OnOk result (Issued caller.old caller.new (commands.Load chunk)) }
{
    match live.load(rt, caller, chunk) {
        Ok(Loaded::Counted) => Ok(()),
        Ok(Loaded::Full { .. }) => Ok(()),
        Ok(Loaded::Over) | Err(_) => Err(GivesUp),
    }
}

/// Takes a ticket from a chunk. Lowered and NoTicket alike are recorded.
pub(crate) fn unload<R: Wait>(
    rt: &R,
    live: &Live,
    caller: &mut Seat,
    chunk: ChunkPos,
) -> Result<(), GivesUp>
    requires own { caller.old.lock ≡ live_id live.now }
    requires zero { caller.old.number ≡ 0 }
    requires in_range { IsTrue (is_chunk chunk) }
    ensures same { SameSeat caller.old caller.new }
    ensures issued { OnOk result (Issued caller.old caller.new (commands.Unload chunk)) }
{
    match live.unload(rt, caller, chunk) {
        Ok(Unloaded::Lowered) => Ok(()),
        Ok(Unloaded::NoTicket) => Ok(()),
        Ok(Unloaded::Over) | Err(_) => Err(GivesUp),
    }
}

/// Asks for a task. Posted and Full alike are recorded.
pub(crate) fn post<R: Wait>(
    rt: &R,
    live: &Live,
    caller: &mut Seat,
    chunk: ChunkPos,
    delay: u32,
    action: Action,
) -> Result<(), GivesUp>
    requires own { caller.old.lock ≡ live_id live.now }
    requires zero { caller.old.number ≡ 0 }
    requires in_range { IsTrue (is_chunk chunk) }
    requires delay { IsTrue (is_delay delay) }
    requires action { IsTrue (is_action action) }
    requires may_be_posted { IsTrue (may_post action) }
    ensures same { SameSeat caller.old caller.new }
    ensures issued { OnOk result (Issued caller.old caller.new (commands.Post chunk delay action)) }
{
    match live.post(rt, caller, chunk, delay, action) {
        Ok(Posting::Posted(_)) => Ok(()),
        Ok(Posting::Full { .. }) => Ok(()),
        Ok(Posting::Over(_)) | Err(_) => Err(GivesUp),
    }
}

/// What a task does that runs `count` times, `period` ticks apart. Fails only when out of memory.
pub(crate) fn repeated(
    alloc: Global,
    period: u32,
    count: u32,
    action: Action,
) -> Result<Action, AllocError>
    ensures { IfOk result (λ a. a ≡ actions.Every period count (deed_of action)) }
{
    let action = Nested::new(alloc, action)?;
    Ok(Action::Every {
        period,
        left: count,
        action,
    })
}

/// Opens a phase.
pub(crate) fn open_phase<R: Wait>(
    rt: &R,
    live: &Live,
    caller: &mut Seat,
    ticks: u32,
) -> Result<(), GivesUp>
    requires own { caller.old.lock ≡ live_id live.now }
    requires zero { caller.old.number ≡ 0 }
    ensures same { SameSeat caller.old caller.new }
    ensures issued { OnOk result (Issued caller.old caller.new (commands.Run ticks)) }
{
    match live.open_phase(rt, caller, ticks) {
        Ok(LivePhase::Opened) => Ok(()),
        Ok(LivePhase::InPhase | LivePhase::TooMany(_) | LivePhase::Over) | Err(_) => Err(GivesUp),
    }
}

/// Finishes the history.
pub(crate) fn finish<R: Wait>(rt: &R, live: &Live, caller: &mut Seat) -> Result<(), GivesUp>
    requires own { caller.old.lock ≡ live_id live.now }
    requires zero { caller.old.number ≡ 0 }
    ensures same { SameSeat caller.old caller.new }
    ensures finished { OnOk result (Finished caller.old caller.new) }
{
    match live.finish(rt, caller) {
        Ok(Finish::Finished) => Ok(()),
        Ok(Finish::InPhase | Finish::Over) | Err(_) => Err(GivesUp),
    }
}
