//! One task of a tick.

ghost use Rattle.std.specs.Prelude.{◌≡◌, ◌+◌, ◌≤◌, ◌<◌, List, [], ◌∷◌, All, IsTrue, IsNone, OnErr, IfOk, OnOk, vec_len};
ghost use Rattle.std.specs.Vec.{vec_capacity};
ghost use Rattle.std.specs.List.Sorted.{IsStrictlySortedBy};
ghost use Rattle.fol_model.specs.Limits.{is_action};
ghost use Rattle.fol_model.specs.Geometry.{is_chunk, chunk_of as chunk_around};
ghost use Rattle.fol_model.specs.ActionStep.{stands, at_id, standing_of, plain_of as plain_action_of};
ghost use Rattle.fol_chunks.specs.Order.{chunk_cmp};
ghost use Rattle.fol_chunks.specs.Contents.{flat_of, is_recorded};
ghost use Rattle.fol_tick.specs.Calls.{HostCall, is_hosted, outcome_of_load, outcome_of_unload};
ghost use Rattle.fol_tick.specs.Effects.{Acts, IsCallOf, outcome_given};
ghost use Rattle.fol_tick.specs.MostAsked.{most_asked};
ghost use Rattle.fol_tick.specs.Prepared.{own_in, prepared_of};
ghost use Rattle.fol_tick.specs.Runs.{arrival_of, TasksRan};
ghost use Rattle.fol_tick.specs.Logs.{stage_at};

use crate::host::Host;
use crate::log::OpenLog;
use crate::prepared::{Prepared, plain_of, posted, repeated};
use fol_chunks::Chunks;
use fol_keyed::ChunkSet;
use fol_model::{
    Action, BlockPos, ChunkPos, Entity, Loaded, Outcome, Task, Unloaded, Wish, chunk_of,
};
use std::alloc::{AllocError, Global};

/// What an action came to, and the task that it asks for.
#[derive(Drop)]
pub(crate) struct Effect {
    pub(crate) outcome: Outcome,
    pub(crate) wish: Option<Wish>,
}

/// An effect that asks for no task.
fn quiet(outcome: Outcome) -> Effect
    ensures { result ≡ record { outcome = outcome; wish = None } }
{
    Effect {
        outcome,
        wish: None,
    }
}

/// What a load comes to.
fn load_outcome(answer: Loaded) -> Outcome
    ensures { result ≡ outcome_of_load answer }
{
    match answer {
        Loaded::Full { .. } => Outcome::Full,
        Loaded::Counted | Loaded::Over => Outcome::Done,
    }
}

/// What an unload comes to.
fn unload_outcome(answer: Unloaded) -> Outcome
    ensures { result ≡ outcome_of_unload answer }
{
    match answer {
        Unloaded::NoTicket => Outcome::NoTicket,
        Unloaded::Lowered | Unloaded::Over => Outcome::Done,
    }
}

/// Gives a block of a recorded chunk a number.
fn set(recorded: &ChunkSet, chunks: &mut Chunks, at: BlockPos, id: u16) -> Effect
    requires order { IsStrictlySortedBy chunk_cmp recorded.now }
    requires spare { 1 ≤ chunks.old.spare }
    ensures acts { Acts (is_recorded recorded.now) Outcome.Done (Action.Set at id)
        (flat_of chunks.old) (flat_of chunks.new) result }
    ensures spare { chunks.old.spare ≤ chunks.new.spare + 1 }
{
    if !recorded.has(chunk_of(at)) {
        return quiet(Outcome::Foreign);
    }
    chunks.set(at, id);
    quiet(Outcome::Done)
}

/// Gives a block the number that another has now, where both are in recorded chunks.
fn copy(recorded: &ChunkSet, chunks: &mut Chunks, at: BlockPos, to: BlockPos) -> Effect
    requires order { IsStrictlySortedBy chunk_cmp recorded.now }
    requires spare { 1 ≤ chunks.old.spare }
    ensures acts { Acts (is_recorded recorded.now) Outcome.Done (Action.Copy at to)
        (flat_of chunks.old) (flat_of chunks.new) result }
    ensures spare { chunks.old.spare ≤ chunks.new.spare + 1 }
{
    if !recorded.has(chunk_of(at)) || !recorded.has(chunk_of(to)) {
        return quiet(Outcome::Foreign);
    }
    let id = chunks.get(at);
    chunks.set(to, id);
    quiet(Outcome::Done)
}

/// Whether the entity stands at a block of a recorded chunk.
fn is_here(recorded: &ChunkSet, chunks: &Chunks, id: u32) -> bool
    requires { IsStrictlySortedBy chunk_cmp recorded.now }
    ensures { result ≡ stands (is_recorded recorded.now)
        ((flat_of chunks.now).standing id) }
{
    match chunks.find(id) {
        Some(at) => recorded.has(chunk_of(at)),
        None => false,
    }
}

/// Takes an entity from its block, where that is in a recorded chunk, and asks for its arrival.
fn send(recorded: &ChunkSet, chunks: &mut Chunks, id: u32, to: BlockPos) -> Effect
    requires { IsStrictlySortedBy chunk_cmp recorded.now }
    ensures acts { Acts (is_recorded recorded.now) Outcome.Done (Action.Send id to)
        (flat_of chunks.old) (flat_of chunks.new) result }
    ensures spare { chunks.old.spare ≤ chunks.new.spare }
{
    if !is_here(recorded, chunks, id) {
        return quiet(Outcome::Absent);
    }
    match chunks.take_entity(id) {
        Some(entity) => departure(entity, to),
        None => unreachable!(),
    }
}

/// Asks for the arrival of an entity that left its block.
fn departure(entity: Entity, to: BlockPos) -> Effect
    ensures { result ≡ record {
      outcome = Outcome.Done;
      wish = Some (record {
        chunk = chunk_around to;
        delay = 1;
        action = Action.Arrive (record entity { at = to });
        back = Some entity.at;
      });
    } }
{
    Effect {
        outcome: Outcome::Done,
        wish: Some(Wish {
            chunk: chunk_of(to),
            delay: 1,
            action: Action::Arrive(Entity {
                id: entity.id,
                at: to,
                vx: entity.vx,
                vz: entity.vz,
            }),
            back: Some(entity.at),
        }),
    }
}

/// Lets the entity stand at its block.
fn arrive(chunks: &mut Chunks, entity: Entity) -> Effect
    requires spare { 1 ≤ chunks.old.spare }
    requires fresh { IsNone ((flat_of chunks.old).standing entity.id) }
    ensures flat { flat_of chunks.new
        ≡ record (flat_of chunks.old) {
          standing = at_id (flat_of chunks.old).standing entity.id
              (Some (standing_of entity));
        } }
    ensures effect { result ≡ record { outcome = Outcome.Done; wish = None } }
    ensures spare { chunks.old.spare ≤ chunks.new.spare + 1 }
{
    chunks.put_entity(entity);
    quiet(Outcome::Done)
}

/// Adds a ticket to a chunk.
fn load<H: Host>(alloc: Global, c: ChunkPos, host: &mut H) -> Result<Effect, AllocError>
    requires { IsTrue (is_chunk c) }
    ensures ok { IfOk result (λ e. (calls : List HostCall) × H.reaches host.old calls host.new
        × IsCallOf (Action.Load c) calls
        × (e ≡ record { outcome = outcome_given calls; wish = None })) }
    ensures err { OnErr result (H.reaches host.old [] host.new) }
{
    let answer = host.load(alloc, c)?;
    Ok(quiet(load_outcome(answer)))
}

/// Takes a ticket from a chunk.
fn unload<H: Host>(alloc: Global, c: ChunkPos, host: &mut H) -> Result<Effect, AllocError>
    requires { IsTrue (is_chunk c) }
    ensures ok { IfOk result (λ e. (calls : List HostCall) × H.reaches host.old calls host.new
        × IsCallOf (Action.Unload c) calls
        × (e ≡ record { outcome = outcome_given calls; wish = None })) }
    ensures err { OnErr result (H.reaches host.old [] host.new) }
{
    let answer = host.unload(alloc, c)?;
    Ok(quiet(unload_outcome(answer)))
}

/// Acts on the blocks and entities. Loads and unloads, which need a host, change nothing here.
fn act_here(
    recorded: &ChunkSet,
    chunks: &mut Chunks,
    action: &Action,
    own: Option<Action>,
) -> Effect
    requires order { IsStrictlySortedBy chunk_cmp recorded.now }
    requires spare { 1 ≤ chunks.old.spare }
    requires fresh { All (λ id. IsNone ((flat_of chunks.old).standing id)) (arrival_of action.now) }
    requires own { own ≡ own_in action.now }
    ensures acts { Acts (is_recorded recorded.now) Outcome.Done action.now
        (flat_of chunks.old) (flat_of chunks.new) result }
    ensures spare { chunks.old.spare ≤ chunks.new.spare + 1 }
{
    match action {
        Action::Set { at, id } => set(recorded, chunks, *at, *id),
        Action::Copy { at, to } => copy(recorded, chunks, *at, *to),
        Action::Send { entity, to } => send(recorded, chunks, *entity, *to),
        Action::Arrive(entity) => arrive(chunks, *entity),
        Action::Post { .. } => Effect {
            outcome: Outcome::Done,
            wish: posted(action, own),
        },
        Action::Load(_) | Action::Unload(_) | Action::Every { .. } => quiet(Outcome::Done),
    }
}

/// Does what a task does.
fn act<H: Host>(
    alloc: Global,
    recorded: &ChunkSet,
    chunks: &mut Chunks,
    action: &Action,
    own: Option<Action>,
    host: &mut H,
) -> Result<Effect, AllocError>
    requires order { IsStrictlySortedBy chunk_cmp recorded.now }
    requires spare { 1 ≤ chunks.old.spare }
    requires fresh { All (λ id. IsNone ((flat_of chunks.old).standing id)) (arrival_of action.now) }
    requires limits { IsTrue (is_action action.now) }
    requires own { own ≡ own_in action.now }
    ensures ok { IfOk result (λ e. (calls : List HostCall) × H.reaches host.old calls host.new
        × IsCallOf action.now calls
        × Acts (is_recorded recorded.now) (outcome_given calls) action.now
        (flat_of chunks.old) (flat_of chunks.new) e) }
    ensures refused { OnErr result (H.reaches host.old [] host.new) }
    ensures hosted { OnErr result (IsTrue (is_hosted action.now)) }
    ensures same { OnErr result (chunks.new ≡ chunks.old) }
    ensures spare { chunks.old.spare ≤ chunks.new.spare + 1 }
{
    match action {
        Action::Load(c) => load(alloc, *c, host),
        Action::Unload(c) => unload(alloc, *c, host),
        _ => Ok(act_here(recorded, chunks, action, own)),
    }
}

/// Runs one task: it acts, its outcome goes to the log, and so do the tasks that it asks for.
pub(crate) fn run_task<H: Host>(
    alloc: Global,
    recorded: &ChunkSet,
    chunks: &mut Chunks,
    task: &Task,
    prepared: Prepared,
    log: &mut OpenLog,
    host: &mut H,
) -> Result<(), AllocError>
    requires order { IsStrictlySortedBy chunk_cmp recorded.now }
    requires spare { 1 ≤ chunks.old.spare }
    requires fresh { All (λ id. IsNone ((flat_of chunks.old).standing id))
        (arrival_of (plain_action_of task.now.action)) }
    requires limits { IsTrue (is_action task.now.action) }
    requires prepared { prepared ≡ prepared_of task.now }
    requires room_for_ran { vec_len log.old.ran < vec_capacity log.old.ran }
    requires room_for_wishes { vec_len log.old.wishes + most_asked task.now
        ≤ vec_capacity log.old.wishes }
    ensures ok { OnOk result ((calls : List HostCall) × H.reaches host.old calls host.new
        × TasksRan (is_recorded recorded.now) (task.now ∷ [])
        (stage_at chunks.old log.old) (stage_at chunks.new log.new) calls) }
    ensures refused { OnErr result (H.reaches host.old [] host.new) }
    ensures hosted { OnErr result (IsTrue (is_hosted (plain_action_of task.now.action))) }
    ensures same_chunks { OnErr result (chunks.new ≡ chunks.old) }
    ensures same_log { OnErr result (log.new ≡ log.old) }
    ensures spare { chunks.old.spare ≤ chunks.new.spare + 1 }
    ensures ran_len { vec_len log.new.ran ≤ vec_len log.old.ran + 1 }
    ensures ran_capacity { vec_capacity log.new.ran ≡ vec_capacity log.old.ran }
    ensures wishes_len { vec_len log.new.wishes ≤ vec_len log.old.wishes + most_asked task.now }
    ensures wishes_capacity { vec_capacity log.new.wishes ≡ vec_capacity log.old.wishes }
{
    let Prepared { own, again } = prepared;
    let action = plain_of(&task.action);
    let Effect { outcome, wish } = act(alloc, recorded, chunks, action, own, host)?;
    log.record(task.number, outcome, wish, repeated(task, again));
    Ok(())
}
