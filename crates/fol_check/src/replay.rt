//! A replay of events on a core.

ghost use Rattle.std.specs.Prelude.{ℕ, ◌≡◌, IfOk, IsTrue, vec_len};
ghost use Rattle.fol_model.specs.Geometry.{is_chunk};
ghost use Rattle.fol_model.specs.Limits.{is_action, is_delay, may_post};
ghost use Rattle.fol_model.specs.declared.events.Event.TheVariants as events;
ghost use Rattle.std.proofs.Common.{get_or};
ghost use Rattle.fol_check.specs.Standing.{Goes, Stands, Starts, Went};
ghost use Rattle.fol_check.specs.Next.{MayRecord};

use crate::asks::Open;
use fol_core::Core;
use fol_model::{Accept, Action, ChunkPos, Event, Loaded, Opening, Script, Unloaded};
use std::alloc::{AllocError, Global};

/// How many workers a history may have.
pub(crate) const WORKERS: u32 = 64;

/// A core after the events so far, what is left of the script, and what each worker is at.
#[derive(Drop)]
pub(crate) struct Replay {
    pub(crate) core: Core,
    pub(crate) script: Script,
    /// How many of the commands are carried out.
    pub(crate) next: usize,
    /// The tick of each worker, from worker 1 on, where it has one.
    pub(crate) workers: Vec<Option<Open>>,
}

impl Replay {
    /// A replay before any event.
    pub(crate) fn start(
        alloc: Global,
        opening: Opening,
        script: Script,
    ) -> Result<Replay, AllocError>
        ensures { IfOk result (λ replay. Starts replay opening script) }
    {
        // A proof learns where a field is read that the numbers of the grid are within their limits.
        let _grid = opening.grid;
        let workers = idle_workers(alloc)?;
        let core = Core::start(alloc, opening)?;
        Ok(Replay {
            core,
            script,
            next: 0,
            workers,
        })
    }

    /// Goes on by one event. False exactly where the events so far with this one are not the beginning of a history of the script; the
    /// replay is then of no more use.
    pub(crate) fn step(&mut self, alloc: Global, event: Event) -> Result<bool, AllocError>
        requires stands { Stands self.old }
        requires may { MayRecord event }
        ensures { IfOk result (λ went. Went self.old self.new event went) }
    {
        match event {
            Event::Load {
                caller,
                chunk,
                answer,
            } => self.load_by(caller, chunk, answer),
            Event::Unload {
                caller,
                chunk,
                answer,
            } => self.unload_by(caller, chunk, answer),
            Event::Post {
                caller,
                chunk,
                delay,
                action,
                answer,
            } => self.post_by(caller, chunk, delay, action, answer),
            Event::PhaseOpen(ticks) => self.open_phase(ticks),
            Event::Begin { worker, region } => self.begin(alloc, worker, region),
            Event::End {
                worker,
                region,
                tick,
                ran,
                accepts,
            } => self.end(alloc, worker, region, tick, &ran, &accepts),
            Event::PhaseClose => self.close_phase(),
            Event::Finish => self.finish(),
            Event::Stop { .. } => Ok(false),
        }
    }

    /// A load, by caller 0 or in a tick.
    fn load_by(&mut self, caller: u32, chunk: ChunkPos, answer: Loaded) -> Result<bool, AllocError>
        requires stands { Stands self.old }
        requires in_range { IsTrue (is_chunk chunk) }
        ensures { IfOk result (λ went. Goes self.old self.new (events.Load caller chunk answer)
            went) }
    {
        if caller == 0 {
            self.load(chunk, answer)
        } else {
            self.load_in_tick(caller, chunk, answer)
        }
    }

    /// An unload, by caller 0 or in a tick.
    fn unload_by(
        &mut self,
        caller: u32,
        chunk: ChunkPos,
        answer: Unloaded,
    ) -> Result<bool, AllocError>
        requires stands { Stands self.old }
        requires in_range { IsTrue (is_chunk chunk) }
        ensures { IfOk result (λ went. Goes self.old self.new (events.Unload caller chunk answer)
            went) }
    {
        if caller == 0 {
            self.unload(chunk, answer)
        } else {
            self.unload_in_tick(caller, chunk, answer)
        }
    }

    /// A post, which caller 0 alone makes.
    fn post_by(
        &mut self,
        caller: u32,
        chunk: ChunkPos,
        delay: u32,
        action: Action,
        answer: Accept,
    ) -> Result<bool, AllocError>
        requires stands { Stands self.old }
        requires in_range { IsTrue (is_chunk chunk) }
        requires delay { IsTrue (is_delay delay) }
        requires action { IsTrue (is_action action) }
        requires may_be_posted { IsTrue (may_post action) }
        ensures { IfOk result (λ went.
            Goes self.old self.new (events.Post caller chunk delay action answer) went) }
    {
        if caller == 0 {
            self.post(chunk, delay, action, answer)
        } else {
            Ok(false)
        }
    }
}

/// No worker has a tick.
fn idle_workers(alloc: Global) -> Result<Vec<Option<Open>>, AllocError>
    ensures all { IfOk result (λ v. vec_len v ≡ 64) }
    ensures none { IfOk result (λ v. (k : ℕ) → get_or v.items k None ≡ None) }
{
    let mut workers = Vec::with_capacity(alloc, WORKERS as usize)?;
    'workers: for _worker in 0..WORKERS {
        workers.push(None)?;
    }
    Ok(workers)
}
