//! What the workers do in a replay.

ghost use Rattle.std.specs.Prelude.{◌≡◌, ◌↔◌, ◌<◌, ◌≤◌, [], ◌∷◌, ◌++◌, List, IsTrue, IfOk, vec_len};
ghost use Rattle.fol_model.specs.Geometry.{is_chunk};
ghost use Rattle.fol_model.specs.Run.{Run};
ghost use Rattle.fol_model.specs.declared.events.Entry.{Entry as EntryOf};
ghost use Rattle.fol_model.specs.declared.events.Event.TheVariants as events;
ghost use Rattle.fol_check.specs.Standing.{EndsWith, Goes, HasAsked, Noted, Notes, Stands};
ghost use Rattle.fol_model.specs.Packed.{event_seen};

use crate::asks::{Ask, Open, opened};
use crate::phases::{is_loaded, is_unloaded};
use crate::replay::{Replay, WORKERS};
use fol_core::BeginAnswer;
use fol_model::{Accept, ChunkPos, EventRef, Loaded, PackedEntry, Ran, Sequence, Unloaded};
use fol_tick::HostAnswer;
use std::alloc::{AllocError, Global};

impl Replay {
    /// A load that a tick asked for.
    pub(crate) fn load_in_tick(
        &mut self,
        caller: u32,
        chunk: ChunkPos,
        answer: Loaded,
    ) -> Result<bool, AllocError>
        requires stands { Stands self.old }
        requires in_range { IsTrue (is_chunk chunk) }
        requires worker { 0 < caller }
        ensures { IfOk result (λ went. Goes self.old self.new (events.Load caller chunk answer)
            went) }
    {
        if !self.asks(caller, Ask::Load(chunk)) {
            return Ok(false);
        }
        if !is_loaded(self.core.load(caller, chunk)?, answer) {
            return Ok(false);
        }
        self.note(caller, HostAnswer::Load(answer))?;
        Ok(true)
    }

    /// An unload that a tick asked for.
    pub(crate) fn unload_in_tick(
        &mut self,
        caller: u32,
        chunk: ChunkPos,
        answer: Unloaded,
    ) -> Result<bool, AllocError>
        requires stands { Stands self.old }
        requires in_range { IsTrue (is_chunk chunk) }
        requires worker { 0 < caller }
        ensures { IfOk result (λ went. Goes self.old self.new (events.Unload caller chunk answer)
            went) }
    {
        if !self.asks(caller, Ask::Unload(chunk)) {
            return Ok(false);
        }
        if !is_unloaded(self.core.unload(caller, chunk)?, answer) {
            return Ok(false);
        }
        self.note(caller, HostAnswer::Unload(answer))?;
        Ok(true)
    }

    /// Whether the worker has a tick whose next ask is this one.
    fn asks(&self, worker: u32, ask: Ask) -> bool
        requires all { vec_len self.now.workers ≡ 64 }
        requires worker { 0 < worker }
        ensures { IsTrue result ↔ HasAsked self.now worker ask }
    {
        if worker > WORKERS {
            return false;
        }
        match &self.workers[worker as usize - 1] {
            Some(held) => held.asks_for(ask),
            None => false,
        }
    }

    /// Keeps the answer to the next ask of a worker.
    fn note(&mut self, worker: u32, answer: HostAnswer) -> Result<(), AllocError>
        requires all { vec_len self.old.workers ≡ 64 }
        requires worker { (0 < worker) × (worker ≤ 64) }
        ensures notes { IfOk result (λ _. Notes self.old self.new worker answer) }
        ensures run { Run self.new.core.opening self.new.core.history }
    {
        let _entries = self.core.history();
        note_in(&mut self.workers[worker as usize - 1], answer)
    }

    /// The begin of a tick.
    pub(crate) fn begin(
        &mut self,
        alloc: Global,
        worker: u32,
        region: u64,
    ) -> Result<bool, AllocError>
        requires stands { Stands self.old }
        ensures { IfOk result (λ went. Goes self.old self.new (events.Begin worker region) went) }
    {
        if worker == 0 || worker > WORKERS || self.workers[worker as usize - 1].is_some() {
            return Ok(false);
        }
        if self.core.state(region).is_none() {
            return Ok(false);
        }
        self.core.reserve(alloc, region)?;
        match self.core.begin(worker, worker, region) {
            BeginAnswer::Got(tick) => {
                let held = opened(alloc, tick)?;
                self.workers[worker as usize - 1] = Some(held);
                let _entries = self.core.history();
                Ok(true)
            }
            BeginAnswer::NotReady(_) | BeginAnswer::NotOwing | BeginAnswer::Over => Ok(false),
        }
    }

    /// The end of a tick.
    pub(crate) fn end(
        &mut self,
        alloc: Global,
        worker: u32,
        region: u64,
        tick: u64,
        ran: &Sequence<Ran>,
        accepts: &Sequence<Accept>,
    ) -> Result<bool, AllocError>
        requires stands { Stands self.old }
        ensures { IfOk result (λ went.
            Goes self.old self.new (events.End worker region tick ran.now accepts.now) went) }
    {
        if worker == 0 || worker > WORKERS {
            return Ok(false);
        }
        let held = match self.workers[worker as usize - 1].take() {
            Some(held) => held,
            None => return Ok(false),
        };
        if !held.may_end(region) {
            return Ok(false);
        }
        let done = held.run(alloc)?;
        match self.core.release(alloc, done) {
            Ok(_) => {}
            Err(_) => return Err(AllocError),
        }
        Ok(ends(self.core.history(), tick, ran, accepts))
    }
}

/// Keeps the answer to the next ask of a tick, where there is one.
fn note_in(place: &mut Option<Open>, answer: HostAnswer) -> Result<(), AllocError>
    ensures { IfOk result (λ _. Noted answer place.old place.new) }
{
    match place {
        Some(held) => {
            held.answers.push(answer)?;
            Ok(())
        }
        None => Ok(()),
    }
}

/// Whether the last entry is an End with this counter, these outcomes and these answers.
fn ends(history: &[PackedEntry], tick: u64, ran: &Sequence<Ran>, accepts: &Sequence<Accept>) -> bool
    ensures { (hs : List EntryOf) (e : EntryOf) → history.now ≡ hs ++ e ∷ [] → IsTrue result
        ↔ EndsWith e.event tick ran.now accepts.now }
{
    match history.last() {
        Some(entry) => is_end_with(entry.event(), tick, ran, accepts),
        None => false,
    }
}

/// Whether the event is an End with this counter, these outcomes and these answers.
fn is_end_with(event: EventRef, tick: u64, ran: &Sequence<Ran>, accepts: &Sequence<Accept>) -> bool
    ensures { IsTrue result ↔ EndsWith (event_seen event.entry) tick ran.now accepts.now }
{
    match event {
        EventRef::End {
            tick: t,
            ran: r,
            accepts: a,
            ..
        } => { t == tick && same_ran(r, ran.as_slice()) && same_accepts(a, accepts.as_slice()) }
        _ => false,
    }
}

/// Whether two lists of outcomes are the same.
fn same_ran(a: &[Ran], b: &[Ran]) -> bool
    ensures { IsTrue result ↔ (a.now ≡ b.now) }
{
    a == b
}

/// Whether two lists of answers are the same.
fn same_accepts(a: &[Accept], b: &[Accept]) -> bool
    ensures { IsTrue result ↔ (a.now ≡ b.now) }
{
    a == b
}
