//! What caller 0 does in a replay: the commands of the script, and Finish.

ghost use Rattle.std.specs.Prelude.{◌≡◌, ◌≢◌, ◌+◌, ◌<◌, ◌≤◌, ◌↔◌, IsTrue, IfOk, length};
ghost use Rattle.fol_model.specs.Geometry.{is_chunk};
ghost use Rattle.fol_model.specs.Limits.{is_action, is_delay, may_post};
ghost use Rattle.fol_model.specs.Run.{Run};
ghost use Rattle.fol_model.specs.declared.events.Event.TheVariants as events;
ghost use Rattle.fol_core.specs.Answers.{posting_of};
ghost use Rattle.fol_core.specs.Meaning.{world_of};
ghost use Rattle.fol_check.specs.Standing.{Goes, Stands};

use crate::commands::{closes, loads, opens, posts, unloads};
use crate::replay::Replay;
use fol_core::{Close, Finish, Phase, Posting};
use fol_model::{Accept, Action, ChunkPos, Command, Loaded, Unloaded};
use std::alloc::AllocError;

/// How many ticks all phases together may have.
const TICKS: u32 = 10000;

impl Replay {
    /// A load by caller 0.
    pub(crate) fn load(&mut self, chunk: ChunkPos, answer: Loaded) -> Result<bool, AllocError>
        requires stands { Stands self.old }
        requires in_range { IsTrue (is_chunk chunk) }
        ensures { IfOk result (λ went. Goes self.old self.new (events.Load 0 chunk answer) went) }
    {
        if !loads(self.commands(), self.next, chunk) {
            return Ok(false);
        }
        if !is_loaded(self.core.load(0, chunk)?, answer) {
            return Ok(false);
        }
        self.carried_out();
        Ok(true)
    }

    /// An unload by caller 0.
    pub(crate) fn unload(&mut self, chunk: ChunkPos, answer: Unloaded) -> Result<bool, AllocError>
        requires stands { Stands self.old }
        requires in_range { IsTrue (is_chunk chunk) }
        ensures { IfOk result (λ went. Goes self.old self.new (events.Unload 0 chunk answer) went) }
    {
        if !unloads(self.commands(), self.next, chunk) {
            return Ok(false);
        }
        if !is_unloaded(self.core.unload(0, chunk)?, answer) {
            return Ok(false);
        }
        self.carried_out();
        Ok(true)
    }

    /// A post by caller 0.
    pub(crate) fn post(
        &mut self,
        chunk: ChunkPos,
        delay: u32,
        action: Action,
        answer: Accept,
    ) -> Result<bool, AllocError>
        requires stands { Stands self.old }
        requires in_range { IsTrue (is_chunk chunk) }
        requires delay { IsTrue (is_delay delay) }
        requires action { IsTrue (is_action action) }
        requires may_be_posted { IsTrue (may_post action) }
        ensures { IfOk result (λ went.
            Goes self.old self.new (events.Post 0 chunk delay action answer) went) }
    {
        let commands = self.commands();
        if !posts(commands, self.next, chunk, delay, &action) {
            return Ok(false);
        }
        let told = match self.core.post(0, chunk, delay, action) {
            Ok(told) => told,
            Err(_) => return Err(AllocError),
        };
        if !is_told(&told, answer) {
            return Ok(false);
        }
        self.carried_out();
        Ok(true)
    }

    /// The begin of a phase.
    pub(crate) fn open_phase(&mut self, ticks: u32) -> Result<bool, AllocError>
        requires stands { Stands self.old }
        ensures { IfOk result (λ went. Goes self.old self.new (events.PhaseOpen ticks) went) }
    {
        let commands = self.commands();
        if !opens(commands, self.next, ticks) {
            return Ok(false);
        }
        if !self.has_ticks(ticks) {
            return Ok(false);
        }
        match self.core.open_phase(0, ticks)? {
            Phase::Opened => {}
            Phase::InPhase | Phase::Over => return Ok(false),
        }
        self.carried_out();
        Ok(true)
    }

    /// Whether a phase may have so many ticks.
    fn has_ticks(&self, ticks: u32) -> bool
        ensures { IsTrue result ↔ ((1 ≤ ticks) × ((world_of self.now.core).sum + ticks ≤ 10000)) }
    {
        let sum = self.core.phase_ticks();
        1 <= ticks && ticks <= TICKS && sum <= TICKS - ticks
    }

    /// The end of a phase.
    pub(crate) fn close_phase(&mut self) -> Result<bool, AllocError>
        requires stands { Stands self.old }
        ensures { IfOk result (λ went. Goes self.old self.new events.PhaseClose went) }
    {
        if !closes(self.commands(), self.next) {
            return Ok(false);
        }
        match self.core.close_phase(0)? {
            Close::Closed => {}
            Close::NotYet(_) | Close::NoPhase | Close::Over => return Ok(false),
        }
        self.carried_out();
        Ok(true)
    }

    /// The end of the history.
    pub(crate) fn finish(&mut self) -> Result<bool, AllocError>
        requires stands { Stands self.old }
        ensures { IfOk result (λ went. Goes self.old self.new events.Finish went) }
    {
        if self.next < self.commands().len() {
            return Ok(false);
        }
        match self.core.finish(0)? {
            Finish::Finished => {
                let _entries = self.core.history();
                Ok(true)
            }
            Finish::InPhase | Finish::Over => Ok(false),
        }
    }

    /// The commands of the script.
    fn commands(&self) -> &[Command]
        ensures { result.now ≡ self.now.script }
    {
        self.script.commands.as_slice()
    }

    /// One command more is carried out.
    fn carried_out(&mut self)
        requires some { self.old.next < length self.old.script }
        ensures one { self.new ≡ record self.old { next = self.old.next + 1 } }
        ensures run { Run self.new.core.opening self.new.core.history }
    {
        let commands = self.commands().len();
        prove!(self.next < commands);
        self.next += 1;
        let _entries = self.core.history();
    }
}

/// Whether the core told this answer to a load, and recorded it.
pub(crate) fn is_loaded(told: Loaded, answer: Loaded) -> bool
    ensures { IsTrue result ↔ ((told ≡ answer) × (told ≢ Loaded.Over)) }
{
    told == answer && told != Loaded::Over
}

/// Whether the core told this answer to an unload, and recorded it.
pub(crate) fn is_unloaded(told: Unloaded, answer: Unloaded) -> bool
    ensures { IsTrue result ↔ ((told ≡ answer) × (told ≢ Unloaded.Over)) }
{
    told == answer && told != Unloaded::Over
}

/// Whether the core told this answer to a post.
fn is_told(told: &Posting, answer: Accept) -> bool
    ensures { IsTrue result ↔ (told.now ≡ posting_of answer) }
{
    match told {
        Posting::Posted(n) => answer == Accept::Posted(*n),
        Posting::Full { present, wanted } => {
            answer
                == Accept::Full {
                    present: *present,
                    wanted: *wanted,
                }
        }
        Posting::Over(_) => false,
    }
}
