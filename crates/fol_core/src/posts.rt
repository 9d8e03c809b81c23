//! Posts of tasks.

ghost use Rattle.std.specs.Prelude.{◌≡◌, IsTrue, IfOk, IfErr, OnErr};
ghost use Rattle.fol_model.specs.Geometry.{is_chunk};
ghost use Rattle.fol_model.specs.Limits.{is_action, is_delay, may_post};
ghost use Rattle.fol_laws.specs.LateBegin.{post_touches};
ghost use Rattle.fol_core.specs.Ahead.{Spares};
ghost use Rattle.fol_core.specs.Answers.{PostRecords, post_result, posting_of};
ghost use Rattle.fol_core.specs.Meaning.{Stays, world_of};

use crate::Posting;
use crate::entries::{EventBox, event_box, record_in};
use crate::machine::Core;
use fol_model::{Accept, Action, ChunkPos, Event};
use fol_world::posts::posted;
use fol_world::tables::grow;
use std::alloc::{AllocError, Global};

impl Core {
    /// Asks for a task on a chunk, in the `delay`-th tick that the chunk's region then begins; this touches no prepared region. Records
    /// the post by this caller with its answer, but at Over, which comes exactly where the history is finished, hands the action back and
    /// changes nothing, any readiness included. If memory runs out, which hands the action back, nothing has changed, but a
    /// readiness may be lost.
    pub fn post(
        &mut self,
        caller: u32,
        c: ChunkPos,
        delay: u32,
        action: Action,
    ) -> Result<Posting, Action>
        requires in_range { IsTrue (is_chunk c) }
        requires delay { IsTrue (is_delay delay) }
        requires action { IsTrue (is_action action) }
        requires may_be_posted { IsTrue (may_post action) }
        requires spares { Spares self.old (post_touches (world_of self.old).grid c) }
        ensures answer { IfOk result (λ a. a ≡ post_result (world_of self.old) c action) }
        ensures recorded { IfOk result (λ a.
            PostRecords self.old self.new caller c delay action a) }
        ensures back { IfErr result (λ a. a ≡ action) }
        ensures refused { OnErr result (Stays self.old self.new) }
    {
        if self.tables.course.finished {
            return Ok(Posting::Over(action));
        }
        self.room = None;
        match grow(&mut self.tables, &mut self.history, 1, self.marks.count()) {
            Ok(()) => {}
            Err(_) => return Err(action),
        }
        let (copy, memory) = match memory_to_post(self.alloc, &mut self.left, &action) {
            Ok(both) => both,
            Err(_) => return Err(action),
        };
        let answer = posted(&mut self.tables, c, delay, copy);
        let event = Event::Post {
            caller,
            chunk: c,
            delay,
            action,
            answer,
        };
        record_in(
            &mut self.history,
            &mut self.tables.course,
            caller,
            event,
            memory,
            &mut self.left,
        );
        Ok(posting(answer))
    }
}

/// A copy of the action of a post, and memory for its event.
fn memory_to_post(
    alloc: Global,
    left: &mut Option<EventBox>,
    action: &Action,
) -> Result<(Action, EventBox), AllocError>
    ensures { IfOk result (λ both. both.0 ≡ action.now) }
{
    let memory = event_box(alloc, left)?;
    Ok((action.copy()?, memory))
}

/// The answer to a post that was recorded.
fn posting(answer: Accept) -> Posting
    ensures { result ≡ posting_of answer }
{
    match answer {
        Accept::Posted(number) => Posting::Posted(number),
        Accept::Full { present, wanted } => Posting::Full { present, wanted },
    }
}
