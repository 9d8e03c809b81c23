//! The begin and the end of a phase.

ghost use Rattle.std.specs.Prelude.{◌≡◌, ◌+◌, ◌≤◌, IfOk, OnErr};
ghost use Rattle.fol_core.specs.Meaning.{Stays, world_of};
ghost use Rattle.fol_core.specs.Answers.{CloseRecords, PhaseRecords, close_result, phase_result};

use crate::entries::record;
use crate::machine::Core;
use crate::{Close, Phase};
use fol_model::Event;
use fol_world::agenda::first_busy;
use fol_world::bags::set_owed;
use fol_world::tables::grow_history;
use std::alloc::AllocError;

impl Core {
    /// Opens a phase of `n` ticks: every region then owes `n`. Over exactly where Finish or Stop stands in the history, else InPhase
    /// exactly where a phase is open. Only Opened is recorded. A refusal changes nothing, any readiness included. If
    /// memory runs out, nothing has changed, but a readiness may be lost.
    pub fn open_phase(&mut self, by: u32, n: u32) -> Result<Phase, AllocError>
        requires some { 1 ≤ n }
        requires within { (world_of self.old).sum + n ≤ 10000 }
        ensures answer { IfOk result (λ a. a ≡ phase_result (world_of self.old)) }
        ensures recorded { IfOk result (λ a. PhaseRecords self.old self.new by n a) }
        ensures refused { OnErr result (Stays self.old self.new) }
    {
        if self.tables.course.is_over() {
            return Ok(Phase::Over);
        }
        if self.tables.course.in_phase {
            return Ok(Phase::InPhase);
        }
        let live = self.tables.regions.live(self.alloc)?;
        self.room = None;
        grow_history(&mut self.history, &self.tables.course, self.marks.count())?;
        set_owed(&mut self.tables.store, live.as_slice(), n);
        self.tables.agenda = live;
        record(
            &mut self.history,
            &mut self.tables.course,
            by,
            Event::PhaseOpen(n),
        );
        self.tables.course.in_phase = true;
        self.tables.course.sum += n;
        Ok(Phase::Opened)
    }

    /// Closes the phase. Over exactly where Finish or Stop stands in the history, else NoPhase exactly where no phase is open, else
    /// NotYet exactly where a region ticks, or is Ready and owes a tick, with the lowest such one. Only Closed is recorded. A refusal
    /// changes nothing, any readiness included. If memory runs out, nothing has changed, but a readiness may be lost.
    pub fn close_phase(&mut self, by: u32) -> Result<Close, AllocError>
        ensures answer { IfOk result (λ a. a ≡ close_result (world_of self.old)) }
        ensures recorded { IfOk result (λ a. CloseRecords self.old self.new by a) }
        ensures refused { OnErr result (Stays self.old self.new) }
    {
        if self.tables.course.is_over() {
            return Ok(Close::Over);
        }
        if !self.tables.course.in_phase {
            return Ok(Close::NoPhase);
        }
        let live = self.tables.regions.live(self.alloc)?;
        if let Some(id) = first_busy(&self.tables, live.as_slice()) {
            return Ok(Close::NotYet(id));
        }
        self.room = None;
        grow_history(&mut self.history, &self.tables.course, self.marks.count())?;
        record(
            &mut self.history,
            &mut self.tables.course,
            by,
            Event::PhaseClose,
        );
        self.tables.course.in_phase = false;
        Ok(Close::Closed)
    }
}
