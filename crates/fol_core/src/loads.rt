//! Loads and unloads of chunks.

ghost use Rattle.std.specs.Prelude.{◌≡◌, IsTrue, IfOk, OnErr};
ghost use Rattle.fol_model.specs.Geometry.{is_chunk};
ghost use Rattle.fol_laws.specs.LateBegin.{load_touches, unload_touches};
ghost use Rattle.fol_core.specs.Ahead.{Spares};
ghost use Rattle.fol_core.specs.Answers.{LoadRecords, UnloadRecords, load_result, unload_result};
ghost use Rattle.fol_core.specs.Meaning.{Stays, world_of};

use crate::entries::record;
use crate::machine::Core;
use fol_model::{ChunkPos, Event, Loaded, Unloaded};
use fol_world::holds::{loaded, unloaded};
use fol_world::tables::grow;
use std::alloc::AllocError;

impl Core {
    /// Adds a ticket to a chunk; this touches no prepared region. Records the load by this caller with its answer, but at Over, which
    /// comes exactly where the history is finished, and which changes nothing, any readiness included. If memory runs out,
    /// nothing has changed, but a readiness may be lost.
    pub fn load(&mut self, caller: u32, c: ChunkPos) -> Result<Loaded, AllocError>
        requires in_range { IsTrue (is_chunk c) }
        requires spares { Spares self.old (load_touches (world_of self.old).grid c) }
        ensures answer { IfOk result (λ a. a ≡ load_result (world_of self.old) c) }
        ensures recorded { IfOk result (λ a. LoadRecords self.old self.new caller c a) }
        ensures refused { OnErr result (Stays self.old self.new) }
    {
        if self.tables.course.finished {
            return Ok(Loaded::Over);
        }
        self.room = None;
        grow(&mut self.tables, &mut self.history, 0, self.marks.count())?;
        let answer = loaded(&mut self.tables, c);
        let event = Event::Load {
            caller,
            chunk: c,
            answer,
        };
        record(&mut self.history, &mut self.tables.course, caller, event);
        Ok(answer)
    }

    /// Takes a ticket from a chunk; this touches no prepared region. Records the unload by this caller with its answer, but at Over,
    /// which comes exactly where the history is finished, and which changes nothing, any readiness included. If memory runs
    /// out, nothing has changed, but a readiness may be lost.
    pub fn unload(&mut self, caller: u32, c: ChunkPos) -> Result<Unloaded, AllocError>
        requires in_range { IsTrue (is_chunk c) }
        requires spares { Spares self.old (unload_touches (world_of self.old) c) }
        ensures answer { IfOk result (λ a. a ≡ unload_result (world_of self.old) c) }
        ensures recorded { IfOk result (λ a. UnloadRecords self.old self.new caller c a) }
        ensures refused { OnErr result (Stays self.old self.new) }
    {
        if self.tables.course.finished {
            return Ok(Unloaded::Over);
        }
        self.room = None;
        grow(&mut self.tables, &mut self.history, 0, self.marks.count())?;
        let answer = unloaded(&mut self.tables, c);
        let event = Event::Unload {
            caller,
            chunk: c,
            answer,
        };
        record(&mut self.history, &mut self.tables.course, caller, event);
        Ok(answer)
    }
}
