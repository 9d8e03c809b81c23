//! What a machine must know of the end of a tick, from the definitions alone.
//!
//! The model ends a tick as one step on one flat world. A machine has part of the world in a worker's hands meanwhile: the contents of
//! the recorded chunks, and the tasks that were queued on the region's sections at the Begin. The laws here say that these tasks are
//! the same at the End as at the Begin, that what the worker made of the contents at the Begin is what the End makes of the world as
//! it is then, and that what the End does at once can be done in turn: holds dropped one by one, owed numbers compared one by one.
//!
//! Each law is the contract of a function with an empty body. It serves the core.
#![tactic(auto)]

ghost use Rattle.fol_end_laws.specs.DroppedHolds.{HoldsDropInTurn};
ghost use Rattle.fol_end_laws.specs.FinishedTick.{EndKeepsTheRest, FinishedTickIsTheEnd, TasksKeepTheRest};
ghost use Rattle.fol_end_laws.specs.KeptQueue.{QueueIsKept};
ghost use Rattle.fol_end_laws.specs.OwedMost.{GreatestIsFoundInTurn};
ghost use Rattle.fol_end_laws.specs.SentEntities.{SentStandNowhere};

/// From the Begin of a region to its End, the tasks that were queued on its sections stay as they are.
pub fn queue_is_kept()
    ensures { QueueIsKept }
{}

/// A tick that ran on the contents of its recorded chunks at the Begin has the outcomes, the wishes and the contents of the End.
pub fn finished_tick_is_the_end()
    ensures { FinishedTickIsTheEnd }
{}

/// The tasks of a tick, and the movement after them, change no block and no entity outside the recorded chunks.
pub fn tasks_keep_the_rest()
    ensures { TasksKeepTheRest }
{}

/// An End changes no block and no entity outside the chunks that its tick recorded.
pub fn end_keeps_the_rest()
    ensures { EndKeepsTheRest }
{}

/// The holds of the due tasks may be dropped one after another.
pub fn holds_drop_in_turn()
    ensures { HoldsDropInTurn }
{}

/// An entity that a tick sends away stands nowhere until its wish is answered.
pub fn sent_stand_nowhere()
    ensures { SentStandNowhere }
{}

/// The greatest owed number may be found region by region.
pub fn greatest_is_found_in_turn()
    ensures { GreatestIsFoundInTurn }
{}
