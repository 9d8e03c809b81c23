//! The replay of a whole list of events.

ghost use Rattle.std.specs.Prelude.{◌≡◌, ◌≤◌, ◌++◌, ◌∷◌, [], false, List, IfOk, length};
ghost use Rattle.fol_model.specs.declared.events.Entry.{Entry as EntryOf};
ghost use Rattle.fol_events.specs.InRange.{AllInRange};
ghost use Rattle.fol_report_laws.specs.Laws.{events};
ghost use Rattle.fol_check.specs.Playing.{Plays};
ghost use Rattle.fol_check.specs.Replays.{Closes, LastFinishes, Replays, is_last};
ghost use Rattle.fol_check.specs.Standing.{Stands};
ghost use Rattle.fol_model.specs.Packed.{event_seen};

use crate::replay::Replay;
use fol_core::CloseFault;
use fol_model::{Closing, EventRef, Opening, PackedEntry, Script, Sequence};
use std::alloc::{AllocError, Global};
use std::collections::VecDeque;

/// What a replay of events came to.
#[derive(Drop)]
pub(crate) enum Replayed {
    /// They are a legal history of the script, with this closing.
    Whole(Closing),
    /// The events before the one with this number, counted from 1, are the beginning of a history of the script, and with it they are not.
    /// It is one more than there are where they are such a beginning, and the last is not Finish.
    Stops(u64),
}

/// Replays the events of a history on the world of an opening, as a history of a script that at most 64 workers run.
pub(crate) fn replay_events(
    alloc: Global,
    opening: Opening,
    script: Script,
    history: Sequence<PackedEntry>,
) -> Result<Replayed, AllocError>
    requires few { length history ≤ 16777216 }
    requires in_range { AllInRange history }
    ensures { IfOk result (λ r. Replays opening script (events history) r) }
{
    let mut replay = Replay::start(alloc, opening, script)?;
    match replay.play(alloc, history) {
        Ok(None) => Ok(Replayed::Whole(replay.close(alloc)?)),
        Ok(Some(place)) => {
            drop(replay);
            Ok(Replayed::Stops(place))
        }
        Err(error) => {
            drop(replay);
            Err(error)
        }
    }
}

impl Replay {
    /// Goes on by the events of a history. Tells the number, counted from 1, of the one with which it is not the beginning of a history of the
    /// script, or one more than there are where the last is not Finish; or none where it is a whole history.
    fn play(
        &mut self,
        alloc: Global,
        history: Sequence<PackedEntry>,
    ) -> Result<Option<u64>, AllocError>
        requires few { length history ≤ 16777216 }
        requires in_range { AllInRange history }
        requires stands { Stands self.old }
        requires none { self.old.core.history ≡ [] }
        ensures { IfOk result (λ stop. Plays self.old self.new (events history) stop) }
    {
        let mut left = VecDeque::from_vec(history.into_vec());
        let mut place: u64 = 1;
        'events: while let Some(entry) = left.pop_front() {
            if !self.step(alloc, entry.into_event(alloc))? {
                return Ok(Some(place));
            }
            place += 1;
        }
        if !self.is_finished() {
            return Ok(Some(place));
        }
        Ok(None)
    }

    /// Whether the last event is Finish.
    fn is_finished(&self) -> bool
        ensures some { (hs : List EntryOf) (e : EntryOf) → self.now.core.history ≡ hs ++ e ∷ []
            → result ≡ is_last e.event }
        ensures none { self.now.core.history ≡ [] → result ≡ false }
    {
        match self.core.history().last() {
            Some(entry) => is_finish(entry.event()),
            None => false,
        }
    }

    /// The closing of a history that is finished.
    fn close(self, alloc: Global) -> Result<Closing, AllocError>
        requires stands { Stands self }
        requires finished { LastFinishes self.core.history }
        ensures { IfOk result (λ c. Closes self c) }
    {
        let Replay {
            core,
            script: _,
            next: _,
            workers: _,
        } = self;
        match core.closing(alloc) {
            Ok(closing) => Ok(closing),
            Err(CloseFault::NoMemory) => Err(AllocError),
            Err(CloseFault::Ticking(_)) => unreachable!(),
        }
    }
}

/// Whether the event is Finish.
fn is_finish(event: EventRef) -> bool
    ensures { result ≡ is_last (event_seen event.entry) }
{
    match event {
        EventRef::Finish => true,
        _ => false,
    }
}
