//! What any list of calls on one tick comes to.
//!
//! A call that finds no memory leaves a run of the tick that it was given, and the next call goes on from there. By these laws the
//! calls together come to one run, whose answered calls are those of each in order, and the call that is Ok to the whole tick.

ghost use Rattle.fol_tick.specs.Laws.{NothingRuns, RunsFollow, EndFollows, EndIsFlatTick};

/// A tick that is not finished is itself after no task and no call.
pub fn nothing_runs()
    ensures { NothingRuns }
{}

/// A run behind a run is one run, and its calls are those of both.
pub fn runs_follow()
    ensures { RunsFollow }
{}

/// The end of a tick behind a run is the end of the tick before that run.
pub fn end_follows()
    ensures { EndFollows }
{}

/// A tick that had run nothing ends as the flat tick, with the outcomes by the host's answers.
pub fn end_is_flat_tick()
    ensures { EndIsFlatTick }
{}
