//! When an accepted task runs.

ghost use Rattle.fol_laws.specs.DueLaws.{EachTaskIsDue, NoneNamesItBefore};

/// An accepted task waits for the ticks that its delay says, begun by the regions that then own its chunk; the last of these runs
/// it, once, and its repeat is posted.
pub fn each_task_is_due()
    ensures { EachTaskIsDue }
{}

/// No End up to its acceptance names a task.
pub fn none_names_it_before()
    ensures { NoneNamesItBefore }
{}
