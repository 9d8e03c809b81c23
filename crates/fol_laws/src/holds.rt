//! What the holds of a chunk count.

ghost use Rattle.fol_laws.specs.HoldCounts.{HoldsAreCounted, EachTaskIsOwned};

/// The hold count of a chunk is its tickets plus its tasks that are queued or taken.
pub fn holds_are_counted()
    ensures { HoldsAreCounted }
{}

/// The section of each task's chunk has an owner.
pub fn each_task_is_owned()
    ensures { EachTaskIsOwned }
{}
