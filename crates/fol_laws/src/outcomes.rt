//! The outcomes that an End lists.

ghost use Rattle.fol_laws.specs.OutcomeLaws.{DueTasksRise, OutcomesGiveTheTickAgain};

/// The due tasks of a tick rise by number.
pub fn due_tasks_rise()
    ensures { DueTasksRise }
{}

/// The outcomes of a tick, given back to it, give the same tick.
pub fn outcomes_give_the_tick_again()
    ensures { OutcomesGiveTheTickAgain }
{}
