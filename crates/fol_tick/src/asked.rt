//! How many tasks the due tasks may ask for.

ghost use Rattle.std.specs.Prelude.{◌≡◌, ◌≤◌, length};
ghost use Rattle.std.specs.List.{sum_by};
ghost use Rattle.std.specs.Option.{option_to_list};
ghost use Rattle.fol_tick.specs.MostAsked.{most_asked, most_posted};
ghost use Rattle.fol_tick.specs.Prepared.{again_in};

use crate::prepared::plain_of;
use fol_model::{Action, Task};

/// How many tasks these ask for at most, whatever the world is like.
pub(crate) fn most_asked(tasks: &[Task]) -> usize
    ensures { result ≡ sum_by most_asked tasks.now }
{
    let mut most = 0;
    for task in tasks {
        most += most_posted(plain_of(&task.action)) + repeats(&task.action);
    }
    most
}

/// How many tasks a plain action asks for at most.
fn most_posted(plain: &Action) -> usize
    ensures value { result ≡ most_posted plain.now }
    ensures few { result ≤ 1 }
{
    match plain {
        Action::Post { .. } | Action::Send { .. } => 1,
        _ => 0,
    }
}

/// 1 where the action runs at least twice, and else 0.
fn repeats(action: &Action) -> usize
    ensures value { result ≡ length (option_to_list (again_in action.now)) }
    ensures few { result ≤ 1 }
{
    match action {
        Action::Every { left, .. } if *left >= 2 => 1,
        _ => 0,
    }
}
