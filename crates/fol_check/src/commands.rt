//! Which command of a script an event of caller 0 carries out.

ghost use Rattle.std.specs.Prelude.{◌≡◌, ◌↔◌, Some, IsTrue};
ghost use Rattle.fol_model.specs.Legal.{close_phase, load_chunk, open_phase, post_task, unload_chunk};
ghost use Rattle.fol_model.specs.Legal.{order as order_of};
ghost use Rattle.fol_model.specs.Nesting.{deed_of};
ghost use Rattle.fol_check.specs.Next.{next_order};

use crate::same::same_action;
use fol_model::{Action, ChunkPos, Command};

/// Whether the next command loads this chunk.
pub(crate) fn loads(commands: &[Command], next: usize, chunk: ChunkPos) -> bool
    ensures { IsTrue result ↔ (next_order commands.now next ≡ Some (load_chunk chunk)) }
{
    match commands.get(next) {
        Some(Command::Load(c)) => *c == chunk,
        _ => false,
    }
}

/// Whether the next command unloads this chunk.
pub(crate) fn unloads(commands: &[Command], next: usize, chunk: ChunkPos) -> bool
    ensures { IsTrue result ↔ (next_order commands.now next ≡ Some (unload_chunk chunk)) }
{
    match commands.get(next) {
        Some(Command::Unload(c)) => *c == chunk,
        _ => false,
    }
}

/// Whether the next command opens a phase of so many ticks.
pub(crate) fn opens(commands: &[Command], next: usize, ticks: u32) -> bool
    ensures { IsTrue result ↔ (next_order commands.now next ≡ Some (open_phase ticks)) }
{
    match commands.get(next) {
        Some(Command::Run(n)) => *n == ticks,
        _ => false,
    }
}

/// Whether the next command closes the phase.
pub(crate) fn closes(commands: &[Command], next: usize) -> bool
    ensures { IsTrue result ↔ (next_order commands.now next ≡ Some close_phase) }
{
    match commands.get(next) {
        Some(Command::End) => true,
        _ => false,
    }
}

/// Whether the next command posts this task.
pub(crate) fn posts(
    commands: &[Command],
    next: usize,
    chunk: ChunkPos,
    delay: u32,
    action: &Action,
) -> bool
    ensures { IsTrue result
        ↔ (next_order commands.now next ≡ Some (post_task chunk delay action.now)) }
{
    match commands.get(next) {
        Some(command) => posts_task(command, chunk, delay, action),
        None => false,
    }
}

/// Whether the command posts this task.
fn posts_task(command: &Command, chunk: ChunkPos, delay: u32, action: &Action) -> bool
    ensures { IsTrue result ↔ (order_of command.now ≡ post_task chunk delay action.now) }
{
    match command {
        Command::Post {
            chunk: c,
            delay: d,
            action: a,
        } => *c == chunk && *d == delay && same_action(a, action),
        Command::Every {
            chunk: c,
            delay: d,
            period,
            count,
            action: a,
        } => *c == chunk && *d == delay && repeats(action, *period, *count, a),
        _ => false,
    }
}

/// Whether the action does another so often, with so many ticks between.
fn repeats(action: &Action, period: u32, count: u32, inner: &Action) -> bool
    ensures { IsTrue result ↔ (action.now ≡ Action.Every period count (deed_of inner.now)) }
{
    match action {
        Action::Every {
            period: p,
            left,
            action: a,
        } => *p == period && *left == count && same_action(a.get(), inner),
        _ => false,
    }
}
