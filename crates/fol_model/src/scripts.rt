//! What a script asks for.

use crate::{Action, ChunkPos, Sequence};
use std::marker::Model;

/// One line of a script.
#[derive(Drop)]
pub enum Command {
    /// Adds a ticket to a chunk.
    Load(ChunkPos),
    /// Takes a ticket from a chunk.
    Unload(ChunkPos),
    /// Asks for a task, which runs in the `delay`-th tick from now of the region that then owns its chunk.
    Post {
        chunk: ChunkPos,
        delay: u32,
        action: Action,
    },
    /// Asks for a task that runs `count` times, first after `delay` ticks and then after `period` ticks each time.
    Every {
        chunk: ChunkPos,
        delay: u32,
        period: u32,
        count: u32,
        action: Action,
    },
    /// Opens a phase of so many ticks.
    Run(u32),
    /// Waits until the phase can close, and closes it.
    End,
}

/// The commands of a script, in order. Contracts see their list.
///
/// In every value each command is within the limits of its line, `Run` and `End` alternate with `Run` first and `End` last, all
/// runs together have at most 10,000 ticks, and all counts of `Every` together are at most 1,000,000.
#[derive(Drop)]
pub struct Script {
    /// One for each line, in order.
    pub commands: Sequence<Command>,
}

impl Model for Script {
    ghost use Rattle.std.specs.Prelude.{List};
    ghost use Rattle.fol_model.specs.declared.scripts.Command.{Command};
    ghost use Rattle.fol_model.specs.IsScript.{IsScript};

    ghost Value = { List Command };

    ghost view = { λ s. s.commands };

    ghost invariant = { λ s. IsScript s.commands };
}
