//! What a task does.

ghost use Rattle.std.specs.Prelude.{◌≡◌, IfOk};

use crate::{BlockPos, ChunkPos, Entity};
use std::alloc::{AllocError, Global};
use std::marker::Model;
use std::sync::Arc;

/// What a task does in a tick.
#[derive(Drop)]
#[cycle(action)]
pub enum Action {
    /// Gives a block a number, where its chunk is recorded.
    Set {
        at: BlockPos,
        id: u16,
    },
    /// Gives the block `to` the number that `at` has now, where both chunks are recorded.
    Copy {
        at: BlockPos,
        to: BlockPos,
    },
    /// Adds a ticket to a chunk, at once.
    Load(ChunkPos),
    /// Takes a ticket from a chunk, at once.
    Unload(ChunkPos),
    /// Asks for a task, which is accepted at the end of the tick.
    Post {
        chunk: ChunkPos,
        delay: u32,
        action: Nested,
    },
    /// Sends an entity to a block, where it stands in a recorded chunk.
    Send {
        entity: u32,
        to: BlockPos,
    },
    /// The entity that was sent arrives. Made by `Send` alone.
    Arrive(Entity),
    /// Does the inner action, and asks for itself again after `period` ticks where `left` is 2 or more.
    Every {
        period: u32,
        left: u32,
        action: Nested,
    },
}

/// An action inside another, which all its copies share. Contracts see its deed: what stands round it, from the outside in, and what it does.
#[derive(Drop)]
#[cycle(action)]
pub struct Nested {
    shared: Arc<Action, Global>,
}

impl Model for Nested {
    ghost use Rattle.std.specs.Prelude.{length};
    ghost use Rattle.fol_model.specs.Deed.{Deed};

    ghost Value = { Deed };

    ghost use Rattle.fol_model.specs.Nesting.{deed_of};

    ghost view = { λ a. deed_of a.shared.value };

    ghost size = { λ d. length d.wraps };

    ghost use Rattle.std.proofs.Common.{arith};

    ghost size_decreases = { λ a h. Prim.grind (arith) };
}

impl Nested {
    ghost use Rattle.std.specs.Prelude.{◌≡◌, IfOk};
    ghost use Rattle.fol_model.specs.Nesting.{deed_of};

    /// Puts an action inside another.
    pub fn new(alloc: Global, action: Action) -> Result<Nested, AllocError>
        ensures { IfOk result (λ n. n ≡ deed_of action) }
    {
        Ok(Nested {
            shared: Arc::new(alloc, action)?,
        })
    }

    /// An equal one, which shares the action with this one. Takes no memory, and fails only where more than 2^63 share it.
    pub fn share(&self) -> Result<Nested, AllocError>
        ensures { IfOk result (λ n. n ≡ self.now) }
    {
        Ok(Nested {
            shared: Arc::try_clone(&self.shared)?,
        })
    }

    /// The action.
    pub fn get(&self) -> &Action
        ensures { deed_of result.now ≡ self.now }
    {
        &*self.shared
    }
}

impl Action {
    /// An equal action, which shares with this one what is inside both. Takes no memory, and fails only where more than 2^63 share that.
    pub fn copy(&self) -> Result<Action, AllocError>
        ensures { IfOk result (λ a. a ≡ self.now) }
    {
        Ok(match self {
            Action::Set { at, id } => Action::Set { at: *at, id: *id },
            Action::Copy { at, to } => Action::Copy { at: *at, to: *to },
            Action::Load(chunk) => Action::Load(*chunk),
            Action::Unload(chunk) => Action::Unload(*chunk),
            Action::Post {
                chunk,
                delay,
                action,
            } => Action::Post {
                chunk: *chunk,
                delay: *delay,
                action: action.share()?,
            },
            Action::Send { entity, to } => Action::Send {
                entity: *entity,
                to: *to,
            },
            Action::Arrive(entity) => Action::Arrive(*entity),
            Action::Every {
                period,
                left,
                action,
            } => Action::Every {
                period: *period,
                left: *left,
                action: action.share()?,
            },
        })
    }
}
