//! A player who builds.

ghost use Rattle.std.specs.Prelude.{◌≡◌};
ghost use Rattle.fol_inbox.specs.Ids.{inbox_id};
ghost use Rattle.fol_server.specs.Crew.{IsSameSender};

use crate::server::Server;
use fol_inbox::Sender;
use fol_model::{Action, BlockPos, chunk_of};
use std::sync::Wait;

/// How many blocks are built.
const BLOCKS: u32 = 60;

/// What is built of.
const BRICK: u16 = 7;

/// Sends a letter for each block, and tells how many it sent. The inbox never takes the lock of the world, so this thread waits for no tick and
/// no turn.
pub fn build<R: Wait>(rt: &R, server: &Server, sender: &mut Sender) -> u32
    requires of { sender.old.inbox ≡ inbox_id server.now.inbox }
    ensures same { IsSameSender sender.old sender.new }
{
    let mut sent = 0;
    for number in 0..BLOCKS {
        if ask_for(rt, server, sender, site(number)) {
            sent += 1;
        }
    }
    sent
}

/// Asks for a block, and tells whether the letter was sent. What a player asks for may lie anywhere, so it is looked at first: the call wants a
/// place within the limits.
#[tactic(auto, unfolding(fol_model::specs::Limits::is_delay, fol_model::specs::Limits::is_action, fol_model::specs::Limits::may_post))]
fn ask_for<R: Wait>(rt: &R, server: &Server, sender: &mut Sender, at: BlockPos) -> bool
    requires of { sender.old.inbox ≡ inbox_id server.now.inbox }
    ensures same { IsSameSender sender.old sender.new }
{
    let chunk = chunk_of(at);
    if !chunk.in_range() || !at.in_range() {
        return false;
    }
    let action = Action::Set { at, id: BRICK };
    server.inbox.send(rt, sender, chunk, 1, action).is_ok()
}

/// Where a block is built: in the three towns by turns, along a line.
fn site(number: u32) -> BlockPos {
    let town = (number % 3) as i32;
    let along = (number % 60 / 3) as i32;
    BlockPos {
        x: town * 96 + along % 16,
        y: 64 + along / 16,
        z: 8,
    }
}
