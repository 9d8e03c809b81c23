//! The commands of all shares, gone over in order.

ghost use Rattle.std.specs.Prelude.{◌≡◌, ◌≤◌, ◌++◌, All, List, flat_map, map, IfOk, IsOk};
ghost use Rattle.fol_model.specs.Texts.{command_row};
ghost use Rattle.fol_script.specs.Shares.{AreInOrder, LeadOn, MayFollow, commands_of};

use crate::script_lines::Before;
use crate::share::Unread;
use fol_model::Command;
use std::alloc::Global;

/// How many commands the shares have.
fn count(shares: &[Result<Vec<Command>, Unread>]) -> usize {
    let mut sum: usize = 0;
    for share in shares {
        if let Ok(commands) = share {
            sum = sum.saturating_add(commands.len());
        }
    }
    sum
}

/// Takes a command into account behind those before it, unless it may not stand there.
fn follow(command: &Command, before: &mut Before) -> Result<(), Unread>
    requires ticks { before.old.ticks ≤ 10000 }
    requires times { before.old.times ≤ 1000000 }
    ensures { IfOk result (λ _. MayFollow (command_row command.now) before.old before.new) }
{
    match command {
        Command::Run(ticks) => {
            let ticks = *ticks as u64;
            if before.running || before.ticks + ticks > 10_000 {
                return Err(Unread);
            }
            before.ticks += ticks;
            before.running = true;
        }
        Command::Every { count, .. } => {
            let count = *count as u64;
            if before.times + count > 1_000_000 {
                return Err(Unread);
            }
            before.times += count;
        }
        Command::End => {
            if !before.running {
                return Err(Unread);
            }
            before.running = false;
        }
        _ => {}
    }
    Ok(())
}

/// Adds the commands of a share behind those of the shares before it, unless one of them may not stand there.
///
/// Those of the first one stay where they lie, where room is made for as many as all have.
fn add_share(
    mut share: Vec<Command>,
    room: usize,
    before: &mut Before,
    commands: &mut Vec<Command>,
) -> Result<(), Unread>
    requires { LeadOn (map command_row commands.old.items) before.old }
    ensures items { IfOk result (λ _. commands.new.items ≡ commands.old.items ++ share.items) }
    ensures leads { IfOk result (λ _. LeadOn (map command_row commands.new.items) before.new) }
{
    for command in &share {
        follow(command, before)?;
    }
    if commands.is_empty() {
        *commands = share;
        commands.reserve(room)?;
    } else {
        commands.append(&mut share)?;
    }
    Ok(())
}

/// The commands of all shares, one behind the other, where each may stand behind those before it and no run is left open.
pub fn gather(
    alloc: Global,
    shares: Vec<Result<Vec<Command>, Unread>>,
) -> Result<Vec<Command>, Unread>
    ensures items { IfOk result (λ v. v.items ≡ flat_map commands_of shares.items) }
    ensures read { IfOk result (λ _. All IsOk shares.items) }
    ensures order { IfOk result (λ v. AreInOrder (map command_row v.items)) }
{
    let mut before = Before {
        running: false,
        ticks: 0,
        times: 0,
    };
    let room = count(shares.as_slice());
    let mut commands = Vec::new(alloc);
    for share in shares {
        add_share(share?, room, &mut before, &mut commands)?;
    }
    if before.running {
        return Err(Unread);
    }
    Ok(commands)
}
