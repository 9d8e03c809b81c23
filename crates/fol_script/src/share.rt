//! One share of a script's text, read by itself.

ghost use Rattle.std.specs.Prelude.{◌≡◌, List, true, map, IfOk};
ghost use Rattle.fol_model.specs.TextLines.{lines};
ghost use Rattle.fol_model.specs.Texts.{command_row};
ghost use Rattle.fol_script.specs.ScriptBefore.{is_script};
ghost use Rattle.fol_script.specs.Shares.{AddsLine, SpellEach};

use crate::commands::read_command;
use crate::judge::{Judged, read_line};
use crate::lines::{is_skipped_line, next_line};
use fol_model::{Cell, Command, TextKind};
use std::alloc::{AllocError, Global};

/// A text was not read in shares: a line is bad by itself, or among the lines before it, or memory ran out. Only who reads the
/// whole text knows which.
#[derive(Clone, Copy)]
pub struct Unread;

impl From<AllocError> for Unread {
    fn from(_error: AllocError) -> Unread {
        Unread
    }
}

/// The commands of a share in which no line is bad by itself.
pub fn read_share(alloc: Global, kind: TextKind, share: &[u8]) -> Result<Vec<Command>, Unread>
    requires { is_script kind ≡ true }
    ensures { IfOk result (λ v. SpellEach kind (lines share.now) (map command_row v.items)) }
{
    let mut cells = Vec::new(alloc);
    let mut commands = Vec::new(alloc);
    let mut rest = share;
    while !rest.is_empty() {
        let (line, after) = next_line(rest);
        if !add_line(alloc, kind, line, &mut cells, &mut commands)? {
            return Err(Unread);
        }
        rest = after;
    }
    Ok(commands)
}

/// Adds the command of a line that is not skipped. Gives whether the line is good by itself.
fn add_line(
    alloc: Global,
    kind: TextKind,
    line: &[u8],
    cells: &mut Vec<Cell>,
    commands: &mut Vec<Command>,
) -> Result<bool, AllocError>
    requires { is_script kind ≡ true }
    ensures { IfOk result (λ good. good ≡ true
        → AddsLine kind line.now commands.old.items commands.new.items) }
{
    if is_skipped_line(line) {
        return Ok(true);
    }
    cells.clear();
    match read_line(kind, line, cells)? {
        Judged::Words(key, None) => {
            let command = read_command(alloc, key, cells)?;
            commands.push(command)?;
            Ok(true)
        }
        _ => Ok(false),
    }
}
