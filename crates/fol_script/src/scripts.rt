//! The reader of script texts.

ghost use Rattle.std.specs.Prelude.{◌≡◌, ◌≤◌, ◌+◌, List, [], true, map, Option, Some, None, IfOk, MatchResult};
ghost use Rattle.fol_model.specs.TextCauses.{first_bad};
ghost use Rattle.fol_model.specs.TextRows.{Spells};
ghost use Rattle.fol_model.specs.Texts.{IsScriptText, command_row, script_kind};
ghost use Rattle.fol_script.specs.ScriptBefore.{is_script, Stands};
ghost use Rattle.fol_script.specs.ReadText.{IsErrorAt, Leads};

use crate::commands::read_command;
use crate::errors::ReadError;
use crate::lines::{is_skipped_line, next_line};
use crate::script_lines::{Before, take_line};
use crate::taken::Taken;
use fol_model::{Cause, Cell, Command, Script, Sequence, TextKind};
use std::alloc::{AllocError, Global};

/// The text of a script, as the version of its world has it.
pub fn kind_of(version: u8) -> TextKind
    ensures kind { result ≡ script_kind version }
    ensures script { is_script result ≡ true }
{
    if version == 1 {
        TextKind::ScriptOne
    } else {
        TextKind::ScriptTwo
    }
}

/// Takes a line into account, and adds its command; or tells what is wrong with it.
fn take_command(
    alloc: Global,
    kind: TextKind,
    line: &[u8],
    before: &mut Before,
    cells: &mut Vec<Cell>,
    commands: &mut Vec<Command>,
) -> Result<Option<Cause>, AllocError>
    requires kind { is_script kind ≡ true }
    requires stands { Stands (map command_row commands.old.items) before.old }
    ensures { IfOk result (λ c. Leads kind line.now commands.old.items commands.new.items before.new
        c) }
{
    if is_skipped_line(line) {
        return Ok(None);
    }
    cells.clear();
    match take_line(kind, line, cells, before)? {
        Taken::Bad(cause) => Ok(Some(cause)),
        Taken::Row(key) => {
            let command = read_command(alloc, key, cells)?;
            commands.push(command)?;
            Ok(None)
        }
    }
}

/// The commands of a script text, or its first bad line.
fn read_commands(alloc: Global, bytes: &[u8], kind: TextKind) -> Result<Vec<Command>, ReadError>
    requires { is_script kind ≡ true }
    ensures { MatchResult result (λ v. Spells kind bytes.now (map command_row v.items)) (λ e.
        IsErrorAt (first_bad kind bytes.now) e) }
{
    let mut before = Before {
        running: false,
        ticks: 0,
        times: 0,
    };
    let mut cells = Vec::new(alloc);
    let mut commands = Vec::new(alloc);
    let mut rest = bytes;
    let mut line = 1;
    while !rest.is_empty() {
        let (text, after) = next_line(rest);
        match take_command(alloc, kind, text, &mut before, &mut cells, &mut commands)? {
            Some(cause) => return Err(ReadError::BadLine { line, cause }),
            None => {
                rest = after;
                line += 1;
            }
        }
    }
    if before.running {
        return Err(ReadError::BadLine {
            line,
            cause: Cause::Missing,
        });
    }
    Ok(commands)
}

/// The script of this text, as a world of this version reads it.
///
/// Gives a script exactly where the text is that of one, and then that one; else the first bad line and its cause. Returns
/// `NoMemory` where memory runs out, whatever the text. The time is linear in the length of the text.
pub fn read_script(alloc: Global, bytes: &[u8], version: u8) -> Result<Script, ReadError>
    requires low { 1 ≤ version }
    requires high { version ≤ 2 }
    ensures { MatchResult result (λ s. IsScriptText version bytes.now s) (λ e.
        IsErrorAt (first_bad (script_kind version) bytes.now) e) }
{
    let commands = read_commands(alloc, bytes, kind_of(version))?;
    Ok(Script {
        commands: Sequence::of(commands),
    })
}
