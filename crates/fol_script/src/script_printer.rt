//! The printer of scripts.

ghost use Rattle.std.specs.Prelude.{◌≡◌, ◌++◌, List, [], ◌∷◌, OnOk, IfOk, IfSome, map, false};
ghost use Rattle.std.specs.List.{list_any};
ghost use Rattle.fol_model.specs.ActionCells.{natural_cell, chunk_cells, deed_cells};
ghost use Rattle.fol_model.specs.Nesting.{deed_of};
ghost use Rattle.fol_model.specs.Texts.{IsScriptText, command_row};
ghost use Rattle.fol_text_laws.specs.Printed.{line_text, script_text};
ghost use Rattle.fol_text_laws.specs.Laws.{is_repeat};

use crate::printing::push_row;
use crate::value_cells::{push_action, push_chunk, push_natural};
use fol_model::{Action, Cell, ChunkPos, Command, Keyword, Script};
use std::alloc::{AllocError, Global};

/// Adds the chunk, the delay and the action of a task.
fn push_task(
    cells: &mut Vec<Cell>,
    chunk: ChunkPos,
    delay: u32,
    action: &Action,
) -> Result<(), AllocError>
    ensures { OnOk result (cells.new.items ≡ cells.old.items ++ chunk_cells chunk
        ++ natural_cell delay ∷ deed_cells (deed_of action.now)) }
{
    push_chunk(cells, chunk)?;
    push_natural(cells, delay)?;
    push_action(cells, action)
}

/// Adds the chunk, the delay, the period, the count and the action of a repeated task.
fn push_repeated(
    cells: &mut Vec<Cell>,
    chunk: ChunkPos,
    delay: u32,
    period: u32,
    count: u32,
    action: &Action,
) -> Result<(), AllocError>
    ensures { OnOk result (cells.new.items ≡ cells.old.items ++ chunk_cells chunk
        ++ natural_cell delay ∷ natural_cell period ∷ natural_cell count ∷ deed_cells
        (deed_of action.now)) }
{
    push_chunk(cells, chunk)?;
    push_natural(cells, delay)?;
    push_natural(cells, period)?;
    push_natural(cells, count)?;
    push_action(cells, action)
}

/// The word of a command, and its cells into the empty `cells`.
fn command_cells(command: &Command, cells: &mut Vec<Cell>) -> Result<Keyword, AllocError>
    requires { cells.old.items ≡ [] }
    ensures { IfOk result (λ key. command_row command.now
        ≡ record { key = key; cells = cells.new.items }) }
{
    match command {
        Command::Load(chunk) => {
            push_chunk(cells, *chunk)?;
            Ok(Keyword::Load)
        }
        Command::Unload(chunk) => {
            push_chunk(cells, *chunk)?;
            Ok(Keyword::Unload)
        }
        Command::Post {
            chunk,
            delay,
            action,
        } => {
            push_task(cells, *chunk, *delay, action)?;
            Ok(Keyword::Post)
        }
        Command::Every {
            chunk,
            delay,
            period,
            count,
            action,
        } => {
            push_repeated(cells, *chunk, *delay, *period, *count, action)?;
            Ok(Keyword::Every)
        }
        Command::Run(ticks) => {
            push_natural(cells, *ticks)?;
            Ok(Keyword::Run)
        }
        Command::End => Ok(Keyword::End),
    }
}

/// Adds the line of a command.
fn push_command(
    out: &mut Vec<u8>,
    command: &Command,
    cells: &mut Vec<Cell>,
) -> Result<(), AllocError>
    ensures { OnOk result (out.new.items ≡ out.old.items ++ line_text (command_row command.now)) }
{
    cells.clear();
    let key = command_cells(command, cells)?;
    push_row(out, key, cells)
}

/// The lines of these commands.
fn print_commands(alloc: Global, commands: &[Command]) -> Result<Vec<u8>, AllocError>
    ensures { IfOk result (λ v. v.items ≡ script_text commands.now) }
{
    let mut out = Vec::new(alloc);
    let mut cells = Vec::new(alloc);
    for command in commands {
        push_command(&mut out, command, &mut cells)?;
    }
    Ok(out)
}

/// The text of a script, with no skipped line: the only text without one that reads as this script.
///
/// It is the script's text in version 2, and in version 1 too where no task is repeated. Fails only when out of memory.
pub fn print_script(alloc: Global, script: &Script) -> Result<Vec<u8>, AllocError>
    ensures text { IfOk result (λ v. v.items ≡ script_text script.now) }
    ensures reads { IfOk result (λ v. IsScriptText 2 v.items script.now) }
    ensures first { list_any is_repeat script.now ≡ false
        → IfOk result (λ v. IsScriptText 1 v.items script.now) }
{
    let text = print_commands(alloc, script.commands.as_slice())?;
    Ok(text)
}
