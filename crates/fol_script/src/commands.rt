//! The command that a line of a script tells.

ghost use Rattle.std.specs.Prelude.{◌≡◌, List, drop, true, IfOk};
ghost use Rattle.fol_model.specs.IsScript.{is_command};
ghost use Rattle.fol_text_laws.specs.RowValues as tells;

use crate::actions::{chunk_at, natural_at, read_action};
use fol_model::{Cell, Command, Keyword};
use std::alloc::{AllocError, Global};

/// The cells from the place `n` on.
fn cells_from(cells: &[Cell], n: usize) -> &[Cell]
    ensures { result.now ≡ drop n cells.now }
{
    if n < cells.len() { &cells[n..] } else { &[] }
}

/// The command that these cells tell behind its line word.
pub fn read_command(alloc: Global, key: Keyword, cells: &[Cell]) -> Result<Command, AllocError>
    requires { is_command (tells.command_of key cells.now) ≡ true }
    ensures { IfOk result (λ c. c ≡ tells.command_of key cells.now) }
{
    match key {
        Keyword::Load => Ok(Command::Load(chunk_at(cells, 0))),
        Keyword::Unload => Ok(Command::Unload(chunk_at(cells, 0))),
        Keyword::Post => read_post_line(alloc, cells),
        Keyword::Every => read_every_line(alloc, cells),
        Keyword::Run => Ok(Command::Run(natural_at(cells, 0))),
        _ => Ok(Command::End),
    }
}

/// The command of a line `post`.
fn read_post_line(alloc: Global, cells: &[Cell]) -> Result<Command, AllocError>
    requires { is_command (tells.command_of Keyword.Post cells.now) ≡ true }
    ensures { IfOk result (λ c. c ≡ tells.command_of Keyword.Post cells.now) }
{
    let action = read_action(alloc, cells_from(cells, 3))?;
    Ok(Command::Post {
        chunk: chunk_at(cells, 0),
        delay: natural_at(cells, 2),
        action,
    })
}

/// The command of a line `every`.
fn read_every_line(alloc: Global, cells: &[Cell]) -> Result<Command, AllocError>
    requires { is_command (tells.command_of Keyword.Every cells.now) ≡ true }
    ensures { IfOk result (λ c. c ≡ tells.command_of Keyword.Every cells.now) }
{
    let action = read_action(alloc, cells_from(cells, 5))?;
    Ok(Command::Every {
        chunk: chunk_at(cells, 0),
        delay: natural_at(cells, 2),
        period: natural_at(cells, 3),
        count: natural_at(cells, 4),
        action,
    })
}
