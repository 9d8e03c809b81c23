//! The cells of the values that stand in lines.

ghost use Rattle.std.specs.Prelude.{◌≡◌, ◌++◌, List, [], ◌∷◌, OnOk};
ghost use Rattle.fol_model.specs.Nesting.{deed_of};
ghost use Rattle.fol_model.specs.Deed.{post, every};
ghost use Rattle.fol_model.specs.ActionCells.{natural_cell, block_cells, chunk_cells, plain_cells, wrap_cells, deed_cells};

use fol_model::{Action, BlockPos, Cell, ChunkPos, Keyword};
use std::alloc::AllocError;

/// Adds a word.
fn push_key(cells: &mut Vec<Cell>, key: Keyword) -> Result<(), AllocError>
    ensures { OnOk result (cells.new.items ≡ cells.old.items ++ Cell.Word key ∷ []) }
{
    cells.push(Cell::Word(key))?;
    Ok(())
}

/// Adds a number.
pub fn push_number(cells: &mut Vec<Cell>, number: i32) -> Result<(), AllocError>
    ensures { OnOk result (cells.new.items ≡ cells.old.items ++ Cell.Number number ∷ []) }
{
    cells.push(Cell::Number(i64::from(number)))?;
    Ok(())
}

/// Adds a number that is not negative.
pub fn push_natural(cells: &mut Vec<Cell>, number: u32) -> Result<(), AllocError>
    ensures { OnOk result (cells.new.items ≡ cells.old.items ++ natural_cell number ∷ []) }
{
    cells.push(Cell::Number(i64::from(number)))?;
    Ok(())
}

/// Adds the two numbers of a chunk.
pub fn push_chunk(cells: &mut Vec<Cell>, at: ChunkPos) -> Result<(), AllocError>
    ensures { OnOk result (cells.new.items ≡ cells.old.items ++ chunk_cells at) }
{
    push_number(cells, at.x)?;
    push_number(cells, at.z)?;
    Ok(())
}

/// Adds the three numbers of a block.
pub fn push_block(cells: &mut Vec<Cell>, at: BlockPos) -> Result<(), AllocError>
    ensures { OnOk result (cells.new.items ≡ cells.old.items ++ block_cells at) }
{
    push_number(cells, at.x)?;
    push_number(cells, at.y)?;
    push_number(cells, at.z)?;
    Ok(())
}

/// Adds the word `post` with the chunk and the delay of a task.
pub fn push_post(cells: &mut Vec<Cell>, chunk: ChunkPos, delay: u32) -> Result<(), AllocError>
    ensures { OnOk result (cells.new.items ≡ cells.old.items ++ wrap_cells (post chunk delay)) }
{
    push_key(cells, Keyword::Post)?;
    push_chunk(cells, chunk)?;
    push_natural(cells, delay)?;
    Ok(())
}

/// Adds the word `every` with the period and the count of a task.
fn push_every(cells: &mut Vec<Cell>, period: u32, left: u32) -> Result<(), AllocError>
    ensures { OnOk result (cells.new.items ≡ cells.old.items ++ wrap_cells (every period left)) }
{
    push_key(cells, Keyword::Every)?;
    push_natural(cells, period)?;
    push_natural(cells, left)?;
    Ok(())
}

/// Adds what an action does, where nothing stands round it.
fn push_plain(cells: &mut Vec<Cell>, action: &Action) -> Result<(), AllocError>
    requires { (deed_of action.now).wraps ≡ [] }
    ensures { OnOk result (cells.new.items
        ≡ cells.old.items ++ plain_cells (deed_of action.now).plain) }
{
    match action {
        Action::Set { at, id } => {
            push_key(cells, Keyword::Set)?;
            push_block(cells, *at)?;
            push_natural(cells, u32::from(*id))
        }
        Action::Copy { at, to } => {
            push_key(cells, Keyword::Copy)?;
            push_block(cells, *at)?;
            push_block(cells, *to)
        }
        Action::Load(chunk) => {
            push_key(cells, Keyword::Load)?;
            push_chunk(cells, *chunk)
        }
        Action::Unload(chunk) => {
            push_key(cells, Keyword::Unload)?;
            push_chunk(cells, *chunk)
        }
        Action::Send { entity, to } => {
            push_key(cells, Keyword::Send)?;
            push_natural(cells, *entity)?;
            push_block(cells, *to)
        }
        Action::Arrive(entity) => {
            push_key(cells, Keyword::Arrive)?;
            push_natural(cells, entity.id)?;
            push_block(cells, entity.at)
        }
        Action::Post { .. } | Action::Every { .. } => unreachable!(),
    }
}

/// Adds an action, from the outside in.
pub fn push_action(cells: &mut Vec<Cell>, action: &Action) -> Result<(), AllocError>
    ensures { OnOk result (cells.new.items ≡ cells.old.items ++ deed_cells (deed_of action.now)) }
{
    let mut inner = action;
    loop {
        match inner {
            Action::Post {
                chunk,
                delay,
                action,
            } => {
                push_post(cells, *chunk, *delay)?;
                inner = action.get();
            }
            Action::Every {
                period,
                left,
                action,
            } => {
                push_every(cells, *period, *left)?;
                inner = action.get();
            }
            _ => return push_plain(cells, inner),
        }
    }
}
