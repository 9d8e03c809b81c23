//! The printer of worlds.

ghost use Rattle.std.specs.Prelude.{◌≡◌, ◌++◌, List, [], ◌∷◌, OnOk, IfOk, map};
ghost use Rattle.fol_model.specs.Texts.{IsWorldText, item_row, grid_row};
ghost use Rattle.fol_model.specs.Texts as item;
ghost use Rattle.fol_text_laws.specs.Printed.{line_text, rows_text, world_text};
ghost use Rattle.fol_script.specs.WorldRows.{version_row};

use crate::printing::push_row;
use crate::value_cells::{push_block, push_natural, push_number};
use fol_model::{BlockAt, Cell, Entity, Grid, Keyword, Opening};
use std::alloc::{AllocError, Global};

/// Adds the line of the version.
fn push_version(out: &mut Vec<u8>, version: u8, cells: &mut Vec<Cell>) -> Result<(), AllocError>
    ensures { OnOk result (out.new.items ≡ out.old.items ++ line_text (version_row version)) }
{
    cells.clear();
    push_natural(cells, u32::from(version))?;
    push_row(out, Keyword::World, cells)
}

/// Adds the line of the grid.
fn push_grid(out: &mut Vec<u8>, grid: &Grid, cells: &mut Vec<Cell>) -> Result<(), AllocError>
    ensures { OnOk result (out.new.items ≡ out.old.items ++ line_text (grid_row grid.now)) }
{
    cells.clear();
    push_natural(cells, u32::from(grid.shift))?;
    push_natural(cells, u32::from(grid.create))?;
    push_natural(cells, u32::from(grid.merge))?;
    push_natural(cells, grid.min)?;
    push_natural(cells, grid.num)?;
    push_natural(cells, grid.den)?;
    push_row(out, Keyword::Grid, cells)
}

/// Adds the line of a block.
fn push_block_line(
    out: &mut Vec<u8>,
    block: &BlockAt,
    cells: &mut Vec<Cell>,
) -> Result<(), AllocError>
    ensures { OnOk result (out.new.items
        ≡ out.old.items ++ line_text (item_row (item.block block.now))) }
{
    cells.clear();
    push_block(cells, block.at)?;
    push_natural(cells, u32::from(block.id))?;
    push_row(out, Keyword::Block, cells)
}

/// Adds the line of an entity.
fn push_entity_line(
    out: &mut Vec<u8>,
    entity: &Entity,
    cells: &mut Vec<Cell>,
) -> Result<(), AllocError>
    ensures { OnOk result (out.new.items
        ≡ out.old.items ++ line_text (item_row (item.entity entity.now))) }
{
    cells.clear();
    push_natural(cells, entity.id)?;
    push_block(cells, entity.at)?;
    push_number(cells, entity.vx)?;
    push_number(cells, entity.vz)?;
    push_row(out, Keyword::Entity, cells)
}

/// Adds the lines of all blocks.
fn push_blocks(
    out: &mut Vec<u8>,
    blocks: &[BlockAt],
    cells: &mut Vec<Cell>,
) -> Result<(), AllocError>
    ensures { OnOk result (out.new.items
        ≡ out.old.items ++ rows_text (map item_row (map item.block blocks.now))) }
{
    for block in blocks {
        push_block_line(out, block, cells)?;
    }
    Ok(())
}

/// Adds the lines of all entities.
fn push_entities(
    out: &mut Vec<u8>,
    entities: &[Entity],
    cells: &mut Vec<Cell>,
) -> Result<(), AllocError>
    ensures { OnOk result (out.new.items
        ≡ out.old.items ++ rows_text (map item_row (map item.entity entities.now))) }
{
    for entity in entities {
        push_entity_line(out, entity, cells)?;
    }
    Ok(())
}

/// The text of an opening, with no skipped line: the version, the grid, the blocks in order of (x, y, z), the entities by id.
///
/// It is the opening's text. Fails only when out of memory.
pub fn print_world(alloc: Global, opening: &Opening) -> Result<Vec<u8>, AllocError>
    ensures text { IfOk result (λ v. v.items ≡ world_text opening.now) }
    ensures reads { IfOk result (λ v. IsWorldText v.items opening.now) }
{
    let mut out = Vec::new(alloc);
    let mut cells = Vec::new(alloc);
    push_version(&mut out, opening.version, &mut cells)?;
    push_grid(&mut out, &opening.grid, &mut cells)?;
    push_blocks(&mut out, opening.blocks.as_slice(), &mut cells)?;
    push_entities(&mut out, opening.entities.as_slice(), &mut cells)?;
    Ok(out)
}
