//! One line of a world, among the lines before it.

ghost use Rattle.std.specs.Prelude.{◌≡◌, ◌<◌, ◌≤◌, ◌^◌, List, [], true, false, Option, Some, None, IfOk};
ghost use Rattle.std.specs.Ordering.{nat_cmp};
ghost use Rattle.std.specs.List.Sorted.{IsStrictlySortedBy};
ghost use Rattle.std.specs.Map.{keys_of};
ghost use Rattle.fol_model.specs.declared.words.TextKind.TheVariants as kinds;
ghost use Rattle.fol_model.specs.Geometry.{is_block};
ghost use Rattle.fol_model.specs.GridNumbers.{IsGrid};
ghost use Rattle.fol_model.specs.Limits.{is_entity};
ghost use Rattle.fol_model.specs.TextRows.{IsRow};
ghost use Rattle.fol_text_laws.specs.RowValues as tells;
ghost use Rattle.fol_script.specs.WorldBefore.{TakesRow, TakesLine, misplaced_in, spot_cmp};
ghost use Rattle.fol_script.specs.Kept.{entries_in, Keeps};
ghost use Rattle.fol_script.specs.WorldMaps.{spot_of};

use crate::actions::{block_at, coordinate_at, natural_at};
use crate::judge::{Judged, read_line};
use crate::kept::Kept;
use crate::lines::is_skipped_line;
use fol_model::{BlockPos, Cause, Cell, Entity, Grid, Keyword, TextKind};
use std::alloc::AllocError;

/// The place of a block, in the order of x, then of y, then of z.
#[derive(Clone, Copy, PartialEq, Eq, PartialOrd, Ord)]
pub struct Spot {
    pub x: i32,
    pub y: i32,
    pub z: i32,
}

/// What is kept of the lines before a line: the version, the grid, the number that a line gave each block, 0 too, and the
/// entities by id.
#[derive(Drop)]
pub struct WorldBefore {
    pub version: Option<u8>,
    pub grid: Option<Grid>,
    pub blocks: Kept<Spot, u16>,
    pub entities: Kept<u32, Entity>,
}

/// The place of a block as a key.
fn spot_at(at: BlockPos) -> Spot
    ensures { result ≡ spot_of at }
{
    Spot {
        x: at.x,
        y: at.y,
        z: at.z,
    }
}

/// Whether a line with this word may not stand here.
fn is_misplaced(version: Option<u8>, grid: Option<Grid>, key: Keyword) -> bool
    ensures { result ≡ misplaced_in version grid key }
{
    let is_world = match key {
        Keyword::World => true,
        _ => false,
    };
    let is_grid = match key {
        Keyword::Grid => true,
        _ => false,
    };
    match (version, grid) {
        (None, _) => !is_world,
        (Some(_), None) => !is_grid,
        (Some(_), Some(_)) => is_world || is_grid,
    }
}

/// The grid that these cells tell.
fn grid_at(cells: &[Cell]) -> Option<Grid>
    requires { IsGrid (tells.grid_of cells.now) }
    ensures { result ≡ Some (tells.grid_of cells.now) }
{
    Grid::of(
        natural_at(cells, 0) as u8,
        natural_at(cells, 1) as u8,
        natural_at(cells, 2) as u8,
        natural_at(cells, 3),
        natural_at(cells, 4),
        natural_at(cells, 5),
    )
}

/// The entity that these cells tell.
fn entity_at(cells: &[Cell]) -> Entity
    requires { is_entity (tells.entity_of cells.now) ≡ true }
    ensures { result ≡ tells.entity_of cells.now }
{
    Entity {
        id: natural_at(cells, 0),
        at: block_at(cells, 1),
        vx: coordinate_at(cells, 4),
        vz: coordinate_at(cells, 5),
    }
}

/// Keeps the block of a line, and tells whether an earlier line was of the same place.
fn keep_block(cells: &[Cell], blocks: &mut Kept<Spot, u16>) -> Result<bool, AllocError>
    requires within { is_block (tells.block_in_cells 0 cells.now) ≡ true }
    requires id { tells.natural_in 3 cells.now < 2 ^ 16 }
    ensures { IfOk result (λ stood. IsStrictlySortedBy spot_cmp (keys_of (entries_in blocks.old))
        → Keeps spot_cmp (entries_in blocks.old) (entries_in blocks.new)
        (spot_of (tells.block_in_cells 0 cells.now)) (tells.natural_in 3 cells.now) stood) }
{
    let id = natural_at(cells, 3) as u16;
    let stood = blocks.keep(spot_at(block_at(cells, 0)), id)?;
    Ok(stood)
}

/// Keeps the entity of a line, and tells whether an earlier line was of the same id.
fn keep_entity(cells: &[Cell], entities: &mut Kept<u32, Entity>) -> Result<bool, AllocError>
    requires { is_entity (tells.entity_of cells.now) ≡ true }
    ensures { IfOk result (λ stood. IsStrictlySortedBy nat_cmp (keys_of (entries_in entities.old))
        → Keeps nat_cmp (entries_in entities.old) (entries_in entities.new)
        (tells.natural_in 0 cells.now) (tells.entity_of cells.now) stood) }
{
    let entity = entity_at(cells);
    let stood = entities.keep(entity.id, entity)?;
    Ok(stood)
}

/// Keeps what a line tells that is good so far, and tells whether it stood before.
fn take_row(key: Keyword, cells: &[Cell], before: &mut WorldBefore) -> Result<bool, AllocError>
    requires order { misplaced_in before.old.version before.old.grid key ≡ false }
    requires row { IsRow kinds.World (record { key = key; cells = cells.now }) }
    ensures { IfOk result (λ t. TakesRow (record { key = key; cells = cells.now }) before.old
        before.new t) }
{
    match key {
        Keyword::World => {
            before.version = Some(natural_at(cells, 0) as u8);
            Ok(false)
        }
        Keyword::Grid => {
            before.grid = grid_at(cells);
            Ok(false)
        }
        Keyword::Block => {
            let twice = keep_block(cells, &mut before.blocks)?;
            Ok(twice)
        }
        _ => {
            let twice = keep_entity(cells, &mut before.entities)?;
            Ok(twice)
        }
    }
}

/// Takes a line into account, or tells what is wrong with it.
pub fn take_line(
    line: &[u8],
    cells: &mut Vec<Cell>,
    before: &mut WorldBefore,
) -> Result<Option<Cause>, AllocError>
    ensures { IfOk result (λ c. TakesLine line.now before.old before.new c) }
{
    if is_skipped_line(line) {
        return Ok(None);
    }
    cells.clear();
    match read_line(TextKind::World, line, cells)? {
        Judged::Bad(cause) => Ok(Some(cause)),
        Judged::Words(key, fault) => {
            if is_misplaced(before.version, before.grid, key) {
                return Ok(Some(Cause::Order));
            }
            match fault {
                Some(cause) => Ok(Some(cause)),
                None => {
                    let twice = take_row(key, cells, before)?;
                    Ok(if twice { Some(Cause::Twice) } else { None })
                }
            }
        }
    }
}
