//! The reader of world texts.

ghost use Rattle.std.specs.Prelude.{◌≡◌, List, [], Some, None, IfOk, MatchResult};
ghost use Rattle.fol_model.specs.declared.words.TextKind.TheVariants as kinds;
ghost use Rattle.fol_model.specs.TextCauses.{first_bad};
ghost use Rattle.fol_model.specs.Texts.{IsWorldText};
ghost use Rattle.fol_script.specs.ReadText.{IsErrorAt};
ghost use Rattle.fol_model.specs.OpeningParts.{IsOpening};
ghost use Rattle.fol_script.specs.WorldBefore.{IsRead};
ghost use Rattle.fol_script.specs.Kept.{entries_in};
ghost use Rattle.fol_script.specs.WorldMaps.{stored_blocks, values_of};

use crate::errors::ReadError;
use crate::kept::Kept;
use crate::lines::next_line;
use crate::world_blocks::{blocks_of, entities_of};
use crate::world_lines::{Spot, WorldBefore, take_line};
use fol_model::{Cause, Entity, Grid, Opening, Sequence};
use std::alloc::{AllocError, Global};

/// What all lines of a world text tell, or its first bad line but for a missing one.
fn read_lines(alloc: Global, bytes: &[u8]) -> Result<(WorldBefore, u64), ReadError>
    ensures { MatchResult result (λ r. IsRead bytes.now r.0 r.1) (λ e.
        IsErrorAt (first_bad kinds.World bytes.now) e) }
{
    let mut before = WorldBefore {
        version: None,
        grid: None,
        blocks: Kept::new(alloc),
        entities: Kept::new(alloc),
    };
    let mut cells = Vec::new(alloc);
    let mut rest = bytes;
    let mut line = 1;
    while !rest.is_empty() {
        let (text, after) = next_line(rest);
        match take_line(text, &mut cells, &mut before)? {
            Some(cause) => return Err(ReadError::BadLine { line, cause }),
            None => {
                rest = after;
                line += 1;
            }
        }
    }
    Ok((before, line))
}

/// The opening of this version and grid with what was kept of the lines.
fn make_opening(
    alloc: Global,
    version: u8,
    grid: Grid,
    blocks: Kept<Spot, u16>,
    entities: Kept<u32, Entity>,
) -> Result<Opening, AllocError>
    requires { IsOpening (record {
      version = version;
      grid = grid;
      blocks = stored_blocks (entries_in blocks);
      entities = values_of (entries_in entities);
    }) }
    ensures { IfOk result (λ o. o ≡ record {
      version = version;
      grid = grid;
      blocks = stored_blocks (entries_in blocks);
      entities = values_of (entries_in entities);
    }) }
{
    let blocks = blocks_of(alloc, blocks)?;
    let entities = entities_of(alloc, entities)?;
    Ok(Opening {
        version,
        grid,
        blocks: Sequence::of(blocks),
        entities: Sequence::of(entities),
    })
}

/// The opening that this text is of.
///
/// Gives an opening exactly where the text is that of one, and then that one; else the first bad line and its cause. Returns
/// `NoMemory` where memory runs out, whatever the text. The time is linear in the length of the text where blocks and entities
/// come in order. From the first block that is out of order each is looked up among the earlier ones, in a time that is
/// logarithmic in their number; likewise entities.
pub fn read_world(alloc: Global, bytes: &[u8]) -> Result<Opening, ReadError>
    ensures { MatchResult result (λ o. IsWorldText bytes.now o) (λ e.
        IsErrorAt (first_bad kinds.World bytes.now) e) }
{
    let (before, line) = read_lines(alloc, bytes)?;
    let WorldBefore {
        version,
        grid,
        blocks,
        entities,
    } = before;
    let missing = ReadError::BadLine {
        line,
        cause: Cause::Missing,
    };
    match version {
        None => Err(missing),
        Some(version) => match grid {
            None => Err(missing),
            Some(grid) => Ok(make_opening(alloc, version, grid, blocks, entities)?),
        },
    }
}
