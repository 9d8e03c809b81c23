//! The blocks and entities of a world in their order.

ghost use Rattle.std.specs.Prelude.{◌≡◌, List, map, filter, nat_lt, IfOk};
ghost use Rattle.fol_script.specs.Kept.{entries_in};
ghost use Rattle.fol_script.specs.WorldMaps.{stored_blocks, values_of};

use crate::kept::Kept;
use crate::world_lines::Spot;
use fol_model::{BlockAt, BlockPos, Entity};
use std::alloc::{AllocError, Global};

/// The blocks with a number above 0, in the order of their places.
pub fn blocks_of(alloc: Global, blocks: Kept<Spot, u16>) -> Result<Vec<BlockAt>, AllocError>
    ensures { IfOk result (λ v. v.items ≡ stored_blocks (entries_in blocks)) }
{
    let Kept { rising, mixed } = blocks;
    rising
        .into_iter()
        .chain(mixed)
        .filter(|entry| 0 < entry.1)
        .map(|(spot, id)| BlockAt {
            at: BlockPos {
                x: spot.x,
                y: spot.y,
                z: spot.z,
            },
            id,
        })
        .collect(alloc)
}

/// The entities by id.
pub fn entities_of(alloc: Global, entities: Kept<u32, Entity>) -> Result<Vec<Entity>, AllocError>
    ensures { IfOk result (λ v. v.items ≡ values_of (entries_in entities)) }
{
    let Kept { rising, mixed } = entities;
    rising
        .into_iter()
        .chain(mixed)
        .map(|entry| entry.1)
        .collect(alloc)
}
