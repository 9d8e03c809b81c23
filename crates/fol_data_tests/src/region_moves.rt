//! What lies on a chunk moves to another region, whose counter is another one.

ghost use Rattle.std.specs.Prelude.{◌≡◌, ◌≤◌, ◌^◌, [], IfOk};
ghost use Rattle.fol_chunks.specs.Contents.{flat_of, nothing};

use fol_data::{RegionData, Size};
use fol_model::{Action, BlockPos, ChunkPos, Task};
use std::alloc::{AllocError, Global};
use std::test::Fail;

const ORIGIN: BlockPos = BlockPos { x: 0, y: 64, z: 0 };

fn task_on(x: i32) -> Task {
    Task {
        number: 1,
        chunk: ChunkPos { x, z: 0 },
        action: Action::Set { at: ORIGIN, id: 1 },
    }
}

/// A region that holds nothing, with room for one task and one block.
fn empty_region(alloc: Global, tick: u64, owed: u32) -> Result<RegionData, AllocError>
    ensures tick { IfOk result (λ r. r.tick ≡ tick) }
    ensures tasks { IfOk result (λ r. r.queues.tasks ≡ []) }
    ensures contents { IfOk result (λ r. flat_of r.chunks ≡ nothing) }
    ensures room_for_tasks { IfOk result (λ r. 1 ≤ r.queues.spare) }
    ensures room_for_things { IfOk result (λ r. 1 ≤ r.chunks.spare) }
{
    let mut region = RegionData::new(alloc);
    region.tick = tick;
    region.owed = owed;
    region.reserve(Size {
        tasks: 1,
        things: 1,
    })?;
    Ok(region)
}

/// A region that holds nothing, after a block at the origin and a task in its second tick from now moved into it.
fn moved_into(
    alloc: Global,
    mut region: RegionData,
    other_tick: u64,
) -> Result<RegionData, AllocError>
    requires tick { region.tick ≤ 2 ^ 62 }
    requires other_tick { other_tick ≤ 2 ^ 62 }
    requires tasks { region.queues.tasks ≡ [] }
    requires contents { flat_of region.chunks ≡ nothing }
{
    let mut other = empty_region(alloc, other_tick, 1)?;
    other.queues.accept(task_on(0), 2, other_tick);
    other.chunks.set(ORIGIN, 5);
    let chunks = [ChunkPos { x: 0, z: 0 }];
    region.reserve(other.size_listed(&chunks))?;
    other.move_listed(&chunks, &mut region);
    Ok(region)
}

/// A deadline of 3 at counter 1 becomes 9 at counter 7, and the counter and the owed number stay.
#[test]
fn moves_to_the_greater_counter(rt: HostRuntime) -> Result<(), Fail> {
    let region = empty_region(rt.alloc(), 7, 2)?;
    let region = moved_into(rt.alloc(), region, 1)?;
    assert_eq!(rt; (region.tick, region.owed), (7, 2));
    assert_eq!(rt; region.queues.count_due(8), 0);
    assert_eq!(rt; region.queues.count_due(9), 1);
    assert_eq!(rt; region.chunks.get(ORIGIN), 5);
    Ok(())
}

/// A deadline of 9 at counter 7 becomes 3 at counter 1, and the counter and the owed number stay.
#[test]
fn moves_to_the_smaller_counter(rt: HostRuntime) -> Result<(), Fail> {
    let region = empty_region(rt.alloc(), 1, 5)?;
    let region = moved_into(rt.alloc(), region, 7)?;
    assert_eq!(rt; (region.tick, region.owed), (1, 5));
    assert_eq!(rt; region.queues.count_due(2), 0);
    assert_eq!(rt; region.queues.count_due(3), 1);
    assert_eq!(rt; region.chunks.get(ORIGIN), 5);
    Ok(())
}
