//! Rows are put in order.

ghost use Rattle.std.specs.Prelude.{nat_eq, OnOk};
ghost use Rattle.std.specs.List.{IsDistinct};
ghost use Rattle.std.specs.List.Sorted.{IsPermutation, IsStrictlySortedBy};
ghost use Rattle.fol_model.specs.Geometry.{same_block};
ghost use Rattle.fol_chunks.specs.Rows.{by_place, by_id};
ghost use Rattle.fol_store.specs.TaskRows.{by_number};

use fol_keyed::compare_blocks;
use fol_model::{BlockAt, Entity, TaskRow};
use std::alloc::AllocError;

/// Puts blocks in order of place. Those of one chunk mostly come in order, and such runs are only merged. Fails only when out of memory.
pub fn sort_blocks(blocks: &mut Vec<BlockAt>) -> Result<(), AllocError>
    requires { IsDistinct (λ a b. same_block a.at b.at) blocks.old.items }
    ensures same { IsPermutation blocks.old.items blocks.new.items }
    ensures order { OnOk result (IsStrictlySortedBy by_place blocks.new.items) }
{
    blocks.sort_by(|a, b| compare_blocks(a.at, b.at))
}

/// Puts entities in order of id. Those of one region mostly come in order, and such runs are only merged. Fails only when out of memory.
pub fn sort_entities(entities: &mut Vec<Entity>) -> Result<(), AllocError>
    requires { IsDistinct (λ a b. nat_eq a.id b.id) entities.old.items }
    ensures same { IsPermutation entities.old.items entities.new.items }
    ensures order { OnOk result (IsStrictlySortedBy by_id entities.new.items) }
{
    entities.sort_by_key(|entity| entity.id)
}

/// Puts tasks in order of number.
pub fn sort_tasks(tasks: &mut Vec<TaskRow>)
    requires { IsDistinct (λ a b. nat_eq a.task.number b.task.number) tasks.old.items }
    ensures same { IsPermutation tasks.old.items tasks.new.items }
    ensures order { IsStrictlySortedBy by_number tasks.new.items }
{
    tasks.sort_unstable_by_key(|row| row.task.number);
}
