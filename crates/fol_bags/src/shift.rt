//! What lies on some chunks goes from the data of one region to that of another.

ghost use Rattle.std.specs.Prelude.{◌≡◌, ◌≤◌, [], ◌∷◌, OnOk, OnErr};
ghost use Rattle.std.specs.List.Sorted.{IsStrictlySortedBy};
ghost use Rattle.fol_chunks.specs.Contents.{is_recorded, size_within};
ghost use Rattle.fol_chunks.specs.Order.{chunk_cmp};
ghost use Rattle.fol_data.specs.Rests.{rests_of};
ghost use Rattle.fol_bags.specs.Clear.{HasNoTask};
ghost use Rattle.fol_bags.specs.Things.{IsTimely};
ghost use Rattle.fol_bags.specs.Moves.{AreApart, SameThings, Loses, Gains};

use fol_data::RegionData;
use fol_model::ChunkPos;
use std::alloc::AllocError;

/// Moves what lies on the chunks. The tasks keep their rests, and all counters stay. If memory runs out, nothing has moved.
pub fn shift(
    from: &mut RegionData,
    chunks: &[ChunkPos],
    to: &mut RegionData,
) -> Result<(), AllocError>
    requires order { IsStrictlySortedBy chunk_cmp chunks.now }
    requires timely { IsTimely from.old }
    requires to_timely { IsTimely to.old }
    requires apart { AreApart from.old to.old }
    ensures timely { IsTimely from.new }
    ensures to_timely { IsTimely to.new }
    ensures loses { OnOk result (Loses chunks.now from.old from.new) }
    ensures gains { OnOk result (Gains chunks.now from.old to.old to.new) }
    ensures err { OnErr result (SameThings from.old from.new) }
    ensures to_err { OnErr result (SameThings to.old to.new) }
{
    to.reserve(from.size_listed(chunks))?;
    from.move_listed(chunks, to);
    Ok(())
}

/// Moves the blocks and entities that lie on a chunk, which are `size`, and on which no task lies. It costs nothing for any task. If
/// memory runs out, nothing has moved.
pub fn shift_contents(
    from: &mut RegionData,
    c: ChunkPos,
    size: u64,
    to: &mut RegionData,
) -> Result<(), AllocError>
    requires size { size_within (is_recorded (c ∷ [])) from.old.chunks ≤ size }
    requires no_task { HasNoTask c (rests_of from.old) }
    requires timely { IsTimely from.old }
    requires to_timely { IsTimely to.old }
    requires apart { AreApart from.old to.old }
    ensures timely { IsTimely from.new }
    ensures to_timely { IsTimely to.new }
    ensures loses { OnOk result (Loses (c ∷ []) from.old from.new) }
    ensures gains { OnOk result (Gains (c ∷ []) from.old to.old to.new) }
    ensures err { OnErr result (SameThings from.old from.new) }
    ensures to_err { OnErr result (SameThings to.old to.new) }
{
    to.chunks.reserve(size)?;
    from.chunks.move_listed(&[c], &mut to.chunks);
    Ok(())
}
