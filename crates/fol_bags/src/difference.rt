//! The chunks of a set without those of a list.

ghost use Rattle.std.specs.Prelude.{◌≡◌, ◌&&◌, not};
ghost use Rattle.std.specs.List.Sorted.{IsStrictlySortedBy};
ghost use Rattle.fol_model.specs.declared.places.ChunkPos.{ChunkPos};
ghost use Rattle.fol_chunks.specs.Contents.{is_recorded};
ghost use Rattle.fol_chunks.specs.Order.{chunk_cmp};

use fol_keyed::ChunkSet;
use fol_model::ChunkPos;

/// The chunks of a list leave a set. It costs by the list; the set is gone over only where they are many, or many changes of it wait.
pub fn narrow_all(set: &mut ChunkSet, others: &[ChunkPos])
    requires { IsStrictlySortedBy chunk_cmp set.old }
    ensures order { IsStrictlySortedBy chunk_cmp set.new }
    ensures has { (q : ChunkPos) → is_recorded set.new q
        ≡ (is_recorded set.old q && not (is_recorded others.now q)) }
{
    set.settle_many();
    set.settle_for(others.len());
    for c in others {
        set.narrow(*c);
    }
}
