//! The loaded chunks of some sections, listed in order.

ghost use Rattle.std.specs.Prelude.{◌≡◌, ◌≤◌, ◌&&◌, nat_lt, count_by, filter, []};
ghost use Rattle.std.specs.List.Sorted.{IsPermutation, IsSortedBy, IsStrictlySortedBy};
ghost use Rattle.std.specs.Ordering.{is_lt};
ghost use Rattle.std.specs.Vec.{vec_capacity};
ghost use Rattle.fol_model.specs.Geometry.{section_of, is_among};
ghost use Rattle.fol_model.specs.Universe.{all_chunks, chunk_cmp, section_cmp};
ghost use Rattle.fol_sections.specs.Table.{holds_of};

use fol_model::{ChunkPos, SectionPos};
use fol_sections::Sections;

/// Puts the loaded chunks of the sections of a rising list into an empty list with room for them, by `(z, x)`. Takes no memory.
pub fn list_chunks(sections: &Sections, row: &[SectionPos], out: &mut Vec<ChunkPos>)
    requires rising { IsStrictlySortedBy section_cmp row.now }
    requires empty { out.old.items ≡ [] }
    requires room { count_by (λ c. nat_lt 0 (holds_of sections.now c)
        && is_among row.now (section_of sections.now.grid c)) all_chunks ≤ vec_capacity out.old }
    ensures chunks { out.new.items ≡ filter (λ c. nat_lt 0 (holds_of sections.now c)
        && is_among row.now (section_of sections.now.grid c)) all_chunks }
    ensures capacity { vec_capacity out.new ≡ vec_capacity out.old }
{
    sections.chunks_among(row, out);
    put_in_order(out);
}

/// Puts a list of chunks in order, by `(z, x)`. It is mostly in order already, and is then left as it is. Takes no memory.
fn put_in_order(list: &mut Vec<ChunkPos>)
    ensures moved { IsPermutation list.old.items list.new.items }
    ensures sorted { IsSortedBy (λ a b. is_lt (chunk_cmp a b)) list.new.items }
    ensures capacity { vec_capacity list.new ≡ vec_capacity list.old }
{
    if !list.is_sorted_by_key(|c| (c.z, c.x)) {
        list.sort_unstable_by_key(|c| (c.z, c.x));
    }
}
