//! The loaded chunks of some sections, counted section by section.

ghost use Rattle.std.specs.Prelude.{◌≡◌, ◌*◌, ◌≤◌, ◌&&◌, nat_lt, count_by, length};
ghost use Rattle.std.specs.List.Sorted.{IsStrictlySortedBy};
ghost use Rattle.fol_model.specs.Geometry.{section_of, is_among};
ghost use Rattle.fol_model.specs.Universe.{all_chunks, section_cmp};
ghost use Rattle.fol_sections.specs.Table.{holds_of};

use fol_model::{MOST_SECTIONS, SectionPos};
use fol_sections::Sections;

/// How many loaded chunks the sections of a rising list have, at most 1,024 each.
pub fn count_chunks(sections: &Sections, row: &[SectionPos]) -> u64
    requires rising { IsStrictlySortedBy section_cmp row.now }
    requires few { length row.now ≤ MOST_SECTIONS }
    ensures value { result ≡ count_by (λ c. nat_lt 0 (holds_of sections.now c)
        && is_among row.now (section_of sections.now.grid c)) all_chunks }
    ensures few { result ≤ 1024 * length row.now }
{
    sections.loaded_among(row)
}
