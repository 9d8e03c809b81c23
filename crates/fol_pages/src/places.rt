//! The page of a section, and its place there.

ghost use Rattle.std.specs.Prelude.{◌≡◌, ◌<◌, pos, nat_abs};
ghost use Rattle.std.specs.Int.{int_rem_euclid};
ghost use Rattle.fol_pages.specs.Pages.{page_of as page, place_of as place};

use fol_model::SectionPos;

/// In how many pages the sections at most 8 away from one lie, at most.
pub const NEAR_PAGES: usize = 34;

/// The column of pages of a column of sections.
fn page_along(x: i32) -> i32
    ensures { result ≡ page x }
{
    x >> 5
}

/// How many columns of sections of its page are before a column.
pub(crate) fn place_along(x: i32) -> u32
    ensures value { result ≡ nat_abs (int_rem_euclid x (pos 32)) }
    ensures few { result < 32 }
{
    (x - 32 * page_along(x)) as u32
}

/// The column and the row of a section's page.
pub fn page_of(s: SectionPos) -> (i32, i32)
    ensures { result ≡ (page s.x, s.z) }
{
    (page_along(s.x), s.z)
}

/// The place of a section in its page.
#[tactic(auto, unfolding(crate::specs::Pages::place_of))]
pub fn place_of(s: SectionPos) -> usize
    ensures value { result ≡ place s }
    ensures few { result < 32 }
{
    place_along(s.x) as usize
}
