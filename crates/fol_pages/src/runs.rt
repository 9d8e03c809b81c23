//! Sections that lie in one page, for which the page is looked up once.

ghost use Rattle.std.specs.Prelude.{◌≡◌, ◌+◌, ◌<◌, ◌≤◌, nat_abs, pos, length, take};
ghost use Rattle.std.specs.Int.{int_rem_euclid};
ghost use Rattle.fol_pages.specs.Pages.{InOnePage};

use crate::places::{page_of, place_along};
use fol_model::SectionPos;

/// How many sections from a column on lie in one page, of at most `most`.
pub fn run_len(x: i32, most: u32) -> u32
    ensures few { result ≤ most }
    ensures some { 0 < most → 0 < result }
    ensures within { nat_abs (int_rem_euclid x (pos 32)) + result ≤ 32 }
{
    most.min(32 - place_along(x))
}

/// How many sections at the head of a list lie in one page.
pub fn stretch_len(sections: &[SectionPos]) -> usize
    requires { 0 < length sections.now }
    ensures some { 0 < result }
    ensures few { result ≤ length sections.now }
    ensures page { InOnePage (take result sections.now) }
{
    let page = page_of(sections[0]);
    for i in 1..sections.len() {
        if page_of(sections[i]) != page {
            return i;
        }
    }
    sections.len()
}
