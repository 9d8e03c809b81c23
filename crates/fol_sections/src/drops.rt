//! Dead sections that leave, by stretches of a list that lie in one page.

ghost use Rattle.std.specs.Prelude.{◌≡◌, ◌≤◌, ◌&&◌, cond, None, count_by, nat_eq};
ghost use Rattle.std.specs.List.{All};
ghost use Rattle.fol_model.specs.declared.places.SectionPos.{SectionPos};
ghost use Rattle.fol_model.specs.Geometry.{is_among};
ghost use Rattle.fol_sections.specs.Pages.{IsOnPage, counts_at, counts_on, near_at, near_on};

use crate::packed::PackedCounts;
use crate::pages::{Page, Pages, near_in};
use fol_model::SectionPos;
use fol_pages::{page_of, place_of, stretch_len};

/// Takes those sections of a list out of their page near which no section holds a loaded chunk, and returns how many they are.
fn clear_on(page: &mut Page, part: &[SectionPos]) -> usize
    ensures dead { result ≡ count_by (λ s. nat_eq (near_on page.old s) 0) part.now }
    ensures out { (q : SectionPos) → All (IsOnPage q) part.now → counts_on page.new q
        ≡ cond (is_among part.now q && nat_eq (near_on page.old q) 0) None (counts_on page.old q) }
{
    let mut dead = 0;
    for s in part {
        if near_in(page, *s) == 0 {
            page.sections[place_of(*s)] = PackedCounts::absent();
            dead += 1;
        }
    }
    dead
}

/// Takes those sections of a list, all in the page of `first`, out near which no section holds a loaded chunk, and returns how many they are.
fn drop_stretch(pages: &mut Pages, first: SectionPos, part: &[SectionPos]) -> usize
    requires page { All (IsOnPage first) part.now }
    ensures dead { result ≡ count_by (λ s. nat_eq (near_at pages.old.entries s) 0) part.now }
    ensures out { (q : SectionPos) → counts_at pages.new.entries q
        ≡ cond (is_among part.now q && nat_eq (near_at pages.old.entries q) 0)
        None (counts_at pages.old.entries q) }
    ensures room { pages.new.spare ≡ pages.old.spare }
{
    match pages.get_mut(page_of(first)) {
        Some(page) => clear_on(page, part),
        None => part.len(),
    }
}

/// Takes those sections of a list out near which no section holds a loaded chunk, and returns how many they are.
pub fn drop_list(pages: &mut Pages, list: &[SectionPos]) -> usize
    ensures dead { result ≡ count_by (λ s. nat_eq (near_at pages.old.entries s) 0) list.now }
    ensures out { (q : SectionPos) → counts_at pages.new.entries q
        ≡ cond (is_among list.now q && nat_eq (near_at pages.old.entries q) 0)
        None (counts_at pages.old.entries q) }
    ensures room { pages.old.spare ≤ pages.new.spare }
{
    let mut dead = 0;
    let mut rest = list;
    while !rest.is_empty() {
        let (part, after) = rest.split_at(stretch_len(rest));
        dead += drop_stretch(pages, part[0], part);
        rest = after;
    }
    dead
}
