//! Sections side by side in one page, for which the page is looked up once.

ghost use Rattle.std.specs.Prelude.{◌≡◌, ℤ, ◌+◌, ◌-◌, ◌<◌, ◌≤◌, ◌^◌, not, ◌||◌, false, cond, ◌++◌, IsTrue, is_some, length, nat_abs, nat_eq, nat_lt, pos, ◌+ℤ◌};
ghost use Rattle.std.specs.Int.{int_rem_euclid};
ghost use Rattle.std.specs.List.{count_by, filter};
ghost use Rattle.std.specs.Vec.{vec_capacity};
ghost use Rattle.fol_model.specs.declared.places.SectionPos.{SectionPos};
ghost use Rattle.fol_model.specs.Geometry.{same_section};
ghost use Rattle.fol_sections.specs.Pages.{IsOnPage, KeepsOthers, chunks_at, chunks_on, counts_on, has_page, is_here, near_at, near_on, page_of as page};
ghost use Rattle.fol_sections.specs.Places.{is_same};
ghost use Rattle.fol_sections.specs.Rows.{row_of, section_at};

use crate::pages::{Page, Pages, empty_page};
use fol_model::SectionPos;
use fol_pages::{page_of, place_of};

/// The section that many columns behind another one.
fn behind(s: SectionPos, columns: u32) -> SectionPos
    requires near { nat_abs s.x ≤ 1000040 }
    requires few { columns ≤ 32 }
    ensures { result ≡ section_at (s.x +ℤ pos columns) s.z }
{
    SectionPos {
        x: s.x + columns as i32,
        z: s.z,
    }
}

/// Counts a section more with a loaded chunk near the sections from one on, by what their page keeps of them. Those that are missing
/// are made present, and added to a list.
fn fill_on(page: &mut Page, filled: &mut Vec<SectionPos>, s: SectionPos, len: u32)
    requires place { nat_abs s.x ≤ 1000040 }
    requires run { nat_abs (int_rem_euclid s.x (pos 32)) + len ≤ 32 }
    requires high { (q : SectionPos) → IsOnPage s q → near_on page.old q + 1 < 2 ^ 16 }
    requires space { length filled.old.items + len ≤ vec_capacity filled.old }
    ensures near { (q : SectionPos) → IsOnPage s q → near_on page.new q
        ≡ near_on page.old q + count_by (same_section q) (row_of section_at s.x s.z len) }
    ensures here { (q : SectionPos) → IsOnPage s q → is_some (counts_on page.new q)
        ≡ (is_some (counts_on page.old q)
        || nat_lt 0 (count_by (same_section q) (row_of section_at s.x s.z len))) }
    ensures chunks { (q : SectionPos) → chunks_on page.new q ≡ chunks_on page.old q }
    ensures filled { filled.new.items ≡ filled.old.items
        ++ filter (λ q. not (is_some (counts_on page.old q))) (row_of section_at s.x s.z len) }
    ensures few { length filled.new.items ≤ length filled.old.items + len }
    ensures space { vec_capacity filled.old ≤ vec_capacity filled.new }
{
    let place = place_of(s);
    for i in 0..len {
        if page.reach(place + i as usize) {
            filled.push_reserved(behind(s, i));
        }
    }
}

/// Counts a section more with a loaded chunk near the sections from one on, all in one page. Those that are missing are made present,
/// and added to a list.
pub fn fill_run(pages: &mut Pages, filled: &mut Vec<SectionPos>, s: SectionPos, len: u32)
    requires place { nat_abs s.x ≤ 1000040 }
    requires run { nat_abs (int_rem_euclid s.x (pos 32)) + len ≤ 32 }
    requires high { (q : SectionPos) → near_at pages.old.entries q + 1 < 2 ^ 16 }
    requires room { has_page pages.old.entries (page s.x) s.z ≡ false → 0 < pages.old.spare }
    requires space { length filled.old.items + len ≤ vec_capacity filled.old }
    ensures near { (q : SectionPos) → near_at pages.new.entries q
        ≡ near_at pages.old.entries q + count_by (same_section q) (row_of section_at s.x s.z len) }
    ensures here { (q : SectionPos) → is_here pages.new.entries q
        ≡ (is_here pages.old.entries q
        || nat_lt 0 (count_by (same_section q) (row_of section_at s.x s.z len))) }
    ensures chunks { (q : SectionPos) → chunks_at pages.new.entries q
        ≡ chunks_at pages.old.entries q }
    ensures pages { (x z : ℤ) → has_page pages.new.entries x z
        ≡ (is_same (page s.x) s.z x z || has_page pages.old.entries x z) }
    ensures room { pages.old.spare ≤ pages.new.spare
        + cond (has_page pages.old.entries (page s.x) s.z) 0 1 }
    ensures filled { filled.new.items ≡ filled.old.items
        ++ filter (λ q. not (is_here pages.old.entries q)) (row_of section_at s.x s.z len) }
    ensures few { length filled.new.items ≤ length filled.old.items + len }
    ensures space { vec_capacity filled.old ≤ vec_capacity filled.new }
{
    match pages.get_mut(page_of(s)) {
        Some(page) => fill_on(page, filled, s, len),
        None => {
            let mut page = empty_page();
            fill_on(&mut page, filled, s, len);
            let _ = pages.insert(page_of(s), page);
        }
    }
}

/// Counts a section less with a loaded chunk near the sections from one on, which are present in their page. Those near which no section
/// holds one after it are added to a list.
fn empty_on(page: &mut Page, died: &mut Vec<SectionPos>, s: SectionPos, len: u32)
    requires place { nat_abs s.x ≤ 1000040 }
    requires run { nat_abs (int_rem_euclid s.x (pos 32)) + len ≤ 32 }
    requires here { (q : SectionPos) → 0 < count_by (same_section q) (row_of section_at s.x s.z len)
        → IsTrue (is_some (counts_on page.old q)) }
    requires low { (q : SectionPos) → IsOnPage s q
        → count_by (same_section q) (row_of section_at s.x s.z len) ≤ near_on page.old q }
    requires space { length died.old.items + len ≤ vec_capacity died.old }
    ensures near { (q : SectionPos) → IsOnPage s q → near_on page.old q
        ≡ near_on page.new q + count_by (same_section q) (row_of section_at s.x s.z len) }
    ensures kept { KeepsOthers page.old page.new }
    ensures died { died.new.items ≡ died.old.items
        ++ filter (λ q. nat_eq (near_on page.old q - 1) 0) (row_of section_at s.x s.z len) }
    ensures few { length died.new.items ≤ length died.old.items + len }
    ensures space { vec_capacity died.old ≤ vec_capacity died.new }
{
    let place = place_of(s);
    for i in 0..len {
        if page.leave(place + i as usize) == 0 {
            died.push_reserved(behind(s, i));
        }
    }
}

/// Counts a section less with a loaded chunk near the sections from one on, which are present and all in one page. Those near which no
/// section holds one after it are added to a list.
pub fn empty_run(pages: &mut Pages, died: &mut Vec<SectionPos>, s: SectionPos, len: u32)
    requires place { nat_abs s.x ≤ 1000040 }
    requires run { nat_abs (int_rem_euclid s.x (pos 32)) + len ≤ 32 }
    requires here { (q : SectionPos) → 0 < count_by (same_section q) (row_of section_at s.x s.z len)
        → IsTrue (is_here pages.old.entries q) }
    requires low { (q : SectionPos)
        → count_by (same_section q) (row_of section_at s.x s.z len) ≤ near_at pages.old.entries q }
    requires space { length died.old.items + len ≤ vec_capacity died.old }
    ensures near { (q : SectionPos) → near_at pages.old.entries q
        ≡ near_at pages.new.entries q + count_by (same_section q) (row_of section_at s.x s.z len) }
    ensures here { (q : SectionPos) → is_here pages.new.entries q ≡ is_here pages.old.entries q }
    ensures chunks { (q : SectionPos) → chunks_at pages.new.entries q
        ≡ chunks_at pages.old.entries q }
    ensures room { pages.new.spare ≡ pages.old.spare }
    ensures died { died.new.items ≡ died.old.items
        ++ filter (λ q. nat_eq (near_at pages.old.entries q - 1) 0)
        (row_of section_at s.x s.z len) }
    ensures few { length died.new.items ≤ length died.old.items + len }
    ensures space { vec_capacity died.old ≤ vec_capacity died.new }
{
    match pages.get_mut(page_of(s)) {
        Some(page) => empty_on(page, died, s, len),
        None => {}
    }
}
