//! How many sections within the create radius of a section are missing, without a list of them.

ghost use Rattle.std.specs.Prelude.{◌≡◌, ◌+◌, ◌*◌, ◌<◌, ◌≤◌, not, pos, ◌+ℤ◌, nat_abs, is_some, IfNone, IfSome, IsTrue};
ghost use Rattle.std.specs.Int.{int_rem_euclid};
ghost use Rattle.std.specs.List.{count_by};
ghost use Rattle.fol_model.specs.declared.places.SectionPos.{SectionPos};
ghost use Rattle.fol_model.specs.Geometry.{is_within};
ghost use Rattle.fol_model.specs.Universe.{square};
ghost use Rattle.fol_sections.specs.Pages.{chunks_at, counts_on, is_here};
ghost use Rattle.fol_sections.specs.Rows.{row_of, section_at};

use crate::pages::{Page, Pages, loaded};
use crate::walks::SquareRuns;
use fol_model::{MOST_SECTIONS, SectionPos};
use fol_pages::{page_of, place_of};

/// How many of the sections from one on are missing, by what their page keeps of them.
fn count_on(page: &Page, s: SectionPos, len: u32) -> u32
    requires { nat_abs (int_rem_euclid s.x (pos 32)) + len ≤ 32 }
    ensures count { result ≡ count_by (λ q. not (is_some (counts_on page.now q)))
        (row_of section_at s.x s.z len) }
    ensures few { result ≤ len }
{
    let place = place_of(s);
    let mut count = 0;
    for i in 0..len {
        if page.is_absent(place + i as usize) {
            count += 1;
        }
    }
    count
}

/// How many of the sections from one on, all in one page, are missing.
fn count_run(pages: &Pages, s: SectionPos, len: u32) -> u32
    requires { nat_abs (int_rem_euclid s.x (pos 32)) + len ≤ 32 }
    ensures count { result ≡ count_by (λ q. not (is_here pages.now.entries q))
        (row_of section_at s.x s.z len) }
    ensures few { result ≤ len }
{
    match pages.get(page_of(s)) {
        Some(page) => count_on(page, s, len),
        None => len,
    }
}

/// How many sections within a radius of one are missing. If that one holds a loaded chunk, none is, and it alone is looked up.
pub fn count_missing(pages: &Pages, s: SectionPos, radius: u8) -> u32
    requires near { (nat_abs s.x ≤ 1000008) × (nat_abs s.z ≤ 1000008) }
    requires few { radius ≤ 8 }
    requires around { 0 < chunks_at pages.now.entries s → (q : SectionPos)
        → IsTrue (is_within s radius q) → IsTrue (is_here pages.now.entries q) }
    ensures count { result ≡ count_by (λ q. not (is_here pages.now.entries q)) (square s radius) }
    ensures few { result ≤ 289 }
{
    if loaded(pages, s) > 0 {
        return 0;
    }
    let mut count = 0;
    let mut runs = SquareRuns::new(s, radius);
    while let Some((first, len)) = runs.next_run() {
        count += count_run(pages, first, len);
    }
    count
}

/// How many sections within a radius of one are missing, if they and the present ones are more than 16,384. They are not looked up where
/// there is room for all within the radius.
pub fn find_excess(pages: &Pages, present: u32, s: SectionPos, radius: u8) -> Option<u32>
    requires near { (nat_abs s.x ≤ 1000008) × (nat_abs s.z ≤ 1000008) }
    requires few { radius ≤ 8 }
    requires around { 0 < chunks_at pages.now.entries s → (q : SectionPos)
        → IsTrue (is_within s radius q) → IsTrue (is_here pages.now.entries q) }
    requires present { present ≤ MOST_SECTIONS }
    ensures some { IfSome result (λ n. n
        ≡ count_by (λ q. not (is_here pages.now.entries q)) (square s radius)) }
    ensures excess { IfSome result (λ n. MOST_SECTIONS < present + n) }
    ensures none { IfNone result
        (present + count_by (λ q. not (is_here pages.now.entries q)) (square s radius)
        ≤ MOST_SECTIONS) }
{
    let side = 2 * radius as u32 + 1;
    if present + side * side <= MOST_SECTIONS as u32 {
        return None;
    }
    let wanted = count_missing(pages, s, radius);
    if present + wanted > MOST_SECTIONS as u32 {
        Some(wanted)
    } else {
        None
    }
}
