//! A section that came to hold its first loaded chunk, or that holds none any more, is counted by the sections near it. Those that are
//! missing are made present first.

ghost use Rattle.std.specs.Prelude.{◌≡◌, ◌+◌, ◌<◌, ◌≤◌, not, ◌||◌, ◌&&◌, [], cond, length, nat_abs, nat_eq, IsTrue};
ghost use Rattle.std.specs.List.{filter};
ghost use Rattle.std.specs.Vec.{vec_capacity};
ghost use Rattle.fol_model.specs.declared.places.SectionPos.{SectionPos};
ghost use Rattle.fol_model.specs.Geometry.{is_within};
ghost use Rattle.fol_model.specs.Universe.{square};
ghost use Rattle.fol_sections.specs.Pages.{chunks_at, is_here, near_at};

use crate::pages::{Pages, loaded};
use crate::runs::{empty_run, fill_run};
use crate::walks::SquareRuns;
use fol_model::SectionPos;

/// Counts a section more with a loaded chunk near all sections within the radius of it. Those that are missing are made present, and
/// listed.
fn fill_square(pages: &mut Pages, filled: &mut Vec<SectionPos>, s: SectionPos, radius: u8)
    requires near { (nat_abs s.x ≤ 1000008) × (nat_abs s.z ≤ 1000008) }
    requires few { radius ≤ 8 }
    requires high { (q : SectionPos) → near_at pages.old.entries q ≤ 289 }
    requires room { 34 ≤ pages.old.spare }
    requires none { filled.old.items ≡ [] }
    requires space { 289 ≤ vec_capacity filled.old }
    ensures near { (q : SectionPos) → near_at pages.new.entries q
        ≡ near_at pages.old.entries q + cond (is_within s radius q) 1 0 }
    ensures here { (q : SectionPos) → is_here pages.new.entries q
        ≡ (is_here pages.old.entries q || is_within s radius q) }
    ensures chunks { (q : SectionPos) → chunks_at pages.new.entries q
        ≡ chunks_at pages.old.entries q }
    ensures room { pages.old.spare ≤ pages.new.spare + 34 }
    ensures filled { filled.new.items ≡ filter (λ q. not (is_here pages.old.entries q))
        (square s radius) }
    ensures few { length filled.new.items ≤ 289 }
    ensures space { vec_capacity filled.old ≤ vec_capacity filled.new }
{
    let mut runs = SquareRuns::new(s, radius);
    while let Some((first, len)) = runs.next_run() {
        fill_run(pages, filled, first, len);
    }
}

/// Counts a section that holds no loaded chunk yet at all sections within the radius. Those that are missing are made present, and listed.
/// If it holds one, none is missing, and it alone is looked up.
pub fn fill_around(pages: &mut Pages, filled: &mut Vec<SectionPos>, s: SectionPos, radius: u8)
    requires near { (nat_abs s.x ≤ 1000008) × (nat_abs s.z ≤ 1000008) }
    requires few { radius ≤ 8 }
    requires around { 0 < chunks_at pages.old.entries s → (q : SectionPos)
        → IsTrue (is_within s radius q) → IsTrue (is_here pages.old.entries q) }
    requires high { (q : SectionPos) → near_at pages.old.entries q ≤ 289 }
    requires room { 34 ≤ pages.old.spare }
    requires none { filled.old.items ≡ [] }
    requires space { 289 ≤ vec_capacity filled.old }
    ensures near { (q : SectionPos) → near_at pages.new.entries q
        ≡ near_at pages.old.entries q
        + cond (nat_eq (chunks_at pages.old.entries s) 0 && is_within s radius q) 1 0 }
    ensures here { (q : SectionPos) → is_here pages.new.entries q
        ≡ (is_here pages.old.entries q || is_within s radius q) }
    ensures chunks { (q : SectionPos) → chunks_at pages.new.entries q
        ≡ chunks_at pages.old.entries q }
    ensures room { pages.old.spare ≤ pages.new.spare + 34 }
    ensures filled { filled.new.items ≡ filter (λ q. not (is_here pages.old.entries q))
        (square s radius) }
    ensures few { length filled.new.items ≤ 289 }
    ensures space { vec_capacity filled.old ≤ vec_capacity filled.new }
{
    if loaded(pages, s) == 0 {
        fill_square(pages, filled, s, radius);
    }
}

/// Counts a section less with a loaded chunk near all sections within the radius of it, which are present. Those near which no section
/// holds one after it are listed.
pub fn empty_square(pages: &mut Pages, died: &mut Vec<SectionPos>, s: SectionPos, radius: u8)
    requires near { (nat_abs s.x ≤ 1000008) × (nat_abs s.z ≤ 1000008) }
    requires few { radius ≤ 8 }
    requires here { (q : SectionPos) → IsTrue (is_within s radius q)
        → IsTrue (is_here pages.old.entries q) }
    requires low { (q : SectionPos) → cond (is_within s radius q) 1 0
        ≤ near_at pages.old.entries q }
    requires none { died.old.items ≡ [] }
    requires space { 289 ≤ vec_capacity died.old }
    ensures near { (q : SectionPos) → near_at pages.old.entries q
        ≡ near_at pages.new.entries q + cond (is_within s radius q) 1 0 }
    ensures here { (q : SectionPos) → is_here pages.new.entries q ≡ is_here pages.old.entries q }
    ensures chunks { (q : SectionPos) → chunks_at pages.new.entries q
        ≡ chunks_at pages.old.entries q }
    ensures room { pages.new.spare ≡ pages.old.spare }
    ensures died { died.new.items ≡ filter (λ q. nat_eq (near_at pages.new.entries q) 0)
        (square s radius) }
    ensures space { vec_capacity died.old ≤ vec_capacity died.new }
{
    let mut runs = SquareRuns::new(s, radius);
    while let Some((first, len)) = runs.next_run() {
        empty_run(pages, died, first, len);
    }
}
