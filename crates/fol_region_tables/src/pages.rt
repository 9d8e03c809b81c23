//! The regions of sections in pages of 32 that stand side by side in a row.

ghost use Rattle.std.specs.Prelude.{◌≡◌, ℕ, ℤ, ◌+◌, ◌<◌, ◌≤◌, true, false, ◌||◌, OnOk, cond, nat_eq, nat_abs, pos, ◌+ℤ◌, length, if◌then◌else◌, slice_index_or};
ghost use Rattle.std.specs.Int.{int_rem_euclid};
ghost use Rattle.std.specs.List.{list_all, list_any};
ghost use Rattle.fol_model.specs.declared.places.SectionPos.{SectionPos};
ghost use Rattle.fol_model.specs.Geometry.{is_among};
ghost use Rattle.fol_pages.specs.Pages.{LieIn, has_page, is_same, place_of as place};
ghost use Rattle.fol_region_tables.specs.Owners.{AreAt, IsAt, is_new, owner_in};

use fol_model::SectionPos;
use fol_pages::{PageTable, page_of, place_of, stretch_len};
use std::alloc::AllocError;

/// The regions of 32 sections side by side in a row; 0 for a section that has none.
#[derive(Clone, Copy)]
pub struct OwnerPage {
    pub owners: [u64; 32],
}

/// Pages by their column and row.
pub type Pages = PageTable<OwnerPage>;

/// The region of a section, or 0 where it has none.
pub fn owner(pages: &Pages, s: SectionPos) -> u64
    ensures { result ≡ owner_in pages.now.entries s }
{
    match pages.get(page_of(s)) {
        Some(page) => page.owners[place_of(s)],
        None => 0,
    }
}

/// The regions of so many sections side by side in one page, from one on; fewer where the others have none.
pub fn run(pages: &Pages, s: SectionPos, len: u32) -> &[u64]
    requires { nat_abs (int_rem_euclid s.x (pos 32)) + len ≤ 32 }
    ensures owners { (i : ℕ) → i < len → slice_index_or result.now i 0
        ≡ owner_in pages.now.entries (record { x = s.x +ℤ pos i; z = s.z }) }
    ensures few { length result.now ≤ len }
{
    match pages.get(page_of(s)) {
        Some(page) => run_on(page, s, len),
        None => &[],
    }
}

/// The regions of so many sections side by side in a page, from one on.
fn run_on(page: &OwnerPage, s: SectionPos, len: u32) -> &[u64]
    requires { nat_abs (int_rem_euclid s.x (pos 32)) + len ≤ 32 }
    ensures owners { (i : ℕ) → i < len → slice_index_or result.now i 0
        ≡ slice_index_or page.now.owners (place s + i) 0 }
    ensures few { length result.now ≡ len }
{
    let start = place_of(s);
    &page.owners[start..start + len as usize]
}

/// Writes a region at the places of some sections in their page.
fn write_on(page: &mut OwnerPage, sections: &[SectionPos], id: u64)
    ensures { (k : ℕ) → slice_index_or page.new.owners k 0
        ≡ (if list_any (λ s. nat_eq (place s) k) sections.now then id
        else slice_index_or page.old.owners k 0) }
{
    for s in sections {
        page.owners[place_of(*s)] = id;
    }
}

/// A page with these sections of a region alone.
fn page_with(sections: &[SectionPos], id: u64) -> OwnerPage
    ensures { (k : ℕ) → slice_index_or result.owners k 0
        ≡ (if list_any (λ s. nat_eq (place s) k) sections.now then id else 0) }
{
    let mut page = OwnerPage { owners: [0; 32] };
    write_on(&mut page, sections, id);
    page
}

/// Gives sections that lie in one page to a region.
fn give_stretch(pages: &mut Pages, key: (i32, i32), sections: &[SectionPos], id: u64)
    requires page { AreAt key.0 key.1 sections.now }
    requires room { has_page pages.old.entries key.0 key.1 ≡ false → 0 < pages.old.spare }
    ensures owner { (q : SectionPos) → owner_in pages.new.entries q
        ≡ (if is_among sections.now q then id else owner_in pages.old.entries q) }
    ensures pages { (x z : ℤ) → has_page pages.new.entries x z
        ≡ (is_same key.0 key.1 x z || has_page pages.old.entries x z) }
    ensures room { pages.old.spare ≤ pages.new.spare
        + cond (has_page pages.old.entries key.0 key.1) 0 1 }
{
    match pages.get_mut(key) {
        Some(page) => write_on(page, sections, id),
        None => {
            let _ = pages.insert(key, page_with(sections, id));
        }
    }
}

/// Gives the sections of a list to a region: those that have another one, and those that have none.
pub fn give_all(pages: &mut Pages, sections: &[SectionPos], id: u64)
    requires room { LieIn (is_new (owner_in pages.old.entries) sections.now) pages.old.spare }
    ensures owner { (q : SectionPos) → owner_in pages.new.entries q
        ≡ (if is_among sections.now q then id else owner_in pages.old.entries q) }
    ensures room { (n : ℕ) → LieIn (is_new (owner_in pages.old.entries) sections.now) n
        → pages.old.spare ≤ pages.new.spare + n }
{
    let mut rest = sections;
    while !rest.is_empty() {
        let (stretch, others) = rest.split_at(stretch_len(rest));
        give_stretch(pages, page_of(stretch[0]), stretch, id);
        rest = others;
    }
}

/// Takes the regions of sections that lie in one page.
fn take_stretch(pages: &mut Pages, key: (i32, i32), sections: &[SectionPos])
    requires { AreAt key.0 key.1 sections.now }
    ensures owner { (q : SectionPos) → owner_in pages.new.entries q
        ≡ (if is_among sections.now q then 0 else owner_in pages.old.entries q) }
    ensures room { pages.new.spare ≡ pages.old.spare }
{
    match pages.get_mut(key) {
        Some(page) => write_on(page, sections, 0),
        None => {}
    }
}

/// Takes the regions of the sections of a list.
pub fn take_all_out(pages: &mut Pages, sections: &[SectionPos])
    ensures owner { (q : SectionPos) → owner_in pages.new.entries q
        ≡ (if is_among sections.now q then 0 else owner_in pages.old.entries q) }
    ensures room { pages.old.spare ≤ pages.new.spare }
{
    let mut rest = sections;
    while !rest.is_empty() {
        let (stretch, others) = rest.split_at(stretch_len(rest));
        take_stretch(pages, page_of(stretch[0]), stretch);
        rest = others;
    }
}

/// Whether no section of a page has a region.
fn is_empty(page: &OwnerPage) -> bool
    ensures { result ≡ list_all (λ id. nat_eq id 0) page.now.owners }
{
    page.owners.iter().all(|id| *id == 0)
}

/// Whether there is a page with that key of which no section has a region.
fn is_unused(pages: &Pages, key: (i32, i32)) -> bool
    ensures { result ≡ true → (q : SectionPos) → IsAt key.0 key.1 q
        → owner_in pages.now.entries q ≡ 0 }
{
    match pages.get(key) {
        Some(page) => is_empty(page),
        None => false,
    }
}

/// Takes the page with that key out, if no section of it has a region.
fn throw_out(pages: &mut Pages, key: (i32, i32))
    ensures owner { (q : SectionPos) → owner_in pages.new.entries q ≡ owner_in pages.old.entries q }
    ensures room { pages.old.spare ≤ pages.new.spare }
{
    if is_unused(pages, key) {
        let _ = pages.remove(key);
    }
}

/// Takes the pages out of which no section has a region, the last one first, since another page only comes to the index of one that goes.
fn throw_out_all(pages: &mut Pages)
    ensures owner { (q : SectionPos) → owner_in pages.new.entries q ≡ owner_in pages.old.entries q }
    ensures room { pages.old.spare ≤ pages.new.spare }
{
    for index in (0..pages.len()).rev() {
        if let Some(key) = pages.key(index) {
            throw_out(pages, key);
        }
    }
}

/// Makes room for so many pages more. The regions stay either way.
///
/// Where there is less room, the pages of which no section has a region are thrown out first, and room is made for as many pages more as are
/// left. So they are gone over a second time for as much room only after that many pages came, which pay for it.
pub fn make_room(pages: &mut Pages, n: usize) -> Result<(), AllocError>
    ensures owner { (q : SectionPos) → owner_in pages.new.entries q ≡ owner_in pages.old.entries q }
    ensures ok { OnOk result (n ≤ pages.new.spare) }
    ensures room { pages.old.spare ≤ pages.new.spare }
{
    if n <= pages.capacity() - pages.len() {
        return Ok(());
    }
    throw_out_all(pages);
    pages.reserve(n.saturating_add(pages.len()))
}
