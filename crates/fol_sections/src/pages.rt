//! Present sections in pages of 32 that stand side by side in a row.

ghost use Rattle.std.specs.Prelude.{◌≡◌, ℤ, ◌+◌, ◌<◌, ◌≤◌, ◌^◌, not, ◌||◌, true, false, cond, is_some, Some, None, IsTrue, OnOk, length, slice_index_or, slice_set};
ghost use Rattle.std.specs.Option.{unwrap_or};
ghost use Rattle.std.specs.List.{All, list_all};
ghost use Rattle.fol_model.specs.declared.places.SectionPos.{SectionPos};
ghost use Rattle.fol_model.specs.Geometry.{is_among, same_section};
ghost use Rattle.fol_sections.specs.Pages.{IsOnPage, counts_at, has_page, is_here, chunks_at, chunks_on, counts_on, left, near_at, near_on, no_counts, page_of as page, reached};
ghost use Rattle.fol_sections.specs.Places.{is_same};
ghost use Rattle.fol_sections.specs.Turns.{fall, rise};

use crate::packed::PackedCounts;
use crate::turns::Turn;
use fol_model::SectionPos;
use fol_pages::{PageTable, page_of, place_of};
use std::alloc::AllocError;

/// What is kept of a present section.
#[derive(Clone, Copy, Debug, PartialEq, Eq)]
pub struct Counts {
    /// Its loaded chunks.
    pub loaded: u16,
    /// The sections within the create radius that hold a loaded chunk.
    pub near: u16,
}

/// 32 sections side by side in a row: what is kept of each that is present.
#[derive(Clone, Copy)]
pub struct Page {
    pub sections: [PackedCounts; 32],
}

impl Page {
    /// What is kept of the section at a place, if it is present.
    pub fn kept(&self, place: usize) -> Option<Counts>
        requires { place < 32 }
        ensures value { result ≡ slice_index_or self.now.sections place None }
        ensures few { (unwrap_or result no_counts).loaded + 1 < 2 ^ 16 }
        ensures whole { length self.now.sections ≡ 32 }
    {
        self.sections[place].counts()
    }

    /// How many sections with a loaded chunk are near the section at a place; 0 where it is not present.
    pub fn near(&self, place: usize) -> u16
        requires { place < 32 }
        ensures { result ≡ (unwrap_or (slice_index_or self.now.sections place None) no_counts).near }
    {
        self.sections[place].near()
    }

    /// Whether the section at a place is not present.
    pub fn is_absent(&self, place: usize) -> bool
        requires { place < 32 }
        ensures { result ≡ not (is_some (slice_index_or self.now.sections place None)) }
    {
        self.sections[place].is_absent()
    }

    /// Counts a section more with a loaded chunk near the section at a place, which is made present where it is not, and says whether
    /// it was made.
    pub fn reach(&mut self, place: usize) -> bool
        requires place { place < 32 }
        requires few { (unwrap_or (slice_index_or self.old.sections place None) no_counts).near + 1
            < 2 ^ 16 }
        ensures made { result ≡ not (is_some (slice_index_or self.old.sections place None)) }
        ensures reached { self.new ≡ record {
          sections = slice_set self.old.sections place
              (Some (reached (slice_index_or self.old.sections place None)));
        } }
        ensures whole { length self.old.sections ≡ 32 }
    {
        self.sections[place].reach()
    }

    /// Counts a section less with a loaded chunk near the section at a place, which is present, and gives the number after.
    pub fn leave(&mut self, place: usize) -> u16
        requires place { place < 32 }
        requires here { IsTrue (is_some (slice_index_or self.old.sections place None)) }
        requires low { 0 < (unwrap_or (slice_index_or self.old.sections place None) no_counts).near }
        ensures after { result
            ≡ (left (unwrap_or (slice_index_or self.old.sections place None) no_counts)).near }
        ensures left { self.new ≡ record {
          sections = slice_set self.old.sections place
              (Some (left (unwrap_or (slice_index_or self.old.sections place None) no_counts)));
        } }
        ensures whole { length self.old.sections ≡ 32 }
    {
        self.sections[place].leave()
    }

    /// Changes the number of loaded chunks of the section at a place, which is present, by one, and gives the number after.
    pub fn count(&mut self, place: usize, turn: Turn) -> u16
        requires place { place < 32 }
        requires here { IsTrue (is_some (slice_index_or self.old.sections place None)) }
        requires low { fall turn 1
            ≤ (unwrap_or (slice_index_or self.old.sections place None) no_counts).loaded }
        requires few { (unwrap_or (slice_index_or self.old.sections place None) no_counts).loaded + 2
            < 2 ^ 16 }
        ensures after { result + fall turn 1
            ≡ (unwrap_or (slice_index_or self.old.sections place None) no_counts).loaded
            + rise turn 1 }
        ensures counted { self.new ≡ record {
          sections = slice_set self.old.sections place
              (Some (record {
                loaded = result;
                near = (unwrap_or (slice_index_or self.old.sections place None) no_counts).near;
              }));
        } }
        ensures whole { length self.old.sections ≡ 32 }
    {
        self.sections[place].count(turn)
    }
}

/// Pages by their column and row.
pub type Pages = PageTable<Page>;

/// A page with no present section.
pub fn empty_page() -> Page
    ensures { (q : SectionPos) → is_some (counts_on result q) ≡ false }
{
    Page {
        sections: [PackedCounts::absent(); 32],
    }
}

/// How many sections with a loaded chunk are near a section of the page; 0 where it is not present.
pub fn near_in(page: &Page, s: SectionPos) -> u32
    ensures { result ≡ near_on page.now s }
{
    page.near(place_of(s)) as u32
}

/// How many loaded chunks a section of the page holds; 0 where it is not present.
pub fn loaded_on(page: &Page, s: SectionPos) -> u64
    ensures { result ≡ chunks_on page.now s }
{
    match page.kept(place_of(s)) {
        Some(counts) => counts.loaded as u64,
        None => 0,
    }
}

/// What is kept of a section, if it is present.
pub fn find(pages: &Pages, s: SectionPos) -> Option<Counts>
    ensures { result ≡ counts_at pages.now.entries s }
{
    match pages.get(page_of(s)) {
        Some(page) => page.kept(place_of(s)),
        None => None,
    }
}

/// Whether a section is present.
#[tactic(auto, unfolding(crate::specs::Pages::is_here))]
pub fn is_present(pages: &Pages, s: SectionPos) -> bool
    ensures { result ≡ is_here pages.now.entries s }
{
    find(pages, s).is_some()
}

/// How many loaded chunks a section holds; 0 where it is not present.
#[tactic(auto, unfolding(crate::specs::Pages::chunks_at))]
pub fn loaded(pages: &Pages, s: SectionPos) -> u64
    ensures { result ≡ chunks_at pages.now.entries s }
{
    match find(pages, s) {
        Some(counts) => counts.loaded as u64,
        None => 0,
    }
}

/// How many sections with a loaded chunk are near a section; 0 where it is not present.
#[tactic(auto, unfolding(crate::specs::Pages::near_at))]
pub fn near(pages: &Pages, s: SectionPos) -> u32
    ensures { result ≡ near_at pages.now.entries s }
{
    match find(pages, s) {
        Some(counts) => counts.near as u32,
        None => 0,
    }
}

/// Changes the number of loaded chunks of a present section by one, and gives the number after.
pub fn count(pages: &mut Pages, s: SectionPos, turn: Turn) -> u16
    requires here { IsTrue (is_here pages.old.entries s) }
    requires low { fall turn 1 ≤ chunks_at pages.old.entries s }
    requires high { chunks_at pages.old.entries s ≤ 1024 }
    ensures after { result + fall turn 1 ≡ chunks_at pages.old.entries s + rise turn 1 }
    ensures put { (q : SectionPos) → counts_at pages.new.entries q ≡ cond (same_section s q)
        (Some (record { loaded = result; near = near_at pages.old.entries s }))
        (counts_at pages.old.entries q) }
    ensures room { pages.new.spare ≡ pages.old.spare }
{
    match pages.get_mut(page_of(s)) {
        Some(page) => page.count(place_of(s), turn),
        None => 0,
    }
}

/// Whether a page has no present section.
fn is_empty(page: &Page) -> bool
    ensures { result ≡ list_all (λ counts. not (is_some counts)) page.now.sections }
{
    page.sections.iter().all(|counts| counts.is_absent())
}

/// Whether there is a page with that key which has no present section.
fn is_unused(pages: &Pages, key: (i32, i32)) -> bool
    ensures { result ≡ true → (q : SectionPos) → (page q.x ≡ key.0) × (q.z ≡ key.1)
        → counts_at pages.now.entries q ≡ None }
{
    match pages.get(key) {
        Some(page) => is_empty(page),
        None => false,
    }
}

/// Takes the page with that key out, if it has no present section.
fn throw_out(pages: &mut Pages, key: (i32, i32))
    ensures counts { (q : SectionPos) → counts_at pages.new.entries q
        ≡ counts_at pages.old.entries q }
    ensures room { pages.old.spare ≤ pages.new.spare }
{
    if is_unused(pages, key) {
        let _ = pages.remove(key);
    }
}

/// Takes the pages out that have no present section, the last one first, since another page only comes to the index of one that goes.
fn throw_out_all(pages: &mut Pages)
    ensures counts { (q : SectionPos) → counts_at pages.new.entries q
        ≡ counts_at pages.old.entries q }
    ensures room { pages.old.spare ≤ pages.new.spare }
{
    for index in (0..pages.len()).rev() {
        if let Some(key) = pages.key(index) {
            throw_out(pages, key);
        }
    }
}

/// Makes room for so many pages more. The sections stay either way.
///
/// Where there is less room, the pages with no present section are thrown out first, and room is made for as many pages more as are left. So
/// they are gone over a second time for as much room only after that many pages came, which pay for it.
pub fn make_room(pages: &mut Pages, n: usize) -> Result<(), AllocError>
    ensures counts { (q : SectionPos) → counts_at pages.new.entries q
        ≡ counts_at pages.old.entries q }
    ensures ok { OnOk result (n ≤ pages.new.spare) }
    ensures room { pages.old.spare ≤ pages.new.spare }
{
    if n <= pages.capacity() - pages.len() {
        return Ok(());
    }
    throw_out_all(pages);
    pages.reserve(n.saturating_add(pages.len()))
}
