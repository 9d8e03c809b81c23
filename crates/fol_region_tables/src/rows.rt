//! Lists of sections in order.

ghost use Rattle.std.specs.Prelude.{◌≡◌, ◌≢◌, ℕ, ◌+◌, ◌-◌, ◌<◌, ◌≤◌, [], ◌++◌, length, replicate, slice_index_or, take, IfOk};
ghost use Rattle.std.specs.List.{All};
ghost use Rattle.std.specs.List.Sorted.{IsStrictlySortedBy};
ghost use Rattle.std.specs.Vec.{vec_capacity};
ghost use Rattle.std.specs.declared.cmp.Ordering.TheVariants.{Less};
ghost use Rattle.fol_lists.specs.Numbered.{list_at, total, with_list, with_numbers};
ghost use Rattle.fol_model.specs.declared.places.SectionPos.{SectionPos};
ghost use Rattle.fol_model.specs.Geometry.{is_section};
ghost use Rattle.fol_model.specs.Universe.{section_cmp};
ghost use Rattle.fol_region_tables.specs.Rows.{united, AreApart, IsRow};

use crate::weave::weave;
use fol_lists::Lists;
use fol_model::{MOST_SECTIONS, SectionPos};
use std::alloc::{AllocError, Global};
use std::cmp::Ordering;
use std::marker::Model;

/// Lists of so many sections are made anew where sections come, since that takes less than the search for their places.
const SHORT: usize = 64;

/// Lists of sections by number, of 16,384 sections together.
#[derive(Drop)]
pub struct Rows {
    lists: Lists<SectionPos>,
    /// Where the sections of a list wait that another list takes over.
    moved: Vec<SectionPos>,
    /// Where a short list is made.
    made: Vec<SectionPos>,
}

impl Model for Rows {
    ghost use Rattle.fol_model.specs.declared.places.SectionPos.{SectionPos};
    ghost use Rattle.std.specs.Vec.{vec_capacity};
    ghost use Rattle.fol_lists.specs.Numbered.{Numbered, total};
    ghost use Rattle.fol_region_tables.specs.Rows.{AreRows};

    ghost Value = { Numbered SectionPos };

    ghost view = { λ s. s.lists };

    ghost invariant = { λ s. AreRows (total s.lists) s.lists.room (vec_capacity s.moved) (vec_capacity s.made) };
}

impl Rows {
    /// Empty lists with the numbers below `numbers`.
    pub fn new(alloc: Global, numbers: usize) -> Result<Rows, AllocError>
        ensures { IfOk result (λ v. v ≡ record {
          lists = replicate numbers [];
          room = MOST_SECTIONS;
        }) }
    {
        Ok(Rows {
            lists: Lists::new(alloc, numbers, MOST_SECTIONS)?,
            moved: Vec::with_capacity(alloc, MOST_SECTIONS)?,
            made: Vec::with_capacity(alloc, SHORT)?,
        })
    }

    /// The same lists, and empty ones up to so many numbers, in memory of their own.
    pub fn copy(&self, alloc: Global, numbers: usize) -> Result<Rows, AllocError>
        ensures { IfOk result (λ v. v ≡ with_numbers self.now numbers) }
    {
        let mut lists = self.lists.copy(alloc)?;
        lists.reserve_numbers(numbers)?;
        Ok(Rows {
            lists,
            moved: Vec::with_capacity(alloc, MOST_SECTIONS)?,
            made: Vec::with_capacity(alloc, SHORT)?,
        })
    }

    /// The list with this number.
    pub fn get(&self, n: usize) -> &[SectionPos]
        requires { n < length self.now.lists }
        ensures { result.now ≡ list_at self.now n }
    {
        self.lists.get(n)
    }

    /// Makes a list empty.
    pub fn clear(&mut self, n: usize)
        requires { n < length self.old.lists }
        ensures { self.new ≡ with_list self.old n [] }
    {
        self.lists.clear(n);
    }

    /// Puts other sections in place of a list's own.
    pub fn put(&mut self, n: usize, sections: &[SectionPos])
        requires number { n < length self.old.lists }
        requires room { total (with_list self.old n sections.now) ≤ MOST_SECTIONS }
        ensures { self.new ≡ with_list self.old n sections.now }
    {
        self.lists.put(n, sections);
    }

    /// Adds sections in order, none of which is in the list.
    pub fn unite(&mut self, n: usize, sections: &[SectionPos])
        requires number { n < length self.old.lists }
        requires row { IsRow (list_at self.old n) }
        requires sections { IsRow sections.now }
        requires apart { AreApart (list_at self.old n) sections.now }
        requires room { total self.old + length sections.now ≤ MOST_SECTIONS }
        ensures { self.new ≡ with_list self.old n (united (list_at self.old n) sections.now) }
    {
        add(&mut self.lists, &mut self.made, n, sections);
    }

    /// Adds the sections of another list, none of which is in this one. The other is empty from then on.
    pub fn join(&mut self, n: usize, other: usize)
        requires number { n < length self.old.lists }
        requires other { other < length self.old.lists }
        requires lists { n ≢ other }
        requires row { IsRow (list_at self.old n) }
        requires other_row { IsRow (list_at self.old other) }
        requires apart { AreApart (list_at self.old n) (list_at self.old other) }
        ensures { self.new ≡ with_list (with_list self.old other []) n
            (united (list_at self.old n) (list_at self.old other)) }
    {
        self.moved.clear();
        let _ = self.moved.extend_from_slice(self.lists.get(other));
        self.lists.clear(other);
        add(&mut self.lists, &mut self.made, n, &self.moved);
    }
}

/// Adds sections in order to a list in order, which has none of them.
fn add(lists: &mut Lists<SectionPos>, made: &mut Vec<SectionPos>, n: usize, sections: &[SectionPos])
    requires number { n < length lists.old.lists }
    requires made { 64 ≤ vec_capacity made.old }
    requires row { IsRow (list_at lists.old n) }
    requires sections { IsRow sections.now }
    requires apart { AreApart (list_at lists.old n) sections.now }
    requires room { total lists.old + length sections.now ≤ lists.old.room }
    ensures added { lists.new ≡ with_list lists.old n (united (list_at lists.old n) sections.now) }
    ensures total { total lists.new ≡ total lists.old + length sections.now }
    ensures made { vec_capacity made.old ≤ vec_capacity made.new }
{
    let len = lists.get(n).len();
    if len <= SHORT && sections.len() <= SHORT - len {
        weave(lists.get(n), sections, made);
        lists.put(n, made);
        return;
    }
    lists.extend(n, sections);
    merge(lists, n, len, sections);
}

/// The order by `z`, and then by `x`.
pub fn compare(a: SectionPos, b: SectionPos) -> Ordering
    ensures { result ≡ section_cmp a b }
{
    (a.z, a.x).cmp(&(b.z, b.x))
}

/// How many sections at the front of a list in order are before a section. Most often all are, so the last one is looked at first.
fn count_before(xs: &[SectionPos], s: SectionPos) -> usize
    requires { IsStrictlySortedBy section_cmp xs.now }
    ensures few { result ≤ length xs.now }
    ensures before { (k : ℕ) (d : SectionPos) → k < result
        → section_cmp (slice_index_or xs.now k d) s ≡ Less }
    ensures behind { (k : ℕ) (d : SectionPos) → result ≤ k → k < length xs.now
        → section_cmp (slice_index_or xs.now k d) s ≢ Less }
{
    let mut low = 0;
    let mut high = xs.len();
    let mut probe = high.saturating_sub(1);
    while low < high {
        match compare(xs[probe], s) {
            Ordering::Less => low = probe + 1,
            _ => high = probe,
        }
        probe = low + (high - low) / 2;
    }
    low
}

/// How many sections at the front of a list in order are before the last one of others in order; none where there are no others.
fn count_before_last(xs: &[SectionPos], others: &[SectionPos]) -> usize
    requires { IsStrictlySortedBy section_cmp xs.now }
    ensures few { result ≤ length xs.now }
    ensures none { length others.now ≡ 0 → result ≡ 0 }
    ensures before { (k : ℕ) (d : SectionPos) → k < result
        → section_cmp (slice_index_or xs.now k d)
        (slice_index_or others.now (length others.now - 1) d) ≡ Less }
    ensures behind { (k : ℕ) (d : SectionPos) → result ≤ k → k < length xs.now
        → 0 < length others.now → section_cmp (slice_index_or xs.now k d)
        (slice_index_or others.now (length others.now - 1) d) ≢ Less }
{
    if others.is_empty() {
        0
    } else {
        count_before(xs, others[others.len() - 1])
    }
}

/// Merges sections in order into a list whose first `len` are in order too and are none of these, and which has as many places
/// more. What comes behind the first new section moves once, and nothing before it. New ones with none of the list between them go
/// in together.
fn merge(lists: &mut Lists<SectionPos>, n: usize, len: usize, sections: &[SectionPos])
    requires number { n < length lists.old.lists }
    requires row { IsRow (take len (list_at lists.old n)) }
    requires sections { IsRow sections.now }
    requires apart { AreApart (take len (list_at lists.old n)) sections.now }
    requires long { length (list_at lists.old n) ≡ len + length sections.now }
    ensures united { lists.new ≡ with_list lists.old n
        (united (take len (list_at lists.old n)) sections.now) }
    ensures total { total lists.new ≡ total lists.old }
{
    let mut end = len;
    let mut left = sections.len();
    while 0 < left {
        let row = lists.get(n);
        let at = count_before_last(&row[..end], &sections[..left]);
        let first = count_before_last(&sections[..left], &row[..at]);
        lists.shift_in(n, at, end, first, &sections[first..left]);
        end = at;
        left = first;
    }
}
