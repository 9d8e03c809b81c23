//! A map of pages by their column and row, which knows of many pages where they lie.

ghost use Rattle.std.specs.Prelude.{◌≡◌, ℤ, ◌+◌, ◌<◌, ◌≤◌, cond, [], length, IsOk, IfOk, IfSome, IfNone, OnOk, OnErr, None, Some};
ghost use Rattle.std.specs.Borrow.{sem};
ghost use Rattle.std.specs.List.{AllZip};
ghost use Rattle.std.specs.Option.{option_copied, option_copied_mut};
ghost use Rattle.fol_pages.specs.Pages.{is_same, page_at};

use indexmap::IndexMap;
use std::alloc::{AllocError, AllocFailed, Global};
use std::marker::Model;

/// How many hints a table has. The look-up of a hint takes the twelve top bits of a number.
const HINTS: usize = 4096;

/// Where a page lay last.
#[derive(Clone, Copy)]
struct Hint {
    /// The low half of the page's number.
    tag: u16,
    /// The page's index in the map.
    index: u16,
}

/// Pages by their column and row.
///
/// A look-up in the map hashes the key and goes through a group of places. Since the same pages are looked up again and again, the table
/// keeps hints of where pages lay last. A hint may say anything: the page that it names is taken only where its key is the one that is
/// wanted, and else the map is asked.
#[derive(Drop)]
pub struct PageTable<P> {
    map: IndexMap<(i32, i32), P>,
    /// None before the first `reserve`.
    hints: Vec<Hint>,
}

impl<P> Model for PageTable<P> {
    ghost use Rattle.std.specs.HashMap.{spare};
    ghost use Rattle.fol_pages.specs.Table.{Table, table_code};

    ghost Value = { Table P };

    ghost coded = { table_code P.code };

    ghost view = { λ t. record { entries = t.map.entries; spare = spare t.map } };
}

/// A number for a key, by which its hint is found.
fn number_of(key: (i32, i32)) -> u32 {
    let column = key.0.cast_unsigned().wrapping_mul(0x9E37_79B1);
    let row = key.1.cast_unsigned().wrapping_mul(0x85EB_CA77);
    column ^ row
}

impl<P> PageTable<P> {
    ghost use Rattle.fol_pages.specs.Lending.{lends_page};
    ghost use Rattle.fol_pages.specs.Table.{LiesAt};

    /// A table with no pages. Takes no memory.
    pub fn new(alloc: Global) -> PageTable<P>
        ensures { result.entries ≡ [] }
    {
        PageTable {
            map: IndexMap::new(alloc),
            hints: Vec::new(alloc),
        }
    }

    /// How many pages there are.
    pub fn len(&self) -> usize
        ensures { result ≡ length self.now.entries }
    {
        self.map.len()
    }

    /// The key of the page at an index, if there are so many pages. Where a page is taken out, the last one comes to its index.
    pub fn key(&self, index: usize) -> Option<(i32, i32)>
        ensures { IfSome result (λ key. LiesAt self.now.entries key.0 key.1 index) }
    {
        let (key, _) = self.map.get_index(index)?;
        Some(*key)
    }

    /// How many pages there is memory for.
    pub fn capacity(&self) -> usize
        ensures { result ≡ length self.now.entries + self.now.spare }
    {
        self.map.capacity()
    }

    /// Makes room for so many pages more. The pages stay either way.
    pub fn reserve(&mut self, pages: usize) -> Result<(), AllocError>
        ensures entries { self.new.entries ≡ self.old.entries }
        ensures ok { OnOk result (pages ≤ self.new.spare) }
        ensures spare { self.old.spare ≤ self.new.spare }
    {
        if self.hints.is_empty() {
            self.hints.resize(HINTS, Hint { tag: 0, index: 0 })?;
        }
        self.map.reserve(pages)
    }

    /// Where the page may lie.
    #[inline(always)]
    fn hint(&self, key: (i32, i32)) -> Option<usize> {
        let number = number_of(key);
        let hint = self.hints.get((number >> 20) as usize)?;
        if hint.tag == (number & 0xFFFF) as u16 {
            Some(hint.index as usize)
        } else {
            None
        }
    }

    /// Notes where the page lies.
    fn note(&mut self, key: (i32, i32), index: usize)
        ensures { self.new ≡ self.old }
    {
        let number = number_of(key);
        if let Some(hint) = self.hints.get_mut((number >> 20) as usize) {
            *hint = Hint {
                tag: (number & 0xFFFF) as u16,
                index: (index & 0xFFFF) as u16,
            };
        }
    }

    /// Where the page lies, if the hint says so.
    #[inline(always)]
    fn hinted(&self, key: (i32, i32)) -> Option<usize>
        ensures { IfSome result (λ i. LiesAt self.now.entries key.0 key.1 i) }
    {
        let index = self.hint(key)?;
        let (found, _) = self.map.get_index(index)?;
        if *found == key { Some(index) } else { None }
    }

    /// The page, if there is one.
    #[inline(always)]
    pub fn get(&self, key: (i32, i32)) -> Option<&P>
        ensures value { option_copied result ≡ page_at self.now.entries key.0 key.1 }
    {
        if let Some(index) = self.hint(key) {
            if let Some((found, page)) = self.map.get_index(index) {
                if *found == key {
                    return Some(page);
                }
            }
        }
        self.map.get(&key)
    }

    /// Where the page lies, if there is one, by the map.
    fn look_up(&mut self, key: (i32, i32)) -> Option<usize>
        ensures same { self.new ≡ self.old }
        ensures found { IfSome result (λ i. LiesAt self.old.entries key.0 key.1 i) }
        ensures absent { IfNone result (page_at self.old.entries key.0 key.1 ≡ None) }
    {
        match self.map.get_full(&key) {
            Some((index, _, _)) => {
                self.note(key, index);
                Some(index)
            }
            None => None,
        }
    }

    /// Where the page lies, if there is one.
    #[inline(always)]
    fn index_of(&mut self, key: (i32, i32)) -> Option<usize>
        ensures same { self.new ≡ self.old }
        ensures found { IfSome result (λ i. LiesAt self.old.entries key.0 key.1 i) }
        ensures absent { IfNone result (page_at self.old.entries key.0 key.1 ≡ None) }
    {
        match self.hinted(key) {
            Some(index) => Some(index),
            None => self.look_up(key),
        }
    }

    /// The page, if there is one, to write.
    #[inline(always)]
    pub fn get_mut(&mut self, key: (i32, i32)) -> Option<&mut P>
        ensures* writes_back { sem 𝓛 (lends_page P.row self.entry key.0 key.1 result) }
        ensures value { option_copied_mut result ≡ page_at self.old.entries key.0 key.1 }
    {
        match self.index_of(key) {
            Some(index) => self.map.get_index_mut(index),
            None => None,
        }
    }

    /// Puts a page at a key, and gives the one that was there. With room it takes no memory.
    pub fn insert(
        &mut self,
        key: (i32, i32),
        page: P,
    ) -> Result<Option<P>, AllocFailed<((i32, i32), P)>>
        ensures old { IfOk result (λ old. old ≡ page_at self.old.entries key.0 key.1) }
        ensures updates { OnOk result ((a b : ℤ) → page_at self.new.entries a b
            ≡ cond (is_same key.0 key.1 a b) (Some page) (page_at self.old.entries a b)) }
        ensures err { OnErr result (self.new.entries ≡ self.old.entries) }
        ensures succeeds { 0 < self.old.spare → IsOk result }
        ensures spare { self.old.spare ≤ self.new.spare + 1 }
    {
        let last = self.map.len();
        self.note(key, last);
        self.map.insert(key, page)
    }

    /// Takes out the page at a key, if there is one.
    pub fn remove(&mut self, key: (i32, i32)) -> Option<P>
        ensures value { result ≡ page_at self.old.entries key.0 key.1 }
        ensures updates { (a b : ℤ) → page_at self.new.entries a b
            ≡ cond (is_same key.0 key.1 a b) None (page_at self.old.entries a b) }
        ensures spare { self.old.spare ≤ self.new.spare }
    {
        match self.index_of(key) {
            Some(index) => match self.map.swap_remove_index(index) {
                Some((_, page)) => Some(page),
                None => None,
            },
            None => None,
        }
    }
}

impl<P: Clone> Clone for PageTable<P> {
    ghost is_clone = { λ m n. AllZip (λ p q. (q.0 ≡ p.0) × P.is_clone p.1 q.1) m.entries n.entries };

    fn clone(&self) -> Result<PageTable<P>, AllocError> {
        let map = self.map.clone()?;
        let hints = self.hints.clone()?;
        Ok(PageTable { map, hints })
    }
}
