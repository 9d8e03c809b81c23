//! Lists of ids, each rising.

ghost use Rattle.std.specs.Prelude.{◌≡◌, ◌+◌, ◌<◌, ◌≤◌, ◌^◌, [], length, replicate, IfOk, OnOk};
ghost use Rattle.std.specs.Vec.{vec_capacity};
ghost use Rattle.fol_lists.specs.Numbered.{list_at, total, with_list, with_numbers};
ghost use Rattle.fol_region_tables.specs.Links.{with_id, without_id};

use fol_lists::Lists;
use std::alloc::{AllocError, Global};
use std::marker::Model;

/// The most ids that there is ever room for.
const MOST: usize = 1 << 60;

/// Lists of ids by number.
#[derive(Drop)]
pub struct Links {
    lists: Lists<u64>,
    /// Where a list is made that takes another one's place.
    made: Vec<u64>,
    /// How many ids the lists hold together.
    used: usize,
    /// How many ids there is memory for.
    room: usize,
}

impl Model for Links {
    ghost use Rattle.std.specs.Prelude.{ℕ, ◌≡◌, ◌≤◌};
    ghost use Rattle.std.specs.Vec.{vec_capacity};
    ghost use Rattle.fol_lists.specs.Numbered.{Numbered, total};
    ghost use Rattle.fol_region_tables.specs.Links.{IsLinks};

    ghost Value = { Numbered ℕ };

    ghost view = { λ s. record { lists = s.lists.lists; room = s.room } };

    ghost invariant = { λ s. IsLinks (total s.lists) s.used s.room s.lists.room (vec_capacity s.made) };
}

impl Links {
    /// Empty lists with the numbers below `numbers`.
    pub fn new(alloc: Global, numbers: usize) -> Result<Links, AllocError>
        ensures { IfOk result (λ v. v ≡ record { lists = replicate numbers []; room = 0 }) }
    {
        Ok(Links {
            lists: Lists::new(alloc, numbers, 0)?,
            made: Vec::new(alloc),
            used: 0,
            room: 0,
        })
    }

    /// The list with this number.
    pub fn get(&self, n: usize) -> &[u64]
        requires { n < length self.now.lists }
        ensures { result.now ≡ list_at self.now n }
    {
        self.lists.get(n)
    }

    /// Makes a list empty.
    pub fn clear(&mut self, n: usize)
        requires { n < length self.old.lists }
        ensures { self.new ≡ with_list self.old n [] }
    {
        self.used -= self.lists.get(n).len();
        self.lists.clear(n);
    }

    /// Adds an id in order; it stands once, whether it was there or not. Takes no memory.
    pub fn insert(&mut self, n: usize, id: u64)
        requires number { n < length self.old.lists }
        requires room { total self.old < self.old.room }
        ensures { self.new ≡ with_list self.old n (with_id id (list_at self.old n)) }
    {
        self.made.clear();
        add_id(self.lists.get(n), id, &mut self.made);
        self.used = put_made(&mut self.lists, n, &self.made, self.used);
    }

    /// Takes an id out.
    pub fn remove(&mut self, n: usize, id: u64)
        requires { n < length self.old.lists }
        ensures { self.new ≡ with_list self.old n (without_id id (list_at self.old n)) }
    {
        self.made.clear();
        leave_out(self.lists.get(n), id, &mut self.made);
        self.used = put_made(&mut self.lists, n, &self.made, self.used);
    }

    /// Makes room for so many ids more. The lists stay either way.
    pub fn reserve(&mut self, more: usize) -> Result<(), AllocError>
        ensures lists { self.new.lists ≡ self.old.lists }
        ensures ok { OnOk result (total self.old + more ≤ self.new.room) }
        ensures room { self.old.room ≤ self.new.room }
    {
        if more > MOST - self.used {
            return Err(AllocError);
        }
        let room = self.used + more;
        self.made.clear();
        self.made.reserve(room)?;
        self.lists.reserve_room(room)?;
        if room > self.room {
            self.room = room;
        }
        Ok(())
    }

    /// The same lists with the same room, and empty ones up to so many numbers, in memory of their own.
    pub fn copy(&self, alloc: Global, numbers: usize) -> Result<Links, AllocError>
        ensures { IfOk result (λ v. v ≡ with_numbers self.now numbers) }
    {
        let mut lists = self.lists.copy(alloc)?;
        lists.reserve_numbers(numbers)?;
        Ok(Links {
            lists,
            made: Vec::with_capacity(alloc, self.room)?,
            used: self.used,
            room: self.room,
        })
    }
}

/// Puts what was made in the place of a list.
fn put_made(lists: &mut Lists<u64>, n: usize, made: &[u64], used: usize) -> usize
    requires number { n < length lists.old.lists }
    requires used { used ≡ total lists.old }
    requires room { total (with_list lists.old n made.now) ≤ lists.old.room }
    requires few { total (with_list lists.old n made.now) ≤ 2 ^ 60 }
    ensures put { lists.new ≡ with_list lists.old n made.now }
    ensures used { result ≡ total lists.new }
{
    let rest = used - lists.get(n).len();
    lists.put(n, made);
    rest + made.len()
}

/// Puts a rising list with one more id into an empty one with room for it.
fn add_id(ids: &[u64], id: u64, out: &mut Vec<u64>)
    requires none { out.old.items ≡ [] }
    requires room { length ids.now < vec_capacity out.old }
    ensures added { out.new.items ≡ with_id id ids.now }
    ensures few { length out.new.items ≤ length ids.now + 1 }
    ensures room { vec_capacity out.old ≤ vec_capacity out.new }
{
    'lower: for k in ids {
        if *k < id {
            let _ = out.push(*k);
        }
    }
    let _ = out.push(id);
    'higher: for k in ids {
        if id < *k {
            let _ = out.push(*k);
        }
    }
}

/// Puts a list without an id into an empty one with room for it.
fn leave_out(ids: &[u64], id: u64, out: &mut Vec<u64>)
    requires none { out.old.items ≡ [] }
    requires room { length ids.now ≤ vec_capacity out.old }
    ensures left { out.new.items ≡ without_id id ids.now }
    ensures few { length out.new.items ≤ length ids.now }
    ensures room { vec_capacity out.old ≤ vec_capacity out.new }
{
    for k in ids {
        if *k != id {
            let _ = out.push(*k);
        }
    }
}
