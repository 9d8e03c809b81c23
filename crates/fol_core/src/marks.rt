//! Which regions are prepared.

ghost use Rattle.std.specs.Prelude.{◌≡◌, ◌+◌, ◌<◌, ◌^◌, [], true, false, length, IfOk, OnOk};
ghost use Rattle.fol_model.specs.ActionStep.{at_id};
ghost use Rattle.fol_core.specs.Meaning.{mark, mark_count};

use std::alloc::{AllocError, Global};
use std::marker::Model;

/// Which regions have a tick out whose Begin is not recorded, by id. Contracts see it as a list.
#[derive(Drop)]
pub(crate) struct Marks {
    marks: Vec<bool>,
    /// How many they are.
    count: u64,
}

impl Model for Marks {
    ghost use Rattle.std.specs.Prelude.{Bool, List, ◌≡◌};
    ghost use Rattle.fol_core.specs.Meaning.{mark_count};

    ghost Value = { List Bool };

    ghost view = { λ m. m.marks.items };

    ghost invariant = { λ m. m.count ≡ mark_count m.marks.items };
}

impl Marks {
    /// No region. Takes no memory.
    pub(crate) fn new(alloc: Global) -> Marks
        ensures { result ≡ [] }
    {
        Marks {
            marks: Vec::new(alloc),
            count: 0,
        }
    }

    /// Whether the region is one.
    pub(crate) fn has(&self, id: u64) -> bool
        ensures { result ≡ mark self.now id }
    {
        match self.marks.get(id as usize) {
            Some(mark) => *mark,
            None => false,
        }
    }

    /// How many they are.
    pub(crate) fn count(&self) -> u64
        ensures count { result ≡ mark_count self.now }
        ensures few { result < 2 ^ 63 }
    {
        self.count
    }

    /// Takes the memory that `add` of the region needs.
    pub(crate) fn make_room(&mut self, id: u64) -> Result<(), AllocError>
        ensures same { mark self.new ≡ mark self.old }
        ensures count { mark_count self.new ≡ mark_count self.old }
        ensures room { OnOk result (id < length self.new) }
    {
        while self.marks.len() <= id as usize {
            self.marks.push(false)?;
        }
        Ok(())
    }

    /// Adds a region that is none of them. Takes no memory.
    pub(crate) fn add(&mut self, id: u64)
        requires room { id < length self.old }
        requires fresh { mark self.old id ≡ false }
        ensures marks { mark self.new ≡ at_id (mark self.old) id true }
        ensures count { mark_count self.new ≡ mark_count self.old + 1 }
    {
        self.marks[id as usize] = true;
        self.count += 1;
    }

    /// Takes one of them away.
    pub(crate) fn remove(&mut self, id: u64)
        requires marked { mark self.old id ≡ true }
        ensures marks { mark self.new ≡ at_id (mark self.old) id false }
        ensures count { mark_count self.old ≡ mark_count self.new + 1 }
        ensures length { length self.new ≡ length self.old }
    {
        self.marks[id as usize] = false;
        self.count -= 1;
    }
}
