//! What an event changed in which regions there are.

ghost use Rattle.std.specs.Prelude.{◌≡◌, ◌<◌, [], ◌∷◌, ◌++◌, length, IfOk};
ghost use Rattle.fol_regions.specs.Changes.{nothing};

use std::alloc::{AllocError, Global};
use std::marker::Model;

/// The most regions of one change: all that are not Dead, and the one that is released.
const MOST: usize = 16_385;

/// A region became part of another.
#[derive(Clone, Copy, Debug, PartialEq, Eq)]
pub struct MergePair {
    /// The region that is Dead since.
    pub from: u64,
    /// The region that has its sections.
    pub into: u64,
}

/// Which regions began, ended, merged and parted. Contracts see four lists; there is memory for 16,385 regions in each.
#[derive(Drop)]
pub struct Change {
    created: Vec<u64>,
    dead: Vec<u64>,
    merges: Vec<MergePair>,
    parts: Vec<u64>,
}

impl Model for Change {
    ghost use Rattle.fol_regions.specs.Changes.{Changes};

    ghost Value = { Changes };

    ghost use Rattle.std.specs.Vec.{vec_capacity};
    ghost use Rattle.fol_regions.specs.Changes.{HasChangeRoom};

    ghost view = { λ c. record { created = c.created.items; dead = c.dead.items; merges = c.merges.items; parts = c.parts.items } };

    ghost invariant = { λ c. HasChangeRoom (vec_capacity c.created) (vec_capacity c.dead) (vec_capacity c.merges) (vec_capacity c.parts) };
}

impl Change {
    /// The new ids, rising.
    pub fn created(&self) -> &[u64]
        ensures { result.now ≡ self.now.created }
    {
        self.created.as_slice()
    }

    /// The regions that ended, in the order in which they did.
    pub fn dead(&self) -> &[u64]
        ensures { result.now ≡ self.now.dead }
    {
        self.dead.as_slice()
    }

    /// Which region became part of which, in the order made.
    pub fn merges(&self) -> &[MergePair]
        ensures { result.now ≡ self.now.merges }
    {
        self.merges.as_slice()
    }

    /// The ids of the parts of a split, in order of their least section; none where nothing was split.
    pub fn parts(&self) -> &[u64]
        ensures { result.now ≡ self.now.parts }
    {
        self.parts.as_slice()
    }

    /// Nothing changed. Takes the memory.
    pub(crate) fn new(alloc: Global) -> Result<Change, AllocError>
        ensures { IfOk result (λ c. c ≡ nothing) }
    {
        Ok(Change {
            created: Vec::with_capacity(alloc, MOST)?,
            dead: Vec::with_capacity(alloc, MOST)?,
            merges: Vec::with_capacity(alloc, MOST)?,
            parts: Vec::with_capacity(alloc, MOST)?,
        })
    }

    /// The same change, in memory of its own.
    pub(crate) fn copy(&self, alloc: Global) -> Result<Change, AllocError>
        ensures { IfOk result (λ c. c ≡ self.now) }
    {
        let mut change = Change::new(alloc)?;
        change.created.extend_from_slice(&self.created)?;
        change.dead.extend_from_slice(&self.dead)?;
        change.merges.extend_from_slice(&self.merges)?;
        change.parts.extend_from_slice(&self.parts)?;
        Ok(change)
    }

    /// Nothing changed.
    pub(crate) fn clear(&mut self)
        ensures { self.new ≡ nothing }
    {
        self.created.clear();
        self.dead.clear();
        self.merges.clear();
        self.parts.clear();
    }

    /// A new region.
    pub(crate) fn create(&mut self, id: u64)
        requires { length self.old.created < 16385 }
        ensures { self.new ≡ record self.old { created = self.old.created ++ id ∷ [] } }
    {
        let _ = self.created.push(id);
    }

    /// A region became part of another one.
    pub(crate) fn merge(&mut self, from: u64, into: u64)
        requires dead { length self.old.dead < 16385 }
        requires merges { length self.old.merges < 16385 }
        ensures { self.new ≡ record self.old {
          dead = self.old.dead ++ from ∷ [];
          merges = self.old.merges ++ (record { «from» = from; into = into }) ∷ [];
        } }
    {
        let _ = self.dead.push(from);
        let _ = self.merges.push(MergePair { from, into });
    }

    /// A region ended.
    pub(crate) fn end(&mut self, id: u64)
        requires { length self.old.dead < 16385 }
        ensures { self.new ≡ record self.old { dead = self.old.dead ++ id ∷ [] } }
    {
        let _ = self.dead.push(id);
    }

    /// A new region that is a part of one that was split.
    pub(crate) fn part(&mut self, id: u64)
        requires created { length self.old.created < 16385 }
        requires parts { length self.old.parts < 16385 }
        ensures { self.new ≡ record self.old {
          created = self.old.created ++ id ∷ [];
          parts = self.old.parts ++ id ∷ [];
        } }
    {
        let _ = self.created.push(id);
        let _ = self.parts.push(id);
    }
}
