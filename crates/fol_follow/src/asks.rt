//! The asks of a book, found by the entity that they wait for.

ghost use Rattle.std.specs.Prelude.{◌≡◌, ◌+◌, ◌-◌, ◌≤◌, ◌<◌, ◌^◌, nat_eq, ℕ, suc, true, [], filter, map, length, slice_get, if◌then◌else◌, All, IsNone, IfOk, OnOk, OnErr};
ghost use Rattle.std.specs.Option.{is_some, option_map};
ghost use Rattle.std.specs.Vec.{vec_capacity};
ghost use Rattle.std.specs.List.{IsDistinct};
ghost use Rattle.std.specs.List.Sorted.{IsStrictlySortedBy};
ghost use Rattle.fol_model.specs.World.{standing_in};
ghost use Rattle.fol_follow.specs.Here.{by_id};
ghost use Rattle.fol_follow.specs.Visits.{AreLeft, AreVisits, lowered, by_number, same_number, visit_in, waiting_at};
ghost use Rattle.std.specs.List.Sorted.{IsPermutation};

use crate::entries::{Asked, EntityAt, Visit, Waiting};
use fol_model::Entity;
use std::alloc::{AllocError, Global};
use std::collections::BTreeMap;
use std::marker::Model;

/// An ask.
#[derive(Clone, Copy)]
pub struct Row {
    /// The entity that it waits for.
    pub entity: u32,
    /// How many visits have the entity when this ask is visited, counted from the first one of the book.
    pub due: u64,
    /// The number of the last ask before it that waits for the same entity and as many visits, or 0.
    pub before: u64,
}

/// The asks, and in how many visits each entity of the opening was. An ask has no time to live of its own: it is queued while its entity was
/// in fewer visits than it waits for. So a visit raises one count for each entity that it has, and touches no ask but those that it visits.
#[derive(Drop)]
pub struct Asks {
    /// In how many visits each entity of the opening was.
    counts: BTreeMap<u32, u64>,
    /// The asks in order of number, from 1.
    rows: Vec<Row>,
    /// For an entity and a count of visits above its own, the number of the last ask that waits for these.
    heads: BTreeMap<(u32, u64), u64>,
}

impl Model for Asks {
    ghost use Rattle.std.specs.BTreeMap.{get};
    ghost use Rattle.fol_follow.specs.Table.{Table, AreLinked, pair_cmp, visits_in};

    ghost Value = { Table };

    ghost view = { λ a. record { counts = a.counts.entries; rows = a.rows.items } };

    ghost invariant = { λ a. AreLinked (visits_in a.counts.entries) (λ key. get pair_cmp a.heads key) a.rows.items };
}

impl Asks {
    ghost use Rattle.fol_follow.specs.Table.{Answered, AreAtMost, IsLast, collected, count_of, entity_at, pending, visits_in, waits_for};

    /// No ask, of these entities.
    pub fn new(alloc: Global, entities: &[Entity]) -> Result<Asks, AllocError>
        ensures known { IfOk result (λ a. (id : ℕ)
            → is_some (visits_in a.counts id) ≡ is_some (standing_in entities.now id)) }
        ensures counts { IfOk result (λ a. (id : ℕ) → count_of a id ≡ 0) }
        ensures none { IfOk result (λ a. a.rows ≡ []) }
    {
        let mut counts = BTreeMap::new(alloc);
        for e in entities {
            counts.insert(e.id, 0)?;
        }
        Ok(Asks {
            counts,
            rows: Vec::new(alloc),
            heads: BTreeMap::new(alloc),
        })
    }

    /// Queues an ask of an entity of the opening, to be visited in so many visits of it, with the next number; any other entity is Unknown. When
    /// out of memory, nothing has changed.
    pub fn ask(&mut self, entity: u32, delay: u32) -> Result<Asked, AllocError>
        requires counts { AreAtMost (2 ^ 62) self.old }
        requires rows { length self.old.rows < 2 ^ 62 }
        requires delay { (0 < delay) × (delay ≤ 1000000) }
        ensures answer { IfOk result (λ a. Answered self.old self.new entity delay a) }
        ensures same { OnErr result (self.new ≡ self.old) }
    {
        if !self.knows(entity) {
            return Ok(Asked::Unknown);
        }
        let number = self.add(entity, delay)?;
        Ok(Asked::Queued(number))
    }

    /// Queues an ask of an entity of the opening, and gives its number.
    fn add(&mut self, entity: u32, delay: u32) -> Result<u64, AllocError>
        requires known { is_some (visits_in self.old.counts entity) ≡ true }
        requires counts { AreAtMost (2 ^ 62) self.old }
        requires rows { length self.old.rows < 2 ^ 62 }
        requires delay { (0 < delay) × (delay ≤ 1000000) }
        ensures answer { IfOk result (λ n.
            Answered self.old self.new entity delay (Asked.Queued n)) }
        ensures same { OnErr result (self.new ≡ self.old) }
    {
        let due = self.count(entity) + u64::from(delay);
        let before = self.head(entity, due);
        let number = self.rows.len() as u64 + 1;
        self.rows.reserve(1)?;
        self.heads.insert((entity, due), number)?;
        self.rows.push_reserved(Row {
            entity,
            due,
            before,
        });
        Ok(number)
    }

    /// Whether it is an entity of the opening.
    fn knows(&self, entity: u32) -> bool
        ensures { result ≡ is_some (visits_in self.now.counts entity) }
    {
        self.counts.contains_key(&entity)
    }

    /// The entities among these that are of the opening, each with its block.
    pub fn known_among(
        &self,
        alloc: Global,
        entities: &[Entity],
    ) -> Result<Vec<EntityAt>, AllocError>
        ensures { IfOk result (λ here. here.items
            ≡ map entity_at (filter (λ e. is_some (visits_in self.now.counts e.id)) entities.now)) }
    {
        entities
            .iter()
            .filter(|e| self.knows(e.id))
            .map(|e| EntityAt { id: e.id, at: e.at })
            .collect(alloc)
    }

    /// The visits that are due where these entities are there, in order of number.
    pub fn due(&self, alloc: Global, here: &[EntityAt]) -> Result<Vec<Visit>, AllocError>
        requires order { IsStrictlySortedBy by_id here.now }
        requires counts { AreAtMost (2 ^ 62) self.now }
        ensures { IfOk result (λ visits. AreVisits (pending self.now) here.now visits.items) }
    {
        let mut visits = Vec::new(alloc);
        for place in here {
            self.collect(*place, &mut visits)?;
        }
        sort(&mut visits);
        Ok(visits)
    }

    /// Adds the visits that are due where this entity is there.
    fn collect(&self, place: EntityAt, visits: &mut Vec<Visit>) -> Result<(), AllocError>
        requires counts { AreAtMost (2 ^ 62) self.now }
        requires distinct { IsDistinct same_number visits.old.items }
        requires apart { (k : ℕ)
            → waits_for place.id (count_of self.now place.id + 1) (slice_get self.now.rows k) ≡ true
            → IsNone (visit_in visits.old.items (suc k)) }
        ensures distinct { OnOk result (IsDistinct same_number visits.new.items) }
        ensures visits { OnOk result ((n : ℕ)
            → visit_in visits.new.items n
            ≡ collected self.now.rows place (count_of self.now place.id + 1) 0 n
            (visit_in visits.old.items n)) }
    {
        let due = self.count(place.id) + 1;
        let mut number = self.head(place.id, due);
        while number != 0 {
            let row = self.row(number);
            visits.push(Visit {
                number,
                entity: place.id,
                at: place.at,
            })?;
            number = row.before;
        }
        Ok(())
    }

    /// Lowers the rests of the asks of these entities by one. Takes no memory.
    pub fn lower(&mut self, here: &[EntityAt])
        requires order { IsStrictlySortedBy by_id here.now }
        requires known { All (λ e. is_some (visits_in self.old.counts e.id) ≡ true) here.now }
        requires counts { AreAtMost (2 ^ 62) self.old }
        ensures asks { pending self.new ≡ λ n. lowered here.now (pending self.old n) }
        ensures known { (id : ℕ) → is_some (visits_in self.new.counts id)
            ≡ is_some (visits_in self.old.counts id) }
        ensures counts { (id : ℕ) → count_of self.new id ≤ count_of self.old id + 1 }
        ensures rows { self.new.rows ≡ self.old.rows }
    {
        for place in here {
            self.count_visit(place.id);
        }
    }

    /// Counts one more visit of an entity of the opening.
    fn count_visit(&mut self, entity: u32)
        requires known { is_some (visits_in self.old.counts entity) ≡ true }
        requires few { count_of self.old entity < 2 ^ 63 }
        ensures counts { (id : ℕ) → visits_in self.new.counts id
            ≡ (if nat_eq entity id then Some (count_of self.old entity + 1)
            else visits_in self.old.counts id) }
        ensures rows { self.new.rows ≡ self.old.rows }
    {
        let count = self.count(entity) + 1;
        self.heads.remove(&(entity, count));
        match self.counts.insert(entity, count) {
            Ok(_) => {}
            Err(_) => unreachable!(),
        }
    }

    /// How many asks there are, those that were visited included.
    pub fn len(&self) -> usize
        ensures { result ≡ length self.now.rows }
    {
        self.rows.len()
    }

    /// Lists the asks that are still queued, in order of number. Takes no memory.
    pub fn list_left(&self, left: &mut Vec<Waiting>)
        requires empty { left.old.items ≡ [] }
        requires room { length self.now.rows ≤ vec_capacity left.old }
        ensures { AreLeft (pending self.now) left.new.items }
    {
        for index in 0..self.rows.len() {
            match self.waiting(index as u64 + 1) {
                Some(waiting) => left.push_reserved(waiting),
                None => {}
            }
        }
    }

    /// The ask of a number, where it is still queued.
    fn waiting(&self, number: u64) -> Option<Waiting>
        requires { (0 < number) × (number ≤ length self.now.rows) }
        ensures { result ≡ option_map (waiting_at number) (pending self.now number) }
    {
        let row = self.row(number);
        let count = self.count(row.entity);
        if row.due <= count {
            return None;
        }
        Some(Waiting {
            number,
            entity: row.entity,
            rest: (row.due - count) as u32,
        })
    }

    /// The ask of a number.
    fn row(&self, number: u64) -> Row
        requires { (0 < number) × (number ≤ length self.now.rows) }
        ensures found { slice_get self.now.rows (number - 1) ≡ Some result }
        ensures before { IsLast self.now.rows result.entity result.due (number - 1) result.before }
        ensures near { result.due ≤ count_of self.now result.entity + 1000000 }
    {
        self.rows[number as usize - 1]
    }

    /// In how many visits the entity was.
    fn count(&self, entity: u32) -> u64
        ensures { result ≡ count_of self.now entity }
    {
        self.counts.get(&entity).copied().unwrap_or(0)
    }

    /// The number of the last ask that waits for this entity and so many visits, which are more than it was in, or 0.
    fn head(&self, entity: u32, due: u64) -> u64
        requires ahead { count_of self.now entity < due }
        ensures { IsLast self.now.rows entity due (length self.now.rows) result }
    {
        self.heads.get(&(entity, due)).copied().unwrap_or(0)
    }
}

/// Puts visits in order of number.
fn sort(visits: &mut Vec<Visit>)
    requires { IsDistinct same_number visits.old.items }
    ensures same { IsPermutation visits.old.items visits.new.items }
    ensures order { IsStrictlySortedBy by_number visits.new.items }
{
    visits.sort_unstable_by_key(|visit| visit.number);
}
