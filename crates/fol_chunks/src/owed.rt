//! Movements that entities have still to make.

ghost use Rattle.std.specs.Prelude.{◌≡◌, ◌+◌, ◌≤◌, ◌++◌, length, map, vec_len, count_by, OnOk};
ghost use Rattle.std.specs.Fn.{iterate};
ghost use Rattle.std.specs.Vec.{vec_capacity};
ghost use Rattle.fol_model.specs.Geometry.{chunk_of as chunk_around};
ghost use Rattle.fol_keyed.specs.Members.{is_listed};
ghost use Rattle.fol_chunks.specs.Areas.{paid, stepped_in};

use crate::area::Area;
use fol_keyed::ChunkList;
use fol_model::{Entity, chunk_of};
use std::alloc::AllocError;

/// So many movements inside an area.
#[derive(Clone, Copy)]
pub struct Owed {
    pub area: Area,
    pub steps: u32,
}

impl Owed {
    /// No movement.
    pub fn none() -> Owed
        ensures { result.steps ≡ 0 }
    {
        let area = Area {
            west: 0,
            east: 0,
            north: 0,
            south: 0,
        };
        Owed { area, steps: 0 }
    }

    /// The entity after the movements.
    pub fn pay(&self, entity: Entity) -> Entity
        ensures { result ≡ paid self.now entity }
    {
        match self.steps {
            0 => entity,
            steps => self.area.walked(entity, steps),
        }
    }

    /// Makes the movements of each entity, so that none is left.
    pub fn settle(&mut self, entities: &mut Vec<Entity>)
        ensures none { self.new.steps ≡ 0 }
        ensures paid { entities.new.items ≡ map (paid self.old) entities.old.items }
        ensures len { vec_len entities.new ≡ vec_len entities.old }
        ensures capacity { vec_capacity entities.new ≡ vec_capacity entities.old }
    {
        if self.steps > 0 {
            self.pay_all(entities);
            self.steps = 0;
        }
    }

    /// Makes the movements of each entity of a list.
    fn pay_all(&self, entities: &mut [Entity])
        ensures { entities.new ≡ map (paid self.now) entities.old }
    {
        for i in 0..entities.len() {
            entities[i] = self.pay(entities[i]);
        }
    }

    /// Adds each entity of a list, after the movements, to another list.
    pub fn add_paid(&self, entities: &[Entity], list: &mut Vec<Entity>) -> Result<(), AllocError>
        ensures items { OnOk result (list.new.items
            ≡ list.old.items ++ map (paid self.now) entities.now) }
        ensures len { OnOk result (vec_len list.new ≡ vec_len list.old + length entities.now) }
        ensures capacity { vec_capacity list.old ≤ vec_capacity list.new }
    {
        for entity in entities {
            list.push(self.pay(*entity))?;
        }
        Ok(())
    }

    /// How many entities of a list stand in the chunks after the movements.
    pub fn count_paid(&self, entities: &[Entity], chunks: &ChunkList) -> usize
        ensures count { result ≡ count_by (λ (e : Entity).
            is_listed chunks.now.chunks.now (chunk_around e.at)) (map (paid self.now) entities.now) }
        ensures bound { result ≤ length entities.now }
    {
        let mut count = 0;
        for entity in entities {
            if chunks.has(chunk_of(self.pay(*entity).at)) {
                count += 1;
            }
        }
        count
    }

    /// Adds so many movements inside an area, which costs nothing where it is the area of those that are owed already. Else these are made.
    pub fn add(&mut self, area: Area, steps: u32, entities: &mut Vec<Entity>)
        ensures paid { map (paid self.new) entities.new.items
            ≡ iterate (map (stepped_in area)) steps (map (paid self.old) entities.old.items) }
        ensures len { vec_len entities.new ≡ vec_len entities.old }
        ensures capacity { vec_capacity entities.new ≡ vec_capacity entities.old }
    {
        if self.area != area || u32::MAX - self.steps < steps {
            self.settle(entities);
            self.area = area;
        }
        self.steps += steps;
    }
}
