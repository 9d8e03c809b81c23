//! Where the things of a chunk may lie.

ghost use Rattle.std.specs.Prelude.{◌≡◌, ℤ, ◌&&◌, if◌then◌else◌, OnOk, OnErr};
ghost use Rattle.std.specs.Option.{option_map};
ghost use Rattle.std.specs.Ordering.{int_eq};
ghost use Rattle.fol_model.specs.Geometry.{same_chunk};
ghost use Rattle.fol_model.specs.declared.places.ChunkPos.{ChunkPos};
ghost use Rattle.fol_bags.specs.Labels.{numbered, swapped};
ghost use Rattle.fol_bags.specs.Places.{known_place, is_bag, rebagged, renumbered, exchanged, renumbered_rows};

use crate::labels::Labels;
use fol_model::ChunkPos;
use std::alloc::{AllocError, Global};
use std::collections::HashMap;
use std::marker::Model;

/// The spot and the bag in which the things of one chunk may lie.
#[derive(Clone, Copy)]
pub struct Place {
    pub spot: Option<usize>,
    pub bag: Option<usize>,
}

/// The place of a chunk that was never named.
const NOWHERE: Place = Place {
    spot: None,
    bag: None,
};

/// Places by the `x` and `z` of a chunk, each with the label of its bag.
type Rows = HashMap<(i32, i32), Place>;

/// The place at these coordinates, if there is one.
fn known(rows: &Rows, x: i32, z: i32) -> Option<Place>
    ensures { result ≡ known_place rows.now.entries x z }
{
    match rows.get(&(x, z)) {
        Some(place) => Some(*place),
        None => None,
    }
}

/// Whether the place has that bag.
pub fn has_bag(place: Place, id: usize) -> bool
    ensures { result ≡ is_bag id place }
{
    match place.bag {
        Some(bag) => bag == id,
        None => false,
    }
}

/// Sets the place at these coordinates.
fn put(rows: &mut Rows, x: i32, z: i32, place: Place) -> Result<(), AllocError>
    ensures ok { OnOk result ((a b : ℤ) → known_place rows.new.entries a b
        ≡ (if (int_eq x a && int_eq z b) then Some place else known_place rows.old.entries a b)) }
    ensures err { OnErr result (rows.new.entries ≡ rows.old.entries) }
    ensures unknown { OnErr result (known_place rows.old.entries x z ≡ None) }
{
    match rows.insert((x, z), place) {
        Ok(_) => Ok(()),
        Err(_) => Err(AllocError),
    }
}

/// Names another bag, where the place has the bag `from`.
fn rename_bag(place: &mut Place, from: usize, to: usize)
    ensures { place.new ≡ rebagged from to place.old }
{
    if has_bag(*place, from) {
        place.bag = Some(to);
    }
}

/// Names another bag at the place at these coordinates, if it has the bag `from`.
fn rename(rows: &mut Rows, x: i32, z: i32, from: usize, to: usize)
    ensures { (a b : ℤ) → known_place rows.new.entries a b ≡ (if (int_eq x a && int_eq z b)
        then option_map (rebagged from to) (known_place rows.old.entries x z)
        else known_place rows.old.entries a b) }
{
    match rows.get_mut(&(x, z)) {
        Some(place) => rename_bag(place, from, to),
        None => {}
    }
}

/// The number `b` in place of `a`, and the other way round.
fn swapped_number(n: usize, a: usize, b: usize) -> usize
    ensures { result ≡ swapped a b n }
{
    if n == a {
        b
    } else if n == b {
        a
    } else {
        n
    }
}

/// The place with the label `b` in place of `a`, and the other way round.
fn swapped_place(row: Place, a: usize, b: usize) -> Place
    ensures { result ≡ exchanged a b row }
{
    match row.bag {
        Some(label) => Place {
            spot: row.spot,
            bag: Some(swapped_number(label, a, b)),
        },
        None => row,
    }
}

/// Exchanges two labels at all places.
fn exchange_labels(rows: &mut Rows, a: usize, b: usize)
    ensures { rows.new.entries ≡ renumbered_rows (swapped a b) rows.old.entries }
{
    rows.retain(|_, row| {
        *row = swapped_place(*row, a, b);
        true
    });
}

/// The place with the bag of its label.
fn owned(labels: &Labels, row: Place) -> Place
    ensures { result ≡ renumbered (numbered labels.now) row }
{
    match row.bag {
        Some(label) => Place {
            spot: row.spot,
            bag: Some(labels.owner(label)),
        },
        None => row,
    }
}

/// The place with the label of its bag.
fn labelled(labels: &Labels, place: Place) -> Place
    ensures { renumbered (numbered labels.now) result ≡ place }
{
    match place.bag {
        Some(bag) => Place {
            spot: place.spot,
            bag: Some(labels.label(bag)),
        },
        None => place,
    }
}

/// The place of each chunk; a chunk that was never named has neither spot nor bag. A chunk is kept with a label of its bag, so that two bags
/// can be exchanged at no cost for their chunks.
#[derive(Drop)]
pub struct Places {
    rows: Rows,
    labels: Labels,
}

impl Model for Places {
    ghost use Rattle.fol_bags.specs.Labels.{numbered};
    ghost use Rattle.fol_bags.specs.Places.{PlaceRows, renumbered_rows};

    ghost Value = { PlaceRows };

    ghost view = { λ p. record { rows = renumbered_rows (numbered p.labels) p.rows.entries } };
}

impl Places {
    ghost use Rattle.fol_bags.specs.Places.{PlaceRows, place_at, nowhere, rehomed};

    /// No chunk has a place. Takes no memory.
    pub fn new(alloc: Global) -> Places
        ensures { (q : ChunkPos) → place_at result q ≡ nowhere }
    {
        Places {
            rows: HashMap::new(alloc),
            labels: Labels::new(alloc),
        }
    }

    /// The place of a chunk.
    #[inline(always)]
    pub fn at(&self, c: ChunkPos) -> Place
        ensures { result ≡ place_at self.now c }
    {
        let row = known(&self.rows, c.x, c.z).unwrap_or(NOWHERE);
        owned(&self.labels, row)
    }

    /// Sets the place of a chunk. No memory is taken for a chunk that has a place.
    pub fn set(&mut self, c: ChunkPos, place: Place) -> Result<(), AllocError>
        ensures ok { OnOk result ((q : ChunkPos)
            → place_at self.new q ≡ (if same_chunk c q then place else place_at self.old q)) }
        ensures err { OnErr result ((q : ChunkPos) → place_at self.new q ≡ place_at self.old q) }
        ensures unknown { OnErr result (place_at self.old c ≡ nowhere) }
    {
        let row = labelled(&self.labels, place);
        put(&mut self.rows, c.x, c.z, row)
    }

    /// Takes the bag away from a chunk that has one. Takes no memory.
    pub fn unname(&mut self, c: ChunkPos)
        requires { place_at self.old c ≡ nowhere → ⊥ }
        ensures { (q : ChunkPos) → place_at self.new q
            ≡ (if same_chunk c q then record (place_at self.old c) { bag = None }
            else place_at self.old q) }
    {
        let place = self.at(c);
        let unnamed = Place {
            spot: place.spot,
            bag: None,
        };
        match self.set(c, unnamed) {
            Ok(()) => {}
            Err(_) => unreachable!(),
        }
    }

    /// Names another bag at those of the chunks that have the bag `from`.
    pub fn rehome(&mut self, chunks: &[ChunkPos], from: usize, to: usize)
        ensures { (q : ChunkPos) → place_at self.new q
            ≡ rehomed chunks.now from to q (place_at self.old q) }
    {
        for c in chunks {
            self.rehome_one(*c, from, to);
        }
    }

    /// Names another bag at the chunk, if it has the bag `from`.
    fn rehome_one(&mut self, c: ChunkPos, from: usize, to: usize)
        ensures { (q : ChunkPos) → place_at self.new q
            ≡ (if (same_chunk c q && is_bag from (place_at self.old q))
            then record (place_at self.old q) { bag = Some to } else place_at self.old q) }
    {
        let old = self.labels.label(from);
        let new = self.labels.label(to);
        rename(&mut self.rows, c.x, c.z, old, new);
    }

    /// Each chunk that has the bag `a` has the bag `b` then, and the other way round. Costs the same however many chunks they have; where memory
    /// runs out, or a number has more than 32 bits, all places are gone over.
    pub fn exchange(&mut self, a: usize, b: usize)
        ensures { (q : ChunkPos) → place_at self.new q ≡ exchanged a b (place_at self.old q) }
    {
        match self.labels.exchange(a, b) {
            Ok(()) => {}
            Err(_) => self.relabel(a, b),
        }
    }

    /// The same, where each place gets another label.
    fn relabel(&mut self, a: usize, b: usize)
        ensures { (q : ChunkPos) → place_at self.new q ≡ exchanged a b (place_at self.old q) }
    {
        let label = self.labels.label(a);
        let other = self.labels.label(b);
        exchange_labels(&mut self.rows, label, other);
    }
}
