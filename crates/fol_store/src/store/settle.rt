//! Tasks that came go to the spots of their chunks, and what lies on other chunks leaves a bag.

ghost use Rattle.std.specs.Prelude.{◌≡◌, ◌≢◌, ◌++◌, [], ◌∷◌, ◌+◌, ◌<◌, ◌≤◌, true, false, ℕ, List, length, slice_index_or, IsTrue, IfOk, OnOk, OnErr, ◌⊎◌};
ghost use Rattle.std.specs.List.Sorted.{IsStrictlySortedBy};
ghost use Rattle.fol_model.specs.declared.places.ChunkPos.{ChunkPos};
ghost use Rattle.fol_queues.specs.declared.dated.Dated.{Dated};
ghost use Rattle.fol_chunks.specs.Contents.{is_recorded};
ghost use Rattle.fol_chunks.specs.Order.{chunk_cmp};
ghost use Rattle.fol_bags.specs.Places.{place_at};

use crate::store::Store;
use fol_bags::{Place, has_bag, slots, spots};
use fol_keyed::ChunkList;
use fol_model::ChunkPos;
use std::alloc::AllocError;

impl Store {
    ghost use Rattle.fol_store.specs.Stock.{Stock, bag_of, place};
    ghost use Rattle.fol_store.specs.Steps.{SameMeaning, IsNoted, TakesTask};

    /// The spot of a chunk, which is made where it has none.
    pub(super) fn spot_of(&mut self, c: ChunkPos) -> Result<usize, AllocError>
        ensures spot { IfOk result (λ i. (place self.new c).spot ≡ Some i) }
        ensures same { SameMeaning self.old self.new }
        ensures bags { self.new.bags ≡ self.old.bags }
        ensures arrivals { self.new.arrivals ≡ self.old.arrivals }
        ensures homes { (q : ChunkPos) → (place self.new q).bag ≡ (place self.old q).bag }
    {
        let place = self.places.at(c);
        match place.spot {
            Some(i) => Ok(i),
            None => self.make_spot(c, place),
        }
    }

    /// Makes the spot of a chunk that has none.
    fn make_spot(&mut self, c: ChunkPos, place: Place) -> Result<usize, AllocError>
        requires there { place ≡ place_at self.old.places c }
        requires none { place.spot ≡ None }
        ensures spot { IfOk result (λ i. (place_at self.new.places c).spot ≡ Some i) }
        ensures same { SameMeaning self.old self.new }
        ensures bags { self.new.bags ≡ self.old.bags }
        ensures arrivals { self.new.arrivals ≡ self.old.arrivals }
        ensures homes { (q : ChunkPos) → (place_at self.new.places q).bag
            ≡ (place_at self.old.places q).bag }
    {
        match self.add_spot() {
            Ok(i) => self.name_spot(c, place, i),
            Err(_) => Err(AllocError),
        }
    }

    /// Adds a spot that no chunk has.
    fn add_spot(&mut self) -> Result<usize, AllocError>
        ensures range { IfOk result (λ i. i < length self.new.spots) }
        ensures same { SameMeaning self.old self.new }
        ensures bags { self.new.bags ≡ self.old.bags }
        ensures arrivals { self.new.arrivals ≡ self.old.arrivals }
        ensures places { self.new.places ≡ self.old.places }
    {
        let i = self.spots.len();
        spots::add(self.alloc, &mut self.spots)?;
        Ok(i)
    }

    /// Makes the spot that of a chunk that has none.
    fn name_spot(&mut self, c: ChunkPos, place: Place, i: usize) -> Result<usize, AllocError>
        requires there { place ≡ place_at self.old.places c }
        requires none { place.spot ≡ None }
        requires range { i < length self.old.spots }
        ensures spot { IfOk result (λ n. (place_at self.new.places c).spot ≡ Some n) }
        ensures same { SameMeaning self.old self.new }
        ensures bags { self.new.bags ≡ self.old.bags }
        ensures arrivals { self.new.arrivals ≡ self.old.arrivals }
        ensures homes { (q : ChunkPos) → (place_at self.new.places q).bag
            ≡ (place_at self.old.places q).bag }
    {
        let named = Place {
            spot: Some(i),
            bag: place.bag,
        };
        self.places.set(c, named)?;
        Ok(i)
    }

    /// Hands every task that came to the bag that has its chunk or to the spot of its chunk.
    pub(super) fn hand_out(&mut self) -> Result<(), AllocError>
        ensures same { SameMeaning self.old self.new }
        ensures bags { bag_of self.new ≡ bag_of self.old }
        ensures empty { OnOk result (self.new.arrivals ≡ []) }
    {
        while !self.arrivals.is_empty() {
            self.hand_out_last()?;
        }
        Ok(())
    }

    /// Hands the last task that came, and those before it that are on the same chunk, to the bag that has their chunk, where that is here
    /// and memory is found for them there; else the last one alone to the spot of its chunk.
    fn hand_out_last(&mut self) -> Result<(), AllocError>
        requires { 0 < length self.old.arrivals }
        ensures same { SameMeaning self.old self.new }
        ensures bags { bag_of self.new ≡ bag_of self.old }
        ensures len { OnOk result (length self.new.arrivals < length self.old.arrivals) }
    {
        let c = self.last_chunk();
        match self.bag_with_room(c) {
            Some(id) => {
                self.deliver(id, c);
                self.deliver_more(id, c);
                Ok(())
            }
            None => self.set_aside(c),
        }
    }

    /// Hands the last tasks that came to the bag that has their chunk, as long as they are on this one and memory is found for them there.
    fn deliver_more(&mut self, id: usize, c: ChunkPos)
        requires home { (place self.old c).bag ≡ Some id }
        ensures same { SameMeaning self.old self.new }
        ensures bags { bag_of self.new ≡ bag_of self.old }
        ensures len { length self.new.arrivals ≤ length self.old.arrivals }
    {
        while self.is_last_on(c) {
            match self.make_room(id, c) {
                Some(id) => self.deliver(id, c),
                None => return,
            }
        }
    }

    /// Whether a task came that waits, and the last one is on this chunk.
    fn is_last_on(&self, c: ChunkPos) -> bool
        ensures some { result ≡ true → 0 < length self.now.arrivals }
        ensures last { result ≡ true → (xs : List Dated) (d : Dated)
            → self.now.arrivals ≡ xs ++ d ∷ [] → c ≡ d.task.chunk }
    {
        !self.arrivals.is_empty() && self.last_chunk() == c
    }

    /// Hands the last task that came to the bag that has its chunk.
    fn deliver(&mut self, id: usize, c: ChunkPos)
        requires some { 0 < length self.old.arrivals }
        requires last { (xs : List Dated) (d : Dated) → self.old.arrivals ≡ xs ++ d ∷ []
            → c ≡ d.task.chunk }
        requires takes { TakesTask self.old c id }
        ensures same { SameMeaning self.old self.new }
        ensures bags { bag_of self.new ≡ bag_of self.old }
        ensures places { self.new.places ≡ self.old.places }
        ensures len { length self.new.arrivals + 1 ≡ length self.old.arrivals }
    {
        let _chunk = c;
        match self.arrivals.pop() {
            Some(dated) => slots::queue(&mut self.bags, id, dated),
            None => unreachable!(),
        }
    }

    /// Hands the last task that came to the spot of its chunk, and notes it for the bag that has the chunk.
    fn set_aside(&mut self, c: ChunkPos) -> Result<(), AllocError>
        requires some { 0 < length self.old.arrivals }
        requires last { (xs : List Dated) (d : Dated) → self.old.arrivals ≡ xs ++ d ∷ []
            → c ≡ d.task.chunk }
        ensures same { SameMeaning self.old self.new }
        ensures bags { bag_of self.new ≡ bag_of self.old }
        ensures len { OnOk result (length self.new.arrivals + 1 ≡ length self.old.arrivals) }
    {
        let i = self.spot_of(c)?;
        self.note(c)?;
        self.hand_out_to(i, c)
    }

    /// Notes that tasks may lie in the spot of a chunk, for a listed bag that has the chunk and is not calm.
    fn note(&mut self, c: ChunkPos) -> Result<(), AllocError>
        ensures same { SameMeaning self.old self.new }
        ensures bags { bag_of self.new ≡ bag_of self.old }
        ensures arrivals { self.new.arrivals ≡ self.old.arrivals }
        ensures places { self.new.places ≡ self.old.places }
        ensures noted { OnOk result (IsNoted self.new c) }
    {
        match self.places.at(c).bag {
            Some(id) => self.note_in(id, c),
            None => Ok(()),
        }
    }

    /// Notes that tasks may lie in the spot of a chunk that the bag has, where it is listed and not calm.
    fn note_in(&mut self, id: usize, c: ChunkPos) -> Result<(), AllocError>
        requires { (place self.old c).bag ≡ Some id }
        ensures same { SameMeaning self.old self.new }
        ensures bags { bag_of self.new ≡ bag_of self.old }
        ensures arrivals { self.new.arrivals ≡ self.old.arrivals }
        ensures places { self.new.places ≡ self.old.places }
        ensures noted { OnOk result (IsNoted self.new c) }
    {
        if slots::is_stirred(&self.bags, id) {
            slots::touch(self.alloc, &mut self.bags, id, c)
        } else {
            Ok(())
        }
    }

    /// The chunk of the last task that came.
    fn last_chunk(&self) -> ChunkPos
        requires { 0 < length self.now.arrivals }
        ensures { (xs : List Dated) (d : Dated) → self.now.arrivals ≡ xs ++ d ∷ []
            → result ≡ d.task.chunk }
    {
        self.arrivals[self.arrivals.len() - 1].task.chunk
    }

    /// Hands the last task that came to the spot of its chunk.
    fn hand_out_to(&mut self, i: usize, c: ChunkPos) -> Result<(), AllocError>
        requires some { 0 < length self.old.arrivals }
        requires last { (xs : List Dated) (d : Dated) → self.old.arrivals ≡ xs ++ d ∷ []
            → c ≡ d.task.chunk }
        requires spot { (place self.old c).spot ≡ Some i }
        requires noted { IsNoted self.old c }
        ensures same { SameMeaning self.old self.new }
        ensures bags { self.new.bags ≡ self.old.bags }
        ensures len { OnOk result (length self.new.arrivals + 1 ≡ length self.old.arrivals) }
    {
        spots::make_room(&mut self.spots, i)?;
        match self.arrivals.pop() {
            Some(dated) => spots::queue(&mut self.spots, i, dated),
            None => unreachable!(),
        }
        Ok(())
    }

    /// Moves what lies on a chunk out of a bag, if the bag has the chunk.
    fn evict(&mut self, id: usize, c: ChunkPos) -> Result<(), AllocError>
        requires here { (bag_of self.old id).here ≡ true }
        requires not_listed { (bag_of self.old id).listed ≡ false }
        ensures same { SameMeaning self.old self.new }
        ensures bags { bag_of self.new ≡ bag_of self.old }
        ensures arrivals { self.new.arrivals ≡ self.old.arrivals }
        ensures gone { OnOk result ((place self.new c).bag ≡ Some id → ⊥) }
        ensures fewer { (q : ChunkPos) → (place self.new q).bag ≡ Some id
            → (place self.old q).bag ≡ Some id }
    {
        if !has_bag(self.places.at(c), id) {
            return Ok(());
        }
        match self.spot_of(c) {
            Ok(i) => self.evict_to(i, id, c),
            Err(_) => Err(AllocError),
        }
    }

    /// Moves what lies on a chunk out of the bag that has the chunk, into its spot.
    fn evict_to(&mut self, i: usize, id: usize, c: ChunkPos) -> Result<(), AllocError>
        requires here { (bag_of self.old id).here ≡ true }
        requires not_listed { (bag_of self.old id).listed ≡ false }
        requires spot { (place self.old c).spot ≡ Some i }
        requires home { (place self.old c).bag ≡ Some id }
        ensures same { SameMeaning self.old self.new }
        ensures bags { bag_of self.new ≡ bag_of self.old }
        ensures arrivals { self.new.arrivals ≡ self.old.arrivals }
        ensures gone { OnOk result ((place self.new c).bag ≡ Some id → ⊥) }
        ensures fewer { (q : ChunkPos) → (place self.new q).bag ≡ Some id
            → (place self.old q).bag ≡ Some id }
    {
        match spots::shift_from_bag(&mut self.bags, id, &[c], &mut self.spots, i) {
            Ok(()) => {
                self.places.unname(c);
                Ok(())
            }
            Err(_) => Err(AllocError),
        }
    }

    /// The chunks of a bag, in memory of their own.
    pub(super) fn chunks_of(&self, id: usize) -> Result<Vec<ChunkPos>, AllocError>
        requires { (bag_of self.now id).here ≡ true }
        ensures { IfOk result (λ chunks. chunks.items ≡ (bag_of self.now id).chunks) }
    {
        self.bags.slot(id).list.copy(self.alloc)
    }

    /// Moves what lies on other chunks than these out of a bag.
    pub(super) fn drop_others(&mut self, id: usize, chunks: &[ChunkPos]) -> Result<(), AllocError>
        requires order { IsStrictlySortedBy chunk_cmp chunks.now }
        requires here { (bag_of self.old id).here ≡ true }
        requires not_listed { (bag_of self.old id).listed ≡ false }
        ensures same { SameMeaning self.old self.new }
        ensures bags { bag_of self.new ≡ bag_of self.old }
        ensures arrivals { self.new.arrivals ≡ self.old.arrivals }
        ensures gone { OnOk result ((k : ℕ) (d : ChunkPos) → k < length (bag_of self.new id).chunks
            → (is_recorded chunks.now (slice_index_or (bag_of self.new id).chunks k d) ≡ true)
            ⊎ ((place self.new (slice_index_or (bag_of self.new id).chunks k d)).bag ≡ Some id
            → ⊥)) }
    {
        let list = ChunkList::of(chunks);
        let own = self.chunks_of(id)?;
        for k in 0..own.len() {
            let c = own[k];
            if !list.has(c) {
                self.evict(id, c)?;
            }
        }
        Ok(())
    }
}
