//! Slots that threads share, and how they are made.

ghost use Rattle.std.specs.Prelude.{◌≡◌, ℕ, ◌<◌, ◌≤◌, [], length, map, replicate, Some, IfOk, vec_len, vec_capacity};
ghost use Rattle.fol_slots.specs.declared.word.Word.TheVariants.{Kept};

use crate::body::Body;
use crate::rule::{About, Hands, Making};
use crate::seat::{KeeperSeat, WorkerSeat};
use crate::seats::WorkerSeats;
use crate::view::View;
use crate::word::KEPT;
use atomic_table::{Refused, Table};
use std::alloc::{AllocError, Global};
use std::snapshot::Snapshot;

/// The slots, each with its word and its body. Any number of threads may share them.
#[derive(Drop)]
pub struct Slots<T: Body> {
    pub(crate) table: Table<Option<T>, View<T>, About<T>, Hands, Global>,
    ghost one_word_each: { table.shared.table_id.words ≡ table.shared.table_id.slots },
    ghost one_slot_each: { table.shared.table_id.slots ≡ length table.shared.key.bodies.value.items },
}

/// New slots with all their seats: the keeper's, and those of the workers 1, 2 and so on.
pub struct SlotsAndSeats<T: Body> {
    /// The slots.
    pub slots: Slots<T>,
    /// The keeper's seat.
    pub keeper: KeeperSeat<T>,
    /// The workers' seats, in order of their numbers.
    pub seats: WorkerSeats<T>,
}

fn kept_words(alloc: Global, count: usize) -> Result<Vec<u64>, AllocError>
    ensures { IfOk result (λ v. v.items ≡ replicate count 0) }
{
    vec![in alloc; KEPT; count]
}

fn filled<T: Drop>(alloc: Global, bodies: Vec<T>) -> Result<Vec<Option<T>>, AllocError>
    ensures { IfOk result (λ v. v.items ≡ map (λ b. Some b) bodies.items) }
{
    bodies.into_iter().map(|b| Some(b)).collect(alloc)
}

impl<T: Body> Slots<T> {
    ghost use Rattle.fol_slots.specs.Table.{slots_id, slot_count};
    ghost use Rattle.fol_slots.specs.Steps.{first_view};
    ghost use Rattle.fol_slots.specs.Shown.{AreNew, new_keeper};
    ghost use Rattle.fol_slots.specs.Moments.{WordIs};

    /// A slot for each of 1 to 65,535 bodies, all kept by the keeper, and seats for 0 to 64 workers, numbered from 1.
    /// Without memory the bodies are dropped.
    pub fn new(alloc: Global, bodies: Vec<T>, workers: u32) -> Result<SlotsAndSeats<T>, AllocError>
        requires bodies { (0 < vec_len bodies) × (vec_len bodies < 65536) }
        requires workers { workers ≤ 64 }
        ensures slots { IfOk result (λ made. slot_count made.slots ≡ vec_len bodies) }
        ensures keeper { IfOk result (λ made. made.keeper
            ≡ new_keeper (slots_id made.slots) bodies.items workers) }
        ensures seats { IfOk result (λ made. AreNew (slots_id made.slots) workers made.seats) }
        ensures words { IfOk result (λ made. (i : ℕ) → i < vec_len bodies
            → WordIs T.fit made.keeper i Kept) }
    {
        let seats = Vec::with_capacity(alloc, workers as usize)?;
        let words = kept_words(alloc, bodies.len())?;
        let about = About {
            bodies: Snapshot::of(&bodies),
        };
        let slots = filled(alloc, bodies)?;
        let (table, first) = match Table::new(alloc, words.as_slice(), slots, &about) {
            Ok(made) => made,
            Err(Refused { slots: _ }) => return Err(AllocError),
        };
        let slots = Slots { table };
        let (keeper, seats) = slots.deal(first, workers, seats);
        Ok(SlotsAndSeats {
            slots,
            keeper,
            seats: WorkerSeats::of(seats),
        })
    }

    /// The keeper's seat and the workers' seats out of the table's first seat.
    fn deal(
        &self,
        mut first: atomic_table::Seat<Option<T>, View<T>>,
        workers: u32,
        mut seats: Vec<WorkerSeat<T>>,
    ) -> (KeeperSeat<T>, Vec<WorkerSeat<T>>)
        requires some { 0 < slot_count self.now }
        requires workers { workers ≤ 64 }
        requires first { (first.table_id ≡ slots_id self.now)
            × (first.me ≡ (first_view self.now.table.shared.key.bodies.value.items, [])) }
        requires room { (seats.items ≡ []) × (workers ≤ vec_capacity seats) }
        ensures keeper { result.0
            ≡ new_keeper (slots_id self.now) self.now.table.shared.key.bodies.value.items workers }
        ensures seats { AreNew (slots_id self.now) workers result.1.items }
        ensures words { (i : ℕ) → i < slot_count self.now → WordIs T.fit result.0 i Kept }
    {
        for made in 0..workers {
            let pass = self.table.shared.split_seat::<Making>(&mut first);
            seats.push_reserved(WorkerSeat {
                number: made + 1,
                slot: None,
                pass,
            });
        }
        (KeeperSeat { pass: first }, seats)
    }
}
