//! The rows of a report, each read from its line.

ghost use Rattle.std.specs.Prelude.{◌≡◌, ℕ, ◌<◌, ◌^◌, List, [], ◌∷◌, ◌++◌, true, codes, decimal, IfOk, OnErr, Err};
ghost use Rattle.fol_model.specs.declared.places.ChunkPos.{ChunkPos};
ghost use Rattle.fol_model.specs.declared.entities.Entity.{Entity};
ghost use Rattle.fol_model.specs.LineWords.{Word};
ghost use Rattle.fol_model.specs.TextLines.{words};
ghost use Rattle.fol_model.specs.Geometry.{is_block, is_chunk};
ghost use Rattle.fol_model.specs.ReportWords.{block_row_words, chunk_words, entity_words, owner_words, place_words, region_words, state_word, task_words};
ghost use Rattle.fol_events.specs.declared.faults.Fault.TheVariants.{Unspelled};
ghost use Rattle.fol_events.specs.Pieces.{NoneIn, NotSpelt};
ghost use Rattle.fol_events.specs.Postable.{posted_words};
ghost use Rattle.fol_report_reader.specs.Rows.{BlockInRange, EntityInRange, OwnerInRange, PlaceInRange, QueuedInRange, RegionInRange, StateInRange, TaskInRange, arrival_words, sizes_words};

use crate::parts::Row;
use fol_events::{Fault, Words, action, is_word, read_event};
use fol_model::{
    Action, BlockAt, ChunkPos, Entity, EntityRow, Entry, OwnerRow, PackedEntry, Place, RegionRow,
    SectionPos, State, Task, TaskRow,
};
use std::alloc::Global;

/// The state of a region.
fn state(words: &mut Words) -> Result<State, Fault>
    ensures found { IfOk result (λ s. StateInRange s × (words.old ≡ state_word s ∷ words.new)) }
    ensures none { OnErr result (NoneIn (λ s. state_word s ∷ []) StateInRange words.old) }
{
    let word = words.next()?;
    if is_word(word, b"ready") {
        Ok(State::Ready)
    } else if is_word(word, b"transient") {
        Ok(State::Transient)
    } else if is_word(word, b"ticking") {
        Ok(State::Ticking)
    } else {
        Err(Fault::Unspelled)
    }
}

/// What a region owes, its sections and its chunks, as the last words.
fn sizes(words: &mut Words) -> Result<(u32, u32, u32), Fault>
    ensures found { IfOk result (λ r. words.old ≡ sizes_words r.0 r.1 r.2) }
    ensures none { OnErr result ((owed sections chunks : ℕ) → owed < 2 ^ 32 → sections < 2 ^ 32
        → chunks < 2 ^ 32 → words.old ≡ sizes_words owed sections chunks → ⊥) }
{
    words.pass(b"owed")?;
    let owed = words.small()?;
    words.pass(b"sections")?;
    let sections = words.small()?;
    words.pass(b"chunks")?;
    let chunks = words.small()?;
    words.end()?;
    Ok((owed, sections, chunks))
}

/// A region.
fn region(words: &mut Words) -> Result<RegionRow, Fault>
    ensures found { IfOk result (λ r. RegionInRange r × (words.old ≡ region_words r)) }
    ensures none { OnErr result (NotSpelt region_words RegionInRange words.old) }
{
    words.pass(b"region")?;
    let id = words.wide()?;
    let state = state(words)?;
    words.pass(b"tick")?;
    let tick = words.wide()?;
    let (owed, sections, chunks) = sizes(words)?;
    Ok(RegionRow {
        id,
        state,
        tick,
        owed,
        sections,
        chunks,
    })
}

/// A section and its region.
fn owner(words: &mut Words) -> Result<OwnerRow, Fault>
    ensures found { IfOk result (λ r. OwnerInRange r × (words.old ≡ owner_words r)) }
    ensures none { OnErr result (NotSpelt owner_words OwnerInRange words.old) }
{
    words.pass(b"owner")?;
    let x = words.integer(-1_000_008, 1_000_008)?;
    let z = words.integer(-1_000_008, 1_000_008)?;
    let region = words.wide()?;
    words.end()?;
    Ok(OwnerRow {
        at: SectionPos { x, z },
        region,
    })
}

/// What stands before the action of a task: its number, its chunk and its rest.
fn task_head(words: &mut Words) -> Result<(u64, ChunkPos, u32), Fault>
    ensures found { IfOk result (λ r. (is_chunk r.1 ≡ true)
        × (words.old ≡ codes "task" ∷ decimal r.0 ∷ chunk_words r.1 ++ decimal r.2 ∷ words.new)) }
    ensures none { OnErr result ((number rest : ℕ) (c : ChunkPos) (more : List Word)
        → number < 2 ^ 64 → is_chunk c ≡ true → rest < 2 ^ 32
        → words.old ≡ codes "task" ∷ decimal number ∷ chunk_words c ++ decimal rest ∷ more → ⊥) }
{
    words.pass(b"task")?;
    let number = words.wide()?;
    let chunk = words.chunk()?;
    let rest = words.small()?;
    Ok((number, chunk, rest))
}

/// The arrival of an entity, whose speed no line tells.
fn arrival(words: &mut Words) -> Result<Action, Fault>
    ensures found { IfOk result (λ a. QueuedInRange a × (words.old ≡ posted_words a)) }
    ensures none { OnErr result ((e : Entity) → e.id < 2 ^ 32 → is_block e.at ≡ true
        → words.old ≡ arrival_words e → ⊥) }
{
    words.pass(b"arrive")?;
    let id = words.small()?;
    let at = words.block()?;
    words.end()?;
    Ok(Action::Arrive(Entity {
        id,
        at,
        vx: 0,
        vz: 0,
    }))
}

/// The action of a queued task, as the last words; both arguments have them.
fn queued(alloc: Global, words: &mut Words, again: &mut Words) -> Result<Action, Fault>
    requires { words.old ≡ again.old }
    ensures found { IfOk result (λ a. QueuedInRange a × (words.old ≡ posted_words a)) }
    ensures none { result ≡ Err Unspelled → NotSpelt posted_words QueuedInRange words.old }
{
    match arrival(words) {
        Ok(action) => Ok(action),
        Err(_) => action(alloc, again),
    }
}

/// A task.
fn task(alloc: Global, line: &[u8]) -> Result<TaskRow, Fault>
    ensures found { IfOk result (λ r. TaskInRange r × (words line.now ≡ task_words r)) }
    ensures none { result ≡ Err Unspelled → NotSpelt task_words TaskInRange (words line.now) }
{
    let mut words = Words::of(line);
    let (number, chunk, rest) = task_head(&mut words)?;
    let mut again = Words::of(line);
    let _same = task_head(&mut again)?;
    let action = queued(alloc, &mut words, &mut again)?;
    Ok(TaskRow {
        task: Task {
            number,
            chunk,
            action,
        },
        rest,
    })
}

/// Where an entity is, as the last words.
fn place(words: &mut Words) -> Result<Place, Fault>
    ensures found { IfOk result (λ p. PlaceInRange p × (words.old ≡ place_words p)) }
    ensures none { OnErr result (NotSpelt place_words PlaceInRange words.old) }
{
    let word = words.next()?;
    if is_word(word, b"at") {
        let at = words.block()?;
        words.end()?;
        Ok(Place::At(at))
    } else if is_word(word, b"transit") {
        let number = words.wide()?;
        words.end()?;
        Ok(Place::Transit(number))
    } else {
        Err(Fault::Unspelled)
    }
}

/// An entity.
fn entity(words: &mut Words) -> Result<EntityRow, Fault>
    ensures found { IfOk result (λ r. EntityInRange r × (words.old ≡ entity_words r)) }
    ensures none { OnErr result (NotSpelt entity_words EntityInRange words.old) }
{
    words.pass(b"entity")?;
    let id = words.small()?;
    let place = place(words)?;
    Ok(EntityRow { id, place })
}

/// A block.
fn block(words: &mut Words) -> Result<BlockAt, Fault>
    ensures found { IfOk result (λ r. BlockInRange r × (words.old ≡ block_row_words r)) }
    ensures none { OnErr result (NotSpelt block_row_words BlockInRange words.old) }
{
    words.pass(b"block")?;
    let at = words.block()?;
    let id = words.positive(65_535)?;
    words.end()?;
    Ok(BlockAt { at, id: id as u16 })
}

impl Row for RegionRow {
    ghost use Rattle.fol_model.specs.ReportWords.{region_words};
    ghost use Rattle.fol_report_reader.specs.Rows.{RegionInRange};

    ghost words = { region_words };

    ghost InRange = { RegionInRange };

    fn read(_alloc: Global, line: &[u8]) -> Result<RegionRow, Fault> {
        let mut words = Words::of(line);
        region(&mut words)
    }
}

impl Row for OwnerRow {
    ghost use Rattle.fol_model.specs.ReportWords.{owner_words};
    ghost use Rattle.fol_report_reader.specs.Rows.{OwnerInRange};

    ghost words = { owner_words };

    ghost InRange = { OwnerInRange };

    fn read(_alloc: Global, line: &[u8]) -> Result<OwnerRow, Fault> {
        let mut words = Words::of(line);
        owner(&mut words)
    }
}

impl Row for TaskRow {
    ghost use Rattle.fol_model.specs.ReportWords.{task_words};
    ghost use Rattle.fol_report_reader.specs.Rows.{TaskInRange};

    ghost words = { task_words };

    ghost InRange = { TaskInRange };

    fn read(alloc: Global, line: &[u8]) -> Result<TaskRow, Fault> {
        task(alloc, line)
    }
}

impl Row for EntityRow {
    ghost use Rattle.fol_model.specs.ReportWords.{entity_words};
    ghost use Rattle.fol_report_reader.specs.Rows.{EntityInRange};

    ghost words = { entity_words };

    ghost InRange = { EntityInRange };

    fn read(_alloc: Global, line: &[u8]) -> Result<EntityRow, Fault> {
        let mut words = Words::of(line);
        entity(&mut words)
    }
}

impl Row for BlockAt {
    ghost use Rattle.fol_model.specs.ReportWords.{block_row_words};
    ghost use Rattle.fol_report_reader.specs.Rows.{BlockInRange};

    ghost words = { block_row_words };

    ghost InRange = { BlockInRange };

    fn read(_alloc: Global, line: &[u8]) -> Result<BlockAt, Fault> {
        let mut words = Words::of(line);
        block(&mut words)
    }
}

impl Row for PackedEntry {
    ghost use Rattle.fol_model.specs.ReportWords.{entry_words};
    ghost use Rattle.fol_report_reader.specs.Rows.{EntryInRange};

    ghost words = { entry_words };

    ghost InRange = { EntryInRange };

    /// With the number 0 of a seat, since a report does not tell it.
    fn read(alloc: Global, line: &[u8]) -> Result<PackedEntry, Fault> {
        let event = read_event(alloc, line)?;
        Ok(PackedEntry::new(alloc, Entry { by: 0, event })?)
    }
}
