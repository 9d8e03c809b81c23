//! The entries that a history gets.

ghost use Rattle.std.specs.Prelude.{◌≡◌, ◌+◌, ◌≤◌, ◌<◌, ◌^◌, ◌++◌, [], ◌∷◌, IsTrue, IfOk, vec_len, vec_capacity};
ghost use Rattle.fol_model.specs.Packed.{is_light};

use fol_model::{Accept, Event, PackedEntry};
use fol_world::tables::Course;
use std::alloc::{AllocError, Global};
use std::marker::Model;

/// Memory for an event that a history keeps behind a pointer.
pub(crate) type EventBox = Box<Event>;

/// The list for the answers of an End, and memory for its event. Contracts see the list.
#[derive(Drop)]
pub(crate) struct Answers {
    accepts: Vec<Accept>,
    memory: EventBox,
}

impl Model for Answers {
    ghost use Rattle.std.specs.Global.{Vec};
    ghost use Rattle.fol_model.specs.declared.events.Accept.{Accept};

    ghost Value = { Vec Accept };

    ghost view = { λ a. a.accepts };
}

impl Answers {
    /// A list with room for so many answers, and the memory for the event: that which is left of an earlier one, where there is such.
    pub(crate) fn with_capacity(
        alloc: Global,
        left: &mut Option<EventBox>,
        asked: usize,
    ) -> Result<Answers, AllocError>
        ensures empty { IfOk result (λ answers. answers.items ≡ []) }
        ensures room { IfOk result (λ answers. asked ≤ vec_capacity answers) }
    {
        let accepts = Vec::with_capacity(alloc, asked)?;
        let memory = event_box(alloc, left)?;
        Ok(Answers { accepts, memory })
    }

    /// The list, and the memory for the event.
    pub(crate) fn into_parts(self) -> (Vec<Accept>, EventBox)
        ensures { result.0 ≡ self }
    {
        let Answers { accepts, memory } = self;
        (accepts, memory)
    }
}

/// Memory for an event: that which is left of an earlier one, where there is such.
pub(crate) fn event_box(
    alloc: Global,
    left: &mut Option<EventBox>,
) -> Result<EventBox, AllocError> {
    match left.take() {
        Some(memory) => Ok(memory),
        None => Ok(Box::new(alloc, Event::Finish)?),
    }
}

/// Adds an entry whose event needs no pointer to a history that has room for it.
pub(crate) fn record(history: &mut Vec<PackedEntry>, course: &mut Course, by: u32, event: Event)
    requires room { vec_len history.old < vec_capacity history.old }
    requires few { course.old.size ≤ 2 ^ 50 }
    requires light { IsTrue (is_light event) }
    ensures entries { history.new.items ≡ history.old.items
        ++ (record { by = by; event = event }) ∷ [] }
    ensures len { vec_len history.new ≡ vec_len history.old + 1 }
    ensures capacity { vec_capacity history.new ≡ vec_capacity history.old }
    ensures size { course.new ≡ record course.old { size = course.old.size + 1 } }
{
    course.size += 1;
    history.push_reserved(PackedEntry::light(by, event));
}

/// Adds an entry to a history that has room for it. Its event lies in that memory, where it needs a pointer, and else the memory is left for
/// another one.
pub(crate) fn record_in(
    history: &mut Vec<PackedEntry>,
    course: &mut Course,
    by: u32,
    event: Event,
    memory: EventBox,
    left: &mut Option<EventBox>,
)
    requires room { vec_len history.old < vec_capacity history.old }
    requires few { course.old.size ≤ 2 ^ 50 }
    ensures entries { history.new.items ≡ history.old.items
        ++ (record { by = by; event = event }) ∷ [] }
    ensures len { vec_len history.new ≡ vec_len history.old + 1 }
    ensures capacity { vec_capacity history.new ≡ vec_capacity history.old }
    ensures size { course.new ≡ record course.old { size = course.old.size + 1 } }
{
    course.size += 1;
    history.push_reserved(packed(by, event, memory, left));
}

/// An entry whose event lies in that memory, where it needs a pointer; else the memory is left.
fn packed(by: u32, event: Event, memory: EventBox, left: &mut Option<EventBox>) -> PackedEntry
    ensures { result ≡ record { by = by; event = event } }
{
    if event.is_light() {
        *left = Some(memory);
        return PackedEntry::light(by, event);
    }
    let mut memory = memory;
    *memory = event;
    PackedEntry::boxed(by, memory)
}
