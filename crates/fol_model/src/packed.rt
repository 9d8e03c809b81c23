//! The entries of a history, in little memory.

ghost use Rattle.std.specs.Prelude.{◌≡◌, ◌↔◌, IsSome, IsTrue, IfOk, IfSome};
ghost use Rattle.fol_model.specs.Packed.{event_at, event_seen, is_edge, is_light};

use crate::{Accept, Action, ChunkPos, Entry, Event, Loaded, Ran, Sequence, Unloaded};
use std::alloc::{AllocError, Global};
use std::marker::Model;

/// An entry as a history keeps it. Contracts see the entry.
///
/// An event that has no list and no action lies here itself, as does the End of a tick in which no task ran and which asked for none. Any other one
/// is behind a pointer, so that an entry has 32 bytes: histories are long, and most of their entries are of such ticks.
#[derive(Drop)]
pub struct PackedEntry {
    packed: Packed,
}

/// Each kind of entry, with the seat that recorded it.
#[derive(Drop)]
enum Packed {
    Load {
        by: u32,
        caller: u32,
        chunk: ChunkPos,
        answer: Loaded,
    },
    Unload {
        by: u32,
        caller: u32,
        chunk: ChunkPos,
        answer: Unloaded,
    },
    PhaseOpen {
        by: u32,
        ticks: u32,
    },
    Begin {
        by: u32,
        worker: u32,
        region: u64,
    },
    End {
        by: u32,
        worker: u32,
        region: u64,
        tick: u64,
    },
    PhaseClose {
        by: u32,
    },
    Finish {
        by: u32,
    },
    Stop {
        by: u32,
        caller: u32,
    },
    Boxed {
        by: u32,
        event: Box<Event>,
    },
}

/// An event of a history, to be looked at.
#[derive(Clone, Copy)]
pub enum EventRef<'a> {
    /// A caller added a ticket to a chunk.
    Load {
        caller: u32,
        chunk: ChunkPos,
        answer: Loaded,
    },
    /// A caller took a ticket from a chunk.
    Unload {
        caller: u32,
        chunk: ChunkPos,
        answer: Unloaded,
    },
    /// A caller asked for a task.
    Post {
        caller: u32,
        chunk: ChunkPos,
        delay: u32,
        action: &'a Action,
        answer: Accept,
    },
    /// A phase of so many ticks was opened.
    PhaseOpen(u32),
    /// A worker began the tick of a region.
    Begin {
        worker: u32,
        region: u64,
    },
    /// A worker ended the tick of a region, whose counter was then `tick`.
    End {
        worker: u32,
        region: u64,
        tick: u64,
        ran: &'a [Ran],
        accepts: &'a [Accept],
    },
    /// The phase was closed.
    PhaseClose,
    /// The history was finished.
    Finish,
    /// A caller gave up.
    Stop {
        caller: u32,
    },
}

/// The beginning of a tick, or its end where no task ran in it and it asked for none. Most entries of a long history are of these two kinds.
#[derive(Clone, Copy)]
pub enum TickEdge {
    /// A worker began the tick of a region.
    Begin { worker: u32, region: u64 },
    /// A worker ended the tick of a region, whose counter was then `tick`.
    End { worker: u32, region: u64, tick: u64 },
}

impl Model for PackedEntry {
    ghost use Rattle.fol_model.specs.declared.events.Entry.{Entry};
    ghost use Rattle.fol_model.specs.Packed.{entry_of};

    ghost Value = { Entry };

    ghost view = { λ p. entry_of p.packed };
}

impl PackedEntry {
    /// An entry whose event needs no pointer. Takes no memory.
    pub fn light(by: u32, event: Event) -> PackedEntry
        requires light { IsTrue (is_light event) }
        ensures { result ≡ record { by = by; event = event } }
    {
        let packed = match event {
            Event::Load {
                caller,
                chunk,
                answer,
            } => Packed::Load {
                by,
                caller,
                chunk,
                answer,
            },
            Event::Unload {
                caller,
                chunk,
                answer,
            } => Packed::Unload {
                by,
                caller,
                chunk,
                answer,
            },
            Event::PhaseOpen(ticks) => Packed::PhaseOpen { by, ticks },
            Event::Begin { worker, region } => Packed::Begin { by, worker, region },
            Event::End {
                worker,
                region,
                tick,
                ran: _,
                accepts: _,
            } => Packed::End {
                by,
                worker,
                region,
                tick,
            },
            Event::PhaseClose => Packed::PhaseClose { by },
            Event::Finish => Packed::Finish { by },
            Event::Stop { caller } => Packed::Stop { by, caller },
            Event::Post { .. } => unreachable!(),
        };
        PackedEntry { packed }
    }

    /// An entry with its event behind a pointer. Takes no memory.
    pub fn boxed(by: u32, event: Box<Event>) -> PackedEntry
        ensures { result ≡ record { by = by; event = event.value } }
    {
        PackedEntry {
            packed: Packed::Boxed { by, event },
        }
    }

    /// An entry. The only error is out of memory, and an event that needs no pointer takes none.
    pub fn new(alloc: Global, entry: Entry) -> Result<PackedEntry, AllocError>
        ensures { IfOk result (λ p. p ≡ entry) }
    {
        let Entry { by, event } = entry;
        if event.is_light() {
            return Ok(PackedEntry::light(by, event));
        }
        Ok(PackedEntry::boxed(by, Box::new(alloc, event)?))
    }

    /// The number of the seat that recorded it.
    pub fn by(&self) -> u32
        ensures { result ≡ self.now.by }
    {
        match &self.packed {
            Packed::Load { by, .. } => *by,
            Packed::Unload { by, .. } => *by,
            Packed::PhaseOpen { by, .. } => *by,
            Packed::Begin { by, .. } => *by,
            Packed::End { by, .. } => *by,
            Packed::PhaseClose { by } => *by,
            Packed::Finish { by } => *by,
            Packed::Stop { by, .. } => *by,
            Packed::Boxed { by, .. } => *by,
        }
    }

    /// Its event, by value. Takes no memory.
    pub fn into_event(self, alloc: Global) -> Event
        ensures { result ≡ self.event }
    {
        match self.packed {
            Packed::Load {
                by: _,
                caller,
                chunk,
                answer,
            } => Event::Load {
                caller,
                chunk,
                answer,
            },
            Packed::Unload {
                by: _,
                caller,
                chunk,
                answer,
            } => Event::Unload {
                caller,
                chunk,
                answer,
            },
            Packed::PhaseOpen { by: _, ticks } => Event::PhaseOpen(ticks),
            Packed::Begin {
                by: _,
                worker,
                region,
            } => Event::Begin { worker, region },
            Packed::End {
                by: _,
                worker,
                region,
                tick,
            } => Event::End {
                worker,
                region,
                tick,
                ran: Sequence::new(alloc),
                accepts: Sequence::new(alloc),
            },
            Packed::PhaseClose { by: _ } => Event::PhaseClose,
            Packed::Finish { by: _ } => Event::Finish,
            Packed::Stop { by: _, caller } => Event::Stop { caller },
            Packed::Boxed { by: _, event } => Box::into_inner(event),
        }
    }

    /// Its event, where that is the edge of a tick; `None` exactly where it is another one.
    #[inline(always)]
    pub fn edge(&self) -> Option<TickEdge>
        ensures edge { IfSome result (λ e. event_at e ≡ self.now.event) }
        ensures some { IsSome result ↔ IsTrue (is_edge self.now.event) }
    {
        match &self.packed {
            Packed::Begin {
                by: _,
                worker,
                region,
            } => Some(TickEdge::Begin {
                worker: *worker,
                region: *region,
            }),
            Packed::End {
                by: _,
                worker,
                region,
                tick,
            } => Some(TickEdge::End {
                worker: *worker,
                region: *region,
                tick: *tick,
            }),
            Packed::Boxed { by: _, event } => event.edge(),
            _ => None,
        }
    }

    /// Its event.
    pub fn event(&self) -> EventRef<'_>
        ensures { event_seen result ≡ self.now.event }
    {
        match &self.packed {
            Packed::Load {
                by: _,
                caller,
                chunk,
                answer,
            } => EventRef::Load {
                caller: *caller,
                chunk: *chunk,
                answer: *answer,
            },
            Packed::Unload {
                by: _,
                caller,
                chunk,
                answer,
            } => EventRef::Unload {
                caller: *caller,
                chunk: *chunk,
                answer: *answer,
            },
            Packed::PhaseOpen { by: _, ticks } => EventRef::PhaseOpen(*ticks),
            Packed::Begin {
                by: _,
                worker,
                region,
            } => EventRef::Begin {
                worker: *worker,
                region: *region,
            },
            Packed::End {
                by: _,
                worker,
                region,
                tick,
            } => EventRef::End {
                worker: *worker,
                region: *region,
                tick: *tick,
                ran: &[],
                accepts: &[],
            },
            Packed::PhaseClose { by: _ } => EventRef::PhaseClose,
            Packed::Finish { by: _ } => EventRef::Finish,
            Packed::Stop { by: _, caller } => EventRef::Stop { caller: *caller },
            Packed::Boxed { by: _, event } => event.seen(),
        }
    }
}

impl Event {
    /// Whether a history keeps the event without a pointer: it has no list and no action, or two empty lists.
    pub fn is_light(&self) -> bool
        ensures { result ≡ is_light self.now }
    {
        match self {
            Event::Post { .. } => false,
            Event::End { ran, accepts, .. } => ran.is_empty() && accepts.is_empty(),
            _ => true,
        }
    }

    /// The event, where it is the edge of a tick; `None` exactly where it is another one.
    #[inline(never)]
    fn edge(&self) -> Option<TickEdge>
        ensures edge { IfSome result (λ e. event_at e ≡ self.now) }
        ensures some { IsSome result ↔ IsTrue (is_edge self.now) }
    {
        match self {
            Event::Begin { worker, region } => Some(TickEdge::Begin {
                worker: *worker,
                region: *region,
            }),
            Event::End {
                worker,
                region,
                tick,
                ran,
                accepts,
            } if ran.is_empty() && accepts.is_empty() => Some(TickEdge::End {
                worker: *worker,
                region: *region,
                tick: *tick,
            }),
            _ => None,
        }
    }

    /// The event, to be looked at.
    pub fn seen(&self) -> EventRef<'_>
        ensures { event_seen result ≡ self.now }
    {
        match self {
            Event::Load {
                caller,
                chunk,
                answer,
            } => EventRef::Load {
                caller: *caller,
                chunk: *chunk,
                answer: *answer,
            },
            Event::Unload {
                caller,
                chunk,
                answer,
            } => EventRef::Unload {
                caller: *caller,
                chunk: *chunk,
                answer: *answer,
            },
            Event::Post {
                caller,
                chunk,
                delay,
                action,
                answer,
            } => EventRef::Post {
                caller: *caller,
                chunk: *chunk,
                delay: *delay,
                action,
                answer: *answer,
            },
            Event::PhaseOpen(ticks) => EventRef::PhaseOpen(*ticks),
            Event::Begin { worker, region } => EventRef::Begin {
                worker: *worker,
                region: *region,
            },
            Event::End {
                worker,
                region,
                tick,
                ran,
                accepts,
            } => EventRef::End {
                worker: *worker,
                region: *region,
                tick: *tick,
                ran: ran.as_slice(),
                accepts: accepts.as_slice(),
            },
            Event::PhaseClose => EventRef::PhaseClose,
            Event::Finish => EventRef::Finish,
            Event::Stop { caller } => EventRef::Stop { caller: *caller },
        }
    }
}
