//! The line of an event. The seat that recorded it is not written.

ghost use Rattle.std.specs.Prelude.{◌≡◌, ◌+◌, ◌≤◌, [], ◌∷◌, ◌++◌, codes, decimal, length, ◌<◌, IfOk, string_bytes};
ghost use Rattle.fol_model.specs.ReportWords.{accept_words, action_words, chunk_words, entry_words, event_words, loaded_words, unloaded_words};
ghost use Rattle.fol_report.specs.Rests.{rest_words};
ghost use Rattle.fol_report.specs.Spaced.{joined, spaced};
ghost use Rattle.fol_model.specs.Packed.{event_seen};
ghost use Rattle.fol_model.specs.declared.events.Event.TheVariants.{Begin, Load, Unload};

use crate::answers::{push_accept, push_loaded, push_unloaded};
use crate::ends::push_end;
use crate::lines::Line;
use crate::page::Page;
use crate::rest::Rest;
use fol_model::{Accept, Action, ChunkPos, EventRef, Loaded, PackedEntry, Unloaded};
use std::alloc::AllocError;

/// Puts the line of a begin, one of the two most frequent lines.
#[inline(always)]
pub fn push_begin(page: &mut Page, worker: u32, region: u64)
    requires { length page.old + 127 ≤ 1024 }
    ensures text { page.new ≡ page.old ++ joined (event_words (Begin worker region)) }
    ensures len { length page.new ≤ length page.old + 127 }
{
    page.push_word(b"begin ");
    page.push_seat(worker, region);
}

/// Puts the line of a load.
fn push_load(page: &mut Page, caller: u32, chunk: ChunkPos, answer: Loaded)
    requires { length page.old + 127 ≤ 1024 }
    ensures text { page.new ≡ page.old ++ joined (event_words (Load caller chunk answer)) }
    ensures len { length page.new ≤ length page.old + 127 }
{
    page.push_word(b"load ");
    page.push_short(caller);
    page.push_chunk(chunk);
    push_loaded(page, answer);
}

/// Puts the line of an unload.
fn push_unload(page: &mut Page, caller: u32, chunk: ChunkPos, answer: Unloaded)
    requires { length page.old + 127 ≤ 1024 }
    ensures text { page.new ≡ page.old ++ joined (event_words (Unload caller chunk answer)) }
    ensures len { length page.new ≤ length page.old + 127 }
{
    page.push_word(b"unload ");
    page.push_short(caller);
    page.push_chunk(chunk);
    push_unloaded(page, answer);
}

/// Puts what the line of a post begins with: all but its answer and its action.
fn push_posts(page: &mut Page, caller: u32, chunk: ChunkPos, delay: u32)
    requires { length page.old + 64 ≤ 1024 }
    ensures text { page.new ≡ page.old ++ joined (codes "post" ∷ decimal caller ∷ chunk_words chunk
        ++ decimal delay ∷ []) }
    ensures len { length page.new ≤ length page.old + 64 }
{
    page.push_word(b"post ");
    page.push_short(caller);
    page.push_chunk(chunk);
    page.push_word(b" ");
    page.push_short(delay);
}

/// Puts what the line of a post begins with, and returns what is left of it: the action.
fn push_post<'a>(
    page: &mut Page,
    caller: u32,
    chunk: ChunkPos,
    delay: u32,
    action: &'a Action,
    answer: Accept,
) -> Rest<'a>
    requires { length page.old + 127 ≤ 1024 }
    ensures text { page.new ++ spaced (rest_words result)
        ≡ page.old ++ joined (codes "post" ∷ decimal caller ∷ chunk_words chunk
        ++ decimal delay ∷ accept_words answer ++ action_words action.now) }
    ensures len { length page.new ≤ length page.old + 127 }
    ensures grows { length page.old < length page.new }
{
    push_posts(page, caller, chunk, delay);
    push_accept(page, answer);
    Rest::Deed(action)
}

/// Puts what the line of an event begins with, and returns what is left of it.
pub fn push_event<'a>(page: &mut Page, event: EventRef<'a>) -> Rest<'a>
    requires { length page.old + 127 ≤ 1024 }
    ensures text { page.new ++ spaced (rest_words result)
        ≡ page.old ++ joined (event_words (event_seen event.entry)) }
    ensures len { length page.new ≤ length page.old + 127 }
    ensures grows { length page.old < length page.new }
{
    match event {
        EventRef::Load {
            caller,
            chunk,
            answer,
        } => push_load(page, caller, chunk, answer),
        EventRef::Unload {
            caller,
            chunk,
            answer,
        } => push_unload(page, caller, chunk, answer),
        EventRef::Post {
            caller,
            chunk,
            delay,
            action,
            answer,
        } => return push_post(page, caller, chunk, delay, action, answer),
        EventRef::PhaseOpen(ticks) => {
            page.push_word(b"open ");
            page.push_short(ticks);
        }
        EventRef::Begin { worker, region } => push_begin(page, worker, region),
        EventRef::End {
            worker,
            region,
            tick,
            ran,
            accepts,
        } => return push_end(page, worker, region, tick, ran, accepts),
        EventRef::PhaseClose => page.push_word(b"close"),
        EventRef::Finish => page.push_word(b"finish"),
        EventRef::Stop { caller } => {
            page.push_word(b"stop ");
            page.push_short(caller);
        }
    }
    Rest::Done
}

impl Line for PackedEntry {
    ghost words = { entry_words };

    fn put(&self, out: &mut String) -> Result<(), AllocError> {
        let mut page = Page::new();
        let rest = push_event(&mut page, self.event());
        rest.put(out, &mut page)
    }
}
