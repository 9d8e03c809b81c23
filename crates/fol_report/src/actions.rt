//! The words of an action.

ghost use Rattle.std.specs.Prelude.{◌≡◌, ◌+◌, ◌≤◌, ◌<◌, ◌++◌, [], ◌∷◌, codes, decimal, length};
ghost use Rattle.fol_model.specs.Nesting.{deed_of};
ghost use Rattle.fol_model.specs.ReportWords.{action_words, block_words, chunk_words};
ghost use Rattle.fol_report.specs.Rests.{rest_words};
ghost use Rattle.fol_report.specs.Spaced.{spaced};

use crate::page::Page;
use crate::rest::Rest;
use fol_model::{Action, ChunkPos};

/// Puts the words of an action that has no other inside.
#[tactic(auto, unfolding(fol_model::specs::ReportWords::action_words))]
fn push_plain(page: &mut Page, action: &Action)
    requires plain { (deed_of action.now).wraps ≡ [] }
    requires room { length page.old + 127 ≤ 1024 }
    ensures text { page.new ≡ page.old ++ spaced (action_words action.now) }
    ensures len { length page.new ≤ length page.old + 127 }
{
    match action {
        Action::Set { at, id } => {
            page.push_word(b" set");
            page.push_block(*at);
            page.push_word(b" ");
            page.push_short(*id as u32);
        }
        Action::Copy { at, to } => {
            page.push_word(b" copy");
            page.push_block(*at);
            page.push_block(*to);
        }
        Action::Load(chunk) => {
            page.push_word(b" load");
            page.push_chunk(*chunk);
        }
        Action::Unload(chunk) => {
            page.push_word(b" unload");
            page.push_chunk(*chunk);
        }
        Action::Send { entity, to } => {
            page.push_word(b" send ");
            page.push_short(*entity);
            page.push_block(*to);
        }
        Action::Arrive(entity) => {
            page.push_word(b" arrive ");
            page.push_short(entity.id);
            page.push_block(entity.at);
        }
        Action::Post { .. } | Action::Every { .. } => unreachable!(),
    }
}

/// Puts the words of a post but for those of the action that it asks for.
fn push_posted(page: &mut Page, chunk: ChunkPos, delay: u32)
    requires { length page.old + 127 ≤ 1024 }
    ensures text { page.new ≡ page.old ++ spaced (codes "post" ∷ chunk_words chunk
        ++ decimal delay ∷ []) }
    ensures len { length page.new ≤ length page.old + 127 }
{
    page.push_word(b" post");
    page.push_chunk(chunk);
    page.push_word(b" ");
    page.push_short(delay);
}

/// Puts how often an action is done, and how often it still is.
fn push_every(page: &mut Page, period: u32, left: u32)
    requires { length page.old + 127 ≤ 1024 }
    ensures text { page.new ≡ page.old ++ spaced (codes "every" ∷ decimal period ∷ decimal left
        ∷ []) }
    ensures len { length page.new ≤ length page.old + 127 }
{
    page.push_word(b" every ");
    page.push_short(period);
    page.push_word(b" ");
    page.push_short(left);
}

/// Puts the words of an action but for those of the action inside, which are left.
#[tactic(auto, unfolding(fol_model::specs::ReportWords::action_words))]
pub fn push_action<'a>(page: &mut Page, action: &'a Action) -> Rest<'a>
    requires { length page.old + 127 ≤ 1024 }
    ensures text { page.new ++ spaced (rest_words result)
        ≡ page.old ++ spaced (action_words action.now) }
    ensures len { length page.new ≤ length page.old + 127 }
    ensures grows { length page.old < length page.new }
    ensures fewer { length (rest_words result) < length (action_words action.now) }
{
    match action {
        Action::Post {
            chunk,
            delay,
            action,
        } => {
            push_posted(page, *chunk, *delay);
            Rest::Deed(action.get())
        }
        Action::Every {
            period,
            left,
            action,
        } => {
            push_every(page, *period, *left);
            Rest::Deed(action.get())
        }
        _ => {
            push_plain(page, action);
            Rest::Done
        }
    }
}
