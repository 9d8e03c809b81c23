//! The lines of the rows of a closing.

ghost use Rattle.std.specs.Prelude.{◌≡◌, [], ◌∷◌, ◌++◌, codes, decimal, IfOk, string_bytes};
ghost use Rattle.std.specs.Fmt.{signed_decimal};
ghost use Rattle.fol_model.specs.ReportWords.{block_row_words, block_words, chunk_words, entity_words, owner_words, region_words, task_words};
ghost use Rattle.fol_report.specs.Spaced.{joined};

use crate::lines::Line;
use crate::page::Page;
use crate::rest::Rest;
use crate::tail::Tail;
use crate::words::{push_block, push_chunk, put_block, put_number};
use fol_model::{
    BlockAt, BlockPos, ChunkPos, EntityRow, OwnerRow, Place, RegionRow, SectionPos, State, TaskRow,
};
use std::alloc::AllocError;

impl Line for RegionRow {
    ghost words = { region_words };

    fn put(&self, out: &mut String) -> Result<(), AllocError> {
        let state = match self.state {
            State::Transient => "transient",
            State::Ready => "ready",
            State::Ticking => "ticking",
            State::Dead => "dead",
        };
        write!(
            out,
            "region {} {state} tick {} owed {} sections {} chunks {}",
            self.id, self.tick, self.owed, self.sections, self.chunks
        )
    }
}

impl Line for OwnerRow {
    ghost words = { owner_words };

    fn put(&self, out: &mut String) -> Result<(), AllocError> {
        put_owner(out, self.at, self.region)
    }
}

impl Line for TaskRow {
    ghost words = { task_words };

    fn put(&self, out: &mut String) -> Result<(), AllocError> {
        put_waiting(out, self.task.number, self.task.chunk, self.rest)?;
        Rest::Deed(&self.task.action).put(out, &mut Page::new())
    }
}

impl Line for EntityRow {
    ghost words = { entity_words };

    fn put(&self, out: &mut String) -> Result<(), AllocError> {
        let id = self.id;
        match self.place {
            Place::At(at) => {
                write!(out, "entity {id} at")?;
                put_block(out, at)
            }
            Place::Transit(number) => {
                write!(out, "entity {id} transit")?;
                put_number(out, number)
            }
        }
    }
}

impl Line for BlockAt {
    ghost words = { block_row_words };

    fn put(&self, out: &mut String) -> Result<(), AllocError> {
        put_block_row(out, self.at, self.id)
    }
}

/// Puts what the line of a waiting task begins with: all but its action.
fn put_waiting(out: &mut String, number: u64, at: ChunkPos, rest: u32) -> Result<(), AllocError>
    ensures { IfOk result (λ _. string_bytes out.new
        ≡ string_bytes out.old ++ joined (codes "task" ∷ decimal number ∷ chunk_words at
        ++ decimal rest ∷ [])) }
{
    let mut line = Tail::new();
    line.push_short(rest);
    line.push_word(b" ");
    push_chunk(&mut line, at);
    line.push_number(number);
    line.push_word(b"task ");
    line.put(out)
}

/// Puts the line of a block with a number.
fn put_block_row(out: &mut String, at: BlockPos, id: u16) -> Result<(), AllocError>
    ensures { IfOk result (λ _. string_bytes out.new
        ≡ string_bytes out.old ++ joined (codes "block" ∷ block_words at ++ decimal id ∷ [])) }
{
    let mut line = Tail::new();
    line.push_short(id as u32);
    line.push_word(b" ");
    push_block(&mut line, at);
    line.push_word(b"block");
    line.put(out)
}

/// Puts the line of a section with its owner.
fn put_owner(out: &mut String, at: SectionPos, region: u64) -> Result<(), AllocError>
    ensures { IfOk result (λ _. string_bytes out.new
        ≡ string_bytes out.old ++ joined (codes "owner" ∷ signed_decimal at.x
        ∷ signed_decimal at.z ∷ decimal region ∷ [])) }
{
    let mut line = Tail::new();
    line.push_number(region);
    line.push_word(b" ");
    line.push_signed(at.z);
    line.push_word(b" ");
    line.push_signed(at.x);
    line.push_word(b"owner ");
    line.put(out)
}
