//! The marks of a picture: an element for each row.

ghost use Rattle.std.specs.Prelude.{◌≡◌, ◌++◌, flat_map, IfOk, string_bytes};
ghost use Rattle.fol_map.specs.Marks.{chunk_shape, chunk_title, dot_shape, dot_title, place_mark, section_shape, section_title, task_shape, task_title};

use crate::layouts::Layout;
use crate::places::{Point, block_middle, chunk_middle, chunk_point, chunk_side, section_point};
use fol_model::{BlockPos, ChunkPos, EntityRow, OwnerRow, Place, SectionPos, TaskRow};
use std::alloc::AllocError;

/// How many colours there are.
pub const COLOURS: u64 = 12;

/// What has a mark in a picture.
pub trait Mark {
    ghost use Rattle.std.specs.Prelude.{◌≡◌, ◌++◌, List, ℕ, IfOk, string_bytes};
    ghost use Rattle.fol_map.specs.declared.layouts.Layout.{Layout};

    ghost mark: { Layout → Self → List ℕ };

    /// Puts the mark.
    fn put(&self, out: &mut String, layout: &Layout) -> Result<(), AllocError>
        ensures { IfOk result (λ _. string_bytes out.new
            ≡ string_bytes out.old ++ mark layout.now self.now) };
}

/// Puts the mark of each row.
pub fn put_marks<M: Mark>(out: &mut String, layout: &Layout, rows: &[M]) -> Result<(), AllocError>
    ensures { IfOk result (λ _. string_bytes out.new
        ≡ string_bytes out.old ++ flat_map (M.mark layout.now) rows.now) }
{
    for row in rows {
        row.put(out, layout)?;
    }
    Ok(())
}

/// Puts the square of a section.
#[tactic(auto, unfolding(crate::specs::Marks::section_shape))]
fn put_section_shape(out: &mut String, colour: u64, at: Point) -> Result<(), AllocError>
    ensures { IfOk result (λ _. string_bytes out.new
        ≡ string_bytes out.old ++ section_shape colour at) }
{
    write!(
        out,
        "<path class='s r{colour}' d='M{} {}h512v512h-512z'>",
        at.x, at.y
    )
}

/// Puts the name of a section.
fn put_section_title(out: &mut String, at: SectionPos, region: u64) -> Result<(), AllocError>
    ensures { IfOk result (λ _. string_bytes out.new
        ≡ string_bytes out.old ++ section_title at region) }
{
    write!(
        out,
        "<title>section {} {}, region {region}</title></path>\n",
        at.x, at.z
    )
}

/// A section has the colour of its region.
impl Mark for OwnerRow {
    ghost use Rattle.fol_map.specs.Marks.{section_mark};

    ghost mark = { section_mark };

    fn put(&self, out: &mut String, layout: &Layout) -> Result<(), AllocError> {
        put_section_shape(out, self.region % COLOURS, section_point(layout, self.at))?;
        put_section_title(out, self.at, self.region)
    }
}

/// Puts the square of a chunk.
fn put_chunk_shape(out: &mut String, side: u128, at: Point) -> Result<(), AllocError>
    ensures { IfOk result (λ _. string_bytes out.new
        ≡ string_bytes out.old ++ chunk_shape side at) }
{
    write!(
        out,
        "<path class='c' d='M{} {}h{side}v{side}h-{side}z'>",
        at.x, at.y
    )
}

/// Puts the name of a chunk.
fn put_chunk_title(out: &mut String, at: ChunkPos) -> Result<(), AllocError>
    ensures { IfOk result (λ _. string_bytes out.new ≡ string_bytes out.old ++ chunk_title at) }
{
    write!(out, "<title>chunk {} {}</title></path>\n", at.x, at.z)
}

/// A loaded chunk is a darker square.
impl Mark for ChunkPos {
    ghost use Rattle.fol_map.specs.Marks.{chunk_mark};

    ghost mark = { chunk_mark };

    fn put(&self, out: &mut String, layout: &Layout) -> Result<(), AllocError> {
        let at = *self;
        put_chunk_shape(out, chunk_side(&layout.grid), chunk_point(layout, at))?;
        put_chunk_title(out, at)
    }
}

/// Puts the mark of a task.
fn put_task_shape(out: &mut String, at: Point) -> Result<(), AllocError>
    ensures { IfOk result (λ _. string_bytes out.new ≡ string_bytes out.old ++ task_shape at) }
{
    write!(
        out,
        "<path class='t' d='M{} {}m0-72l72 72-72 72-72-72z'>",
        at.x, at.y
    )
}

/// Puts the name of a task.
fn put_task_title(out: &mut String, number: u64, at: ChunkPos, rest: u32) -> Result<(), AllocError>
    ensures { IfOk result (λ _. string_bytes out.new
        ≡ string_bytes out.old ++ task_title number at rest) }
{
    write!(
        out,
        "<title>task {number} on chunk {} {}, in {rest} ticks</title></path>\n",
        at.x, at.z
    )
}

/// A task stands in the middle of its chunk.
impl Mark for TaskRow {
    ghost use Rattle.fol_map.specs.Marks.{task_mark};

    ghost mark = { task_mark };

    fn put(&self, out: &mut String, layout: &Layout) -> Result<(), AllocError> {
        let (number, at) = (self.task.number, self.task.chunk);
        put_task_shape(out, chunk_middle(layout, at))?;
        put_task_title(out, number, at, self.rest)
    }
}

/// Puts the dot of an entity.
fn put_dot_shape(out: &mut String, at: Point) -> Result<(), AllocError>
    ensures { IfOk result (λ _. string_bytes out.new ≡ string_bytes out.old ++ dot_shape at) }
{
    write!(out, "<circle class='e' cx='{}' cy='{}' r='48'>", at.x, at.y)
}

/// Puts the name of an entity.
fn put_dot_title(out: &mut String, id: u32, at: BlockPos) -> Result<(), AllocError>
    ensures { IfOk result (λ _. string_bytes out.new ≡ string_bytes out.old ++ dot_title id at) }
{
    write!(
        out,
        "<title>entity {id} at {} {} {}</title></circle>\n",
        at.x, at.y, at.z
    )
}

/// Puts the mark of an entity at its place.
fn put_place(out: &mut String, layout: &Layout, id: u32, place: Place) -> Result<(), AllocError>
    ensures { IfOk result (λ _. string_bytes out.new
        ≡ string_bytes out.old ++ place_mark layout.now id place) }
{
    match place {
        Place::At(at) => {
            put_dot_shape(out, block_middle(layout, at))?;
            put_dot_title(out, id, at)
        }
        Place::Transit(_) => Ok(()),
    }
}

/// An entity stands at its block; one on its way has no mark.
impl Mark for EntityRow {
    ghost use Rattle.fol_map.specs.Marks.{entity_mark};

    ghost mark = { entity_mark };

    fn put(&self, out: &mut String, layout: &Layout) -> Result<(), AllocError> {
        put_place(out, layout, self.id, self.place)
    }
}
