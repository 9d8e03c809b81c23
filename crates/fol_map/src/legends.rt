//! The legend of a picture.

ghost use Rattle.std.specs.Prelude.{◌≡◌, ℕ, ◌<◌, ◌≤◌, ◌+◌, ◌*◌, ◌^◌, ◌++◌, length, count_by, IfOk, string_bytes};
ghost use Rattle.fol_model.specs.ReportWords.{state_word};
ghost use Rattle.fol_map.specs.Legends.{chunks_line, cuts_line, entities_line, is_away, left_line, legend, marks_legend, more_line, region_line, region_line_count, region_lines, region_name, region_sizes, regions_legend, scale_line, swatch, tasks_line};

use crate::layouts::Layout;
use crate::marks::COLOURS;
use crate::places::chunks_across;
use fol_model::{Closing, EntityRow, Place, RegionRow, State};
use std::alloc::AllocError;

/// How many regions a legend names.
const MOST_REGIONS: usize = 12;

/// The height of a line.
pub const LINE: u128 = 224;

/// How many lines the regions have.
pub fn region_line_count(regions: &[RegionRow]) -> u128
    ensures value { result ≡ region_line_count regions.now }
    ensures small { result ≤ 13 }
{
    regions.len().min(MOST_REGIONS + 1) as u128
}

/// The word of a state.
fn state_word(state: State) -> &'static str
    ensures { result.now ≡ state_word state }
{
    match state {
        State::Transient => "transient",
        State::Ready => "ready",
        State::Ticking => "ticking",
        State::Dead => "dead",
    }
}

/// Puts the colour of a region.
#[tactic(auto, unfolding(crate::specs::Legends::swatch))]
fn put_swatch(out: &mut String, y: u128, colour: u64) -> Result<(), AllocError>
    ensures { IfOk result (λ _. string_bytes out.new ≡ string_bytes out.old ++ swatch y colour) }
{
    write!(out, "<path class='r{colour}' d='M768 {y}h192v176h-192z'/>")
}

/// Puts the name of a region.
fn put_region_name(out: &mut String, y: u128, id: u64) -> Result<(), AllocError>
    ensures { IfOk result (λ _. string_bytes out.new ≡ string_bytes out.old ++ region_name y id) }
{
    write!(out, "<text class='l' x='1056' y='{y}'>")?;
    write!(out, "region {id}: ")
}

/// Puts the word of a state.
fn put_state(out: &mut String, state: State) -> Result<(), AllocError>
    ensures { IfOk result (λ _. string_bytes out.new ≡ string_bytes out.old ++ state_word state) }
{
    out.push_str(state_word(state))?;
    Ok(())
}

/// Puts the numbers of a region.
fn put_region_sizes(out: &mut String, region: &RegionRow) -> Result<(), AllocError>
    ensures { IfOk result (λ _. string_bytes out.new
        ≡ string_bytes out.old ++ region_sizes region.now) }
{
    write!(out, ", tick {}, owed {}", region.tick, region.owed)?;
    write!(
        out,
        ", sections {}, chunks {}</text>\n",
        region.sections, region.chunks
    )
}

/// Puts the line of a region.
#[tactic(auto, unfolding(crate::specs::Legends::region_line))]
fn put_region(out: &mut String, y: u128, region: &RegionRow) -> Result<(), AllocError>
    requires { y < 2 ^ 110 }
    ensures { IfOk result (λ _. string_bytes out.new
        ≡ string_bytes out.old ++ region_line y region.now) }
{
    put_swatch(out, y, region.id % COLOURS)?;
    put_region_name(out, y + 136, region.id)?;
    put_state(out, region.state)?;
    put_region_sizes(out, region)
}

/// Puts a line for each of some regions.
fn put_region_lines(out: &mut String, y: u128, regions: &[RegionRow]) -> Result<(), AllocError>
    requires { y < 2 ^ 100 }
    ensures { IfOk result (λ _. string_bytes out.new
        ≡ string_bytes out.old ++ region_lines y regions.now) }
{
    let mut rest = regions;
    let mut at = y;
    while let [first, more @ ..] = rest {
        put_region(out, at, first)?;
        at += LINE;
        rest = more;
    }
    Ok(())
}

/// Puts the line of the regions that the legend does not name.
fn put_left(out: &mut String, y: u128, count: usize) -> Result<(), AllocError>
    requires { y < 2 ^ 110 }
    ensures { IfOk result (λ _. string_bytes out.new ≡ string_bytes out.old ++ left_line y count) }
{
    let base = y + 136;
    write!(out, "<text class='l' x='1056' y='{base}'>")?;
    write!(out, "... and {count} more regions</text>\n")
}

/// Puts how many regions the legend does not name.
fn put_more(out: &mut String, y: u128, count: usize) -> Result<(), AllocError>
    requires { y < 2 ^ 110 }
    ensures { IfOk result (λ _. string_bytes out.new ≡ string_bytes out.old ++ more_line y count) }
{
    if count == 0 {
        Ok(())
    } else {
        put_left(out, y, count)
    }
}

/// Puts the first regions, and how many more there are.
fn put_regions(out: &mut String, y: u128, regions: &[RegionRow]) -> Result<(), AllocError>
    requires { y < 2 ^ 100 }
    ensures { IfOk result (λ _. string_bytes out.new
        ≡ string_bytes out.old ++ regions_legend y regions.now) }
{
    let named = regions.len().min(MOST_REGIONS);
    put_region_lines(out, y, &regions[..named])?;
    put_more(
        out,
        y + LINE * 12,
        regions.len().saturating_sub(MOST_REGIONS),
    )
}

/// How many entities are on their way.
fn count_away(entities: &[EntityRow]) -> usize
    ensures { result ≡ count_by (λ r. is_away r.place) entities.now }
{
    entities
        .iter()
        .filter(|row| matches!(row.place, Place::Transit(_)))
        .count()
}

/// Puts the line of loaded chunks.
fn put_chunks_line(out: &mut String, y: u128, count: usize) -> Result<(), AllocError>
    requires { y < 2 ^ 110 }
    ensures { IfOk result (λ _. string_bytes out.new
        ≡ string_bytes out.old ++ chunks_line y count) }
{
    let base = y + 136;
    write!(out, "<path class='c' d='M768 {y}h192v176h-192z'/>")?;
    write!(
        out,
        "<text class='l' x='1056' y='{base}'>a loaded chunk: {count}</text>\n"
    )
}

/// Puts the line of queued tasks.
fn put_tasks_line(out: &mut String, y: u128, count: usize) -> Result<(), AllocError>
    requires { y < 2 ^ 110 }
    ensures { IfOk result (λ _. string_bytes out.new ≡ string_bytes out.old ++ tasks_line y count) }
{
    let base = y + 136;
    write!(
        out,
        "<path class='t' d='M864 {y}m0 16l72 72-72 72-72-72z'/>"
    )?;
    write!(
        out,
        "<text class='l' x='1056' y='{base}'>a queued task, on its chunk: {count}</text>\n"
    )
}

/// Puts the line of entities.
fn put_entities_line(out: &mut String, y: u128, count: usize, away: usize) -> Result<(), AllocError>
    requires { y < 2 ^ 110 }
    ensures { IfOk result (λ _. string_bytes out.new
        ≡ string_bytes out.old ++ entities_line y count away) }
{
    let middle = y + 88;
    let base = y + 136;
    write!(out, "<circle class='e' cx='864' cy='{middle}' r='48'/>")?;
    write!(
        out,
        "<text class='l' x='1056' y='{base}'>an entity, at its block: {count}"
    )?;
    write!(
        out,
        ", of these on their way and not drawn: {away}</text>\n"
    )
}

/// Puts the line of what is left out.
fn put_cuts_line(out: &mut String, y: u128) -> Result<(), AllocError>
    requires { y < 2 ^ 110 }
    ensures { IfOk result (λ _. string_bytes out.new ≡ string_bytes out.old ++ cuts_line y) }
{
    let base = y + 136;
    write!(
        out,
        "<path class='g' d='M864 {y}v176'/><text class='l' x='1056' y='{base}'>"
    )?;
    write!(
        out,
        "columns or rows of sections left out, with their number</text>\n"
    )
}

/// Puts the scale, for sections of so many chunks.
fn put_scale_line(out: &mut String, y: u128, side: u32) -> Result<(), AllocError>
    requires { y < 2 ^ 110 }
    ensures { IfOk result (λ _. string_bytes out.new ≡ string_bytes out.old ++ scale_line y side) }
{
    let base = y + 136;
    write!(
        out,
        "<path class='b' d='M768 {y}m0 40v96m0-48h512m0-48v96'/>"
    )?;
    write!(
        out,
        "<text class='l' x='1344' y='{base}'>a section: {side} by {side}"
    )?;
    write!(out, " chunks of 16 by 16 blocks</text>\n")
}

/// Puts what each mark means, how many there are, and the scale.
fn put_kinds(
    out: &mut String,
    y: u128,
    layout: &Layout,
    closing: &Closing,
) -> Result<(), AllocError>
    requires { y < 2 ^ 105 }
    ensures { IfOk result (λ _. string_bytes out.new
        ≡ string_bytes out.old ++ marks_legend y layout.now closing.now) }
{
    let away = count_away(closing.entities.as_slice());
    put_chunks_line(out, y, layout.chunks.len())?;
    put_tasks_line(out, y + LINE, closing.tasks.len())?;
    put_entities_line(out, y + LINE * 2, closing.entities.len(), away)?;
    put_cuts_line(out, y + LINE * 3)?;
    put_scale_line(out, y + LINE * 4, chunks_across(&layout.grid))
}

/// Puts the legend from here on.
pub fn put_legend(
    out: &mut String,
    y: u128,
    layout: &Layout,
    closing: &Closing,
) -> Result<(), AllocError>
    requires { y < 2 ^ 100 }
    ensures { IfOk result (λ _. string_bytes out.new
        ≡ string_bytes out.old ++ legend y layout.now closing.now) }
{
    let regions = closing.regions.as_slice();
    put_regions(out, y, regions)?;
    put_kinds(out, y + LINE * region_line_count(regions), layout, closing)
}
