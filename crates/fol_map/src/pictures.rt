//! The picture of a closing.

ghost use Rattle.std.specs.Prelude.{◌≡◌, ◌<◌, ◌^◌, ◌++◌, IfOk, string_bytes};
ghost use Rattle.fol_map.specs.Pictures.{IsPicture, below, ground, head, high, inside_text, picture_text, round_text, size_text, style, wide};

use crate::axes::{Axis, put_axis};
use crate::layouts::{Layout, make_layout, width};
use crate::legends::{LINE, put_legend, region_line_count};
use crate::marks::put_marks;
use crate::places::{LEFT, SECTION, TOP};
use fol_model::Closing;
use std::alloc::{AllocError, Global};

/// How the marks look.
pub const STYLE: &str =
    "<style>text{font:112px sans-serif;fill:#222}.n{text-anchor:middle}.z{text-anchor:end}.o{fill:#999;font-style:italic}.s{stroke:#fff;stroke-width:12}.c{fill:#000;fill-opacity:.16;stroke:#333;stroke-width:6}.t{fill:#c22;stroke:#fff;stroke-width:12}.e{fill:#124;stroke:#fff;stroke-width:12}.g{stroke:#999;stroke-width:12;stroke-dasharray:48 48;fill:none}.b{stroke:#222;stroke-width:12;fill:none}.p{fill:#fff}.r0{fill:#ccebc5}.r1{fill:#8dd3c7}.r2{fill:#fdb462}.r3{fill:#80b1d3}.r4{fill:#fb8072}.r5{fill:#b3de69}.r6{fill:#bebada}.r7{fill:#fccde5}.r8{fill:#ffed6f}.r9{fill:#d9b38c}.r10{fill:#a1c9f4}.r11{fill:#ff9da7}</style>\n";

/// The least width of a page.
const LEAST_WIDTH: u128 = 6144;

/// Where the legend begins.
fn below(layout: &Layout) -> u128
    ensures value { result ≡ below layout.now }
    ensures small { result < 2 ^ 100 }
{
    TOP + SECTION * width(layout.rows.as_slice()) + 256
}

/// The width of the page.
fn wide(layout: &Layout) -> u128
    ensures value { result ≡ wide layout.now }
{
    let columns = SECTION * width(layout.columns.as_slice());
    (LEFT + columns + 384).max(LEAST_WIDTH)
}

/// The height of the page.
fn high(layout: &Layout, closing: &Closing) -> u128
    ensures value { result ≡ high closing.now layout.now }
{
    let lines = region_line_count(closing.regions.as_slice()) + 5;
    below(layout) + LINE * lines + 192
}

/// Puts the size of a page.
fn put_size(out: &mut String, wide: u128, high: u128) -> Result<(), AllocError>
    ensures { IfOk result (λ _. string_bytes out.new
        ≡ string_bytes out.old ++ size_text wide high) }
{
    let across = wide / 8;
    let down = high / 8;
    write!(out, "<svg xmlns='http://www.w3.org/2000/svg' viewBox='0 0 ")?;
    write!(out, "{wide} {high}' width='{across}' height='{down}'>\n")
}

/// Puts the ground of a page.
fn put_ground(out: &mut String, wide: u128, high: u128) -> Result<(), AllocError>
    ensures { IfOk result (λ _. string_bytes out.new ≡ string_bytes out.old ++ ground wide high) }
{
    write!(out, "<path class='p' d='M0 0h{wide}v{high}h-{wide}z'/>\n")
}

/// Puts how the marks look.
#[tactic(auto, unfolding(crate::specs::Pictures::style))]
fn put_style(out: &mut String) -> Result<(), AllocError>
    ensures { IfOk result (λ _. string_bytes out.new ≡ string_bytes out.old ++ style) }
{
    out.push_str(STYLE)?;
    Ok(())
}

/// Puts the head of a page of this size.
fn put_head(out: &mut String, wide: u128, high: u128) -> Result<(), AllocError>
    ensures { IfOk result (λ _. string_bytes out.new ≡ string_bytes out.old ++ head wide high) }
{
    put_size(out, wide, high)?;
    put_style(out)?;
    put_ground(out, wide, high)
}

/// Puts one mark for each loaded chunk, each queued task and each entity that stands at a block.
fn put_inside(out: &mut String, layout: &Layout, closing: &Closing) -> Result<(), AllocError>
    ensures { IfOk result (λ _. string_bytes out.new
        ≡ string_bytes out.old ++ inside_text closing.now layout.now) }
{
    put_marks(out, layout, layout.chunks.as_slice())?;
    put_marks(out, layout, closing.tasks.as_slice())?;
    put_marks(out, layout, closing.entities.as_slice())
}

/// Puts the numbers at the sides, and the legend.
fn put_round(out: &mut String, layout: &Layout, closing: &Closing) -> Result<(), AllocError>
    ensures { IfOk result (λ _. string_bytes out.new
        ≡ string_bytes out.old ++ round_text closing.now layout.now) }
{
    let columns = layout.columns.as_slice();
    let rows = layout.rows.as_slice();
    put_axis(out, Axis::Columns, LEFT, SECTION * width(rows), columns)?;
    put_axis(out, Axis::Rows, TOP, SECTION * width(columns), rows)?;
    put_legend(out, below(layout), layout, closing)
}

/// The text of the picture of a closing with this layout.
fn picture_text(alloc: Global, layout: &Layout, closing: &Closing) -> Result<String, AllocError>
    ensures { IfOk result (λ text. string_bytes text ≡ picture_text closing.now layout.now) }
{
    let mut out = String::new(alloc);
    put_head(&mut out, wide(layout), high(layout, closing))?;
    put_marks(&mut out, layout, closing.owners.as_slice())?;
    put_inside(&mut out, layout, closing)?;
    put_round(&mut out, layout, closing)?;
    out.push_str("</svg>\n")?;
    Ok(out)
}

/// The picture of a closing, as an SVG text: one mark for each section with an owner, each loaded chunk, each queued task and each entity that
/// stands at a block, in their places; the numbers of the columns and rows of sections, and a legend.
pub fn picture(alloc: Global, closing: &Closing) -> Result<Vec<u8>, AllocError>
    ensures { IfOk result (λ text. IsPicture closing.now text.items) }
{
    let layout = make_layout(alloc, closing)?;
    let text = picture_text(alloc, &layout, closing)?;
    Ok(text.into_bytes())
}
