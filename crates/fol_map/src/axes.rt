//! The numbers of columns and rows, and what is left out between them.

ghost use Rattle.std.specs.Prelude.{◌≡◌, ◌<◌, ◌≤◌, ◌^◌, ◌++◌, IfOk, string_bytes};
ghost use Rattle.fol_map.specs.Legends.{ahead, axis_marks, between, column_cut, column_number, cut_mark, gap_mark, number_mark, place_marks, row_cut, row_number};

use crate::layouts::step;
use crate::places::SECTION;
use std::alloc::AllocError;

/// A side of the picture.
#[derive(Clone, Copy)]
pub enum Axis {
    /// The numbers of columns, above the picture.
    Columns,
    /// The numbers of rows, to its left.
    Rows,
}

/// Puts the number of a column that begins here.
#[tactic(auto, unfolding(crate::specs::Legends::column_number))]
fn put_column_number(out: &mut String, at: u128, number: i32) -> Result<(), AllocError>
    requires { at < 2 ^ 100 }
    ensures { IfOk result (λ _. string_bytes out.new
        ≡ string_bytes out.old ++ column_number at number) }
{
    let middle = at + 256;
    write!(
        out,
        "<text class='n' x='{middle}' y='416'>{number}</text>\n"
    )
}

/// Puts the number of a row that begins here.
#[tactic(auto, unfolding(crate::specs::Legends::row_number))]
fn put_row_number(out: &mut String, at: u128, number: i32) -> Result<(), AllocError>
    requires { at < 2 ^ 100 }
    ensures { IfOk result (λ _. string_bytes out.new
        ≡ string_bytes out.old ++ row_number at number) }
{
    let base = at + 296;
    write!(out, "<text class='z' x='688' y='{base}'>{number}</text>\n")
}

/// Puts the number of a column or row that begins here.
fn put_number(out: &mut String, axis: Axis, at: u128, number: i32) -> Result<(), AllocError>
    requires { at < 2 ^ 100 }
    ensures { IfOk result (λ _. string_bytes out.new
        ≡ string_bytes out.old ++ number_mark axis at number) }
{
    match axis {
        Axis::Columns => put_column_number(out, at, number),
        Axis::Rows => put_row_number(out, at, number),
    }
}

/// Puts a line down the picture behind the column that begins here, and how many are left out.
fn put_column_cut(out: &mut String, at: u128, across: u128, count: u32) -> Result<(), AllocError>
    requires { at < 2 ^ 100 }
    ensures { IfOk result (λ _. string_bytes out.new
        ≡ string_bytes out.old ++ column_cut at across count) }
{
    let middle = at + 768;
    write!(out, "<path class='g' d='M{middle} 512v{across}'/>")?;
    write!(
        out,
        "<text class='n o' x='{middle}' y='416'>{count}</text>\n"
    )
}

/// Puts a line across the picture behind the row that begins here, and how many are left out.
fn put_row_cut(out: &mut String, at: u128, across: u128, count: u32) -> Result<(), AllocError>
    requires { at < 2 ^ 100 }
    ensures { IfOk result (λ _. string_bytes out.new
        ≡ string_bytes out.old ++ row_cut at across count) }
{
    let middle = at + 768;
    let base = at + 808;
    write!(out, "<path class='g' d='M768 {middle}h{across}'/>")?;
    write!(out, "<text class='z o' x='688' y='{base}'>{count}</text>\n")
}

/// Puts a line across the picture behind the column or row that begins here, and how many are left out.
fn put_cut(
    out: &mut String,
    axis: Axis,
    at: u128,
    across: u128,
    count: u32,
) -> Result<(), AllocError>
    requires { at < 2 ^ 100 }
    ensures { IfOk result (λ _. string_bytes out.new
        ≡ string_bytes out.old ++ cut_mark axis at across count) }
{
    match axis {
        Axis::Columns => put_column_cut(out, at, across, count),
        Axis::Rows => put_row_cut(out, at, across, count),
    }
}

/// Puts what stands behind a column or row, before one that is so far from it.
fn put_gap(
    out: &mut String,
    axis: Axis,
    at: u128,
    across: u128,
    apart: u32,
) -> Result<(), AllocError>
    requires { at < 2 ^ 100 }
    ensures { IfOk result (λ _. string_bytes out.new
        ≡ string_bytes out.old ++ gap_mark axis at across apart) }
{
    if apart <= 4 {
        Ok(())
    } else {
        put_cut(out, axis, at, across, apart - 1)
    }
}

/// Puts what stands between a column or row and those behind it.
fn put_between(
    out: &mut String,
    axis: Axis,
    at: u128,
    across: u128,
    place: i32,
    more: &[i32],
) -> Result<(), AllocError>
    requires { at < 2 ^ 100 }
    ensures { IfOk result (λ _. string_bytes out.new
        ≡ string_bytes out.old ++ between axis at across place more.now) }
{
    match more {
        [] => Ok(()),
        [next, ..] => put_gap(out, axis, at, across, place.abs_diff(*next)),
    }
}

/// Puts the number of a column or row, and what stands between it and those behind it.
#[tactic(auto, unfolding(crate::specs::Legends::place_marks))]
fn put_place(
    out: &mut String,
    axis: Axis,
    at: u128,
    across: u128,
    place: i32,
    more: &[i32],
) -> Result<(), AllocError>
    requires { at < 2 ^ 100 }
    ensures { IfOk result (λ _. string_bytes out.new
        ≡ string_bytes out.old ++ place_marks axis at across place more.now) }
{
    put_number(out, axis, at, place)?;
    put_between(out, axis, at, across, place, more)
}

/// How far behind a column or row the next one begins.
#[tactic(auto, unfolding(crate::specs::Legends::ahead))]
fn ahead(place: i32, more: &[i32]) -> u128
    ensures value { result ≡ ahead place more.now }
    ensures small { result ≤ 2048 }
{
    match more {
        [] => 0,
        [next, ..] => SECTION * u128::from(step(place, *next)),
    }
}

/// Puts the numbers of the columns or rows, and the lines between those that are far apart.
pub fn put_axis(
    out: &mut String,
    axis: Axis,
    start: u128,
    across: u128,
    places: &[i32],
) -> Result<(), AllocError>
    requires { start < 2 ^ 90 }
    ensures { IfOk result (λ _. string_bytes out.new
        ≡ string_bytes out.old ++ axis_marks axis start across places.now) }
{
    let mut rest = places;
    let mut at = start;
    while let [place, more @ ..] = rest {
        put_place(out, axis, at, across, *place, more)?;
        at += ahead(*place, more);
        rest = more;
    }
    Ok(())
}
