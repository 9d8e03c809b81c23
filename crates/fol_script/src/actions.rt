//! The action that the cells of a line tell.

ghost use Rattle.std.specs.Prelude.{◌≡◌, ℕ, ◌+◌, ◌*◌, ◌<◌, ◌≤◌, ◌^◌, List, drop, length, true, false, IfOk, ◌≤ℤ◌, pos, negsuc};
ghost use Rattle.fol_model.specs.Nesting.{deed_of};
ghost use Rattle.fol_model.specs.Geometry.{is_chunk, is_block};
ghost use Rattle.fol_text_laws.specs.RowValues as tells;
ghost use Rattle.fol_script.specs.Posts.{is_post_at};

use fol_model::{Action, BlockPos, Cell, ChunkPos, Keyword, Nested};
use std::alloc::{AllocError, Global};

/// The number in the place `n`, or 0 where none is there.
pub fn number_at(cells: &[Cell], n: usize) -> i64
    ensures { result ≡ tells.z_at n cells.now }
{
    if n < cells.len() {
        match cells[n] {
            Cell::Number(number) => number,
            Cell::Word(_) => 0,
        }
    } else {
        0
    }
}

/// The number in the place `n`, which is near 0.
pub fn coordinate_at(cells: &[Cell], n: usize) -> i32
    requires low { negsuc 2147483647 ≤ℤ tells.z_at n cells.now }
    requires high { tells.z_at n cells.now ≤ℤ pos 2147483647 }
    ensures { result ≡ tells.z_at n cells.now }
{
    number_at(cells, n) as i32
}

/// The size of the number in the place `n`.
pub fn natural_at(cells: &[Cell], n: usize) -> u32
    requires { tells.natural_in n cells.now < 2 ^ 32 }
    ensures { result ≡ tells.natural_in n cells.now }
{
    number_at(cells, n).unsigned_abs() as u32
}

/// The chunk in the two places from `n` on.
pub fn chunk_at(cells: &[Cell], n: usize) -> ChunkPos
    requires room { n < 1000 }
    requires within { is_chunk (tells.chunk_in_cells n cells.now) ≡ true }
    ensures { result ≡ tells.chunk_in_cells n cells.now }
{
    ChunkPos {
        x: coordinate_at(cells, n),
        z: coordinate_at(cells, n + 1),
    }
}

/// The block in the three places from `n` on.
pub fn block_at(cells: &[Cell], n: usize) -> BlockPos
    requires room { n < 1000 }
    requires within { is_block (tells.block_in_cells n cells.now) ≡ true }
    ensures { result ≡ tells.block_in_cells n cells.now }
{
    BlockPos {
        x: coordinate_at(cells, n),
        y: coordinate_at(cells, n + 1),
        z: coordinate_at(cells, n + 2),
    }
}

/// Whether a whole post begins here.
fn is_post(cells: &[Cell]) -> bool
    ensures { result ≡ is_post_at cells.now }
{
    match cells {
        [Cell::Word(Keyword::Post), _, _, _, ..] => true,
        _ => false,
    }
}

/// The word in the first place.
fn first_key(cells: &[Cell]) -> Keyword
    ensures { result ≡ tells.first_key cells.now }
{
    match cells {
        [Cell::Word(key), ..] => *key,
        _ => Keyword::End,
    }
}

/// The action in the innermost post.
fn read_plain(cells: &[Cell]) -> Action
    requires innermost { is_post_at cells.now ≡ false }
    requires within { tells.InLine (tells.deed_from cells.now) }
    ensures { deed_of result ≡ tells.deed_from cells.now }
{
    match first_key(cells) {
        Keyword::Set => Action::Set {
            at: block_at(cells, 1),
            id: natural_at(cells, 4) as u16,
        },
        Keyword::Copy => Action::Copy {
            at: block_at(cells, 1),
            to: block_at(cells, 4),
        },
        Keyword::Load => Action::Load(chunk_at(cells, 1)),
        Keyword::Send => Action::Send {
            entity: natural_at(cells, 1),
            to: block_at(cells, 2),
        },
        _ => Action::Unload(chunk_at(cells, 1)),
    }
}

/// The post that begins here round its action.
fn read_post(alloc: Global, cells: &[Cell], inner: Action) -> Result<Action, AllocError>
    requires post { is_post_at cells.now ≡ true }
    requires within { tells.InLine (tells.deed_from cells.now) }
    requires inner { deed_of inner ≡ tells.deed_from (drop 4 cells.now) }
    ensures { IfOk result (λ a. deed_of a ≡ tells.deed_from cells.now) }
{
    Ok(Action::Post {
        chunk: chunk_at(cells, 1),
        delay: natural_at(cells, 3),
        action: Nested::new(alloc, inner)?,
    })
}

/// The action that these cells tell, from the innermost post out.
pub fn read_action(alloc: Global, cells: &[Cell]) -> Result<Action, AllocError>
    requires { tells.InLine (tells.deed_from cells.now) }
    ensures { IfOk result (λ a. deed_of a ≡ tells.deed_from cells.now) }
{
    let mut posts = 0;
    while is_post(&cells[4 * posts..]) {
        posts += 1;
    }
    let mut action = read_plain(&cells[4 * posts..]);
    while posts > 0 {
        posts -= 1;
        action = read_post(alloc, &cells[4 * posts..], action)?;
    }
    Ok(action)
}
