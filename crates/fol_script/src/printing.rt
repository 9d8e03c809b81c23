//! The spelling of a row.

ghost use Rattle.std.specs.Prelude.{◌≡◌, ◌++◌, List, [], ◌∷◌, OnOk, take, length};
ghost use Rattle.fol_model.specs.TextForms.{key_spelled};
ghost use Rattle.fol_text_laws.specs.Printed.{line_text};
ghost use Rattle.fol_script.specs.CellText.{cell_text, cells_text};

use fol_model::{Cell, Keyword};
use itoa::Buffer;
use std::alloc::AllocError;

/// The spelling of a word.
pub fn spelling(key: Keyword) -> &'static [u8]
    ensures { result.now ≡ key_spelled key }
{
    match key {
        Keyword::World => b"world",
        Keyword::Grid => b"grid",
        Keyword::Block => b"block",
        Keyword::Entity => b"entity",
        Keyword::Load => b"load",
        Keyword::Unload => b"unload",
        Keyword::Post => b"post",
        Keyword::Every => b"every",
        Keyword::Run => b"run",
        Keyword::End => b"end",
        Keyword::Set => b"set",
        Keyword::Copy => b"copy",
        Keyword::Send => b"send",
        Keyword::Arrive => b"arrive",
    }
}

/// Adds a cell behind a space.
fn push_cell(out: &mut Vec<u8>, cell: Cell) -> Result<(), AllocError>
    ensures { OnOk result (out.new.items ≡ out.old.items ++ cell_text cell) }
{
    out.push(b' ')?;
    match cell {
        Cell::Word(key) => out.extend_from_slice(spelling(key))?,
        Cell::Number(number) => {
            let mut buffer = Buffer::new();
            out.extend_from_slice(buffer.format(number).as_bytes())?;
        }
    }
    Ok(())
}

/// Adds the line of a row.
pub fn push_row(out: &mut Vec<u8>, key: Keyword, cells: &[Cell]) -> Result<(), AllocError>
    ensures { OnOk result (out.new.items
        ≡ out.old.items ++ line_text (record { key = key; cells = cells.now })) }
{
    out.extend_from_slice(spelling(key))?;
    for cell in cells {
        push_cell(out, *cell)?;
    }
    out.push(b'\n')?;
    Ok(())
}
