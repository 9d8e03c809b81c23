//! What the two files spell.

ghost use Rattle.std.specs.Prelude.{ℕ, List, IfOk, IfErr};
ghost use Rattle.fol_model.specs.declared.openings.Opening.{Opening};
ghost use Rattle.fol_model.specs.TextCauses.{first_bad};
ghost use Rattle.fol_model.specs.Texts.{IsScriptText, IsWorldText, script_kind};
ghost use Rattle.fol_script.specs.ReadText.{IsErrorAt};
ghost use Rattle.fol_top.specs.Spelling.{TextsEnd};

use crate::ending::Ending;
use crate::inputs::Files;
use fol_model::{Opening, Script};
use fol_script::{ReadError, read_script, read_script_in_shares, read_world};
use std::alloc::Global;
use std::thread::Threads;

/// A world and a script.
#[derive(Drop)]
pub(crate) struct Texts {
    pub(crate) opening: Opening,
    pub(crate) script: Script,
}

/// Reads the texts of both files, the world first.
pub(crate) fn read_texts(alloc: Global, files: &Files) -> Result<Texts, Ending>
    ensures world { IfOk result (λ texts. IsWorldText files.now.world texts.opening) }
    ensures script { IfOk result (λ texts.
        IsScriptText texts.opening.version files.now.script texts.script) }
    ensures ends { IfErr result (TextsEnd files.now.world files.now.script) }
{
    let opening = read_opening(alloc, files)?;
    let version = opening.version;
    match read_script(alloc, files.script.as_slice(), version) {
        Ok(script) => Ok(Texts { opening, script }),
        Err(error) => Err(script_ending(error)),
    }
}

/// Reads the texts of both files as `read_texts` does, a long script by so many threads.
pub(crate) fn read_texts_in_shares<R: Threads + Sync>(
    rt: &R,
    alloc: Global,
    threads: u32,
    files: &Files,
) -> Result<Texts, Ending>
    ensures world { IfOk result (λ texts. IsWorldText files.now.world texts.opening) }
    ensures script { IfOk result (λ texts.
        IsScriptText texts.opening.version files.now.script texts.script) }
    ensures ends { IfErr result (TextsEnd files.now.world files.now.script) }
{
    let opening = read_opening(alloc, files)?;
    let version = opening.version;
    match read_script_in_shares(rt, alloc, threads, files.script.as_slice(), version) {
        Ok(script) => Ok(Texts { opening, script }),
        Err(error) => Err(script_ending(error)),
    }
}

/// Reads the text of the world.
fn read_opening(alloc: Global, files: &Files) -> Result<Opening, Ending>
    ensures world { IfOk result (IsWorldText files.now.world) }
    ensures ends { IfErr result (TextsEnd files.now.world files.now.script) }
{
    match read_world(alloc, files.world.as_slice()) {
        Ok(opening) => Ok(opening),
        Err(ReadError::BadLine { line, cause }) => Err(Ending::World { line, cause }),
        Err(ReadError::NoMemory) => Err(Ending::NoMemory),
    }
}

/// The ending where a script is not read on a world that is.
fn script_ending(error: ReadError) -> Ending
    ensures { (world script : List ℕ) (o : Opening) → IsWorldText world o
        → IsErrorAt (first_bad (script_kind o.version) script) error
        → TextsEnd world script result }
{
    match error {
        ReadError::BadLine { line, cause } => Ending::Script { line, cause },
        ReadError::NoMemory => Ending::NoMemory,
    }
}
