//! The made texts of a number of clusters.

ghost use Rattle.std.specs.Prelude.{◌≡◌, ◌≤◌, IfOk};
ghost use Rattle.fol_gen.specs.MadeTexts.{script_text, world_text};
ghost use Rattle.fol_model.specs.Texts.{IsScriptText, IsWorldText};

use crate::texts::Texts;
use fol_gen::make;
use fol_model::{Opening, Script};
use fol_script::{ReadError, read_script, read_world};
use std::alloc::{AllocError, Global};

/// The version of the made texts.
const VERSION: u8 = 1;

/// Makes the texts of so many clusters, and reads them.
pub(crate) fn make_texts(alloc: Global, clusters: u32) -> Result<Texts, AllocError>
    requires some { 1 ≤ clusters }
    requires few { clusters ≤ 500 }
    ensures world { IfOk result (λ texts. IsWorldText world_text texts.opening) }
    ensures script { IfOk result (λ texts. IsScriptText 1 (script_text clusters) texts.script) }
{
    let made = make(alloc, clusters)?;
    let opening = read_made_world(alloc, made.world.as_slice())?;
    let script = read_made_script(alloc, made.script.as_slice(), clusters)?;
    Ok(Texts { opening, script })
}

/// Reads the made world, which has no bad line.
fn read_made_world(alloc: Global, bytes: &[u8]) -> Result<Opening, AllocError>
    requires { bytes.now ≡ world_text }
    ensures { IfOk result (λ o. IsWorldText bytes.now o) }
{
    match read_world(alloc, bytes) {
        Ok(opening) => Ok(opening),
        Err(ReadError::NoMemory) => Err(AllocError),
        Err(ReadError::BadLine { .. }) => unreachable!(),
    }
}

/// Reads the made script of so many clusters, which has no bad line.
fn read_made_script(alloc: Global, bytes: &[u8], clusters: u32) -> Result<Script, AllocError>
    requires made { bytes.now ≡ script_text clusters }
    requires few { clusters ≤ 500 }
    ensures { IfOk result (λ s. IsScriptText 1 bytes.now s) }
{
    let _clusters = clusters;
    match read_script(alloc, bytes, VERSION) {
        Ok(script) => Ok(script),
        Err(ReadError::NoMemory) => Err(AllocError),
        Err(ReadError::BadLine { .. }) => unreachable!(),
    }
}
