//! The two texts.

ghost use Rattle.std.specs.Prelude.{◌≡◌, ◌≤◌, IfOk};
ghost use Rattle.fol_gen.specs.MadeTexts.{script_text, world_text};

use crate::clusters::{put_clusters, put_run, put_unloads};
use std::alloc::{AllocError, Global};

/// A world text and a script text.
#[derive(Drop)]
pub struct Made {
    /// The world text.
    pub world: Vec<u8>,
    /// The script text.
    pub script: Vec<u8>,
}

/// The texts of `n` clusters, from 1 to 500.
pub fn make(alloc: Global, n: u32) -> Result<Made, AllocError>
    requires some { 1 ≤ n }
    requires few { n ≤ 500 }
    ensures world { IfOk result (λ made. made.world.items ≡ world_text) }
    ensures script { IfOk result (λ made. made.script.items ≡ script_text n) }
{
    let world = Vec::from_slice(alloc, b"world 1\ngrid 0 1 1 2 1 6\n")?;
    let mut script = String::new(alloc);
    put_clusters(&mut script, n)?;
    put_run(&mut script, 5)?;
    put_unloads(&mut script, n)?;
    put_run(&mut script, 2)?;
    Ok(Made {
        world,
        script: script.into_bytes(),
    })
}
