//! Made games: the texts of one cluster, and what a second one adds.

use fol_gen::make;
use std::alloc::{AllocError, Global};

const WORLD: &str = "world 1\ngrid 0 1 1 2 1 6\n";

/// The script of one cluster.
const ONE: &str = "load 0 0\n\
    load 3 0\n\
    load 6 0\n\
    post 0 0 1 set 0 64 0 1\n\
    post 0 0 2 set 1 64 0 2\n\
    post 0 0 3 set 2 64 0 3\n\
    post 0 0 4 set 3 64 0 4\n\
    run 5\n\
    end\n\
    unload 3 0\n\
    run 2\n\
    end\n";

/// The end of the script of two.
const SECOND: &str = "load 12 0\n\
    load 15 0\n\
    load 18 0\n\
    post 12 0 1 set 192 64 0 5\n\
    post 12 0 2 set 193 64 0 6\n\
    post 12 0 3 set 194 64 0 7\n\
    post 12 0 4 set 195 64 0 8\n\
    run 5\n\
    end\n\
    unload 3 0\n\
    unload 15 0\n\
    run 2\n\
    end\n";

/// Whether one cluster has this world and this script.
fn makes_one(alloc: Global) -> Result<bool, AllocError> {
    let made = make(alloc, 1)?;
    Ok(made.world.as_slice() == WORLD.as_bytes() && made.script.as_slice() == ONE.as_bytes())
}

#[test]
fn one_cluster(rt: HostRuntime) -> Result<(), AllocError> {
    assert!(rt; makes_one(rt.alloc())?);
    Ok(())
}

/// Whether the script of two clusters ends with that of the second.
fn makes_two(alloc: Global) -> Result<bool, AllocError> {
    let made = make(alloc, 2)?;
    Ok(made.script.as_slice().ends_with(SECOND.as_bytes()))
}

#[test]
fn the_second_cluster_goes_on_from_the_first(rt: HostRuntime) -> Result<(), AllocError> {
    assert!(rt; makes_two(rt.alloc())?);
    Ok(())
}
