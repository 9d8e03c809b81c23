//! A script of some sixteen million bytes, and a world of half a million block lines in no order, read and printed.

use crate::rate::per_second;
use fol_model::{Opening, Script};
use fol_script::{print_script, print_world, read_script, read_world};
use std::alloc::{AllocError, Global};
use std::fmt::Write;
use std::io;
use std::rt::Clock;
use std::time::Instant;

/// So many lines `post` are read.
const POSTS: u32 = 450_000;
/// So many lines `block` are read.
const BLOCKS: u32 = 500_000;

/// Prints how many bytes a second are read and printed.
pub fn run<R: Clock + Print>(rt: &R, alloc: Global) -> io::Result<()> {
    run_script(rt, alloc)?;
    run_world(rt, alloc)
}

fn run_script<R: Clock + Print>(rt: &R, alloc: Global) -> io::Result<()> {
    let text = many_posts(alloc, POSTS)?;
    let bytes = text.len() as u64;
    let start = Instant::now(rt)?;
    let Ok(script) = read_script(alloc, text.as_bytes(), 1) else {
        return println!(rt; "script: not read");
    };
    let shown = show_script(rt, alloc, &script, bytes, start);
    drop(script);
    shown
}

/// Prints how fast a script is read, which began at this moment, and how fast it is printed.
fn show_script<R: Clock + Print>(
    rt: &R,
    alloc: Global,
    script: &Script,
    bytes: u64,
    start: Instant,
) -> io::Result<()> {
    let rate = per_second(bytes, start.elapsed(rt)?);
    println!(rt; "script, read: {bytes} bytes, {rate} a second")?;
    let start = Instant::now(rt)?;
    let printed = print_script(alloc, script)?.len() as u64;
    let rate = per_second(printed, start.elapsed(rt)?);
    println!(rt; "script, printed: {printed} bytes, {rate} a second")
}

fn run_world<R: Clock + Print>(rt: &R, alloc: Global) -> io::Result<()> {
    let text = many_blocks(alloc, BLOCKS)?;
    let bytes = text.len() as u64;
    let start = Instant::now(rt)?;
    let Ok(world) = read_world(alloc, text.as_bytes()) else {
        return println!(rt; "world: not read");
    };
    let shown = show_world(rt, alloc, &world, bytes, start);
    drop(world);
    shown
}

/// Prints how fast a world is read, which began at this moment, and how fast it is printed.
fn show_world<R: Clock + Print>(
    rt: &R,
    alloc: Global,
    world: &Opening,
    bytes: u64,
    start: Instant,
) -> io::Result<()> {
    let rate = per_second(bytes, start.elapsed(rt)?);
    println!(rt; "world, read: {bytes} bytes, {rate} a second")?;
    let start = Instant::now(rt)?;
    let printed = print_world(alloc, world)?.len() as u64;
    let rate = per_second(printed, start.elapsed(rt)?);
    println!(rt; "world, printed: {printed} bytes, {rate} a second")
}

/// So many lines `post`.
fn many_posts(alloc: Global, lines: u32) -> Result<String, AllocError> {
    let mut text = String::new(alloc);
    for j in 0..lines {
        let (cx, cz) = (j % 1_000, j % 77_777);
        let (delay, x, id) = (1 + j % 50, j % 90_000, 1 + j % 60_000);
        writeln!(text, "post {cx} {cz} {delay} set {x} 64 -{id} {id}")?;
    }
    Ok(text)
}

/// A world with so many blocks, each at a place of its own.
fn many_blocks(alloc: Global, lines: u32) -> Result<String, AllocError> {
    let mut text = String::from_str(alloc, "world 1\ngrid 0 1 1 2 1 6\n")?;
    for j in 0..lines {
        let x = j.wrapping_mul(7_919) % 1_000_003;
        let id = 1 + j % 60_000;
        writeln!(text, "block {x} 64 {j} {id}")?;
    }
    Ok(text)
}
