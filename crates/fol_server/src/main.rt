//! A small game server over the library, for a stranger to read first.
//!
//! Three towns lie in a row, far enough apart that each is a region of its own. On each day every region ticks four times. A courier goes
//! from town to town, and a player builds in all of them:
//!
//! - `towns` says where they lie and where the courier goes;
//! - `server` opens what all share: the world, the book of visits, the inbox and the view; `dealing` deals out their seats;
//! - `worker` ticks regions: two workers on threads of their own, and one that the lead has, so that a day ends even where no thread can be had;
//! - `builder` is a thread that posts through the inbox, and never waits for the lock of the world;
//! - `watcher` is a thread that looks up who owns a town, and never takes that lock either;
//! - `lead` opens and closes the days, sends the courier on, and asks the book to tell where it comes;
//! - `team` says which thread does what, `ending` how everything is closed, and `report` what came of it.
//!
//! How the threads take turns differs from run to run, and what is printed does not depend on it.
//!
//! A function that ends early first drops by name what it owns: each such drop is a call, which is proved once, where one that is left to the
//! end of a block is proved field by field, at each exit anew.
#![tactic(auto)]

mod builder;
mod dealing;
mod ending;
mod lead;
mod report;
mod server;
mod team;
mod towns;
mod watcher;
mod worker;

use crate::ending::{Played, close};
use crate::lead::GivesUp;
use crate::report::print;
use crate::server::{Opened, open};
use crate::team::run;
use std::alloc::Global;
use std::io;
use std::process::ExitCode;
use std::sync::Wait;
use std::thread::Threads;

/// The exit code where the server gave up.
const GAVE_UP: u8 = 7;

fn main(rt: HostRuntime) -> io::Result<ExitCode> {
    match play(&rt, rt.alloc()) {
        Ok(played) => {
            let printed = print(&rt, &played);
            drop(played);
            printed?;
            Ok(ExitCode::SUCCESS)
        }
        Err(_) => {
            println!(rt; "the server gave up: memory was not found")?;
            Ok(ExitCode::from(GAVE_UP))
        }
    }
}

/// Opens the server, lets everyone do their part, and closes it.
fn play<R: Threads + Wait + Sync>(rt: &R, alloc: Global) -> Result<Played, GivesUp> {
    let Opened {
        server,
        map,
        mut crew,
    } = open(rt, alloc)?;
    let outcome = run(rt, alloc, &server, &mut crew);
    close(rt, alloc, server, map, crew, outcome)
}
