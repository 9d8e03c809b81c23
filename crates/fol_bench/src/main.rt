//! Times of the parts, for those who work on them. Each word that the program is given names a workload, which is then
//! run and its times printed; given no words it does nothing. Nothing is promised of a time.
//!
//! A workload is a module with a function `run`, and has one line in `run_named`.
#![tactic(auto)]

mod early;
mod inbox;
mod lock;
mod rate;
mod regions;
mod report;
mod script;
mod view;
mod world;

use std::alloc::Global;
use std::rt::Clock;
use std::sync::Wait;
use std::thread::Threads;
use std::{env, io};

fn main(rt: HostRuntime) -> io::Result<()> {
    for word in env::args(&rt)?.skip(1) {
        run_named(&rt, rt.alloc(), word.as_str())?;
    }
    Ok(())
}

fn run_named<R: Threads + Wait + Sync + Clock + Print>(
    rt: &R,
    alloc: Global,
    word: &str,
) -> io::Result<()> {
    match word {
        "early" => early::run(rt, alloc),
        "inbox" => inbox::run(rt, alloc),
        "lock" => lock::run(rt, alloc),
        "regions" => regions::run(rt, alloc),
        "report" => report::run(rt, alloc),
        "script" => script::run(rt, alloc),
        "view" => view::run(rt, alloc),
        _ => println!(rt; "no workload is named {word}"),
    }
}
