//! A script from its first command to its closing, by one to 64 workers.
//!
//! [`run_script`] issues the commands of a script in order, on a world that its workers share, and at the end of each phase ticks with
//! worker 1 until the phase can be closed. Each further worker ticks on a thread of its own. It promises that the history of the closing
//! is a legal one of that script and that number of workers, and that the closing shows the world after it. It serves the program.
//!
//! The calls that a user makes first, in this order:
//! 1. `fol_script::read_world` and `fol_script::read_script` make an opening and a script of texts; a program may as well make the values itself.
//! 2. `run_script` carries the script out, with `fol_io::QuietGate` where nobody is to be told of each tick, and gives the closing.
//! 3. `fol_report::report` makes a text of the closing.
//!
//! Each seat is handed from function to function by value and comes back with a promise: a worker's seat, that its ticks are whole; the
//! caller's, that it carried out the commands and finished. The law of the seats makes of these promises a legal history.
#![tactic(auto)]

mod bell;
mod commands;
mod lead;
mod patience;
mod phase;
mod script;
mod team;
mod tick;
mod work;

pub use script::run_script;
