//! The world after a history, as tables, with what each event does to them.
//!
//! `Tables` has the sections and regions with their holds, what no worker has in its hands, the tickets of the chunks, the stack of regions
//! that may owe a tick, and how far the world has come. `holds` has what a load and an unload do to them, `posts` what a post does,
//! `begins` what a Begin takes out, `ends` what an End brings back, `quiet` a tick in which no task is due and few entities walk, and `agenda` and `bags` what
//! phases ask and set; `rows` and `owners` list what stands in them.
//!
//! Each call promises what becomes of the tables that it changes, and that all else stays as it is. Nothing here keeps a history or an entry,
//! and no event can fail: the memory for it is taken before, by the calls of `tables` and with the lists of `begins`. It serves `fol_core`,
//! which has the history, records the entries and knows which regions are prepared.
#![tactic(auto)]

pub mod agenda;
pub mod bags;
pub mod begins;
mod catching_up;
pub mod ends;
pub mod holds;
pub mod owners;
mod parts;
pub mod posts;
pub mod quiet;
pub mod rows;
pub mod tables;
mod wishes;
