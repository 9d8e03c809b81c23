//! One tick of a region, over any host that answers its loads and unloads.
//!
//! `run_tick` runs the due tasks of a tick in order of number and then moves the entities. Its contract says that blocks, entities and
//! log become those of the flat tick of the model, with the outcomes of loads and unloads by the host's answers, and that the host
//! answered just the calls that the due tasks ask for, in order, each once. The call takes all memory that it needs itself before
//! the first task. If memory runs out, another call goes on where the first stopped; `laws` says that any list of calls comes to the
//! same tick. It serves whoever runs the ticks of a core.
#![tactic(auto)]

mod asked;
mod host;
pub mod laws;
mod list_host;
mod log;
mod prepared;
mod run;
mod step;

pub use host::Host;
pub use list_host::{HostAnswer, ListHost};
pub use run::run_tick;
