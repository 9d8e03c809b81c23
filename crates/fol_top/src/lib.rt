//! The program as one call: from the words of a command line to the bytes that are written.
//!
//! [`run`] runs a script on a world, both read from a shelf or made by the program itself, and writes the report, its JSON form or a
//! summary to a sink; or it says whether a report is that of a legal history. What it returns is a status with a code; `specs/Outcome.antt`
//! says for each code when it comes and what was written. Its headline: at code 0 the sink received the output of one legal history of the
//! opening and the script that the two texts spell, and the region rules hold at each point of that history; or the report that was read is
//! such an output.
//!
//! The work falls into small parts in the order of a run: `command` reads the words, `inputs` the files, `texts` what the files spell,
//! or `made` makes the texts, `fol_pool` carries the script out, and `output` writes in the `form` that was asked for; in place of the last
//! two `checking` judges a report. `program` puts them together, and `complaint` tells a fault to the sink of errors. The main program serves
//! this crate its files and its standard streams.
#![tactic(auto)]

mod checking;
mod command;
mod complaint;
mod ending;
mod form;
mod inputs;
mod made;
mod output;
mod program;
#[cfg(test)]
mod tests;
mod texts;

pub use ending::Status;
pub use program::run;
