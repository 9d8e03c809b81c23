//! The readers and printers of world texts and script texts.
//!
//! A text is cut into lines, and each line that is not skipped into words. `fol_model` says which lines are bad and why, and
//! which bytes are the text of an opening or of a script. `read_world` and `read_script` give the value exactly where the text
//! is that of one, and else the first bad line with its first cause; any bytes are read, in one pass. `read_script_in_shares`
//! answers as `read_script` does. `print_world` and
//! `print_script` give the one text without skipped lines that reads back as the value. `read_number` reads one word, as the command line has it.
//!
//! From the bottom up: `lines` cuts, `numbers` reads numbers of any length, `forms` says what stands behind a word, `cells`
//! and `judge` read a line by itself; `script_lines` and `world_lines` see it among the lines before it; `scripts` and `worlds`
//! read whole texts, over `commands` and `actions`, and `kept` and `world_blocks`. `shares` has a long script read by several threads:
//! `share` is what each does, and `gathered` goes over what they read. The printers stand over `value_cells` and `printing`.
//! The laws behind them are those of `fol_text_laws`. The crate serves the program's top call.
#![tactic(auto)]

mod actions;
mod cells;
mod commands;
mod errors;
mod forms;
mod gathered;
mod judge;
mod kept;
mod lines;
mod numbers;
mod printing;
mod script_lines;
mod script_printer;
mod scripts;
mod share;
mod shares;
mod taken;
mod value_cells;
mod world_blocks;
mod world_lines;
mod world_printer;
mod worlds;

pub use errors::ReadError;
pub use forms::key_of;
pub use lines::next_word;
pub use numbers::{is_natural, read_number};
pub use script_printer::print_script;
pub use scripts::read_script;
pub use shares::read_script_in_shares;
pub use world_printer::print_world;
pub use worlds::read_world;
