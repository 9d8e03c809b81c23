//! The laws of the texts of worlds and scripts.
//!
//! `fol_model` says which lines of a text are bad, and which bytes are the text of an opening or of the commands of a script.
//! Each function here has no parameter and an empty body: its contract is a law about these definitions, proved for all
//! texts. A text without a bad line is that of a value, and of one alone; what a text gives is within the limits of its type;
//! and the printed text of a value is that value's text. The readers and printers of `fol_script` stand on these laws.
#![tactic(auto)]

ghost use Rattle.fol_text_laws.specs.Laws.{WorldHasOpening, ScriptHasCommands, OneOpening, OneScript, WorldGivesOpening, ScriptGivesScript, WorldPrinted, ScriptPrinted};

/// A world text has no bad line exactly where it is the text of an opening.
pub fn world_has_opening()
    ensures { WorldHasOpening }
{}

/// A script text of either version has no bad line exactly where it is the text of some commands.
pub fn script_has_commands()
    ensures { ScriptHasCommands }
{}

/// A text is the world text of at most one opening.
pub fn one_opening()
    ensures { OneOpening }
{}

/// A text is the script text of at most one list of commands.
pub fn one_script()
    ensures { OneScript }
{}

/// The opening of a world text is within its limits.
pub fn world_gives_opening()
    ensures { WorldGivesOpening }
{}

/// The commands of a script text are within their limits.
pub fn script_gives_script()
    ensures { ScriptGivesScript }
{}

/// The printed text of an opening is its text.
pub fn world_printed()
    ensures { WorldPrinted }
{}

/// The printed text of a script is its text: in version 2, and in version 1 where no task is repeated.
pub fn script_printed()
    ensures { ScriptPrinted }
{}
