//! What holds of the made texts.

ghost use Rattle.std.specs.Prelude.{ℕ, ◌≤◌};
ghost use Rattle.fol_gen.specs.MadeScript.{SpellsAScript};

/// The made script is spelled as a script is: its lines are those of commands within the limits, and its phases open and close in turn.
pub fn made_script_law()
    ensures { (n : ℕ) → n ≤ 500 → SpellsAScript n }
{}
