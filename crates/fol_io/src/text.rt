//! A text, as the list of its bytes.

ghost use Rattle.std.specs.Prelude.{◌≡◌, List, ℕ, string_bytes};

use std::marker::Model;

/// A text in memory. Contracts see the list of its bytes, and nothing of the memory that holds it.
#[derive(Drop)]
pub struct Text {
    string: String,
}

impl Model for Text {
    ghost Value = { List ℕ };

    ghost view = { λ t. string_bytes t.string };
}

impl Text {
    /// This text. Takes no memory.
    pub fn of(string: String) -> Text
        ensures { result ≡ string_bytes string }
    {
        Text { string }
    }

    /// The text itself.
    pub fn as_str(&self) -> &str
        ensures { result.now ≡ self.now }
    {
        self.string.as_str()
    }
}
