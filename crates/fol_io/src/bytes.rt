//! A list of bytes.

ghost use Rattle.std.specs.Prelude.{◌≡◌, List, ℕ};

use std::marker::Model;

/// Bytes in memory. Contracts see the list of them, and nothing of the memory that holds it.
#[derive(Drop)]
pub struct Bytes {
    elements: Vec<u8>,
}

impl Model for Bytes {
    ghost Value = { List ℕ };

    ghost view = { λ b. b.elements.items };
}

impl Bytes {
    /// These bytes. Takes no memory.
    pub fn of(elements: Vec<u8>) -> Bytes
        ensures { result ≡ elements.items }
    {
        Bytes { elements }
    }

    /// The bytes, in order.
    pub fn as_slice(&self) -> &[u8]
        ensures { result.now ≡ self.now }
    {
        self.elements.as_slice()
    }

    /// The vector that the bytes were made of.
    pub fn into_vec(self) -> Vec<u8>
        ensures { result.items ≡ self }
    {
        self.elements
    }
}
