//! Words in a row of bytes.

ghost use Rattle.std.specs.Prelude.{◌≡◌, ◌+◌, ◌≤◌, ◌++◌, length, take};

/// Writes a word, and returns the place behind it. A word that is known where this is called is written by a store or two.
#[inline(always)]
pub fn write_word(bytes: &mut [u8], at: usize, word: &[u8]) -> usize
    requires { at + length word.now ≤ length bytes.old }
    ensures end { result ≡ at + length word.now }
    ensures written { take result bytes.new ≡ take at bytes.old ++ word.now }
{
    let mut end = at;
    for byte in word {
        bytes[end] = *byte;
        end += 1;
    }
    end
}
