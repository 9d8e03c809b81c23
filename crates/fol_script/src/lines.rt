//! Texts cut into lines, and lines into words.

ghost use Rattle.std.specs.Prelude.{◌≡◌, ◌<◌, ◌≤◌, ◌+◌, ◌==◌, List, [], ◌∷◌, length, true, if◌then◌else◌};
ghost use Rattle.std.specs.List.{position_or_len};
ghost use Rattle.fol_model.specs.TextLines.{lines, words, is_text, is_skipped};

use memchr::memchr;

/// How many bytes come before the first space.
fn word_len(text: &[u8]) -> usize
    ensures place { result ≡ position_or_len (λ b. b == 32) text.now }
    ensures within { result ≤ length text.now }
{
    let mut n = 0;
    while n < text.len() && text[n] != b' ' {
        n += 1;
    }
    n
}

/// How many bytes come before the first line feed.
fn line_len(text: &[u8]) -> usize
    ensures place { result ≡ position_or_len (λ b. b == 10) text.now }
    ensures within { result ≤ length text.now }
{
    match memchr(b'\n', text) {
        Some(n) => n,
        None => text.len(),
    }
}

/// The front up to the first space, what comes after it, and whether there is one.
pub fn next_word(text: &[u8]) -> (&[u8], &[u8], bool)
    ensures words { words text.now ≡ result.0.now ∷ (if result.2 then words result.1.now else []) }
    ensures shorter { result.2 ≡ true → length result.1.now < length text.now }
{
    let n = word_len(text);
    if n < text.len() {
        (&text[..n], &text[n + 1..], true)
    } else {
        (text, text, false)
    }
}

/// The first line, and what comes after its line feed.
pub fn next_line(text: &[u8]) -> (&[u8], &[u8])
    requires { 0 < length text.now }
    ensures lines { lines text.now ≡ result.0.now ∷ lines result.1.now }
    ensures shorter { length result.1.now < length text.now }
{
    let n = line_len(text);
    if n < text.len() {
        (&text[..n], &text[n + 1..])
    } else {
        (text, &text[n..])
    }
}

/// Whether the line is empty or a comment.
pub fn is_skipped_line(line: &[u8]) -> bool
    ensures { result ≡ is_skipped line.now }
{
    match line {
        [] => true,
        [first, ..] => *first == b'#',
    }
}
