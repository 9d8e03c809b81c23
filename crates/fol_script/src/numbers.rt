//! Words in the place of numbers.

ghost use Rattle.std.specs.Prelude.{◌≡◌, ◌≤ℤ◌, ◌<ℤ◌, pos, negsuc, neg_ℤ, ◌+◌, ◌*◌, ◌-◌, ◌<◌, ◌≤◌, ℕ, List, [], ◌∷◌, if◌then◌else◌, length, take, Option, Some, None, MatchOption, true, false};
ghost use Rattle.std.specs.List.{position_or_len};
ghost use Rattle.std.specs.Str.Parse.{digits_value};
ghost use Rattle.fol_script.specs.Letters.{is_no_digit};
ghost use Rattle.fol_model.specs.TextLines.{words};
ghost use Rattle.fol_model.specs.TextNumbers as spec;

use crate::lines::next_word;
use fol_model::Reading;

/// No range of a text has a number so far from 0.
const FAR: u64 = 10_000_000_000;

/// The value with one more digit. A value that is far already stays, so that digits without end can't exceed it.
fn one_more(value: u64, digit: u8) -> u64
    requires digit { (48 ≤ digit) × (digit ≤ 57) }
    ensures far { 10000000000 ≤ value → result ≡ value }
    ensures near { value < 10000000000 → result ≡ value * 10 + (digit - 48) }
{
    if value < FAR {
        value * 10 + (digit - b'0') as u64
    } else {
        value
    }
}

/// How many digits stand in front, and the number that they write, or a far one in place of a far one.
fn front_digits(text: &[u8]) -> (usize, u64)
    ensures place { result.0 ≡ position_or_len is_no_digit text.now }
    ensures within { result.0 ≤ length text.now }
    ensures value { spec.Near result.1 (digits_value 10 (take result.0 text.now)) }
{
    let mut n = 0;
    let mut value: u64 = 0;
    while n < text.len() && text[n].is_ascii_digit() {
        value = one_more(value, text[n]);
        n += 1;
    }
    (n, value)
}

/// Whether the word with so many digits in front has no other bytes, and begins with 0 only where this stands alone.
fn is_spelled(word: &[u8], digits: usize) -> bool
    requires { digits ≡ position_or_len is_no_digit word.now }
    ensures { result ≡ spec.is_natural word.now }
{
    match word {
        [] => false,
        [first, rest @ ..] => (*first != b'0' || rest.is_empty()) && digits == word.len(),
    }
}

/// The number that the word is if it is one that is not negative, or a far one in place of a far one.
fn natural(word: &[u8]) -> Option<u64>
    ensures { MatchOption result (spec.is_natural word.now ≡ false) (λ n.
        (spec.is_natural word.now ≡ true) × spec.Near n (digits_value 10 word.now)) }
{
    let (digits, value) = front_digits(word);
    if is_spelled(word, digits) {
        Some(value)
    } else {
        None
    }
}

/// Whether the word is a number that is not negative: digits, the first 0 only where it stands alone.
pub fn is_natural(word: &[u8]) -> bool
    ensures { result ≡ spec.is_natural word.now }
{
    let (digits, _) = front_digits(word);
    is_spelled(word, digits)
}

/// The number that a word is, if it is one within these bounds.
pub fn read_number(word: &[u8], low: i64, high: i64) -> Reading
    requires low { negsuc 9999999998 ≤ℤ low }
    requires high { high ≤ℤ pos 9999999999 }
    ensures { result ≡ spec.reading low high word.now }
{
    match word {
        [] => Reading::NoNumber,
        [first, rest @ ..] => {
            if low < 0 && *first == b'-' {
                read_negative(rest, low, high)
            } else {
                read_positive(word, low, high)
            }
        }
    }
}

/// The first word of a text in the place of a number of this range, what comes after the space behind it, and whether there is
/// one. Digits alone are read as they are looked through for their end; any other word is cut first.
pub fn next_number(text: &[u8], low: i64, high: i64) -> (Reading, &[u8], bool)
    requires low { negsuc 9999999998 ≤ℤ low }
    requires high { high ≤ℤ pos 9999999999 }
    ensures number { (w : List ℕ) × (words text.now
        ≡ w ∷ (if result.2 then words result.1.now else []))
        × (result.0 ≡ spec.reading low high w) }
    ensures shorter { result.2 ≡ true → length result.1.now < length text.now }
{
    let (digits, value) = front_digits(text);
    if digits == text.len() {
        return (read_digits(text, value, low, high), text, false);
    }
    if text[digits] == b' ' {
        let number = read_digits(&text[..digits], value, low, high);
        return (number, &text[digits + 1..], true);
    }
    let (word, rest, more) = next_word(text);
    (read_number(word, low, high), rest, more)
}

/// A word of digits alone, which write this number, or a far one in place of a far one. There may be none.
fn read_digits(word: &[u8], value: u64, low: i64, high: i64) -> Reading
    requires high { high ≤ℤ pos 9999999999 }
    requires digits { length word.now ≡ position_or_len is_no_digit word.now }
    requires value { spec.Near value (digits_value 10 word.now) }
    ensures { result ≡ spec.reading low high word.now }
{
    if is_spelled(word, word.len()) {
        bounded(value as i64, low, high)
    } else {
        Reading::NoNumber
    }
}

/// A word with no sign.
fn read_positive(digits: &[u8], low: i64, high: i64) -> Reading
    requires { high ≤ℤ pos 9999999999 }
    ensures { result ≡ spec.within low high (spec.positive (spec.natural digits.now)) }
{
    let Some(size) = natural(digits) else {
        return Reading::NoNumber;
    };
    bounded(size as i64, low, high)
}

/// A word behind its sign `-`, which is no number where it is 0.
fn read_negative(digits: &[u8], low: i64, high: i64) -> Reading
    requires { negsuc 9999999998 ≤ℤ low }
    ensures { result ≡ spec.within low high (spec.negated (spec.natural digits.now)) }
{
    let Some(size) = natural(digits) else {
        return Reading::NoNumber;
    };
    if size == 0 {
        return Reading::NoNumber;
    }
    bounded(-(size as i64), low, high)
}

/// The value, if it is within these bounds.
fn bounded(value: i64, low: i64, high: i64) -> Reading
    ensures { result ≡ spec.within low high (Some value) }
{
    if value < low || high < value {
        Reading::Outside
    } else {
        Reading::Is(value)
    }
}
