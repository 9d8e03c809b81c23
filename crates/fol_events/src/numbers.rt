//! Words in the place of numbers that are not negative.

ghost use Rattle.std.specs.Prelude.{◌≡◌, ℕ, ◌≤◌, decimal, MatchOption};
ghost use Rattle.std.specs.Str.Parse.{AllDigits, digits_value};
ghost use Rattle.std.specs.Option.{SomeIff};
ghost use Rattle.std.specs.Prelude.{◌+◌, ◌*◌, ◌-◌, ◌<◌, ◌^◌};

use fol_script::is_natural;

/// The value with one more digit, where it has 64 bits.
fn one_more(value: u64, digit: u8) -> Option<u64>
    requires { (48 ≤ digit) × (digit ≤ 57) }
    ensures { SomeIff result (value * 10 + (digit - 48) < 2 ^ 64) (value * 10 + (digit - 48)) }
{
    value.checked_mul(10)?.checked_add(u64::from(digit - b'0'))
}

/// The value of these digits, where it has 64 bits.
fn value_of(digits: &[u8]) -> Option<u64>
    requires { AllDigits 10 digits.now }
    ensures { SomeIff result (digits_value 10 digits.now < 2 ^ 64) (digits_value 10 digits.now) }
{
    let mut value: u64 = 0;
    for b in digits {
        value = one_more(value, *b)?;
    }
    Some(value)
}

/// The number up to `most` that a word spells.
pub fn read_natural(word: &[u8], most: u64) -> Option<u64>
    ensures { MatchOption result ((n : ℕ) → n ≤ most → word.now ≡ decimal n
        → ⊥) (λ n. (n ≤ most) × (word.now ≡ decimal n)) }
{
    if !is_natural(word) {
        return None;
    }
    let value = value_of(word)?;
    if value <= most { Some(value) } else { None }
}
