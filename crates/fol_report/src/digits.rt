//! The digits of a number in a row of bytes, written from the first to the last.

ghost use Rattle.std.specs.Prelude.{◌≡◌, ◌+◌, ◌/◌, ◌%◌, ◌<◌, ◌≤◌, [], ◌∷◌, ◌++◌, decimal, length, take};

use itoa::write_digits;

/// The two digits of each number below 100.
static PAIRS: [u8; 200] =
    *b"00010203040506070809101112131415161718192021222324252627282930313233343536373839404142434445464748495051525354555657585960616263646566676869707172737475767778798081828384858687888990919293949596979899";

/// Writes a number below 100 as two digits.
#[inline(always)]
fn put_pair(bytes: &mut [u8], at: usize, pair: u64)
    requires { (pair < 100) × (at + 2 ≤ length bytes.old) }
    ensures { take (at + 2) bytes.new
        ≡ take at bytes.old ++ (48 + pair / 10) ∷ (48 + pair % 10) ∷ [] }
{
    let from = pair as usize * 2;
    let (tens, ones) = (PAIRS[from], PAIRS[from + 1]);
    bytes[at] = tens;
    bytes[at + 1] = ones;
}

/// Writes a number below 100, and returns the place behind it.
#[inline(always)]
fn put_two(bytes: &mut [u8], at: usize, n: u64) -> usize
    requires { (n < 100) × (at + length (decimal n) ≤ length bytes.old) }
    ensures end { result ≡ at + length (decimal n) }
    ensures written { take result bytes.new ≡ take at bytes.old ++ decimal n }
{
    if n < 10 {
        bytes[at] = b'0' + n as u8;
        return at + 1;
    }
    put_pair(bytes, at, n);
    at + 2
}

/// Writes a number below 10,000, and returns the place behind it.
#[inline(always)]
fn put_four(bytes: &mut [u8], at: usize, n: u64) -> usize
    requires { (n < 10000) × (at + length (decimal n) ≤ length bytes.old) }
    ensures end { result ≡ at + length (decimal n) }
    ensures written { take result bytes.new ≡ take at bytes.old ++ decimal n }
{
    if n < 100 {
        return put_two(bytes, at, n);
    }
    let middle = put_two(bytes, at, n / 100);
    put_pair(bytes, middle, n % 100);
    middle + 2
}

/// How many digits a number below 10,000 has.
#[inline]
fn count_short(n: u64) -> usize
    requires { n < 10000 }
    ensures { result ≡ length (decimal n) }
{
    if n < 100 {
        return if n < 10 { 1 } else { 2 };
    }
    if n < 1_000 { 3 } else { 4 }
}

/// How many digits a number has.
#[inline]
fn count_digits(n: u64) -> usize
    ensures { result ≡ length (decimal n) }
{
    let mut left = n;
    let mut count = 0;
    while left >= 10_000 {
        left /= 10_000;
        count += 4;
    }
    count + count_short(left)
}

/// Writes a long number, and returns the place behind it.
#[inline(never)]
fn put_long(bytes: &mut [u8], at: usize, n: u64) -> usize
    requires { at + length (decimal n) ≤ length bytes.old }
    ensures end { result ≡ at + length (decimal n) }
    ensures written { take result bytes.new ≡ take at bytes.old ++ decimal n }
{
    let end = at + count_digits(n);
    write_digits(n, bytes, end);
    end
}

/// Writes a number, and returns the place behind it.
#[inline(always)]
pub fn put_digits(bytes: &mut [u8], at: usize, n: u64) -> usize
    requires { at + length (decimal n) ≤ length bytes.old }
    ensures end { result ≡ at + length (decimal n) }
    ensures written { take result bytes.new ≡ take at bytes.old ++ decimal n }
{
    if n < 10_000 {
        return put_four(bytes, at, n);
    }
    put_long(bytes, at, n)
}
