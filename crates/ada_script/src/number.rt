//! Reading a word as a number. Each number has one spelling.

ghost use Rattle.std.specs.Prelude.{◌≡◌, ◌↔◌, ◌<◌, ◌≤◌, ◌+◌, ◌-◌, ◌*◌, ◌^◌, ℕ, MatchOption, IfSome, IsTrue, decimal};
ghost use Rattle.std.specs.Int.{IsInRange};
ghost use Rattle.ada_script.specs.internal.Number.{IsLed, natural_of, integer_of, positive, negative};

/// Whether there is a byte, and a 0 at the beginning stands alone.
fn is_led(word: &[u8]) -> bool
    ensures { IsTrue result ↔ IsLed word.now }
{
    match word {
        [] => false,
        [_] => true,
        [first, ..] => *first != b'0',
    }
}

/// The number with one more digit at its end, if the byte is a digit, and the number below 2 ^ 64.
fn with_digit(number: u64, byte: u8) -> Option<u64>
    ensures fits { IfSome result (λ n. n < 2 ^ 64) }
    ensures value { MatchOption result (IsInRange 48 57 byte → 2 ^ 64 ≤ number * 10 + (byte - 48))
        (λ n. IsInRange 48 57 byte × (n ≡ number * 10 + (byte - 48))) }
{
    if byte < b'0' || byte > b'9' || number > u64::MAX / 10 {
        return None;
    }
    (number * 10).checked_add(u64::from(byte - b'0'))
}

/// The number whose spelling the word is.
fn spelled(word: &[u8]) -> Option<u64>
    ensures fits { IfSome result (λ n. n < 2 ^ 64) }
    ensures spelling { MatchOption result ((n : ℕ) → n < 2 ^ 64 → decimal n ≡ word.now
        → ⊥) (λ n. decimal n ≡ word.now) }
{
    if !is_led(word) {
        return None;
    }
    let mut number: u64 = 0;
    for byte in word {
        match with_digit(number, *byte) {
            Some(longer) => number = longer,
            None => return None,
        }
    }
    Some(number)
}

/// The number whose spelling the word is, from 0 on and below 2 ^ 64.
pub fn natural(word: &[u8]) -> Option<u64>
    ensures { result ≡ natural_of word.now }
{
    spelled(word)
}

fn positive_below(limit: u64, magnitude: u64) -> Option<i64>
    requires { limit ≤ 2 ^ 63 }
    ensures { result ≡ positive limit magnitude }
{
    if magnitude < limit {
        Some(magnitude as i64)
    } else {
        None
    }
}

fn negative_from(limit: u64, magnitude: u64) -> Option<i64>
    requires { limit ≤ 2 ^ 63 }
    ensures { result ≡ negative limit magnitude }
{
    if magnitude == 0 || magnitude > limit {
        None
    } else {
        Some(-1 - (magnitude - 1) as i64)
    }
}

/// The number whose spelling the word is, from `-limit` on and below `limit`.
#[tactic(auto, unfolding(crate::specs::internal::Number::integer_of))]
fn integer_within(limit: u64, word: &[u8]) -> Option<i64>
    requires { limit ≤ 2 ^ 63 }
    ensures { result ≡ integer_of limit word.now }
{
    match word {
        [] => None,
        [b'-', digits @ ..] => negative_from(limit, natural(digits)?),
        _ => positive_below(limit, natural(word)?),
    }
}

/// The number whose spelling the word is, in the range of a moment or a duration.
pub fn integer(word: &[u8]) -> Option<i64>
    ensures { result ≡ integer_of (2 ^ 63) word.now }
{
    integer_within(1 << 63, word)
}

/// The number whose spelling the word is, in the range of an index or a bound.
pub fn index(word: &[u8]) -> Option<i32>
    ensures { result ≡ integer_of (2 ^ 31) word.now }
{
    match integer_within(1 << 31, word) {
        Some(number) => Some(number as i32),
        None => None,
    }
}
