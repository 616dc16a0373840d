//! Numbers from their words.
ghost use Rattle.std.specs.Prelude.{◌≡◌, ℕ, ℤ, ◌≤◌, ◌<◌, ◌^◌, ◌∷◌, List, decimal, IfSome, IfNone};
ghost use Rattle.std.specs.Fmt.{signed_decimal};
ghost use Rattle.cert_read.specs.Numbers.{FitsWide};

use crate::heads::same;
use itoa::Buffer;
use strat_text::value;

/// The number that a word writes in decimal, of 128 bits.
pub(crate) fn numeral(word: &[u8]) -> Option<u128>
    ensures spelled { IfSome result (λ n. word.now ≡ decimal n) }
    ensures none { IfNone result ((n : ℕ) → n < 2 ^ 128 → word.now ≡ decimal n → ⊥) }
{
    let number = value(word)?;
    let mut buffer = Buffer::new();
    if same(word, buffer.format(number).as_bytes()) {
        Some(number)
    } else {
        None
    }
}

/// The number that a word writes in decimal, of 32 bits.
pub(crate) fn count(word: &[u8]) -> Option<u32>
    ensures spelled { IfSome result (λ n. word.now ≡ decimal n) }
    ensures none { IfNone result ((n : ℕ) → n < 2 ^ 32 → word.now ≡ decimal n → ⊥) }
{
    let number = numeral(word)?;
    if number <= u32::MAX as u128 {
        Some(number as u32)
    } else {
        None
    }
}

/// How many cases a word writes. No text has as many as 2^128 - 1, which stands for any number past it, too.
pub(crate) fn cases(word: &[u8]) -> Option<u128> {
    match value(word) {
        Some(_) => numeral(word),
        None => if is_long_numeral(word) {
            Some(u128::MAX)
        } else {
            None
        },
    }
}

/// Whether a word has digits alone and doesn't begin with 0.
fn is_long_numeral(word: &[u8]) -> bool {
    match word {
        [b'0', ..] => false,
        _ => word.iter().all(|byte| byte.is_ascii_digit()),
    }
}

/// The integer that a word writes, of 128 bits, with a sign where it is negative.
pub(crate) fn integer(word: &[u8]) -> Option<i128>
    ensures spelled { IfSome result (λ z. word.now ≡ signed_decimal z) }
    ensures fits { IfSome result FitsWide }
    ensures none { IfNone result ((z : ℤ) → FitsWide z → word.now ≡ signed_decimal z → ⊥) }
{
    match word {
        [b'-', digits @ ..] => negative(numeral(digits)?),
        _ => positive(numeral(word)?),
    }
}

/// The integer of a size that isn't negative.
fn positive(size: u128) -> Option<i128>
    ensures spelled { (digits : List ℕ) → digits ≡ decimal size → IfSome result (λ z. digits ≡ signed_decimal z) }
    ensures fits { IfSome result FitsWide }
    ensures wide { IfNone result (2 ^ 127 ≤ size) }
{
    if size <= i128::MAX as u128 {
        Some(size as i128)
    } else {
        None
    }
}

/// The negative integer of a size.
fn negative(size: u128) -> Option<i128>
    ensures spelled { (digits : List ℕ) → digits ≡ decimal size → IfSome result (λ z. 45 ∷ digits ≡ signed_decimal z) }
    ensures fits { IfSome result FitsWide }
    ensures wide { IfNone result (0 < size → 2 ^ 127 < size) }
{
    if size == 0 || size > 1 << 127 {
        None
    } else if size == 1 << 127 {
        Some(i128::MIN)
    } else {
        Some(-(size as i128))
    }
}
