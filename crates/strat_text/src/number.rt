//! The numbers of strategies, from their texts.
ghost use Rattle.std.specs.Prelude.{◌≡◌, ◌+◌, ◌*◌, ◌-◌, Some, pos, neg_ℤ};
ghost use Rattle.strat_text.specs.Form.{value_from};
ghost use Rattle.strat_text.specs.Given.{narrow, seen};

/// A number that stands in a text: none, one past 128 bits, or one of 128 bits.
#[derive(Clone, Copy, Debug, PartialEq, Eq)]
pub(crate) enum Number {
    Absent,
    Wide,
    Fits(i128),
}

/// The number that decimal digits stand for, None exactly where it is 2^128 or more. No digits stand for 0, and a byte below `0`
/// counts as 0.
pub fn value(digits: &[u8]) -> Option<u128>
    ensures { result ≡ narrow (value_from 0 digits.now) }
{
    let mut value: u128 = 0;
    for digit in digits {
        value = pushed(value, *digit)?;
    }
    Some(value)
}

/// A number with one digit more, if it is below 2^128.
fn pushed(value: u128, digit: u8) -> Option<u128>
    ensures { result ≡ narrow (value * 10 + (digit - 48)) }
{
    let digit = u128::from(digit.saturating_sub(b'0'));
    match value.checked_mul(10) {
        None => None,
        Some(shifted) => shifted.checked_add(digit),
    }
}

/// The number that digits stand for.
pub(crate) fn positive(digits: &[u8]) -> Number
    ensures { result ≡ seen (Some (pos (value_from 0 digits.now))) }
{
    match value(digits) {
        Some(number) if number <= i128::MAX as u128 => Number::Fits(number as i128),
        _ => Number::Wide,
    }
}

/// The number that digits behind a minus stand for.
pub(crate) fn negative(digits: &[u8]) -> Number
    ensures { result ≡ seen (Some (neg_ℤ (pos (value_from 0 digits.now)))) }
{
    match value(digits) {
        Some(number) if number <= i128::MAX as u128 => Number::Fits(-(number as i128)),
        Some(number) if number == 1 << 127 => Number::Fits(i128::MIN),
        _ => Number::Wide,
    }
}
