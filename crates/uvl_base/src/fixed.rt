//! A number with six decimals.
ghost use Rattle.std.specs.Prelude.{◌≡◌, ◌↔◌, ◌<◌, ◌≤◌, ◌+◌, ◌-◌, ◌^◌, ◌&&◌, ◌-ℤ◌, ◌<ℤ◌, pos, not, IfOk, IfSome, IsNone, IsErrOf, IsTrue, IsFalse, length, if◌then◌else◌};
ghost use Rattle.std.specs.List.{list_all, list_any, before_first, after_first, position_or_len};
ghost use Rattle.std.specs.Char.{is_ascii_digit};
ghost use Rattle.std.specs.Str.Parse.{digits_value};
ghost use Rattle.uvl_base.specs.Limits.{most_whole_digits, most_decimals};
ghost use Rattle.uvl_base.specs.Number.{is_negative, unsigned, is_point, is_unsigned_number, is_number, is_too_wide, millionths_of_digits, millionths_of, InRange};

use crate::limits::{MOST_DECIMALS, MOST_WHOLE_DIGITS};
use std::marker::Model;
use thiserror::Error;

/// Why a text was not taken as a number.
#[derive(Clone, Copy, Debug, PartialEq, Eq, Error)]
pub enum NumberFault {
    /// The text is not digits, or digits, a point and digits, with `-` in front or not.
    #[error("a number is written in digits, with a point or without")]
    Shape,
    /// There are more than 12 digits in front of the point, or more than 6 behind it.
    #[error("a number has at most 12 digits in front of its point, and 6 behind it")]
    TooWide,
}

/// A number of millionths, below 10^18 of them in size. Contracts see the number of millionths.
#[derive(Clone, Copy, Debug, PartialEq, Eq)]
pub struct Fixed {
    millionths: i64,
}

impl Model for Fixed {
    ghost use Rattle.std.specs.Prelude.{ℤ};
    ghost use Rattle.uvl_base.specs.Number.{InRange};

    ghost Value = { ℤ };

    ghost view = { λ f. f.millionths };

    ghost invariant = { λ f. InRange f.millionths };

    ghost inverse = { λ n. record { millionths = n } };
}

impl Fixed {
    /// The number that the text writes: digits, or a point and digits behind digits that may be
    /// missing, with `-` in front or not. A text of another shape is refused as `Shape`, and one
    /// with too many digits as `TooWide`.
    pub fn read(text: &str) -> Result<Fixed, NumberFault>
        ensures number { IfOk result (λ f. f ≡ millionths_of text.now) }
        ensures shape { IsErrOf result NumberFault.Shape ↔ IsFalse (is_number text.now) }
        ensures too_wide { IsErrOf result NumberFault.TooWide ↔ IsTrue (is_number text.now && is_too_wide text.now) }
    {
        let (negative, digits) = split_sign(text.as_bytes());
        let (has_point, whole, decimals) = split_point(digits);
        if !is_unsigned_number(has_point, whole, decimals) {
            return Err(NumberFault::Shape);
        }
        if whole.len() > MOST_WHOLE_DIGITS || decimals.len() > MOST_DECIMALS {
            return Err(NumberFault::TooWide);
        }
        let size = millionths_of_digits(whole, decimals) as i64;
        Ok(Fixed {
            millionths: if negative { -size } else { size },
        })
    }

    /// The number of so many millionths. There is none exactly where they are 10^18 or more in size.
    pub fn new(millionths: i64) -> Option<Fixed>
        ensures number { IfSome result (λ f. f ≡ millionths) }
        ensures none { IsNone result ↔ (InRange millionths → ⊥) }
    {
        if millionths <= -1_000_000_000_000_000_000 || millionths >= 1_000_000_000_000_000_000 {
            return None;
        }
        Some(Fixed { millionths })
    }

    /// The number of millionths.
    pub fn millionths(self) -> i64
        ensures number { result ≡ self }
        ensures in_range { InRange result }
    {
        self.millionths
    }
}

/// Whether `-` stands in front, and what follows it.
fn split_sign(text: &[u8]) -> (bool, &[u8])
    ensures negative { result.0 ≡ is_negative text.now }
    ensures digits { result.1.now ≡ unsigned text.now }
{
    match text.split_first() {
        Some((b'-', digits)) => (true, digits),
        _ => (false, text),
    }
}

/// Whether there is a point, what stands in front of it, and what follows it.
fn split_point(digits: &[u8]) -> (bool, &[u8], &[u8])
    ensures has_point { result.0 ≡ list_any is_point digits.now }
    ensures whole { result.1.now ≡ before_first is_point digits.now }
    ensures decimals { result.2.now ≡ after_first is_point digits.now }
{
    let point = before_point(digits);
    if point < digits.len() {
        (true, &digits[..point], &digits[point + 1..])
    } else {
        (false, digits, &[])
    }
}

/// How many bytes stand in front of the first point.
fn before_point(digits: &[u8]) -> usize
    ensures count { result ≡ position_or_len is_point digits.now }
    ensures within { result ≤ length digits.now }
{
    digits.iter().take_while(|digit| **digit != b'.').count()
}

fn is_unsigned_number(has_point: bool, whole: &[u8], decimals: &[u8]) -> bool
    ensures { result ≡ is_unsigned_number has_point whole.now decimals.now }
{
    let needed = if has_point { decimals } else { whole };
    are_digits(whole) && are_digits(decimals) && !needed.is_empty()
}

fn are_digits(digits: &[u8]) -> bool
    ensures { result ≡ list_all is_ascii_digit digits.now }
{
    digits.iter().all(|digit| digit.is_ascii_digit())
}

/// The millionths of at most 12 digits in front of the point, and of at most 6 behind it.
fn millionths_of_digits(whole: &[u8], decimals: &[u8]) -> u64
    requires whole_digits { IsTrue (list_all is_ascii_digit whole.now) }
    requires decimal_digits { IsTrue (list_all is_ascii_digit decimals.now) }
    requires whole_width { length whole.now ≤ most_whole_digits }
    requires decimal_width { length decimals.now ≤ most_decimals }
    ensures value { result ≡ millionths_of_digits whole.now decimals.now }
    ensures in_range { result < 10 ^ 18 }
{
    let scale = 10u64.pow((MOST_DECIMALS - decimals.len()) as u32);
    value_of(whole) * 1_000_000 + value_of(decimals) * scale
}

/// The number that at most 12 digits write.
fn value_of(digits: &[u8]) -> u64
    requires digits { IsTrue (list_all is_ascii_digit digits.now) }
    requires width { length digits.now ≤ most_whole_digits }
    ensures value { result ≡ digits_value 10 digits.now }
    ensures small { result < 10 ^ length digits.now }
{
    let mut value = 0u64;
    for digit in digits {
        value = value * 10 + u64::from(*digit - b'0');
    }
    value
}
