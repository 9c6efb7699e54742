// Decimals in a text: digits with at most one point before, among or after them, and no sign.
ghost use Rattle.std.specs.Prelude.{◌≡◌, ◌*◌, ◌^◌, ◌-◌, min, take, length, true, Some, None};
ghost use Rattle.std.specs.{List.list_all, List.position, Char.is_ascii_digit, Str.Parse.digits_value};
ghost use Rattle.cs_base.specs.{Numbers.clamp, Decimals.millionths_of};
ghost use Rattle.cs_base.specs.Decimals.{is_point, before_point, after_point, decimal_of, raw_of_decimal};

use crate::{Num, ONE};

// The greatest integer part of a decimal.
const GREATEST_WHOLE: u32 = 2_147_483_647;

/// A decimal without a sign: its integer part, which `read_decimal` limits to 2,147,483,647, and its fraction
/// in billionths.
#[derive(Clone, Copy, Debug, PartialEq, Eq)]
pub struct Decimal {
    pub whole: u32,
    pub billionths: u32,
}

impl Decimal {
    /// Returns the number, rounded down to a multiple of 1/65,536 and clamped to the range of numbers.
    pub fn num(self) -> Num
        ensures { result ≡ clamp (raw_of_decimal self) }
    {
        let whole = self.whole as i64;
        let billionths = self.billionths as i64;
        Num::of_raw(whole * ONE + billionths * ONE / 1_000_000_000)
    }

    /// Returns the value in millionths, rounded down.
    pub fn millionths(self) -> u64
        ensures { result ≡ millionths_of self }
    {
        self.whole as u64 * 1_000_000 + self.billionths as u64 / 1_000
    }
}

/// Reads a decimal: digits, optionally with one point before, among or after them. Digits after the ninth
/// decimal place are dropped. `None` if the text is not a decimal, or if its integer part exceeds
/// 2,147,483,647.
pub fn read_decimal(text: &[u8]) -> Option<Decimal>
    ensures { result ≡ decimal_of text.now }
{
    let (before, after) = split_at_point(text);
    let digits = before.len() > 0 || after.len() > 0;
    if !digits || !all_digits(before) || !all_digits(after) {
        return None;
    }
    let whole = value_of_digits(before);
    if whole > GREATEST_WHOLE {
        return None;
    }
    Some(Decimal {
        whole,
        billionths: billionths_of_digits(after),
    })
}

// The bytes before the first point, and the bytes after it.
fn split_at_point(text: &[u8]) -> (&[u8], &[u8])
    ensures before { result.0.now ≡ before_point text.now }
    ensures after { result.1.now ≡ after_point text.now }
{
    match point_of(text) {
        Some(point) => (&text[..point], &text[point + 1..]),
        None => (text, &[]),
    }
}

// The index of the first point.
fn point_of(text: &[u8]) -> Option<usize>
    ensures { result ≡ position is_point text.now }
{
    text.iter().position(|byte| *byte == b'.')
}

fn all_digits(text: &[u8]) -> bool
    ensures { result ≡ list_all is_ascii_digit text.now }
{
    text.iter().all(|byte| byte.is_ascii_digit())
}

// The value of the digits, or the greatest u32 if the value exceeds it.
fn value_of_digits(digits: &[u8]) -> u32
    requires { list_all is_ascii_digit digits.now ≡ true }
    ensures { result ≡ min (digits_value 10 digits.now) (2 ^ 32 - 1) }
{
    let mut value: u32 = 0;
    for digit in digits {
        value = value
            .saturating_mul(10)
            .saturating_add(u32::from(*digit - b'0'));
    }
    value
}

// The first nine digits after a point, as a number of billionths.
fn billionths_of_digits(digits: &[u8]) -> u32
    requires { list_all is_ascii_digit digits.now ≡ true }
    ensures { result ≡ digits_value 10 (take 9 digits.now) * 10 ^ (9 - length digits.now) }
{
    let count = digits.len().min(9);
    value_of_digits(&digits[..count]) * 10u32.pow(9 - count as u32)
}
