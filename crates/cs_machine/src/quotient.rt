// Quotients by a value that is held over a cycle.
ghost use Rattle.std.specs.Prelude.{◌≡◌, ◌≤◌, ◌*◌, ◌^◌, ◌≤ℤ◌, ◌<◌, ◌*ℤ◌, pos, true, unsigned_abs, IfSome};
ghost use Rattle.cs_base.specs.Numbers.{IsRaw, clamp, one, quotient_of};

use cs_base::{Divisor, Num, ONE};

/// A divisor that is held, and the highest magnitude of a number whose quotient is in range and can be
/// computed as a product with the inverse of the divisor.
#[derive(Clone, Copy)]
pub(crate) struct HeldDivisor {
    divisor: Divisor,
    reach: i64,
    ghost low: { pos 0 ≤ℤ reach },
    ghost high: { unsigned_abs reach ≤ 2 ^ 45 },
    ghost within: { unsigned_abs reach * 65536 ≤ 140737488355327 * unsigned_abs divisor.value },
}

/// Returns a value as a divisor, or None if it isn't above 0.
pub(crate) fn divisor_of(value: Num) -> Option<HeldDivisor>
    ensures { IfSome result (λ d. d.divisor.value ≡ value) }
{
    if value.raw() > 0 {
        Some(HeldDivisor {
            divisor: Divisor::of(value.raw()),
            reach: reach_of(value.raw()),
        })
    } else {
        None
    }
}

// Returns the highest magnitude of a number whose quotient by `value` is in range. By a divisor of one or
// more, a quotient is no larger than the number.
fn reach_of(value: i64) -> i64
    requires low { pos 1 ≤ℤ value }
    requires high { unsigned_abs value < 2 ^ 48 }
    ensures low { pos 0 ≤ℤ result }
    ensures high { unsigned_abs result ≤ 2 ^ 45 }
    ensures within { unsigned_abs result * 65536 ≤ 140737488355327 * unsigned_abs value }
{
    if value < ONE {
        (value * 2_147_483_648 - 1).min(35_184_372_088_832)
    } else {
        35_184_372_088_832
    }
}

/// Returns the quotient of two numbers; `by` is the second one as a divisor.
#[inline(always)]
pub(crate) fn quotient(x: Num, y: Num, by: HeldDivisor) -> Num
    requires known { by.divisor.value ≡ y }
    ensures { result ≡ quotient_of x y }
{
    if is_within(x.raw(), by.reach) {
        near_quotient(x, by)
    } else {
        x.div(y)
    }
}

// Returns whether the magnitude of a number is at most `reach`, with one comparison.
#[inline(always)]
fn is_within(x: i64, reach: i64) -> bool
    requires x { IsRaw x }
    requires low { pos 0 ≤ℤ reach }
    requires high { unsigned_abs reach ≤ 2 ^ 45 }
    ensures { result ≡ true → unsigned_abs x ≤ unsigned_abs reach }
{
    is_below(x + reach, 2 * reach)
}

// As an unsigned number, a negative number is greater than any other.
#[inline(always)]
fn is_below(x: i64, most: i64) -> bool
    requires { pos 0 ≤ℤ most }
    ensures { result ≡ true → (pos 0 ≤ℤ x) × (x ≤ℤ most) }
{
    x.cast_unsigned() <= most.cast_unsigned()
}

#[inline(always)]
fn near_quotient(x: Num, by: HeldDivisor) -> Num
    requires { unsigned_abs x ≤ unsigned_abs by.reach }
    ensures { result ≡ quotient_of x by.divisor.value }
{
    unchanged(by.divisor.divide(dividend(x.raw())))
}

// Returns a number that is in range, so that clipping leaves it as it is.
#[inline(always)]
fn unchanged(raw: i64) -> Num
    requires { IsRaw raw }
    ensures { result ≡ clamp raw }
{
    Num::exact(raw)
}

// Returns a number in units of 1/65,536 of 1/65,536.
#[inline(always)]
fn dividend(x: i64) -> i64
    requires { unsigned_abs x ≤ 2 ^ 45 }
    ensures value { result ≡ x *ℤ one }
    ensures bounded { unsigned_abs result ≤ 2 ^ 61 }
{
    x * ONE
}
