// A number of the profile is an integer multiple of 1/65,536; floating point is never used.
ghost use Rattle.std.specs.Prelude.{◌≡◌, ◌≢◌, ◌<◌, ◌^◌, pos, ◌*ℤ◌, ◌≤ℤ◌, ◌<ℤ◌, neg_ℤ, unsigned_abs, IsTrue, ◌↔◌};
ghost use Rattle.std.specs.Ordering.{int_cmp};
ghost use Rattle.cs_base.specs.Numbers.{IsRaw, clamp, one, floor_div, sum_of, difference_of, product_of};
ghost use Rattle.cs_base.specs.Numbers.{quotient_by_zero, quotient_of, remainder_of, floor_of, int_of, frac_of, abs_of};
ghost use Rattle.cs_base.specs.Numbers.{whole_below};

use std::cmp::Ordering;
use std::marker::Model;

const LEAST: i64 = -140_737_488_355_328;

const GREATEST: i64 = 140_737_488_355_327;

/// The raw value of one: a number is a count of 65,536ths.
pub const ONE: i64 = 65_536;

// The number of bits of the fraction: a right shift by it divides by `ONE` and rounds down.
const FRACTION_BITS: u32 = 16;

/// A number of the profile: `raw` 65,536ths, from -2^47 to 2^47 - 1. Contracts see `raw`.
#[derive(Clone, Copy, Debug, PartialEq, Eq)]
pub struct Num {
    raw: i64,
}

impl Model for Num {
    ghost use Rattle.std.specs.Prelude.{ℤ};
    ghost use Rattle.cs_base.specs.Numbers.{IsRaw};

    ghost Value = { ℤ };

    ghost view = { λ n. n.raw };

    ghost invariant = { λ n. IsRaw n.raw };

    ghost inverse = { λ z. record { raw = z } };
}

impl Num {
    /// Returns the number with `raw` 65,536ths, clamped to the range of numbers.
    pub fn of_raw(raw: i64) -> Num
        ensures { result ≡ clamp raw }
    {
        Num {
            raw: raw.min(GREATEST).max(LEAST),
        }
    }

    /// Returns the number with `raw` 65,536ths, which must be in range.
    pub fn exact(raw: i64) -> Num
        requires { IsRaw raw }
        ensures { result ≡ raw }
    {
        Num { raw }
    }

    /// Returns the number with `raw` 65,536ths, given in 128 bits, clamped to the range of numbers.
    pub fn of_wide(raw: i128) -> Num
        ensures { result ≡ clamp raw }
    {
        if raw > GREATEST as i128 {
            return Num { raw: GREATEST };
        }
        if raw < LEAST as i128 {
            return Num { raw: LEAST };
        }
        Num { raw: raw as i64 }
    }

    /// Returns the number for a product of two raw values, rounded down.
    #[inline(always)]
    pub fn of_product(product: i64) -> Num
        ensures { result ≡ floor_div product one }
    {
        Num::exact(product >> FRACTION_BITS)
    }

    /// Returns the integer `n` as a number, clamped to the range of numbers.
    pub fn of_whole(n: i64) -> Num
        ensures { result ≡ clamp (n *ℤ pos 65536) }
    {
        Num::of_raw(n.saturating_mul(ONE))
    }

    /// Returns the raw value: the number in 65,536ths.
    pub fn raw(self) -> i64
        ensures value { result ≡ self }
        ensures in_range { IsRaw result }
    {
        self.raw
    }

    /// Returns the sum, clamped to the range of numbers.
    pub fn add(self, other: Num) -> Num
        ensures { result ≡ sum_of self other }
    {
        Num::of_raw(self.raw + other.raw)
    }

    /// Returns the difference, clamped to the range of numbers.
    pub fn sub(self, other: Num) -> Num
        ensures { result ≡ difference_of self other }
    {
        Num::of_raw(self.raw - other.raw)
    }

    /// Returns the product, rounded down and clamped to the range of numbers.
    pub fn mul(self, other: Num) -> Num
        ensures { result ≡ product_of self other }
    {
        // Both arms have the same text: in the first, the compiler knows that the product fits into 64 bits.
        if is_short(self.raw) && is_short(other.raw) {
            Num::of_wide(scaled(self, other))
        } else {
            Num::of_wide(scaled(self, other))
        }
    }

    /// Returns the quotient, rounded down and clamped to the range of numbers. A division by 0 returns the
    /// greatest number if `self` is positive, the least if it is negative, and 0 if it is 0.
    pub fn div(self, other: Num) -> Num
        ensures { result ≡ quotient_of self other }
    {
        if other.raw == 0 {
            Num::exact(by_zero(self.raw))
        } else if self.raw == LEAST {
            // The only number whose dividend, negated, needs more than 64 bits.
            Num::of_wide(floored(times(self.raw, ONE), other.raw))
        } else {
            Num::of_raw(narrow_floored(dividend(self.raw), other.raw))
        }
    }

    /// Returns the remainder of the quotient rounded down to an integer. It has the sign of the divisor; the
    /// remainder of a division by 0 is 0.
    pub fn rem(self, other: Num) -> Num
        ensures { result ≡ remainder_of self other }
    {
        if other.raw == 0 {
            Num { raw: 0 }
        } else {
            Num::exact(modulo(self.raw, other.raw))
        }
    }

    /// Returns the greatest integer that is at most `self`, from -2^31 to 2^31 - 1.
    pub fn whole_below(self) -> i64
        ensures value { result ≡ whole_below self }
        ensures low { neg_ℤ (pos (2 ^ 31)) ≤ℤ result }
        ensures high { result <ℤ pos (2 ^ 31) }
    {
        self.raw >> FRACTION_BITS
    }

    /// Returns the greatest integer that is at most `self`, as a number.
    pub fn floor(self) -> Num
        ensures { result ≡ floor_of self }
    {
        Num::exact(floored_raw(self.raw))
    }

    /// Returns the integer part: `floor` of a number that is 0 or greater, and the negation of the `floor` of
    /// its negation if it is negative.
    pub fn int(self) -> Num
        ensures { result ≡ int_of self }
    {
        if self.raw < 0 {
            Num::of_raw(-floored_raw(-self.raw))
        } else {
            self.floor()
        }
    }

    /// Returns the fraction that `int` drops, with the sign of `self`.
    pub fn frac(self) -> Num
        ensures { result ≡ frac_of self }
    {
        Num::exact(self.raw - self.int().raw)
    }

    /// Returns the absolute value, clamped to the range of numbers.
    pub fn abs(self) -> Num
        ensures { result ≡ abs_of self }
    {
        Num::of_raw(self.raw.abs())
    }

    /// Returns whether `self` is less than, equal to or greater than `other`.
    #[inline(always)]
    pub fn compare(self, other: Num) -> Ordering
        ensures { result ≡ int_cmp self other }
    {
        self.raw.cmp(&other.raw)
    }
}

// Whether a value fits into 32 bits.
fn is_short(x: i64) -> bool
    ensures { IsTrue result ↔ ((neg_ℤ (pos (2 ^ 31)) ≤ℤ x) × (x <ℤ pos (2 ^ 31))) }
{
    i32::MIN as i64 <= x && x <= i32::MAX as i64
}

// The product in 65,536ths, rounded down.
#[inline(always)]
fn scaled(x: Num, y: Num) -> i128
    ensures { result ≡ floor_div (x *ℤ y) one }
{
    times(x.raw, y.raw) >> FRACTION_BITS
}

// The exact product.
#[inline(always)]
pub(crate) fn times(x: i64, y: i64) -> i128
    ensures { result ≡ x *ℤ y }
{
    x as i128 * y as i128
}

// The exact quotient, rounded down.
fn floored(n: i128, d: i64) -> i128
    requires nonzero { unsigned_abs d ≢ 0 }
    requires bounded { unsigned_abs n < 2 ^ 126 }
    ensures { result ≡ floor_div n d }
{
    let d = d as i128;
    if d > 0 {
        n.div_euclid(d)
    } else {
        (-n).div_euclid(-d)
    }
}

// The dividend x * 65,536, whose quotient by a raw value is a raw value.
#[inline(always)]
fn dividend(x: i64) -> i64
    requires low { neg_ℤ (pos (2 ^ 47)) <ℤ x }
    requires high { x <ℤ pos (2 ^ 47) }
    ensures value { result ≡ x *ℤ one }
    ensures bounded { unsigned_abs result < 2 ^ 63 }
{
    x * ONE
}

// Returns the quotient of a 64-bit dividend, rounded down.
#[inline(always)]
fn narrow_floored(n: i64, d: i64) -> i64
    requires nonzero { unsigned_abs d ≢ 0 }
    requires divisor { unsigned_abs d < 2 ^ 63 }
    requires bounded { unsigned_abs n < 2 ^ 63 }
    ensures { result ≡ floor_div n d }
{
    if d > 0 {
        n.div_euclid(d)
    } else {
        (-n).div_euclid(-d)
    }
}

// The quotient of a division by 0, by the sign of the dividend.
fn by_zero(x: i64) -> i64
    ensures { result ≡ quotient_by_zero x }
{
    if x > 0 {
        GREATEST
    } else if x < 0 {
        LEAST
    } else {
        0
    }
}

// The remainder of the quotient rounded down: Rust's remainder, adjusted to the sign of the divisor.
fn modulo(x: i64, y: i64) -> i64
    requires nonzero { unsigned_abs y ≢ 0 }
    requires dividend { IsRaw x }
    requires divisor { IsRaw y }
    ensures { result ≡ remainder_of x y }
{
    if y > 0 {
        x.rem_euclid(y)
    } else {
        negated(negated(x).rem_euclid(negated(y)))
    }
}

fn negated(x: i64) -> i64
    requires { neg_ℤ (pos (2 ^ 62)) ≤ℤ x }
    ensures { result ≡ neg_ℤ x }
{
    -x
}

// The greatest multiple of 65,536 that is at most x.
fn floored_raw(x: i64) -> i64
    requires low { neg_ℤ (pos (2 ^ 47)) ≤ℤ x }
    requires high { x ≤ℤ pos (2 ^ 47) }
    ensures { result ≡ floor_of x }
{
    (x >> FRACTION_BITS) * ONE
}
