// Evaluates a straight line over many steps by additions alone.
ghost use Rattle.std.specs.Prelude.{◌≡◌, ◌<◌, ◌≤◌, ◌+◌, ◌*◌, ◌^◌, length, pos, ◌+ℤ◌, ◌-ℤ◌, ◌*ℤ◌, unsigned_abs};
ghost use Rattle.std.specs.Int.{int_rem_euclid};
ghost use Rattle.cs_base.specs.Numbers.{IsRaw, clamp, floor_div};
ghost use Rattle.cs_signal.specs.Pace.{last_number};
ghost use Rattle.cs_signal.specs.inner.Ramp.{IsAdvanced, IsInverse, IsParted, ramp_of};

use crate::line::{quotient, raised, rise, times};
use cs_base::Num;

// A number as a multiple of a divisor, plus a remainder below the divisor.
#[derive(Clone, Copy)]
struct Parts {
    whole: i128,
    rest: u64,
}

/// Fills `out` with the values at `n` / `d`, (`n` + 1) / `d` and so on of the way from `from` to `to`.
pub(crate) fn ramp(from: Num, to: Num, n: u64, d: u64, out: &mut [Num])
    requires some { 1 ≤ d }
    requires number { n ≤ last_number }
    ensures { out.new ≡ ramp_of from to n d (length out.old) }
{
    let count = out.len() as u64;
    if n <= d && count <= 4096 && d <= 1 << 26 && n + count <= d + 1 {
        between_ends(from, to, n, d, out);
    } else {
        anywhere(from, to, n, d, out);
    }
}

// Fills `out` with values of the way that don't go beyond its end, for at most 2^26 steps. Each value is
// between `from` and `to`, so none is clamped, and sums in 2^64ths are precise enough.
fn between_ends(from: Num, to: Num, n: u64, d: u64, out: &mut [Num])
    requires some { 1 ≤ d }
    requires short { d ≤ 2 ^ 26 }
    requires number { n ≤ last_number }
    requires begun { n ≤ d }
    requires room { n + length out.old ≤ d + 1 }
    requires few { length out.old ≤ 4096 }
    ensures { out.new ≡ ramp_of from to n d (length out.old) }
{
    let inverse = inverse_of(d);
    let step = told(rise_of(from, to, d), inverse);
    let mut at = told(risen(from, part_of(from, to, n, d)), inverse);
    for j in 0..out.len() {
        out[j] = value(at);
        at = next(at, step);
    }
}

// The inverse of a number in 2^64ths, rounded up.
fn inverse_of(d: u64) -> u128
    requires { 1 ≤ d }
    ensures near { IsInverse d result }
    ensures small { result ≤ 2 ^ 64 }
{
    u128::from(u64::MAX / d) + 1
}

// A number in 2^64ths.
#[derive(Clone, Copy)]
struct Fine {
    parts: i128,
}

// Converts a number to 2^64ths. Its remainder is multiplied by the inverse of the divisor.
fn told(number: Parts, inverse: u128) -> Fine
    requires whole { unsigned_abs number.whole < 2 ^ 48 }
    requires rest { number.rest < 2 ^ 26 }
    requires inverse { inverse ≤ 2 ^ 64 }
    ensures value { result.parts ≡ (number.whole *ℤ pos 18446744073709551616) +ℤ pos (number.rest * inverse) }
    ensures bounded { unsigned_abs result.parts < 2 ^ 113 }
{
    Fine {
        parts: plus(
            number.whole * 18_446_744_073_709_551_616,
            product(number.rest, inverse),
        ),
    }
}

// The exact product.
fn product(rest: u64, inverse: u128) -> i128
    requires rest { rest < 2 ^ 26 }
    requires inverse { inverse ≤ 2 ^ 64 }
    ensures value { result ≡ pos (rest * inverse) }
    ensures bounded { unsigned_abs result ≤ 2 ^ 90 }
{
    (u128::from(rest) * inverse) as i128
}

// The value of a step, rounded down.
#[inline(always)]
fn value(at: Fine) -> Num
    requires bounded { unsigned_abs at.parts ≤ 2 ^ 125 }
    requires range { IsRaw (floor_div at.parts (pos 18446744073709551616)) }
    ensures { result ≡ floor_div at.parts (pos 18446744073709551616) }
{
    Num::exact((at.parts >> 64) as i64)
}

// The value of the next step, `by` further on.
#[inline(always)]
fn next(at: Fine, by: Fine) -> Fine
    requires at { unsigned_abs at.parts < 2 ^ 125 }
    requires by { unsigned_abs by.parts < 2 ^ 113 }
    ensures { result.parts ≡ at.parts +ℤ by.parts }
{
    Fine {
        parts: plus(at.parts, by.parts),
    }
}

// The parts of `from` plus a rise.
fn risen(from: Num, part: Parts) -> Parts
    requires { unsigned_abs part.whole < 2 ^ 111 }
    ensures value { result.whole ≡ from +ℤ part.whole }
    ensures rest { result.rest ≡ part.rest }
{
    Parts {
        whole: i128::from(from.raw()) + part.whole,
        rest: part.rest,
    }
}

// Fills `out` with values anywhere on the line, also beyond its ends.
fn anywhere(from: Num, to: Num, n: u64, d: u64, out: &mut [Num])
    requires some { 1 ≤ d }
    requires number { n ≤ last_number }
    ensures { out.new ≡ ramp_of from to n d (length out.old) }
{
    let step = rise_of(from, to, d);
    let mut at = part_of(from, to, n, d);
    for j in 0..out.len() {
        out[j] = value_at(from, at);
        at = advanced(at, step, d);
    }
}

// The difference from `from` to `to`, divided by `d`: quotient and remainder.
fn rise_of(from: Num, to: Num, d: u64) -> Parts
    requires some { 1 ≤ d }
    ensures parts { IsParted (to -ℤ from) d result.whole result.rest }
    ensures bounded { unsigned_abs result.whole < 2 ^ 48 }
    ensures ends { IsRaw from × IsRaw to }
{
    parted(i128::from(rise(from, to)), d)
}

// `n` times the difference from `from` to `to`, divided by `d`: quotient and remainder.
fn part_of(from: Num, to: Num, n: u64, d: u64) -> Parts
    requires some { 1 ≤ d }
    requires number { n ≤ last_number }
    ensures parts { IsParted ((to -ℤ from) *ℤ pos n) d result.whole result.rest }
    ensures bounded { unsigned_abs result.whole < 2 ^ 111 }
{
    parted(times(rise(from, to), n), d)
}

// The value `from` plus the integer part of a rise, clamped.
#[inline(always)]
fn value_at(from: Num, at: Parts) -> Num
    requires { unsigned_abs at.whole < 2 ^ 120 }
    ensures { result ≡ clamp (from +ℤ at.whole) }
{
    raised(from, at.whole)
}

fn parted(n: i128, d: u64) -> Parts
    requires some { 1 ≤ d }
    requires bounded { unsigned_abs n < 2 ^ 111 }
    ensures parts { IsParted n d result.whole result.rest }
    ensures bounded { unsigned_abs result.whole ≤ unsigned_abs n }
{
    Parts {
        whole: quotient(n, d),
        rest: remainder(n, d),
    }
}

fn remainder(n: i128, d: u64) -> u64
    requires { 1 ≤ d }
    ensures { result ≡ unsigned_abs (int_rem_euclid n (pos d)) }
{
    // A 64-bit division if both numbers fit, as in `quotient`.
    if i64::MIN as i128 <= n && n <= i64::MAX as i128 && d <= i64::MAX as u64 {
        (n as i64).rem_euclid(d as i64) as u64
    } else {
        n.rem_euclid(i128::from(d)) as u64
    }
}

// The parts of the sum of two numbers.
#[inline(always)]
fn advanced(at: Parts, by: Parts, d: u64) -> Parts
    requires at { at.rest < d }
    requires by { by.rest < d }
    requires far { unsigned_abs at.whole < 2 ^ 120 }
    requires near { unsigned_abs by.whole < 2 ^ 48 }
    ensures sum { IsAdvanced d at.whole at.rest by.whole by.rest result.whole result.rest }
    ensures bounded { unsigned_abs result.whole ≤ unsigned_abs at.whole + 2 ^ 49 }
{
    let left = d - by.rest;
    if at.rest < left {
        Parts {
            whole: plus(at.whole, by.whole),
            rest: at.rest + by.rest,
        }
    } else {
        Parts {
            whole: plus(plus(at.whole, by.whole), 1),
            rest: at.rest - left,
        }
    }
}

/// The exact sum.
#[inline(always)]
pub(crate) fn plus(x: i128, y: i128) -> i128
    requires x { unsigned_abs x < 2 ^ 125 }
    requires y { unsigned_abs y < 2 ^ 113 }
    ensures value { result ≡ x +ℤ y }
    ensures bounded { unsigned_abs result ≤ unsigned_abs x + unsigned_abs y }
{
    x + y
}
