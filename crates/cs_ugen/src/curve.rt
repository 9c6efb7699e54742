// Curves, from which units read: the points of a table, followed by the guard point.
ghost use Rattle.std.specs.Prelude.{IfSome, true, ◌≡◌, ◌<◌, ◌^◌, ◌≤◌, ℤ, pos, ◌-ℤ◌, ◌*ℤ◌, unsigned_abs, List};
ghost use Rattle.std.specs.Int.{int_rem_euclid};
ghost use Rattle.cs_base.specs.Numbers.{IsRaw, floor_div};
ghost use Rattle.cs_ugen.specs.Points.{AreShort, IsCurve, IsShort, between_points, curve_len, on_the_way};
ghost use Rattle.cs_signal.specs.Operands.{argument};

use crate::frozen::ShortCurve;
use cs_base::{Num, ONE};

/// A table as a unit reads it: `len` points, followed by the guard point. No call changes them. The data
/// under a curve, such as cells that it reads, isn't changed either.
pub trait Curve {
    /// Whether `short` may return a curve. Because this is a constant, the loops on a short curve have only
    /// one caller; so the compiler inlines them there and sees that no result overwrites the curve.
    const MAY_BE_SHORT: bool = false;

    /// The points, with the guard point last.
    ghost points: { Self → List ℤ };

    /// The data under the curve are unchanged.
    ghost kept: { Self → Self → Type 0 };

    /// The number of points before the guard point: a power of two from 2 to 65,536.
    fn len(&self) -> usize
        ensures value { result ≡ curve_len (points self.now) }
        ensures curve { IsCurve (points self.now) };

    /// The point at a place from 0 to `len`. Place `len` is the guard point.
    fn at(&mut self, place: usize) -> Num
        requires { place ≤ curve_len (points self.old) }
        ensures value { result ≡ argument (points self.old) place }
        ensures same { points self.new ≡ points self.old }
        ensures kept { kept self.old self.new };

    /// Whether all points are known to fit into 32 bits, so that products with them need no check.
    #[inline(always)]
    fn is_short(&self) -> bool
        ensures { result ≡ true → AreShort (points self.now) }
    {
        false
    }

    /// This curve for a loop, if its points are in one slice and `is_short` holds; None otherwise.
    #[inline(always)]
    fn short(&self) -> Option<ShortCurve<'_>>
        ensures { IfSome result (λ s. s.frozen.curve.now ≡ points self.now) }
    {
        None
    }

    ghost stays: { (x : Self) → kept x x };

    ghost chain: { (x y z : Self) → kept x y → kept y z → kept x z };
}

/// The number of points of a curve before its guard point: from 2 to 65,536.
#[inline(always)]
pub(crate) fn curve_len<C: Curve>(curve: &C) -> usize
    ensures value { result ≡ curve_len (C.points curve.now) }
    ensures least { 2 ≤ result }
    ensures most { result ≤ 65536 }
{
    curve.len()
}

/// The curve between the point at a place and the next point, `fraction` 65,536ths of the way.
#[inline(always)]
pub(crate) fn between_points<C: Curve>(curve: &mut C, place: usize, fraction: u32) -> Num
    requires place { place < curve_len (C.points curve.old) }
    requires few { curve_len (C.points curve.old) ≤ 65536 }
    requires fraction { fraction < 65536 }
    ensures value { result ≡ between_points (C.points curve.old) place fraction }
    ensures short { AreShort (C.points curve.old) → IsShort result }
    ensures same { C.points curve.new ≡ C.points curve.old }
    ensures kept { C.kept curve.old curve.new }
{
    read_between(curve, place, fraction)
}

#[inline(always)]
#[tactic(auto, unfolding(crate::specs::Points::between_points))]
fn read_between<C: Curve>(curve: &mut C, place: usize, fraction: u32) -> Num
    requires place { place < curve_len (C.points curve.old) }
    requires few { curve_len (C.points curve.old) ≤ 65536 }
    requires fraction { fraction < 65536 }
    ensures value { result ≡ between_points (C.points curve.old) place fraction }
    ensures same { C.points curve.new ≡ C.points curve.old }
    ensures kept { C.kept curve.old curve.new }
{
    let here = curve.at(place);
    let next = curve.at(place + 1);
    if curve.is_short() {
        short_way(here, next, fraction)
    } else {
        on_the_way(here, next, fraction)
    }
}

// Interpolates between two points that fit into 32 bits; the product fits into 64 bits.
#[inline(always)]
fn short_way(here: Num, next: Num, fraction: u32) -> Num
    requires fraction { fraction < 65536 }
    requires here { IsShort here }
    requires next { IsShort next }
    ensures { result ≡ on_the_way here next fraction }
{
    moved(
        here,
        next,
        fraction,
        part_of(here.raw(), next.raw(), fraction),
    )
}

#[inline(always)]
fn part_of(here: i64, next: i64, fraction: u32) -> i64
    requires fraction { fraction < 65536 }
    requires here { IsShort here }
    requires next { IsShort next }
    ensures { result ≡ floor_div ((next -ℤ here) *ℤ pos fraction) (pos 65536) }
{
    floored(scaled(next - here, fraction))
}

/// A number divided by 65,536, rounded down. Equal to a division, without its test of the sign.
#[inline(always)]
pub(crate) fn floored(x: i64) -> i64
    ensures { result ≡ floor_div x (pos 65536) }
{
    x >> 16
}

#[inline(always)]
fn scaled(difference: i64, fraction: u32) -> i64
    requires fraction { fraction < 65536 }
    requires bounded { unsigned_abs difference < 2 ^ 32 }
    ensures value { result ≡ difference *ℤ pos fraction }
    ensures bounded { unsigned_abs result < 2 ^ 48 }
{
    difference * i64::from(fraction)
}

#[inline(always)]
fn on_the_way(here: Num, next: Num, fraction: u32) -> Num
    requires { fraction < 65536 }
    ensures { result ≡ on_the_way here next fraction }
{
    let difference = next.raw() - here.raw();
    moved(
        here,
        next,
        fraction,
        upper(difference, fraction) + lower(difference, fraction),
    )
}

// The value `here` plus a part of the way to `next`. The sum is between the two.
#[inline(always)]
fn moved(here: Num, next: Num, fraction: u32, part: i64) -> Num
    requires fraction { fraction < 65536 }
    requires here { IsRaw here }
    requires next { IsRaw next }
    requires part { part ≡ floor_div ((next -ℤ here) *ℤ pos fraction) (pos 65536) }
    ensures { result ≡ on_the_way here next fraction }
{
    Num::exact(here.raw() + part)
}

// A part of a difference in 65,536ths, rounded down, is computed from its upper bits and its lower sixteen
// separately, so that each product fits into 64 bits.
#[inline(always)]
fn upper(difference: i64, fraction: u32) -> i64
    requires fraction { fraction < 65536 }
    requires bounded { unsigned_abs difference < 2 ^ 48 }
    ensures value { result ≡ floor_div difference (pos 65536) *ℤ pos fraction }
    ensures bounded { unsigned_abs result < 2 ^ 49 }
{
    floored(difference) * i64::from(fraction)
}

#[inline(always)]
fn lower(difference: i64, fraction: u32) -> i64
    requires { fraction < 65536 }
    ensures value { result ≡ floor_div (int_rem_euclid difference (pos 65536) *ℤ pos fraction) (pos 65536) }
    ensures bounded { unsigned_abs result < 65536 }
{
    floored(difference.rem_euclid(ONE) * i64::from(fraction))
}
