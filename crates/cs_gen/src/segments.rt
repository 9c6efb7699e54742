// GEN07: each point is on the line of the segment that contains its place.
ghost use Rattle.std.specs.Prelude.{◌≡◌, ◌<◌, ◌≤◌, ◌+◌, ◌*◌, ◌^◌, ◌+ℤ◌, ◌-ℤ◌, ◌*ℤ◌, pos, unsigned_abs, IfOk};
ghost use Rattle.cs_base.specs.Numbers.{IsRaw, floor_div};
ghost use Rattle.cs_gen.specs.{Faults.argument, Faults.segments_of, inner.Walk.HasPassed, inner.Walk.HasReached};
ghost use Rattle.cs_gen.specs.Points.{at_places, length_of, segments};

use crate::check::{argument, segments_of};
use cs_base::Num;
use std::alloc::{AllocError, Global};

// Where a walk along the segments has arrived: the index of a segment, and the place at which this segment
// begins.
#[derive(Clone, Copy)]
struct Walk {
    segment: usize,
    begin: u64,
}

/// Returns the points at places 0 to `count` - 1. Lengths are rounded down to integers; none of them is
/// negative.
pub(crate) fn segment_points(
    alloc: Global,
    count: u64,
    args: &[Num],
) -> Result<Vec<Num>, AllocError>
    requires { count ≤ 65537 }
    ensures { IfOk result (λ points. points.items ≡ at_places count (segments args.now)) }
{
    let mut points = Vec::new(alloc);
    let mut walk = Walk {
        segment: 0,
        begin: 0,
    };
    for j in 0..count {
        walk = reached(args, walk, j);
        points.push(point(args, walk, j))?;
    }
    Ok(points)
}

// Walks on to the segment that contains place `j`.
fn reached(args: &[Num], from: Walk, j: u64) -> Walk
    requires near { j < 65537 }
    requires passed { HasPassed args.now j from.segment from.begin }
    ensures { HasReached args.now j result.segment result.begin }
{
    let mut walk = from;
    while walk.segment < segments_of(args) {
        let end = walk.begin + length_of(args, walk.segment);
        if j < end {
            return walk;
        }
        walk = Walk {
            segment: walk.segment + 1,
            begin: end,
        };
    }
    walk
}

// The point at place `j`, which the walk has reached.
fn point(args: &[Num], walk: Walk, j: u64) -> Num
    requires near { j < 65537 }
    requires reached { HasReached args.now j walk.segment walk.begin }
    ensures { result ≡ segments args.now j }
{
    let into = j - walk.begin;
    let value = argument(args, 2 * walk.segment);
    if walk.segment < segments_of(args) {
        let next = argument(args, 2 * walk.segment + 2);
        on_line(value.raw(), next.raw(), into, length_of(args, walk.segment))
    } else if into == 0 {
        value
    } else {
        Num::of_raw(0)
    }
}

// The value `into` places along a line of `length` places from `value` to `next`, rounded down.
fn on_line(value: i64, next: i64, into: u64, length: u64) -> Num
    requires value { IsRaw value }
    requires next { IsRaw next }
    requires inside { into < length }
    requires wide { length ≤ 2 ^ 31 }
    ensures { result ≡ value +ℤ floor_div ((next -ℤ value) *ℤ pos into) (pos length) }
{
    moved(value, part(difference(next, value), into, length))
}

fn difference(next: i64, value: i64) -> i128
    ensures { result ≡ next -ℤ value }
{
    i128::from(next) - i128::from(value)
}

// The part `into` / `length` of a rise, rounded down.
fn part(rise: i128, into: u64, length: u64) -> i128
    requires small { unsigned_abs rise < 2 ^ 48 }
    requires inside { into < length }
    ensures { result ≡ floor_div (rise *ℤ pos into) (pos length) }
{
    (rise * i128::from(into)).div_euclid(i128::from(length))
}

// The sum of a value and a rise, which is in the range of a number.
fn moved(value: i64, rise: i128) -> Num
    requires { IsRaw (value +ℤ rise) }
    ensures { result ≡ value +ℤ rise }
{
    Num::of_raw((i128::from(value) + rise) as i64)
}

// A segment's length in points: its argument, rounded down.
fn length_of(args: &[Num], segment: usize) -> u64
    requires { segment < segments_of args.now }
    ensures value { result ≡ length_of args.now segment }
    ensures bounded { result ≤ 2 ^ 31 }
{
    args[2 * segment + 1].whole_below().unsigned_abs()
}
