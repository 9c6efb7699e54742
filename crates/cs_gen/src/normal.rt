// Normalising: scales a table so that its greatest absolute value becomes 1.
ghost use Rattle.std.specs.Prelude.{◌≡◌, ◌<◌, ◌≤◌, ◌^◌, ◌*ℤ◌, pos, unsigned_abs, map, int_lt, if◌then◌else◌};
ghost use Rattle.cs_base.specs.Numbers.{IsRaw, floor_div, one};
ghost use Rattle.cs_gen.specs.Points.{greatest, normalised};

use cs_base::{Num, ONE};

/// Scales the points so that the greatest absolute value becomes 1, if the GEN is positive.
pub(crate) fn normalise_for(gen_: i64, points: &mut Vec<Num>)
    ensures { let kept = points.old.items in
        points.new.items ≡ (if int_lt (pos 0) gen_ then map (normalised (greatest kept)) kept else kept) }
{
    if gen_ > 0 {
        normalise(points);
    }
}

// Scales the points so that the greatest absolute value becomes 1. Points that are all 0 stay as they are.
fn normalise(points: &mut [Num])
    ensures { points.new ≡ map (normalised (greatest points.old)) points.old }
{
    let most = greatest(points);
    for point in points.iter_mut() {
        *point = normalised(most, *point);
    }
}

fn greatest(points: &[Num]) -> u64
    ensures value { result ≡ greatest points.now }
    ensures bounded { result ≤ 2 ^ 47 }
{
    let mut most = 0;
    for point in points {
        most = most.max(size(*point));
    }
    most
}

fn size(point: Num) -> u64
    ensures value { result ≡ unsigned_abs point }
    ensures bounded { result ≤ 2 ^ 47 }
{
    point.raw().unsigned_abs()
}

fn normalised(most: u64, point: Num) -> Num
    requires bounded { most ≤ 2 ^ 47 }
    requires most { unsigned_abs point ≤ most }
    ensures { result ≡ normalised most point }
{
    if most == 0 {
        point
    } else {
        ratio(point.raw(), most)
    }
}

fn ratio(value: i64, most: u64) -> Num
    requires some { 0 < most }
    requires bounded { most ≤ 2 ^ 47 }
    requires in_range { IsRaw value }
    requires most { unsigned_abs value ≤ most }
    ensures { result ≡ floor_div (value *ℤ one) (pos most) }
{
    Num::of_raw((value * ONE).div_euclid(most as i64))
}
