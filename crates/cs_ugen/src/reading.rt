// The two ways of reading a curve: each point held until the next, or straight lines between its points.
ghost use Rattle.std.specs.Prelude.{◌≡◌, ◌<◌, ◌≤◌, ◌-◌, ◌*◌, ◌/◌, ◌%◌, ℕ, ℤ, List};
ghost use Rattle.cs_gen.specs.Places.{from_zero_to};
ghost use Rattle.cs_ugen.specs.{Oscil.point_at, Oscili.line_at, Phases.turn, Table.point_of, Tablei.line_of};
ghost use Rattle.cs_ugen.specs.Points.{AreShort, IsShort};

use crate::angle::Angle;
use crate::curve::{Curve, between_points, curve_len};
use cs_base::{Num, ONE};
use cs_gen::place_of_index;

// The number of parts into which an index divides a place.
const PARTS: u32 = ONE as u32;

/// A way to read a curve.
pub(crate) trait Reading {
    /// The curve at a phase.
    ghost on_turn: { List ℤ → ℕ → ℤ };

    /// The curve at an index.
    ghost on_index: { List ℤ → ℤ → ℤ };

    /// The curve at a phase.
    fn turned<C: Curve>(curve: &mut C, phase: Angle) -> Num
        requires { phase < turn }
        ensures value { result ≡ on_turn (C.points curve.old) phase }
        ensures short { AreShort (C.points curve.old) → IsShort result }
        ensures same { C.points curve.new ≡ C.points curve.old }
        ensures kept { C.kept curve.old curve.new };

    /// The curve at an index.
    fn indexed<C: Curve>(curve: &mut C, ndx: Num) -> Num
        ensures value { result ≡ on_index (C.points curve.old) ndx }
        ensures same { C.points curve.new ≡ C.points curve.old }
        ensures kept { C.kept curve.old curve.new };
}

/// Holds each point until the next.
pub(crate) struct Truncating;

impl Reading for Truncating {
    ghost on_turn = { point_at };

    ghost on_index = { point_of };

    #[inline(always)]
    fn turned<C: Curve>(curve: &mut C, phase: Angle) -> Num {
        let len = curve_len(curve);
        curve.at(phase.place(len))
    }

    #[inline(always)]
    fn indexed<C: Curve>(curve: &mut C, ndx: Num) -> Num {
        let len = curve_len(curve);
        curve.at(place_of_index(ndx, len as u32) as usize)
    }
}

/// Interpolates along straight lines from point to point.
pub(crate) struct Interpolating;

impl Reading for Interpolating {
    ghost on_turn = { line_at };

    ghost on_index = { line_of };

    #[inline(always)]
    fn turned<C: Curve>(curve: &mut C, phase: Angle) -> Num {
        let len = curve_len(curve);
        between_points(curve, phase.place(len), phase.fraction(len))
    }

    #[inline(always)]
    fn indexed<C: Curve>(curve: &mut C, ndx: Num) -> Num {
        let len = curve_len(curve);
        let index = index_of(ndx, len);
        between_points(curve, (index / PARTS) as usize, index % PARTS)
    }
}

// An index clamped to 0 .. len * 65536 - 1, in parts of a place.
#[inline(always)]
fn index_of(ndx: Num, len: usize) -> u32
    requires some { 1 ≤ len }
    requires few { len ≤ 65536 }
    ensures value { result ≡ from_zero_to (len * 65536 - 1) ndx }
    ensures inside { result < len * 65536 }
{
    ndx.raw().max(0).min(i64::from(len as u32) * ONE - 1) as u32
}
