// `oscil` and `oscili`: a table read as a waveform.
ghost use Rattle.std.specs.Prelude.{◌≡◌, ◌<◌, ◌∷◌, ◌^◌, ◌≤◌, length, ◌*ℤ◌, unsigned_abs};
ghost use Rattle.cs_base.specs.{Heads.header_of_head, Numbers.product_of};
ghost use Rattle.cs_ugen.specs.{Oscil.oscil_start, Oscil.wave_step, Phases.turn, Points.IsShort};
ghost use Rattle.cs_signal.specs.Operands.{argument, operand_at, Lasts};
ghost use Rattle.cs_signal.specs.{Pace.pace_of, Steps.run};

use crate::angle::{Angle, moved};
use crate::curve::{Curve, floored};
use crate::frozen::is_short;
use crate::phase::Phase;
use crate::reading::Reading;
use cs_base::{Head, Num, Rate};
use cs_signal::{Operand, argument};
use std::marker::Model;

/// The state of an `oscil` or `oscili`.
#[derive(Drop)]
pub(crate) struct Oscillator {
    phase: Phase,
}

impl Model for Oscillator {
    ghost use Rattle.cs_ugen.specs.Phases.{Turning};

    ghost Value = { Turning };

    ghost view = { λ unit. unit.phase };
}

impl Oscillator {
    /// The initial state, from the i-rate arguments: the table's number, which the caller looks up, and
    /// optionally the starting phase in turns.
    pub(crate) fn start(rate: Rate, head: &Head, init: &[Num]) -> Oscillator
        ensures { result ≡ oscil_start rate (pace_of (header_of_head head.now)) init.now }
    {
        Oscillator {
            phase: Phase::start(rate, head, argument(init, 1)),
        }
    }

    /// Performs one step at this amplitude and frequency.
    #[inline(always)]
    pub(crate) fn step_on<R: Reading, C: Curve>(&mut self, amp: Num, cps: Num, curve: &mut C) -> Num
        ensures value { (self.new, result) ≡ wave_step R.on_turn self.old (amp ∷ cps ∷ C.points curve.old) }
        ensures same { C.points curve.new ≡ C.points curve.old }
        ensures kept { C.kept curve.old curve.new }
    {
        let phase = self.phase.turn(cps);
        wave::<R, C>(amp, curve, phase)
    }

    /// Performs one step for each frame of `out`.
    #[inline(always)]
    pub(crate) fn block_on<R: Reading, C: Curve>(
        &mut self,
        amp: &Operand,
        cps: &Operand,
        curve: &mut C,
        out: &mut [Num],
    )
        requires amp { Lasts (length out.old) amp.now }
        requires cps { Lasts (length out.old) cps.now }
        ensures value { (self.new, out.new) ≡ run (wave_step R.on_turn)
            (λ j. operand_at amp.now j ∷ operand_at cps.now j ∷ C.points curve.old) self.old 0 (length out.old) }
        ensures same { C.points curve.new ≡ C.points curve.old }
        ensures kept { C.kept curve.old curve.new }
    {
        match (amp, cps) {
            (Operand::Held(value), Operand::Held(cps)) => {
                // Both arms have the same text. In the first, the compiler knows that the amplitude fits into
                // 32 bits.
                if is_short(*value) {
                    held::<R, C>(self, amp, *cps, curve, out);
                } else {
                    held::<R, C>(self, amp, *cps, curve, out);
                }
            }
            (Operand::Row(_), Operand::Held(cps)) => held::<R, C>(self, amp, *cps, curve, out),
            (_, Operand::Row(cps)) => along::<R, C>(self, amp, cps, curve, out),
        }
    }
}

// A block with a constant frequency.
#[inline(always)]
fn held<R: Reading, C: Curve>(
    unit: &mut Oscillator,
    amp: &Operand,
    cps: Num,
    curve: &mut C,
    out: &mut [Num],
)
    requires { Lasts (length out.old) amp.now }
    ensures value { (unit.new, out.new) ≡ run (wave_step R.on_turn)
        (λ j. operand_at amp.now j ∷ cps ∷ C.points curve.old) unit.old 0 (length out.old) }
    ensures same { C.points curve.new ≡ C.points curve.old }
    ensures kept { C.kept curve.old curve.new }
{
    let amp = amp.copied();
    let parts = unit.phase.hold(cps);
    let mut phase = unit.phase.get();
    for j in 0..out.len() {
        out[j] = wave::<R, C>(amp.value(j), curve, phase);
        phase = moved(phase, parts);
    }
    unit.phase.set(phase);
}

// A block whose frequency changes from frame to frame. Kept out of line: its many constants would take
// registers from the other loops.
#[inline(never)]
fn along<R: Reading, C: Curve>(
    unit: &mut Oscillator,
    amp: &Operand,
    cps: &[Num],
    curve: &mut C,
    out: &mut [Num],
)
    requires amp { Lasts (length out.old) amp.now }
    requires cps { length cps.now ≡ length out.old }
    ensures value { (unit.new, out.new) ≡ run (wave_step R.on_turn)
        (λ j. operand_at amp.now j ∷ argument cps.now j ∷ C.points curve.old) unit.old 0 (length out.old) }
    ensures same { C.points curve.new ≡ C.points curve.old }
    ensures kept { C.kept curve.old curve.new }
{
    let amp = amp.copied();
    let turning = unit.phase.copied();
    let mut phase = turning.get();
    for j in 0..out.len() {
        out[j] = wave::<R, C>(amp.value(j), curve, phase);
        phase = moved(phase, turning.parts_at(cps[j]));
    }
    unit.phase.set(phase);
}

// The amplitude times the curve at a phase.
#[inline(always)]
fn wave<R: Reading, C: Curve>(amp: Num, curve: &mut C, phase: Angle) -> Num
    requires { phase < turn }
    ensures value { result ≡ product_of amp (R.on_turn (C.points curve.old) phase) }
    ensures same { C.points curve.new ≡ C.points curve.old }
    ensures kept { C.kept curve.old curve.new }
{
    let known = curve.is_short();
    let value = R::turned(curve, phase);
    if known && is_short(amp) {
        short_product(amp, value)
    } else {
        amp.mul(value)
    }
}

// The product of two numbers that fit into 32 bits. It fits into 64 bits, and is in range.
#[inline(always)]
fn short_product(x: Num, y: Num) -> Num
    requires x { IsShort x }
    requires y { IsShort y }
    ensures { result ≡ product_of x y }
{
    Num::exact(floored(times(x.raw(), y.raw())))
}

#[inline(always)]
fn times(x: i64, y: i64) -> i64
    requires x { IsShort x }
    requires y { IsShort y }
    ensures value { result ≡ x *ℤ y }
    ensures bounded { unsigned_abs result ≤ 2 ^ 62 }
{
    x * y
}
