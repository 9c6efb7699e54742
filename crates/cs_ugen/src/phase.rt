// The phase of a unit, in 2^24ths of a turn. Each step advances it by the frequency.
ghost use Rattle.std.specs.Prelude.{◌≡◌, ◌+◌, ◌*◌, ◌/◌, ◌%◌, ◌<◌, ◌≤◌, ◌^◌, pos, ◌*ℤ◌, unsigned_abs};
ghost use Rattle.std.specs.Int.{int_rem_euclid};
ghost use Rattle.cs_base.specs.{Heads.header_of_head, Numbers.IsRaw, Numbers.floor_div};
ghost use Rattle.cs_signal.specs.Pace.{pace_of};
ghost use Rattle.cs_ugen.specs.Phases.{at_phase, begun, increment, turn, turned, within_turn};

use crate::angle::{Angle, TURN, moved};
use cs_base::{Divisor, Head, Num, Rate};
use std::marker::Model;

/// The phase of a unit's next step. A constant frequency is converted to a phase increment once.
#[derive(Drop)]
pub(crate) struct Phase {
    rate: Rate,
    sr: u32,
    ksmps: u32,
    phase: Angle,
    cps: Num,
    parts: Angle,
    divisor: Divisor,
}

impl Model for Phase {
    ghost use Rattle.std.specs.Prelude.{◌≡◌, ◌<◌, ◌≤◌, pos};
    ghost use Rattle.cs_ugen.specs.Phases.{Turning, increment, turn, within_turn};

    ghost Value = { Turning };

    ghost view = { λ p. record { rate = p.rate; pace = record { sr = p.sr; ksmps = p.ksmps }; phase = p.phase } };

    ghost invariant = { λ p. (p.phase < turn) × (p.parts < turn)
        × ((1 ≤ p.sr) × (p.sr ≤ 192000)) × (p.ksmps ≤ 4096) × (p.divisor.value ≡ pos p.sr)
        × (p.parts ≡ within_turn (increment p.rate (record { sr = p.sr; ksmps = p.ksmps }) p.cps)) };
}

impl Phase {
    /// The phase that starts at `turns` turns.
    pub(crate) fn start(rate: Rate, head: &Head, turns: Num) -> Phase
        ensures { result ≡ begun rate (pace_of (header_of_head head.now)) turns }
    {
        let cps = Num::of_raw(0);
        let divisor = Divisor::of(i64::from(head.sr));
        Phase {
            rate,
            sr: head.sr,
            ksmps: head.ksmps,
            phase: within_turn(i128::from(turns.raw() * 256)),
            cps,
            parts: parts_of(rate, head.sr, head.ksmps, cps, divisor),
            divisor,
        }
    }

    /// Returns the phase of this step, from 0 to below 2^24, and advances the phase by the frequency for the
    /// next step.
    #[inline(always)]
    pub(crate) fn turn(&mut self, cps: Num) -> Angle
        ensures phase { result ≡ self.old.phase }
        ensures small { result < turn }
        ensures state { self.new ≡ turned self.old cps }
    {
        let parts = self.hold(cps);
        let phase = self.phase;
        self.phase = moved(phase, parts);
        phase
    }

    /// The phase increment of a step at this frequency, in parts of a turn. Remembers it for the next call.
    #[inline(always)]
    pub(crate) fn hold(&mut self, cps: Num) -> Angle
        ensures value { result ≡ within_turn (increment self.old.rate self.old.pace cps) }
        ensures small { result < turn }
        ensures same { self.new ≡ self.old }
    {
        if cps.raw() != self.cps.raw() {
            self.parts = self.parts_at(cps);
            self.cps = cps;
        }
        self.parts
    }

    /// The phase increment of a step at this frequency, for frequencies that mostly differ from step to step.
    #[inline(always)]
    pub(crate) fn parts_at(&self, cps: Num) -> Angle
        ensures value { result ≡ within_turn (increment self.now.rate self.now.pace cps) }
        ensures small { result < turn }
    {
        parts_of(self.rate, self.sr, self.ksmps, cps, self.divisor)
    }

    /// Returns a copy of the phase, for a loop.
    #[inline(always)]
    pub(crate) fn copied(&self) -> Phase
        ensures { result ≡ self.now }
    {
        Phase {
            rate: self.rate,
            sr: self.sr,
            ksmps: self.ksmps,
            phase: self.phase,
            cps: self.cps,
            parts: self.parts,
            divisor: self.divisor,
        }
    }

    /// The phase of the next step.
    #[inline(always)]
    pub(crate) fn get(&self) -> Angle
        ensures value { result ≡ self.now.phase }
        ensures small { result < turn }
    {
        self.phase
    }

    /// Sets the phase of the next step.
    #[inline(always)]
    pub(crate) fn set(&mut self, phase: Angle)
        requires { phase < turn }
        ensures { self.new ≡ at_phase self.old phase }
    {
        self.phase = phase;
    }
}

// The phase increment per step at a given frequency.
#[inline(always)]
#[tactic(auto, unfolding(crate::specs::Phases::increment))]
fn parts_of(rate: Rate, sr: u32, ksmps: u32, cps: Num, divisor: Divisor) -> Angle
    requires some { 1 ≤ sr }
    requires divisor { divisor.value ≡ pos sr }
    requires few { ksmps ≤ 4096 }
    ensures value { result ≡ within_turn (increment rate (record { sr = sr; ksmps = ksmps }) cps) }
    ensures small { result < turn }
{
    match rate {
        Rate::Audio => within_turn(i128::from(divisor.divide(scaled(cps)))),
        Rate::Init | Rate::Control => within_turn(floored(times(cps, 256 * ksmps), sr, divisor)),
    }
}

// 256 times a frequency that fits into 56 bits.
#[inline(always)]
fn scaled(cps: Num) -> i64
    ensures value { result ≡ cps *ℤ pos 256 }
    ensures bounded { unsigned_abs result ≤ 2 ^ 61 }
{
    cps.raw() * 256
}

// The exact product.
#[inline(always)]
fn times(cps: Num, factor: u32) -> i128
    requires { factor ≤ 2 ^ 20 }
    ensures value { result ≡ cps *ℤ pos factor }
    ensures bounded { unsigned_abs result < 2 ^ 68 }
{
    i128::from(cps.raw()) * i128::from(factor)
}

// The exact quotient, rounded down. If the number fits into 62 bits, no division is needed.
#[inline(always)]
fn floored(n: i128, d: u32, divisor: Divisor) -> i128
    requires some { 1 ≤ d }
    requires divisor { divisor.value ≡ pos d }
    requires bounded { unsigned_abs n < 2 ^ 68 }
    ensures { result ≡ floor_div n (pos d) }
{
    if -(1 << 61) < n && n < 1 << 61 {
        i128::from(divisor.divide(n as i64))
    } else {
        n.div_euclid(i128::from(d))
    }
}

// `parts` reduced to within one turn.
#[inline(always)]
#[tactic(auto, unfolding(crate::specs::Phases::within_turn))]
fn within_turn(parts: i128) -> Angle
    ensures value { result ≡ within_turn parts }
    ensures small { result < turn }
{
    Angle::of(parts.rem_euclid(i128::from(TURN)) as u32)
}
