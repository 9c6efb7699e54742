// `linen`: an amplitude with a straight rise and a straight decay.
ghost use Rattle.std.specs.Prelude.{◌≡◌, ◌<◌, ◌≤◌, ◌*◌, ◌/◌, ◌^◌, ◌∷◌, [], true, length, map, pos, ◌-ℤ◌, ◌*ℤ◌};
ghost use Rattle.std.specs.{Prelude.unsigned_abs, List.range_with_len};
ghost use Rattle.cs_base.specs.Heads.{header_of_head};
ghost use Rattle.cs_base.specs.Numbers.{IsRaw, clamp, floor_div, one, product_of};
ghost use Rattle.cs_signal.specs.{Linen.linen_start, Linen.linen_step, Linen.up_at, Linen.down_at, Operands.argument};
ghost use Rattle.cs_signal.specs.{Operands.operand_at, Operands.Lasts, Pace.pace_of, Pace.last_number};
ghost use Rattle.cs_signal.specs.{inner.Ramp.ramp_of, inner.Level.IsFalling, inner.Level.IsLevel, inner.Level.IsRising};

use crate::Operand;
use crate::generator::{Generator, Stepper};
use crate::operand::argument;
use crate::pace::{next_number, steps};
use crate::ramp::ramp;
use crate::stepwise::frame_by_frame;
use cs_base::{Head, Num, ONE, Rate};
use std::marker::Model;

/// The state of a `linen`: its times in steps, and the number of the next step.
#[derive(Drop)]
pub struct Linen {
    rise: u64,
    duration: u64,
    decay: u64,
    number: u64,
}

impl Model for Linen {
    ghost use Rattle.std.specs.Prelude.{◌≤◌, ◌<◌, ◌^◌};
    ghost use Rattle.cs_signal.specs.{Linen.LinenState, Pace.last_number};

    ghost Value = { LinenState };

    ghost view = { λ unit. record {
      rise = unit.rise;
      duration = unit.duration;
      decay = unit.decay;
      number = unit.number;
    } };

    ghost invariant = { λ unit. (unit.rise < 2 ^ 49) × (unit.duration < 2 ^ 49) × (unit.decay < 2 ^ 49)
        × (unit.number ≤ last_number) };
}

impl Linen {
    /// The initial state, from the i-rate arguments: the times of rise, duration and decay.
    pub fn start(rate: Rate, head: &Head, init: &[Num]) -> Linen
        ensures { result ≡ linen_start rate (pace_of (header_of_head head.now)) init.now }
    {
        Linen {
            rise: steps(argument(init, 0), rate, head),
            duration: steps(argument(init, 1), rate, head),
            decay: steps(argument(init, 2), rate, head),
            number: 0,
        }
    }

    // Whether the next `count` steps are in the rise, before the decay begins.
    fn rises(&self, count: u64) -> bool
        ensures { result ≡ true → IsRising self.now count }
    {
        self.number < self.rise
            && count <= self.rise - self.number
            && (self.decay == 0 || self.number + count + self.decay <= self.duration)
    }

    // Whether the next `count` steps are in the decay, after the rise has ended.
    fn falls(&self, count: u64) -> bool
        ensures { result ≡ true → IsFalling self.now count }
    {
        count <= i64::MAX as u64 - self.number
            && self.rise <= self.number
            && 0 < self.decay
            && self.duration <= self.number + self.decay
            && self.number <= self.duration
    }

    // Whether the next `count` steps are after the rise and before the decay.
    fn is_level(&self, count: u64) -> bool
        ensures { result ≡ true → IsLevel self.now count }
    {
        count <= i64::MAX as u64 - self.number
            && self.rise <= self.number
            && (self.decay == 0 || self.number + count + self.decay <= self.duration)
    }
}

impl Stepper for Linen {
    ghost step = { linen_step };

    fn tick(&mut self, inputs: &[Num]) -> Num {
        let up = up_at(self.rise, self.number);
        let down = down_at(self.duration, self.decay, self.number);
        self.number = next_number(self.number);
        argument(inputs, 0).mul(up.mul(down))
    }
}

impl Generator for Linen {
    ghost moving = { 1 };

    // Steps that are all in one part are computed together.
    fn render(&mut self, inputs: &[Operand], out: &mut [Num]) {
        let count = out.len() as u64;
        match inputs {
            [x] if self.is_level(count) => {
                level(x, out);
                self.number += count;
            }
            [x] if self.rises(count) => {
                slope(
                    x,
                    Num::exact(0),
                    Num::exact(ONE),
                    self.number,
                    self.rise,
                    out,
                );
                self.number += count;
            }
            [x] if self.falls(count) => {
                let fallen = self.number + self.decay - self.duration;
                slope(x, Num::exact(ONE), Num::exact(0), fallen, self.decay, out);
                self.number += count;
            }
            _ => frame_by_frame(self, inputs, out),
        }
    }
}

// The amplitude while both factors are 1.
fn level(x: &Operand, out: &mut [Num])
    requires { Lasts (length out.old) x.now }
    ensures { out.new ≡ map (λ j. product_of (operand_at x.now j) one) (range_with_len 0 (length out.old)) }
{
    let x = x.copied();
    for j in 0..out.len() {
        out[j] = by_one(x.value(j));
    }
}

// A number times 1, which is the number itself.
#[inline(always)]
fn by_one(x: Num) -> Num
    ensures { result ≡ product_of x one }
{
    Num::exact(x.raw())
}

// The amplitude times the factors of a straight line from `from` to `to`, beginning at step `number` of
// `steps`.
fn slope(x: &Operand, from: Num, to: Num, number: u64, steps: u64, out: &mut [Num])
    requires last { Lasts (length out.old) x.now }
    requires some { 1 ≤ steps }
    requires number { number ≤ last_number }
    ensures { let ramp = ramp_of from to number steps (length out.old) in
        out.new ≡ map (λ j. product_of (operand_at x.now j) (argument ramp j)) (range_with_len 0 (length out.old)) }
{
    ramp(from, to, number, steps, out);
    shape(x, out);
}

// Multiplies each factor in `out` by the amplitude.
fn shape(x: &Operand, out: &mut [Num])
    requires { Lasts (length out.old) x.now }
    ensures { out.new
        ≡ map (λ j. product_of (operand_at x.now j) (argument out.old j)) (range_with_len 0 (length out.old)) }
{
    let x = x.copied();
    for j in 0..out.len() {
        out[j] = product(x.value(j), out[j]);
    }
}

// The product of a number and a factor. Most factors are from 0 to below 1; then the product fits into 64
// bits and is in range.
#[inline(always)]
fn product(x: Num, factor: Num) -> Num
    ensures { result ≡ product_of x factor }
{
    if 0 <= factor.raw() && factor.raw() < ONE {
        Num::of_product(near_product(x.raw(), factor.raw()))
    } else {
        x.mul(factor)
    }
}

// The exact product.
#[inline(always)]
fn near_product(x: i64, factor: i64) -> i64
    requires number { IsRaw x }
    requires factor { unsigned_abs factor < 2 ^ 16 }
    ensures { result ≡ x *ℤ factor }
{
    x * factor
}

// The factor of the rise, from 0 to 1.
fn up_at(rise: u64, n: u64) -> Num
    requires wide { rise < 2 ^ 49 }
    ensures { result ≡ up_at rise n }
{
    if rise <= n {
        Num::of_raw(ONE)
    } else {
        Num::exact(part_of_one(n, rise) as i64)
    }
}

fn part_of_one(n: u64, rise: u64) -> u64
    requires within { n < rise }
    requires wide { rise < 2 ^ 49 }
    ensures value { result ≡ 65536 * n / rise }
    ensures bounded { result ≤ 65536 }
{
    (ONE as u128 * u128::from(n) / u128::from(rise)) as u64
}

// The factor of the decay, at most 1.
fn down_at(duration: u64, decay: u64, n: u64) -> Num
    requires wide_duration { duration < 2 ^ 49 }
    requires wide_decay { decay < 2 ^ 49 }
    requires number { n ≤ last_number }
    ensures { result ≡ down_at duration decay n }
{
    if decay == 0 || n + decay < duration {
        Num::of_raw(ONE)
    } else {
        Num::of_wide(fallen(duration, decay, n))
    }
}

// The remaining duration, divided by the decay.
fn fallen(duration: u64, decay: u64, n: u64) -> i128
    requires some { 0 < decay }
    requires wide { duration < 2 ^ 49 }
    requires number { n ≤ last_number }
    ensures { result ≡ floor_div (one *ℤ (pos duration -ℤ pos n)) (pos decay) }
{
    let left = i128::from(duration) - i128::from(n);
    (i128::from(ONE) * left).div_euclid(i128::from(decay))
}
