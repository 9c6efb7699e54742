// `biquad`: a filter with two zeros and two poles, computed with integers.
ghost use Rattle.std.specs.Prelude.{true, ◌≡◌, ◌≢◌, ◌<◌, ◌≤◌, ◌+◌, ◌^◌, length, pos, ◌≤ℤ◌, ◌+ℤ◌};
ghost use Rattle.std.specs.{Prelude.◌-ℤ◌, Prelude.◌*ℤ◌, Prelude.unsigned_abs, Int.int_div_euclid};
ghost use Rattle.cs_base.specs.Numbers.{IsRaw, clamp, floor_div, quotient_by_zero};
ghost use Rattle.cs_signal.specs.Biquad.{biquad_step, inputs_by, ratio};
ghost use Rattle.cs_signal.specs.{Operands.argument, Steps.run, Walk.HasRun};
ghost use Rattle.cs_signal.specs.inner.Short.{AreShort, AreSmall, IsShort, IsSmall, sum_of};

use crate::Operand;
use crate::generator::{Generator, Stepper};
use crate::operand::argument;
use crate::ramp::plus;
use crate::stepwise::frame_by_frame;
use cs_base::{Divisor, Num, ONE};
use std::marker::Model;

/// The state of a `biquad`: its last two inputs and results, the later first. All are 0 before the first
/// step.
#[derive(Clone, Copy)]
pub struct Biquad {
    x1: Num,
    x2: Num,
    y1: Num,
    y2: Num,
}

/// The coefficients of a step. `b0`, `b1` and `b2` multiply its input and the two inputs before; `a1` and
/// `a2` multiply the two previous results; `a0` divides the sum of the products.
#[derive(Clone, Copy)]
pub struct Coefficients {
    pub b0: Num,
    pub b1: Num,
    pub b2: Num,
    pub a0: Num,
    pub a1: Num,
    pub a2: Num,
}

impl Model for Biquad {
    ghost use Rattle.cs_signal.specs.Biquad.{BiquadState};

    ghost Value = { BiquadState };

    ghost inverse = { λ s. record { x1 = s.x1; x2 = s.x2; y1 = s.y1; y2 = s.y2 } };

    ghost view = { λ unit. record { x1 = unit.x1; x2 = unit.x2; y1 = unit.y1; y2 = unit.y2 } };
}

impl Biquad {
    /// The initial state.
    pub fn start() -> Biquad
        ensures { result ≡ record { x1 = pos 0; x2 = pos 0; y1 = pos 0; y2 = pos 0 } }
    {
        Biquad {
            x1: Num::of_raw(0),
            x2: Num::of_raw(0),
            y1: Num::of_raw(0),
            y2: Num::of_raw(0),
        }
    }

    // One step: the products of `b0`, `b1` and `b2` with the input and the two inputs before, minus the
    // products of `a1` and `a2` with the two previous results, divided by `a0`.
    #[inline(always)]
    fn step(&mut self, x: Num, by: &Coefficients) -> Num
        ensures { (self.new, result) ≡ biquad_step self.old (inputs_by x by.now) }
    {
        let y = ratio(self.wide_sum(x, by), by.a0.raw());
        self.follow(x, y);
        y
    }

    // Records the input and the result of a step.
    #[inline(always)]
    fn follow(&mut self, x: Num, y: Num)
        ensures { self.new ≡ record { x1 = x; x2 = self.old.x1; y1 = y; y2 = self.old.y1 } }
    {
        self.x2 = self.x1;
        self.x1 = x;
        self.y2 = self.y1;
        self.y1 = y;
    }

    // One step for each frame, with constant coefficients.
    fn held(&mut self, x: &[Num], by: &Coefficients, out: &mut [Num])
        requires x { length x.now ≡ length out.old }
        requires above { pos 1 ≤ℤ by.now.a0 }
        ensures { (self.new, out.new) ≡ run biquad_step (λ j. inputs_by (argument x.now j) by.now)
            self.old 0 (length out.old) }
    {
        let near = self.near_steps(x, by, out);
        for j in near..out.len() {
            out[j] = self.step(x[j], by);
        }
    }

    // Computes steps with 64-bit sums, up to the first signal that is too large. Returns the number of steps.
    #[inline(never)]
    fn near_steps(&mut self, x: &[Num], by: &Coefficients, out: &mut [Num]) -> usize
        requires x { length x.now ≡ length out.old }
        requires above { pos 1 ≤ℤ by.now.a0 }
        ensures run { HasRun biquad_step (λ j. inputs_by (argument x.now j) by.now) self.old (length out.old)
            result self.new out.new }
        ensures within { result ≤ length out.old }
    {
        if !self.is_near(by) {
            return 0;
        }
        let divisor = Divisor::of(by.a0.raw());
        let mut unit = *self;
        for j in 0..out.len() {
            let here = x[j];
            if !is_short(here) {
                *self = unit;
                return j;
            }
            let y = divided(unit.short_sum(here, by), by.a0, divisor);
            unit.follow(here, y);
            out[j] = y;
            if !is_short(y) {
                *self = unit;
                return j + 1;
            }
        }
        *self = unit;
        out.len()
    }

    // Whether 64-bit sums suffice if the input is short too.
    fn is_near(&self, by: &Coefficients) -> bool
        ensures { result ≡ true → AreSmall by.now × AreShort self.now }
    {
        is_small(by.b0)
            && is_small(by.b1)
            && is_small(by.b2)
            && is_small(by.a1)
            && is_small(by.a2)
            && is_short(self.x1)
            && is_short(self.x2)
            && is_short(self.y1)
            && is_short(self.y2)
    }

    // The sum that is divided.
    #[inline(always)]
    fn wide_sum(&self, x: Num, by: &Coefficients) -> i128
        ensures value { result ≡ sum_of by.now self.now x }
        ensures bounded { unsigned_abs result < 2 ^ 97 }
    {
        less(
            plus(products(by.b0, x, by.b1, self.x1), product(by.b2, self.x2)),
            products(by.a1, self.y1, by.a2, self.y2),
        )
    }

    // The sum that is divided, if all factors are below 2,048 and all signals below 32,768. No sum then
    // exceeds 61 bits, and the compiler computes everything in 64 bits.
    #[inline(always)]
    fn short_sum(&self, x: Num, by: &Coefficients) -> i64
        requires small { AreSmall by.now }
        requires input { IsShort x }
        requires short { AreShort self.now }
        ensures value { result ≡ sum_of by.now self.now x }
        ensures bounded { unsigned_abs result < 2 ^ 61 }
    {
        self.wide_sum(x, by) as i64
    }
}

impl Stepper for Biquad {
    ghost step = { biquad_step };

    fn tick(&mut self, inputs: &[Num]) -> Num {
        let by = Coefficients {
            b0: argument(inputs, 1),
            b1: argument(inputs, 2),
            b2: argument(inputs, 3),
            a0: argument(inputs, 4),
            a1: argument(inputs, 5),
            a2: argument(inputs, 6),
        };
        self.step(argument(inputs, 0), &by)
    }
}

impl Generator for Biquad {
    ghost moving = { 7 };

    fn render(&mut self, inputs: &[Operand], out: &mut [Num]) {
        match inputs {
            [x, b0, b1, b2, a0, a1, a2] => match (x, b0, b1, b2, a0, a1, a2) {
                (
                    Operand::Row(row),
                    Operand::Held(b0),
                    Operand::Held(b1),
                    Operand::Held(b2),
                    Operand::Held(a0),
                    Operand::Held(a1),
                    Operand::Held(a2),
                ) if a0.raw() > 0 => {
                    let by = Coefficients {
                        b0: *b0,
                        b1: *b1,
                        b2: *b2,
                        a0: *a0,
                        a1: *a1,
                        a2: *a2,
                    };
                    self.held(row, &by, out);
                }
                _ => frame_by_frame(self, inputs, out),
            },
            _ => unreachable!(),
        }
    }
}

// Whether a coefficient is small enough for 64-bit sums: its absolute value is at most 2,048.
fn is_small(c: Num) -> bool
    ensures { result ≡ true → IsSmall c }
{
    -(1 << 27) <= c.raw() && c.raw() <= 1 << 27
}

// Whether a signal is small enough for 64-bit sums: its absolute value is at most 32,768.
#[inline(always)]
fn is_short(x: Num) -> bool
    ensures { result ≡ true → IsShort x }
{
    -(1 << 31) <= x.raw() && x.raw() < 1 << 31
}

// The quotient, rounded down and clamped. Division by 1, as most filters have it, is a shift, because the
// next step waits for this result.
#[inline(always)]
fn divided(n: i64, a0: Num, divisor: Divisor) -> Num
    requires bounded { unsigned_abs n < 2 ^ 61 }
    requires known { divisor.value ≡ a0 }
    ensures { result ≡ ratio n a0 }
{
    if a0.raw() == ONE {
        Num::of_product(n)
    } else {
        bounded(divisor.divide(n))
    }
}

// A quotient, clamped. Most quotients are in range, so a test comes first.
#[inline(always)]
fn bounded(quotient: i64) -> Num
    ensures { result ≡ clamp quotient }
{
    if -(1 << 31) <= quotient && quotient < 1 << 31 {
        Num::exact(quotient)
    } else {
        Num::of_raw(quotient)
    }
}

// The exact difference.
#[inline(always)]
fn less(x: i128, y: i128) -> i128
    requires x { unsigned_abs x < 2 ^ 96 }
    requires y { unsigned_abs y < 2 ^ 96 }
    ensures value { result ≡ x -ℤ y }
    ensures bounded { unsigned_abs result ≤ unsigned_abs x + unsigned_abs y }
{
    x - y
}

// The exact sum of two products.
#[inline(always)]
fn products(a: Num, x: Num, b: Num, y: Num) -> i128
    ensures value { result ≡ (a *ℤ x) +ℤ (b *ℤ y) }
    ensures bounded { unsigned_abs result ≤ 2 ^ 95 }
{
    plus(product(a, x), product(b, y))
}

// The exact product, of 94 bits. Three products minus two have 97 bits.
#[inline(always)]
fn product(x: Num, y: Num) -> i128
    ensures value { result ≡ x *ℤ y }
    ensures bounded { unsigned_abs result ≤ 2 ^ 94 }
{
    i128::from(x.raw()) * i128::from(y.raw())
}

// The quotient, rounded down and clamped. Division by 0 follows the rule of the language's `/`.
#[inline(always)]
fn ratio(n: i128, d: i64) -> Num
    requires bounded { unsigned_abs n < 2 ^ 97 }
    requires divisor { IsRaw d }
    ensures { result ≡ ratio n d }
{
    if d == 0 {
        by_zero(n)
    } else {
        Num::of_wide(floored(n, d))
    }
}

#[inline(always)]
fn floored(n: i128, d: i64) -> i128
    requires nonzero { unsigned_abs d ≢ 0 }
    requires divisor { IsRaw d }
    requires bounded { unsigned_abs n < 2 ^ 97 }
    ensures { result ≡ floor_div n d }
{
    if d > 0 {
        quotient(n, d)
    } else {
        quotient(-n, -d)
    }
}

// The quotient by a positive divisor, rounded down. If both numbers fit into 64 bits, it is a 64-bit
// division.
#[inline(always)]
fn quotient(n: i128, d: i64) -> i128
    requires { pos 1 ≤ℤ d }
    ensures { result ≡ int_div_euclid n d }
{
    if i64::MIN as i128 <= n && n <= i64::MAX as i128 {
        i128::from((n as i64).div_euclid(d))
    } else {
        n.div_euclid(i128::from(d))
    }
}

fn by_zero(n: i128) -> Num
    ensures { result ≡ quotient_by_zero n }
{
    if n > 0 {
        Num::of_raw(i64::MAX)
    } else if n < 0 {
        Num::of_raw(i64::MIN)
    } else {
        Num::of_raw(0)
    }
}
