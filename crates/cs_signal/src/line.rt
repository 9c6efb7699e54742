// `line`: a straight line through two values, which never ends.
ghost use Rattle.std.specs.Prelude.{◌≡◌, ◌<◌, ◌≤◌, ◌+◌, ◌^◌, pos, ◌+ℤ◌, ◌-ℤ◌, ◌*ℤ◌, unsigned_abs};
ghost use Rattle.cs_base.specs.{Heads.header_of_head, Numbers.IsRaw, Numbers.clamp, Numbers.floor_div};
ghost use Rattle.cs_signal.specs.Line.{LineState, line_start, line_step, part_way};
ghost use Rattle.cs_signal.specs.Pace.{pace_of, last_number};

use crate::generator::{Generator, Stepper};
use crate::operand::{Operand, argument};
use crate::pace::{next_number, steps};
use crate::ramp::ramp;
use crate::stepwise::frame_by_frame;
use cs_base::{Head, Num, Rate};
use std::marker::Model;

/// The state of a `line`: its two values, its duration in steps, and the number of the next step.
#[derive(Drop)]
pub struct LineUnit {
    from: Num,
    to: Num,
    way: u64,
    number: u64,
}

impl Model for LineUnit {
    ghost use Rattle.std.specs.Prelude.{◌≤◌, ◌<◌, ◌^◌};
    ghost use Rattle.cs_signal.specs.{Line.LineState, Pace.last_number};

    ghost Value = { LineState };

    ghost view = { λ unit. record { from = unit.from; to = unit.to; way = unit.way; number = unit.number } };

    ghost invariant = { λ unit. (1 ≤ unit.way) × (unit.way < 2 ^ 49) × (unit.number ≤ last_number) };
}

impl LineUnit {
    /// The initial state, from the i-rate arguments: the first value, the duration, the second value.
    pub fn start(rate: Rate, head: &Head, init: &[Num]) -> LineUnit
        ensures { result ≡ line_start rate (pace_of (header_of_head head.now)) init.now }
    {
        LineUnit {
            from: argument(init, 0),
            to: argument(init, 2),
            way: steps(argument(init, 1), rate, head).max(1),
            number: 0,
        }
    }
}

impl Stepper for LineUnit {
    ghost step = { line_step };

    fn tick(&mut self, _inputs: &[Num]) -> Num {
        let value = part_way(self.from, self.to, self.number, self.way);
        self.number = next_number(self.number);
        value
    }
}

impl Generator for LineUnit {
    ghost moving = { 0 };

    fn render(&mut self, inputs: &[Operand], out: &mut [Num]) {
        let count = out.len() as u64;
        if count <= i64::MAX as u64 - self.number {
            ramp(self.from, self.to, self.number, self.way, out);
            self.number += count;
        } else {
            frame_by_frame(self, inputs, out);
        }
    }
}

/// The value at `n` / `d` of the way from `from` to `to`, rounded down and clamped.
pub(crate) fn part_way(from: Num, to: Num, n: u64, d: u64) -> Num
    requires some { 1 ≤ d }
    requires number { n ≤ last_number }
    ensures { result ≡ clamp (part_way from to n d) }
{
    raised(from, quotient(times(rise(from, to), n), d))
}

/// The sum of a value and a rise, clamped.
#[inline(always)]
pub(crate) fn raised(from: Num, by: i128) -> Num
    requires { unsigned_abs by < 2 ^ 120 }
    ensures { result ≡ clamp (from +ℤ by) }
{
    Num::of_wide(i128::from(from.raw()) + by)
}

/// The difference from one value to another.
pub(crate) fn rise(from: Num, to: Num) -> i64
    ensures value { result ≡ to -ℤ from }
    ensures bounded { unsigned_abs result < 2 ^ 48 }
    ensures ends { IsRaw from × IsRaw to }
{
    to.raw() - from.raw()
}

/// `n` times a rise, a product of a 48-bit and a 63-bit number.
pub(crate) fn times(rise: i64, n: u64) -> i128
    requires number { n ≤ last_number }
    requires bounded { unsigned_abs rise < 2 ^ 48 }
    ensures value { result ≡ rise *ℤ pos n }
    ensures bounded { unsigned_abs result < 2 ^ 111 }
{
    i128::from(rise) * i128::from(n)
}

pub(crate) fn quotient(n: i128, d: u64) -> i128
    requires some { 1 ≤ d }
    requires bounded { unsigned_abs n < 2 ^ 111 }
    ensures value { result ≡ floor_div n (pos d) }
    ensures bounded { unsigned_abs result ≤ unsigned_abs n }
{
    // If both numbers fit into 64 bits, a 64-bit division is enough.
    if i64::MIN as i128 <= n && n <= i64::MAX as i128 && d <= i64::MAX as u64 {
        i128::from((n as i64).div_euclid(d as i64))
    } else {
        n.div_euclid(i128::from(d))
    }
}
