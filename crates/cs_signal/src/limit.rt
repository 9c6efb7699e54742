// `limit`: its input clamped between two bounds.
ghost use Rattle.std.specs.Prelude.{◌≡◌, pos, ◌+ℤ◌};
ghost use Rattle.cs_base.specs.Numbers.{IsRaw, floor_div};
ghost use Rattle.cs_signal.specs.Limit.{limit_step, limited};

use crate::Operand;
use crate::generator::{Generator, Stepper};
use crate::operand::argument;
use crate::stepwise::step_by_step;
use cs_base::Num;
use std::marker::Model;

/// The state of a `limit`, which is empty.
#[derive(Clone, Copy)]
pub struct LimitUnit {}

impl Model for LimitUnit {
    ghost Value = { Unit {0} };

    ghost inverse = { λ _. record {} };

    ghost view = { λ unit. tt };
}

impl LimitUnit {
    /// The initial state.
    pub fn start() -> LimitUnit
        ensures { result ≡ tt }
    {
        LimitUnit {}
    }
}

impl Stepper for LimitUnit {
    ghost step = { limit_step };

    // One step: the value clamped between `low` and `high`, or the midpoint of the two if `low` is above
    // `high`.
    #[inline(always)]
    fn tick(&mut self, inputs: &[Num]) -> Num {
        limited(
            argument(inputs, 0),
            argument(inputs, 1),
            argument(inputs, 2),
        )
    }
}

impl Generator for LimitUnit {
    ghost moving = { 3 };

    fn render(&mut self, inputs: &[Operand], out: &mut [Num]) {
        step_by_step(self, inputs, out);
    }
}

#[inline(always)]
fn limited(x: Num, low: Num, high: Num) -> Num
    ensures { result ≡ limited x low high }
{
    if high.raw() < low.raw() {
        middle(low.raw(), high.raw())
    } else if x.raw() < low.raw() {
        low
    } else if high.raw() < x.raw() {
        high
    } else {
        x
    }
}

#[inline(always)]
fn middle(low: i64, high: i64) -> Num
    requires low { IsRaw low }
    requires high { IsRaw high }
    ensures { result ≡ floor_div (low +ℤ high) (pos 2) }
{
    Num::exact((low + high).div_euclid(2))
}
