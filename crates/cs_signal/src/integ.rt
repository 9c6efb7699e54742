// `integ`: the running sum of its input.
ghost use Rattle.std.specs.Prelude.{◌≡◌, pos};
ghost use Rattle.cs_signal.specs.Integ.{integ_step};

use crate::Operand;
use crate::generator::{Generator, Stepper};
use crate::operand::argument;
use crate::stepwise::step_by_step;
use cs_base::Num;
use std::marker::Model;

/// The state of an `integ`: the sum so far.
#[derive(Clone, Copy)]
pub struct Integ {
    sum: Num,
}

impl Model for Integ {
    ghost use Rattle.std.specs.Prelude.{ℤ};

    ghost Value = { ℤ };

    ghost inverse = { λ sum. record { sum = sum } };

    ghost view = { λ unit. unit.sum };
}

impl Integ {
    /// The initial state.
    pub fn start() -> Integ
        ensures { result ≡ pos 0 }
    {
        Integ {
            sum: Num::of_raw(0),
        }
    }
}

impl Stepper for Integ {
    ghost step = { integ_step };

    // One step: adds this value to the sum.
    #[inline(always)]
    fn tick(&mut self, inputs: &[Num]) -> Num {
        self.sum = self.sum.add(argument(inputs, 0));
        self.sum
    }
}

impl Generator for Integ {
    ghost moving = { 1 };

    fn render(&mut self, inputs: &[Operand], out: &mut [Num]) {
        step_by_step(self, inputs, out);
    }
}
