// `samphold`: its input while its gate is open, and the last value while it is closed.
ghost use Rattle.std.specs.Prelude.{◌≡◌, pos};
ghost use Rattle.cs_signal.specs.Samphold.{samphold_step};

use crate::Operand;
use crate::generator::{Generator, Stepper};
use crate::operand::argument;
use crate::stepwise::step_by_step;
use cs_base::Num;
use std::marker::Model;

/// The state of a `samphold`: its last result, 0 before the first step.
#[derive(Clone, Copy)]
pub struct Samphold {
    last: Num,
}

impl Model for Samphold {
    ghost use Rattle.std.specs.Prelude.{ℤ};

    ghost Value = { ℤ };

    ghost inverse = { λ last. record { last = last } };

    ghost view = { λ unit. unit.last };
}

impl Samphold {
    /// The initial state.
    pub fn start() -> Samphold
        ensures { result ≡ pos 0 }
    {
        Samphold {
            last: Num::of_raw(0),
        }
    }
}

impl Stepper for Samphold {
    ghost step = { samphold_step };

    // One step: the input if the gate is above 0, otherwise the last result.
    #[inline(always)]
    fn tick(&mut self, inputs: &[Num]) -> Num {
        if argument(inputs, 1).raw() > 0 {
            self.last = argument(inputs, 0);
        }
        self.last
    }
}

impl Generator for Samphold {
    ghost moving = { 2 };

    fn render(&mut self, inputs: &[Operand], out: &mut [Num]) {
        step_by_step(self, inputs, out);
    }
}
