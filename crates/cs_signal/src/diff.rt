// `diff`: the increase of its input since the previous step.
ghost use Rattle.std.specs.Prelude.{◌≡◌, pos};
ghost use Rattle.cs_signal.specs.Diff.{diff_step};

use crate::Operand;
use crate::generator::{Generator, Stepper};
use crate::operand::argument;
use crate::stepwise::step_by_step;
use cs_base::Num;
use std::marker::Model;

/// The state of a `diff`: the previous input, 0 before the first step.
#[derive(Clone, Copy)]
pub struct Diff {
    before: Num,
}

impl Model for Diff {
    ghost use Rattle.std.specs.Prelude.{ℤ};

    ghost Value = { ℤ };

    ghost inverse = { λ before. record { before = before } };

    ghost view = { λ unit. unit.before };
}

impl Diff {
    /// The initial state.
    pub fn start() -> Diff
        ensures { result ≡ pos 0 }
    {
        Diff {
            before: Num::of_raw(0),
        }
    }
}

impl Stepper for Diff {
    ghost step = { diff_step };

    // One step: this value minus the previous one.
    #[inline(always)]
    fn tick(&mut self, inputs: &[Num]) -> Num {
        let x = argument(inputs, 0);
        let risen = x.sub(self.before);
        self.before = x;
        risen
    }
}

impl Generator for Diff {
    ghost moving = { 1 };

    fn render(&mut self, inputs: &[Operand], out: &mut [Num]) {
        step_by_step(self, inputs, out);
    }
}
