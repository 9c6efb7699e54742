// `downsamp`: an audio signal as a control value, the first sample of each control cycle.
ghost use Rattle.std.specs.Prelude.{◌≡◌};
ghost use Rattle.cs_signal.specs.Downsamp.{downsamp_step};

use crate::Operand;
use crate::generator::{Generator, Stepper};
use crate::operand::argument;
use crate::stepwise::step_by_step;
use cs_base::Num;
use std::marker::Model;

/// The state of a `downsamp`, which is empty.
#[derive(Clone, Copy)]
pub struct Downsamp {}

impl Model for Downsamp {
    ghost Value = { Unit {0} };

    ghost inverse = { λ _. record {} };

    ghost view = { λ unit. tt };
}

impl Downsamp {
    /// The initial state.
    pub fn start() -> Downsamp
        ensures { result ≡ tt }
    {
        Downsamp {}
    }
}

impl Stepper for Downsamp {
    ghost step = { downsamp_step };

    // One step, which is a control cycle. Its input is the cycle's first sample, which is also the result.
    #[inline(always)]
    fn tick(&mut self, inputs: &[Num]) -> Num {
        argument(inputs, 0)
    }
}

impl Generator for Downsamp {
    ghost moving = { 1 };

    fn render(&mut self, inputs: &[Operand], out: &mut [Num]) {
        step_by_step(self, inputs, out);
    }
}
