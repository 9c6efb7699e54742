// `interp`: a control value as an audio signal, along a straight line from one control cycle's value to the
// next.
ghost use Rattle.std.specs.Prelude.{◌≡◌, List, ℤ};
ghost use Rattle.cs_base.specs.{Heads.header_of_head, declared.resource.Rate.Rate};
ghost use Rattle.cs_signal.specs.{Interp.interp_start, Interp.interp_step, Pace.pace_of};

use crate::Operand;
use crate::generator::{Generator, Stepper};
use crate::line::part_way;
use crate::operand::argument;
use crate::ramp::ramp;
use crate::stepwise::frame_by_frame;
use cs_base::{Head, Num};
use std::marker::Model;

/// The state of an `interp`: the samples per control cycle, the previous cycle's value (0 at first), and the
/// position of the next sample in its cycle.
#[derive(Drop)]
pub struct Interp {
    ksmps: u64,
    before: Num,
    sample: u64,
}

impl Model for Interp {
    ghost use Rattle.std.specs.Prelude.{◌≤◌, ◌<◌};
    ghost use Rattle.cs_signal.specs.Interp.{InterpState};

    ghost Value = { InterpState };

    ghost view = { λ unit. record { ksmps = unit.ksmps; before = unit.before; sample = unit.sample } };

    ghost invariant = { λ unit. (1 ≤ unit.ksmps) × (unit.ksmps ≤ 4096) × (unit.sample < unit.ksmps) };
}

impl Interp {
    /// The initial state.
    pub fn start(head: &Head) -> Interp
        ensures { (rate : Rate) (init : List ℤ) → result ≡ interp_start rate (pace_of (header_of_head head.now)) init }
    {
        Interp {
            ksmps: u64::from(head.ksmps),
            before: Num::of_raw(0),
            sample: 0,
        }
    }
}

impl Stepper for Interp {
    ghost step = { interp_step };

    // One step. Its input is the value of the control cycle.
    fn tick(&mut self, inputs: &[Num]) -> Num {
        let x = argument(inputs, 0);
        let value = part_way(self.before, x, self.sample + 1, self.ksmps);
        self.sample = (self.sample + 1) % self.ksmps;
        if self.sample == 0 {
            self.before = x;
        }
        value
    }
}

impl Generator for Interp {
    ghost moving = { 1 };

    // A complete control cycle with one value is computed as one ramp.
    fn render(&mut self, inputs: &[Operand], out: &mut [Num]) {
        match &inputs[0] {
            Operand::Held(x) if self.sample == 0 && out.len() as u64 == self.ksmps => {
                ramp(self.before, *x, 1, self.ksmps, out);
                self.before = *x;
            }
            _ => frame_by_frame(self, inputs, out),
        }
    }
}
