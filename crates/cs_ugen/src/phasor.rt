// `phasor`: a ramp from 0 to 1, once per turn.
ghost use Rattle.std.specs.Prelude.{◌≡◌, ◌<◌, ◌∷◌, [], length};
ghost use Rattle.cs_ugen.specs.{Phases.turn, Phasor.phasor_start, Phasor.phasor_step, Phasor.ramp};
ghost use Rattle.cs_base.specs.Heads.{header_of_head};
ghost use Rattle.cs_signal.specs.{Operands.argument, Operands.operand_at, Operands.Lasts, Pace.pace_of, Steps.run};

use crate::angle::{Angle, moved};
use crate::phase::Phase;
use cs_base::{Head, Num, Rate};
use cs_signal::{Generator, Operand, Stepper, argument};
use std::marker::Model;

/// The state of a `phasor`.
#[derive(Drop)]
pub struct Phasor {
    phase: Phase,
}

impl Model for Phasor {
    ghost use Rattle.cs_ugen.specs.Phases.{Turning};

    ghost Value = { Turning };

    ghost view = { λ unit. unit.phase };
}

impl Phasor {
    /// The initial state. `init` holds the starting phase in turns, or is empty.
    pub fn start(rate: Rate, head: &Head, init: &[Num]) -> Phasor
        ensures { result ≡ phasor_start rate (pace_of (header_of_head head.now)) init.now }
    {
        Phasor {
            phase: Phase::start(rate, head, argument(init, 0)),
        }
    }

    // Performs one step for each frame of `out`.
    fn block(&mut self, cps: &Operand, out: &mut [Num])
        requires { Lasts (length out.old) cps.now }
        ensures { (self.new, out.new) ≡ run phasor_step (λ j. operand_at cps.now j ∷ []) self.old 0 (length out.old) }
    {
        match cps {
            Operand::Held(cps) => held(self, *cps, out),
            Operand::Row(row) => along(self, row, out),
        }
    }
}

impl Stepper for Phasor {
    ghost step = { phasor_step };

    // One step at this frequency.
    fn tick(&mut self, inputs: &[Num]) -> Num {
        ramp(self.phase.turn(argument(inputs, 0)))
    }
}

impl Generator for Phasor {
    ghost moving = { 1 };

    fn render(&mut self, inputs: &[Operand], out: &mut [Num]) {
        match inputs {
            [cps] => self.block(cps, out),
            _ => unreachable!(),
        }
    }
}

fn held(unit: &mut Phasor, cps: Num, out: &mut [Num])
    ensures { (unit.new, out.new) ≡ run phasor_step (λ j. cps ∷ []) unit.old 0 (length out.old) }
{
    let parts = unit.phase.hold(cps);
    let mut phase = unit.phase.get();
    for j in 0..out.len() {
        out[j] = ramp(phase);
        phase = moved(phase, parts);
    }
    unit.phase.set(phase);
}

#[inline(never)]
fn along(unit: &mut Phasor, cps: &[Num], out: &mut [Num])
    requires { length cps.now ≡ length out.old }
    ensures { (unit.new, out.new) ≡ run phasor_step (λ j. argument cps.now j ∷ []) unit.old 0 (length out.old) }
{
    let turning = unit.phase.copied();
    let mut phase = turning.get();
    for j in 0..out.len() {
        out[j] = ramp(phase);
        phase = moved(phase, turning.parts_at(cps[j]));
    }
    unit.phase.set(phase);
}

// A phase in 65,536ths of a turn.
#[inline(always)]
fn ramp(phase: Angle) -> Num
    requires { phase < turn }
    ensures { result ≡ ramp phase }
{
    Num::exact(i64::from(phase.parts() / 256))
}
