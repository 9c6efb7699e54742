// Computes a block of frames one step at a time.
ghost use Rattle.std.specs.{Prelude.◌≡◌, Prelude.◌≤◌, Prelude.◌∷◌, Prelude.[], Prelude.length, Prelude.take, List.All};
ghost use Rattle.cs_signal.specs.{Operands.Lasts, Operands.inputs_at, Operands.operand_at, Steps.run};

use crate::Operand;
use crate::generator::Stepper;
use cs_base::Num;

// The largest number of moving arguments that a unit can have.
const MOST_INPUTS: usize = 7;

/// Performs one step for each frame of `out`, for any unit. It is used for cycles that have no faster way.
pub(crate) fn frame_by_frame<S: Stepper>(unit: &mut S, inputs: &[Operand], out: &mut [Num])
    requires { length inputs.now ≤ 7 }
    ensures { (unit.new, out.new) ≡ run S.step (inputs_at inputs.now) unit.old 0 (length out.old) }
{
    for j in 0..out.len() {
        let here = gathered(inputs, j);
        out[j] = unit.tick(&here[..inputs.len()]);
    }
}

// The inputs of a step at a frame. The places after them are unused.
fn gathered(inputs: &[Operand], frame: usize) -> [Num; MOST_INPUTS]
    requires { length inputs.now ≤ 7 }
    ensures first { take (length inputs.now) result ≡ inputs_at inputs.now frame }
    ensures long { length result ≡ 7 }
{
    let mut here = [Num::exact(0); MOST_INPUTS];
    for k in 0..inputs.len() {
        here[k] = inputs[k].at(frame);
    }
    here
}

/// Performs one step for each frame of `out`, with one to three moving arguments. Unit and operands are local
/// variables of the loop; through a reference they would be read and written at each step.
#[inline(always)]
pub(crate) fn step_by_step<S: Stepper + Copy>(unit: &mut S, inputs: &[Operand], out: &mut [Num])
    requires some { 1 ≤ length inputs.now }
    requires few { length inputs.now ≤ 3 }
    requires last { All (Lasts (length out.old)) inputs.now }
    ensures { (unit.new, out.new) ≡ run S.step (inputs_at inputs.now) unit.old 0 (length out.old) }
{
    *unit = match inputs {
        [x] => by_one(*unit, x, out),
        [x, y] => by_two(*unit, x, y, out),
        [x, y, z] => by_three(*unit, x, y, z, out),
        _ => unreachable!(),
    };
}

#[inline(never)]
fn by_one<S: Stepper + Copy>(start: S, x: &Operand, out: &mut [Num]) -> S
    requires { Lasts (length out.old) x.now }
    ensures { (result, out.new) ≡ run S.step (λ j. operand_at x.now j ∷ []) start 0 (length out.old) }
{
    let x = x.copied();
    let mut unit = start;
    for j in 0..out.len() {
        out[j] = unit.tick(&[x.value(j)]);
    }
    unit
}

#[inline(never)]
fn by_two<S: Stepper + Copy>(start: S, x: &Operand, y: &Operand, out: &mut [Num]) -> S
    requires x { Lasts (length out.old) x.now }
    requires y { Lasts (length out.old) y.now }
    ensures { (result, out.new)
        ≡ run S.step (λ j. operand_at x.now j ∷ operand_at y.now j ∷ []) start 0 (length out.old) }
{
    let (x, y) = (x.copied(), y.copied());
    let mut unit = start;
    for j in 0..out.len() {
        out[j] = unit.tick(&[x.value(j), y.value(j)]);
    }
    unit
}

#[inline(never)]
fn by_three<S: Stepper + Copy>(
    start: S,
    x: &Operand,
    y: &Operand,
    z: &Operand,
    out: &mut [Num],
) -> S
    requires x { Lasts (length out.old) x.now }
    requires y { Lasts (length out.old) y.now }
    requires z { Lasts (length out.old) z.now }
    ensures { (result, out.new)
        ≡ run S.step (λ j. operand_at x.now j ∷ operand_at y.now j ∷ operand_at z.now j ∷ []) start 0
        (length out.old) }
{
    let (x, y, z) = (x.copied(), y.copied(), z.copied());
    let mut unit = start;
    for j in 0..out.len() {
        out[j] = unit.tick(&[x.value(j), y.value(j), z.value(j)]);
    }
    unit
}
