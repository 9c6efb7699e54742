// The behaviour of a unit without a table, for code that plays it.
ghost use Rattle.std.specs.{Prelude.◌≡◌, Prelude.ℕ, Prelude.ℤ, Prelude.List, Prelude.length, List.All};
ghost use Rattle.cs_signal.specs.{Operands.Lasts, Operands.inputs_at, Steps.run};

use crate::Operand;
use cs_base::Num;

/// A unit that proceeds step by step. No method allocates memory.
pub trait Stepper {
    /// One step on its inputs: the unit afterwards, and the result.
    ghost step: { Self → List ℤ → Self × ℤ };

    /// Performs one step. A missing argument is 0.
    fn tick(&mut self, inputs: &[Num]) -> Num
        ensures { (self.new, result) ≡ step self.old inputs.now };
}

/// A unit that reads no table. Its moving arguments are passed in the order of the text. No method allocates
/// memory.
pub trait Generator: Stepper {
    /// The number of moving arguments of a step.
    ghost moving: { ℕ };

    /// Performs one step for each frame of `out`.
    fn render(&mut self, inputs: &[Operand], out: &mut [Num])
        requires count { length inputs.now ≡ moving }
        requires last { All (Lasts (length out.old)) inputs.now }
        ensures { (self.new, out.new) ≡ run Self.step (inputs_at inputs.now) self.old 0 (length out.old) };
}
