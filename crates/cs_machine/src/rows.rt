// Loops over the frames of a control cycle.
ghost use Rattle.std.specs.Prelude.{◌≡◌, length};
ghost use Rattle.cs_ir.specs.{Values.applied, Waves.constant};
ghost use Rattle.cs_machine.specs.Rows.{HasFrames};
ghost use Rattle.cs_signal.specs.Operands.{Lasts, operand_at};

use cs_base::Num;
use cs_ir::apply;
use cs_signal::Operand;
use cs_words::Func;

/// Sets each frame to the same number.
pub(crate) fn fill(value: Num, out: &mut [Num])
    ensures frames { HasFrames (constant value) out.new }
    ensures long { length out.new ≡ length out.old }
{
    out.fill(value);
}

/// Copies an operand.
pub(crate) fn copy(x: &Operand, out: &mut [Num])
    requires x { Lasts (length out.old) x.now }
    ensures frames { HasFrames (operand_at x.now) out.new }
    ensures long { length out.new ≡ length out.old }
{
    match x {
        Operand::Held(value) => fill(*value, out),
        Operand::Row(values) => out.copy_from_slice(values),
    }
}

/// Applies a function to an operand.
pub(crate) fn apply_row(function: Func, x: &Operand, out: &mut [Num])
    requires x { Lasts (length out.old) x.now }
    ensures frames { HasFrames (λ j. applied function (operand_at x.now j)) out.new }
    ensures long { length out.new ≡ length out.old }
{
    for j in 0..out.len() {
        out[j] = apply(function, x.at(j));
    }
}
