// The inputs of a unit over a control cycle.
ghost use Rattle.std.specs.Prelude.{◌≡◌, ◌<◌, length};
ghost use Rattle.cs_signal.specs.Operands.{argument, operand_at, Lasts, Reaches};

use cs_base::Num;

/// An argument of a unit over a control cycle: one held value, or one value for each frame.
#[derive(Clone, Copy)]
pub enum Operand<'r> {
    Held(Num),
    Row(&'r [Num]),
}

impl Operand<'_> {
    /// The value at a frame of the cycle. Returns 0 if the row is too short.
    #[inline(always)]
    pub fn at(&self, frame: usize) -> Num
        ensures { result ≡ operand_at self.now frame }
    {
        match self {
            Operand::Held(value) => *value,
            Operand::Row(values) => argument(values, frame),
        }
    }

    /// The value at a frame for which it has one.
    #[inline(always)]
    pub fn value(&self, frame: usize) -> Num
        requires { Reaches frame self.now }
        ensures { result ≡ operand_at self.now frame }
    {
        match self {
            Operand::Held(value) => *value,
            Operand::Row(values) => row_value(values, frame),
        }
    }
}

impl<'r> Operand<'r> {
    /// Returns the same operand, copied.
    #[inline(always)]
    pub fn copied(&self) -> Operand<'r>
        ensures { result ≡ self.now }
    {
        match self {
            Operand::Held(value) => Operand::Held(*value),
            Operand::Row(values) => Operand::Row(*values),
        }
    }
}

// The value of a row at a frame within the row.
#[inline(always)]
fn row_value(values: &[Num], frame: usize) -> Num
    requires { frame < length values.now }
    ensures { result ≡ argument values.now frame }
{
    values[frame]
}

/// The argument at place `place`, counted from 0. Returns 0 if it is missing.
#[inline(always)]
pub fn argument(arguments: &[Num], place: usize) -> Num
    ensures { result ≡ argument arguments.now place }
{
    if place < arguments.len() {
        arguments[place]
    } else {
        Num::of_raw(0)
    }
}
