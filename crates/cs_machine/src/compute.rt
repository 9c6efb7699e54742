// Operators and functions on registers. Each call writes one register, as its rate stores it.
ghost use Rattle.std.specs.Prelude.{◌≡◌, false, true, length};
ghost use Rattle.cs_base.specs.Rates.{is_audio};
ghost use Rattle.cs_ir.specs.{Registers.rate_at, Validity.has_register, Waves.both, Waves.chosen};
ghost use Rattle.cs_ir.specs.Values.{applied, negated};
ghost use Rattle.cs_machine.specs.Registers.{IsWritten, values};

use crate::pairs::{combine_row, negate_row};
use crate::registers::Registers;
use crate::rows::{apply_row, copy};
use cs_base::Num;
use cs_ir::{Reg, apply, combine, holds, negate};
use cs_words::{BinOp, Func};

impl Registers {
    /// Copies a register. `row` is a buffer for a row, before and after.
    #[inline(always)]
    pub fn copy(&mut self, into: Reg, x: Reg, row: &mut Vec<Num>)
        requires into { has_register self.old.counts into ≡ true }
        requires x { has_register self.old.counts x ≡ true }
        requires row { length row.old.items ≡ self.old.ksmps }
        ensures values { IsWritten self.old into (values self.old x) self.new }
        ensures row { length row.new.items ≡ self.old.ksmps }
    {
        if into.is_audio() {
            copy(&self.operand(x), row);
            self.swap(into, row);
        } else {
            self.set(into, self.first(x));
        }
    }

    /// Negates a register.
    #[inline(always)]
    pub fn negate(&mut self, into: Reg, x: Reg, row: &mut Vec<Num>)
        requires into { has_register self.old.counts into ≡ true }
        requires x { has_register self.old.counts x ≡ true }
        requires row { length row.old.items ≡ self.old.ksmps }
        ensures values { IsWritten self.old into (λ j. negated (values self.old x j)) self.new }
        ensures row { length row.new.items ≡ self.old.ksmps }
    {
        if into.is_audio() {
            negate_row(&self.operand(x), row);
            self.swap(into, row);
        } else {
            self.set(into, negate(self.first(x)));
        }
    }

    /// Applies a function to a register.
    #[inline(always)]
    pub fn apply(&mut self, function: Func, into: Reg, x: Reg, row: &mut Vec<Num>)
        requires into { has_register self.old.counts into ≡ true }
        requires x { has_register self.old.counts x ≡ true }
        requires row { length row.old.items ≡ self.old.ksmps }
        ensures values { IsWritten self.old into (λ j. applied function (values self.old x j)) self.new }
        ensures row { length row.new.items ≡ self.old.ksmps }
    {
        if into.is_audio() {
            apply_row(function, &self.operand(x), row);
            self.swap(into, row);
        } else {
            self.set(into, apply(function, self.first(x)));
        }
    }

    /// Applies an operator to two registers.
    #[inline(always)]
    pub fn combine(&mut self, operator: BinOp, into: Reg, x: Reg, y: Reg, row: &mut Vec<Num>)
        requires into { has_register self.old.counts into ≡ true }
        requires x { has_register self.old.counts x ≡ true }
        requires y { has_register self.old.counts y ≡ true }
        requires row { length row.old.items ≡ self.old.ksmps }
        ensures values { IsWritten self.old into (both operator (values self.old x) (values self.old y)) self.new }
        ensures row { length row.new.items ≡ self.old.ksmps }
    {
        if into.is_audio() {
            combine_row(operator, &self.operand(x), &self.operand(y), row);
            self.swap(into, row);
        } else {
            self.set(into, combine(operator, self.first(x), self.first(y)));
        }
    }

    /// Copies `x` at the frames at which the condition holds, and `y` at the others.
    #[inline(always)]
    pub fn pick(&mut self, into: Reg, condition: Reg, x: Reg, y: Reg, row: &mut Vec<Num>)
        requires into { has_register self.old.counts into ≡ true }
        requires condition { has_register self.old.counts condition ≡ true }
        requires held { is_audio (rate_at condition) ≡ false }
        requires x { has_register self.old.counts x ≡ true }
        requires y { has_register self.old.counts y ≡ true }
        requires row { length row.old.items ≡ self.old.ksmps }
        ensures values { IsWritten self.old into (chosen (values self.old condition) (values self.old x)
            (values self.old y)) self.new }
        ensures row { length row.new.items ≡ self.old.ksmps }
    {
        if holds(self.first(condition)) {
            self.copy(into, x, row);
        } else {
            self.copy(into, y, row);
        }
    }
}
