// Operators on two operands over the frames of a control cycle.
//
// If a held factor is below one, products fit into 64 bits and nothing is clipped. Otherwise one pass
// multiplies the lower 32 bits of the factors, which is vector code, and combines the magnitudes of all
// factors. If these have more than 32 bits, the loop of the definition computes the products again.
ghost use Rattle.std.specs.Prelude.{◌≡◌, ◌<◌, ◌≤◌, ◌^◌, ◌*ℤ◌, ℕ, length, true, unsigned_abs};
ghost use Rattle.cs_base.specs.Numbers.{IsRaw, product_of};
ghost use Rattle.cs_ir.specs.{Values.negated, Waves.both};
ghost use Rattle.cs_machine.specs.{Rows.HasFrames, inner.Narrow.AreNarrow, inner.Narrow.IsNarrow, inner.Narrow.IsShort};
ghost use Rattle.cs_signal.specs.Operands.{Lasts, operand_at};
ghost use Rattle.cs_words.specs.declared.sign.BinOp.TheVariants as op;

use crate::quotient::{HeldDivisor, divisor_of, quotient};
use crate::rows::fill;
use cs_base::{Num, ONE};
use cs_ir::combine;
use cs_signal::Operand;
use cs_words::BinOp;

// Exclusive upper bound of the magnitudes of factors that have 32 bits.
const SIZE_BOUND: u64 = 4_294_967_296;

// One of the two operands of a loop: a number that is held, or a number for each frame.
trait Side {
    ghost use Rattle.std.specs.Prelude.{ℕ, ℤ, IfSome};

    // The value at each frame.
    ghost wave: { Self → ℕ → ℤ };

    // There is a number at each of the first n frames.
    ghost lasts: { Self → ℕ → Type 0 };

    // Returns true only if the magnitude is below one at each frame; it may be below one even if this is
    // false.
    fn is_gain(&self) -> bool
        ensures { result ≡ true → (j : ℕ) → unsigned_abs (wave self.now j) < 65536 };

    // Returns the operand as a divisor if it is held and above 0, otherwise None.
    fn divisor(&self) -> Option<HeldDivisor>
        ensures { IfSome result (λ d. (j : ℕ) → d.divisor.value ≡ wave self.now j) };

    fn at(&self, frame: usize) -> Num
        requires { (n : ℕ) × (lasts self.now n × (frame < n)) }
        ensures { result ≡ wave self.now frame };
}

#[derive(Clone, Copy)]
struct Held {
    value: Num,
}

#[derive(Clone, Copy)]
struct Row<'r> {
    values: &'r [Num],
}

impl Side for Held {
    ghost use Rattle.cs_ir.specs.Waves.{constant};

    ghost wave = { λ x. constant x.value };

    ghost lasts = { λ x n. Unit {0} };

    #[inline(always)]
    fn is_gain(&self) -> bool {
        self.value.raw().unsigned_abs() < ONE as u64
    }

    #[inline(always)]
    fn divisor(&self) -> Option<HeldDivisor> {
        divisor_of(self.value)
    }

    #[inline(always)]
    fn at(&self, frame: usize) -> Num {
        self.value
    }
}

impl Side for Row<'_> {
    ghost use Rattle.std.specs.Prelude.{◌≡◌, length};
    ghost use Rattle.cs_machine.specs.Rows.{row_wave};

    ghost wave = { λ r. row_wave r.values.now };

    ghost lasts = { λ r n. length r.values.now ≡ n };

    #[inline(always)]
    fn is_gain(&self) -> bool {
        false
    }

    #[inline(always)]
    fn divisor(&self) -> Option<HeldDivisor> {
        None
    }

    #[inline(always)]
    fn at(&self, frame: usize) -> Num {
        self.values[frame]
    }
}

/// Negates an operand.
pub(crate) fn negate_row(x: &Operand, out: &mut [Num])
    requires x { Lasts (length out.old) x.now }
    ensures frames { HasFrames (λ j. negated (operand_at x.now j)) out.new }
    ensures long { length out.new ≡ length out.old }
{
    combine_row(BinOp::Sub, &Operand::Held(Num::exact(0)), x, out);
}

/// Applies an operator to two operands.
pub(crate) fn combine_row(operator: BinOp, x: &Operand, y: &Operand, out: &mut [Num])
    requires x { Lasts (length out.old) x.now }
    requires y { Lasts (length out.old) y.now }
    ensures frames { HasFrames (both operator (operand_at x.now) (operand_at y.now)) out.new }
    ensures long { length out.new ≡ length out.old }
{
    match (x, y) {
        (Operand::Held(x), Operand::Held(y)) => fill(combine(operator, *x, *y), out),
        (Operand::Held(x), Operand::Row(ys)) => {
            by_operator(operator, &Held { value: *x }, &Row { values: ys }, out)
        }
        (Operand::Row(xs), Operand::Held(y)) => {
            by_operator(operator, &Row { values: xs }, &Held { value: *y }, out)
        }
        (Operand::Row(xs), Operand::Row(ys)) => {
            by_operator(operator, &Row { values: xs }, &Row { values: ys }, out)
        }
    }
}

// Runs a separate loop for each audio operator.
#[inline(always)]
fn by_operator<X: Side, Y: Side>(operator: BinOp, x: &X, y: &Y, out: &mut [Num])
    requires x { X.lasts x.now (length out.old) }
    requires y { Y.lasts y.now (length out.old) }
    ensures frames { HasFrames (both operator (X.wave x.now) (Y.wave y.now)) out.new }
    ensures long { length out.new ≡ length out.old }
{
    match operator {
        BinOp::Add => each(BinOp::Add, x, y, out),
        BinOp::Sub => each(BinOp::Sub, x, y, out),
        BinOp::Mul => multiply(x, y, out),
        BinOp::Div => divide(x, y, out),
        _ => each(operator, x, y, out),
    }
}

#[inline(always)]
fn each<X: Side, Y: Side>(operator: BinOp, x: &X, y: &Y, out: &mut [Num])
    requires x { X.lasts x.now (length out.old) }
    requires y { Y.lasts y.now (length out.old) }
    ensures frames { HasFrames (both operator (X.wave x.now) (Y.wave y.now)) out.new }
    ensures long { length out.new ≡ length out.old }
{
    for j in 0..out.len() {
        out[j] = combine(operator, x.at(j), y.at(j));
    }
}

// Divides two operands.
#[inline(always)]
fn divide<X: Side, Y: Side>(x: &X, y: &Y, out: &mut [Num])
    requires x { X.lasts x.now (length out.old) }
    requires y { Y.lasts y.now (length out.old) }
    ensures frames { HasFrames (both op.Div (X.wave x.now) (Y.wave y.now)) out.new }
    ensures long { length out.new ≡ length out.old }
{
    match y.divisor() {
        Some(divisor) => each_quotient(x, y, divisor, out),
        None => each(BinOp::Div, x, y, out),
    }
}

// Divides by a divisor that stays the same.
#[inline(always)]
fn each_quotient<X: Side, Y: Side>(x: &X, y: &Y, divisor: HeldDivisor, out: &mut [Num])
    requires x { X.lasts x.now (length out.old) }
    requires y { Y.lasts y.now (length out.old) }
    requires known { (j : ℕ) → divisor.divisor.value ≡ Y.wave y.now j }
    ensures frames { HasFrames (both op.Div (X.wave x.now) (Y.wave y.now)) out.new }
    ensures long { length out.new ≡ length out.old }
{
    for j in 0..out.len() {
        out[j] = quotient(x.at(j), y.at(j), divisor);
    }
}

// Multiplies two operands.
#[inline(always)]
fn multiply<X: Side, Y: Side>(x: &X, y: &Y, out: &mut [Num])
    requires x { X.lasts x.now (length out.old) }
    requires y { Y.lasts y.now (length out.old) }
    ensures frames { HasFrames (both op.Mul (X.wave x.now) (Y.wave y.now)) out.new }
    ensures long { length out.new ≡ length out.old }
{
    if is_by_gain(x, y) {
        each_product(x, y, out);
    } else if SIZE_BOUND <= each_low(x, y, out) {
        each(BinOp::Mul, x, y, out);
    }
}

// Multiplies the lower 32 bits of both operands, and returns the magnitudes of all factors, combined by or.
// If the result is below 2^32, `out` has the products.
#[inline(always)]
fn each_low<X: Side, Y: Side>(x: &X, y: &Y, out: &mut [Num]) -> u64
    requires x { X.lasts x.now (length out.old) }
    requires y { Y.lasts y.now (length out.old) }
    ensures frames { result < 4294967296 → HasFrames (both op.Mul (X.wave x.now) (Y.wave y.now)) out.new }
    ensures long { length out.new ≡ length out.old }
{
    let mut sizes: u64 = 0;
    for j in 0..out.len() {
        let left = x.at(j);
        let right = y.at(j);
        sizes |= size(left, right);
        out[j] = low_product(left, right);
    }
    sizes
}

// Computes products that fit into 64 bits.
#[inline(always)]
fn each_product<X: Side, Y: Side>(x: &X, y: &Y, out: &mut [Num])
    requires x { X.lasts x.now (length out.old) }
    requires y { Y.lasts y.now (length out.old) }
    requires narrow { AreNarrow (length out.old) (X.wave x.now) (Y.wave y.now) }
    ensures frames { HasFrames (both op.Mul (X.wave x.now) (Y.wave y.now)) out.new }
    ensures long { length out.new ≡ length out.old }
{
    for j in 0..out.len() {
        out[j] = product(x.at(j), y.at(j));
    }
}

// Computes a product that fits into 64 bits.
#[inline(always)]
fn product(x: Num, y: Num) -> Num
    requires { IsNarrow x y }
    ensures { result ≡ product_of x y }
{
    Num::of_product(x.raw() * y.raw())
}

// Returns true only if one of the factors is a gain, which makes no number larger.
#[inline(always)]
fn is_by_gain<X: Side, Y: Side>(x: &X, y: &Y) -> bool
    ensures { result ≡ true → (count : ℕ) → AreNarrow count (X.wave x.now) (Y.wave y.now) }
{
    x.is_gain() || y.is_gain()
}

// Below 2^32 only if both factors have 32 bits.
#[inline(always)]
fn size(x: Num, y: Num) -> u64
    ensures { result < 4294967296 → (IsShort x × IsShort y) }
{
    lifted(x.raw()) | lifted(y.raw())
}

// Below 2^32 only if the number has 32 bits.
#[inline(always)]
fn lifted(x: i64) -> u64
    requires { IsRaw x }
    ensures { result < 4294967296 → IsShort x }
{
    (x + 2_147_483_648).cast_unsigned()
}

// Returns the product of the lower 32 bits of two numbers. It is the product of the numbers if these have 32
// bits.
#[inline(always)]
fn low_product(x: Num, y: Num) -> Num
    ensures { IsShort x → IsShort y → result ≡ product_of x y }
{
    Num::of_product(low_times(x.raw(), y.raw()))
}

#[inline(always)]
fn low_times(x: i64, y: i64) -> i64
    ensures { IsShort x → IsShort y → result ≡ x *ℤ y }
{
    low(x) * low(y)
}

// Returns the lower 32 bits of a number, with their sign.
#[inline(always)]
fn low(x: i64) -> i64
    ensures value { IsShort x → result ≡ x }
    ensures small { unsigned_abs result ≤ 2 ^ 31 }
{
    x.wrapping_mul(4_294_967_296) >> 32
}
