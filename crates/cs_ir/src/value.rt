// The results of operators and functions on numbers.
ghost use Rattle.std.specs.Prelude.{◌≡◌, ◌≤◌, ◌%◌, slice_index_or};
ghost use Rattle.cs_ir.specs.Values.{applied, combined, cpspch_of, holds, negated, octave, pitch_class, semitones};
ghost use Rattle.cs_ir.specs.Values.{truth};

use cs_base::{Num, ONE};
use cs_words::{BinOp, Func};

// The frequencies of the twelve semitones from middle C upwards, in thousandths of a hertz.
const SEMITONES: [u64; 12] = [
    261_626, 277_183, 293_665, 311_127, 329_628, 349_228, 369_994, 391_995, 415_305, 440_000,
    466_164, 493_883,
];

/// Whether a condition holds: any value except 0 does.
pub fn holds(x: Num) -> bool
    ensures { result ≡ holds x }
{
    x.raw() != 0
}

/// 1 if `is_true`, otherwise 0.
pub fn truth(is_true: bool) -> Num
    ensures { result ≡ truth is_true }
{
    Num::exact(if is_true { ONE } else { 0 })
}

/// The result of an operator on two values.
#[inline(always)]
pub fn combine(operator: BinOp, x: Num, y: Num) -> Num
    ensures { result ≡ combined operator x y }
{
    match operator {
        BinOp::Or => truth(holds(x) || holds(y)),
        BinOp::And => truth(holds(x) && holds(y)),
        BinOp::Less => truth(x.compare(y).is_lt()),
        BinOp::Greater => truth(x.compare(y).is_gt()),
        BinOp::LessEqual => truth(x.compare(y).is_le()),
        BinOp::GreaterEqual => truth(x.compare(y).is_ge()),
        BinOp::Equal => truth(x.compare(y).is_eq()),
        BinOp::NotEqual => truth(x.compare(y).is_ne()),
        BinOp::Add => x.add(y),
        BinOp::Sub => x.sub(y),
        BinOp::Mul => x.mul(y),
        BinOp::Div => x.div(y),
        BinOp::Rem => x.rem(y),
    }
}

/// The negative of a value.
pub fn negate(x: Num) -> Num
    ensures { result ≡ negated x }
{
    Num::exact(0).sub(x)
}

/// The result of a function of a value.
pub fn apply(function: Func, x: Num) -> Num
    ensures { result ≡ applied function x }
{
    match function {
        Func::Int => x.int(),
        Func::Frac => x.frac(),
        Func::Abs => x.abs(),
        Func::Floor => x.floor(),
        Func::Cpspch => cpspch(x),
        Func::I => x,
    }
}

fn cpspch(x: Num) -> Num
    ensures { result ≡ cpspch_of x }
{
    let class = pitch_class(x.raw());
    let octave = octave(x.raw(), class);
    let hertz = semitone(class) * 2u64.pow(octave as u32 + 8) / 1_000;
    Num::exact(hertz as i64)
}

fn pitch_class(raw: i64) -> usize
    ensures value { result ≡ pitch_class raw }
    ensures small { result ≤ 100 }
{
    let hundredths = raw.rem_euclid(ONE) * 100;
    (hundredths + ONE / 2).div_euclid(ONE).unsigned_abs() as usize
}

fn octave(raw: i64, class: usize) -> usize
    requires small { class ≤ 100 }
    ensures value { result ≡ octave raw class }
    ensures small { result ≤ 20 }
{
    let octave = raw.div_euclid(ONE) + (class / 12) as i64;
    octave.clamp(0, 20).unsigned_abs() as usize
}

fn semitone(class: usize) -> u64
    ensures value { result ≡ slice_index_or semitones (class % 12) 0 }
    ensures small { result ≤ 493883 }
{
    SEMITONES[class % 12]
}
