// Checks whether a table can be made, and finds the fault if it can't.
ghost use Rattle.std.specs.Prelude.{◌≡◌, Some, None, OnOk, IfErr, unsigned_abs, All, pos, ◌||◌, ◌+ℤ◌, ◌≤ℤ◌, int_lt};
ghost use Rattle.std.specs.{Prelude.◌<◌, Prelude.◌+◌, Prelude.◌*◌, List.list_any, Ordering.int_eq};
ghost use Rattle.cs_gen.specs.Faults.{table_fault, is_size, is_gen, has_negative_length, argument, segments_of};
ghost use Rattle.cs_base.specs.Numbers.{whole_below};

use cs_base::Num;

/// Why a table can't be made. If several reasons apply, the first in this order is reported.
#[derive(Clone, Copy, Debug, PartialEq, Eq)]
pub enum GenFault {
    /// The size is neither a power of two from 2 to 65,536 nor one more than such a power.
    Size,
    /// The GEN is none of 2, 7, 10, -2, -7 and -10.
    Unknown,
    /// A segment of GEN07 has a negative length.
    NegativeLength,
}

// The powers of two that a table's length may be. A size is one of these lengths, or one more.
const LENGTHS: [i64; 16] = [
    2, 4, 8, 16, 32, 64, 128, 256, 512, 1024, 2048, 4096, 8192, 16384, 32768, 65536,
];

/// Checks whether a table of size `size`, GEN `gen_` and arguments `args` can be made. Returns the first
/// fault otherwise.
pub fn check_table(size: i64, gen_: i64, args: &[Num]) -> Result<(), GenFault>
    ensures accepted { OnOk result (table_fault size gen_ args.now ≡ None) }
    ensures size { OnOk result ((pos 2 ≤ℤ size) × (size ≤ℤ pos 65537)) }
    ensures refused { IfErr result (λ fault. table_fault size gen_ args.now ≡ Some fault) }
{
    if !is_size(size) {
        return Err(GenFault::Size);
    }
    if !is_gen(gen_) {
        return Err(GenFault::Unknown);
    }
    if gen_.unsigned_abs() == 7 && has_negative_length(args) {
        return Err(GenFault::NegativeLength);
    }
    Ok(())
}

#[tactic(auto, unfolding(crate::specs::Faults::is_size, crate::specs::Faults::lengths))]
fn is_size(size: i64) -> bool
    ensures { result ≡ is_size size }
{
    is_one_of(&LENGTHS, size)
}

// Whether the size is one of the lengths, or one more.
fn is_one_of(lengths: &[i64], size: i64) -> bool
    requires { All (λ len. len ≤ℤ pos 65536) lengths.now }
    ensures { result ≡ list_any (λ len. int_eq size len || int_eq size (len +ℤ pos 1)) lengths.now }
{
    lengths.iter().any(|len| is_len_or_one_more(size, *len))
}

fn is_len_or_one_more(size: i64, len: i64) -> bool
    requires { len ≤ℤ pos 65536 }
    ensures { result ≡ (int_eq size len || int_eq size (len +ℤ pos 1)) }
{
    size == len || size == len + 1
}

#[tactic(auto, unfolding(crate::specs::Faults::is_gen))]
fn is_gen(gen_: i64) -> bool
    ensures { result ≡ is_gen gen_ }
{
    matches!(gen_.unsigned_abs(), 2 | 7 | 10)
}

#[tactic(auto, unfolding(crate::specs::Faults::has_negative_length))]
fn has_negative_length(args: &[Num]) -> bool
    ensures { result ≡ has_negative_length args.now }
{
    (0..segments_of(args)).any(|k| is_negative_segment(args, k))
}

/// The number of segments that GEN07's arguments describe: one for each value after the first.
pub(crate) fn segments_of(args: &[Num]) -> usize
    ensures { result ≡ segments_of args.now }
{
    args.len().saturating_sub(1) / 2
}

/// Argument `k`, counted from 0. Returns 0 if it is missing.
pub(crate) fn argument(args: &[Num], k: usize) -> Num
    ensures { result ≡ argument args.now k }
{
    match args.get(k) {
        Some(value) => *value,
        None => Num::of_raw(0),
    }
}

// Whether segment `k` has a negative length. The length is rounded down to an integer, so a negative one
// stays negative.
fn is_negative_segment(args: &[Num], k: usize) -> bool
    requires { k < segments_of args.now }
    ensures { result ≡ int_lt (whole_below (argument args.now (2 * k + 1))) (pos 0) }
{
    args[2 * k + 1].raw() < 0
}
