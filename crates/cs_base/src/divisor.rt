// A divisor for many divisions: each division multiplies by an approximate inverse and checks the result.
ghost use Rattle.std.specs.Prelude.{◌≡◌, ◌<◌, ◌≤◌, ◌+◌, ◌*◌, ◌^◌, true, pos, ◌≤ℤ◌, ◌<ℤ◌, ◌-ℤ◌, ◌*ℤ◌, unsigned_abs};
ghost use Rattle.cs_base.specs.{Numbers.floor_div, inner.Inverses.IsInverse};

use crate::number::times;

/// A divisor from 1 to 2^48 - 1, with its approximate inverse in units of 2^-64.
#[derive(Clone, Copy)]
pub struct Divisor {
    value: i64,
    inverse: i64,
    ghost low: { pos 1 ≤ℤ value },
    ghost high: { unsigned_abs value < 2 ^ 48 },
    ghost near: { IsInverse value inverse },
}

impl Divisor {
    /// Returns the divisor with this value.
    pub fn of(value: i64) -> Divisor
        requires low { pos 1 ≤ℤ value }
        requires high { unsigned_abs value < 2 ^ 48 }
        ensures { result.value ≡ value }
    {
        let inverse = inverse_of(value);
        Divisor { value, inverse }
    }

    /// Returns `n` divided by the divisor, rounded down.
    #[inline(always)]
    pub fn divide(self, n: i64) -> i64
        requires { unsigned_abs n ≤ 2 ^ 61 }
        ensures { result ≡ floor_div n self.value }
    {
        let guess = upper(n, self.inverse);
        if is_quotient(n, guess, self.value) {
            guess
        } else {
            n.div_euclid(self.value)
        }
    }
}

// The inverse of a number in units of 2^-64, rounded up. The inverses of 1 and 2 don't fit into 64 bits; -1
// takes their place: its guesses fail the check unless the dividend is 0, and `divide` then divides. Since an
// inverse may therefore be negative, the compiler multiplies by it in one instruction.
fn inverse_of(value: i64) -> i64
    requires { pos 1 ≤ℤ value }
    ensures { IsInverse value result }
{
    if value < 3 {
        -1
    } else {
        rounded_up(value.unsigned_abs()) as i64
    }
}

fn rounded_up(size: u64) -> u64
    requires { 3 ≤ size }
    ensures near { result * size ≤ 2 ^ 64 + size }
    ensures fits { result < 2 ^ 63 }
{
    18_446_744_073_709_551_615 / size + 1
}

// The product divided by 2^64, rounded down: its upper 64 bits.
#[inline(always)]
fn upper(n: i64, inverse: i64) -> i64
    requires { unsigned_abs n ≤ 2 ^ 61 }
    ensures { result ≡ floor_div (n *ℤ inverse) (pos 18446744073709551616) }
{
    whole(times(n, inverse))
}

#[inline(always)]
fn whole(product: i128) -> i64
    requires { unsigned_abs product ≤ 2 ^ 125 }
    ensures { result ≡ floor_div product (pos 18446744073709551616) }
{
    (product >> 64) as i64
}

// Whether `guess` is the quotient, given that its product with the divisor fits into 64 bits: the remainder
// must be at least 0 and less than the divisor.
#[inline(always)]
fn is_quotient(n: i64, guess: i64, divisor: i64) -> bool
    requires n { unsigned_abs n ≤ 2 ^ 61 }
    requires low { pos 1 ≤ℤ divisor }
    requires guess { unsigned_abs (guess *ℤ divisor) ≤ 2 ^ 61 + 2 ^ 49 }
    ensures { result ≡ true → guess ≡ floor_div n divisor }
{
    is_rest(rest_of(n, guess, divisor), divisor)
}

#[inline(always)]
fn rest_of(n: i64, guess: i64, divisor: i64) -> i64
    requires n { unsigned_abs n ≤ 2 ^ 61 }
    requires guess { unsigned_abs (guess *ℤ divisor) ≤ 2 ^ 61 + 2 ^ 49 }
    ensures { result ≡ n -ℤ (guess *ℤ divisor) }
{
    n - guess * divisor
}

// Whether a remainder is in range. Read as unsigned, a negative number is greater than any divisor.
#[inline(always)]
fn is_rest(rest: i64, divisor: i64) -> bool
    requires { pos 1 ≤ℤ divisor }
    ensures { result ≡ true → (pos 0 ≤ℤ rest) × (rest <ℤ divisor) }
{
    rest.cast_unsigned() < divisor.cast_unsigned()
}
