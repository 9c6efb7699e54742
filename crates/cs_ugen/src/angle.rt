// An angle that wraps by itself when it exceeds one turn.
ghost use Rattle.std.specs.Prelude.{◌≡◌, ◌+◌, ◌*◌, ◌/◌, ◌%◌, ◌<◌, ◌≤◌, ◌^◌};
ghost use Rattle.cs_ugen.specs.Phases.{turn};

use std::marker::Model;

/// The number of parts of a turn.
pub(crate) const TURN: u32 = 16_777_216;

// One part of a turn in an angle's 64-bit word.
const PART: u64 = 1_099_511_627_776;

/// An angle from 0 to below one turn, in 2^24ths of a turn. It is stored in the upper bits of a word whose
/// other bits are 0, so that a sum beyond one turn wraps by itself.
#[derive(Clone, Copy)]
pub(crate) struct Angle {
    word: u64,
}

impl Model for Angle {
    ghost use Rattle.std.specs.Prelude.{ℕ, ◌≡◌, ◌*◌, ◌/◌};
    ghost use Rattle.std.proofs.Common.{ap};

    ghost Value = { ℕ };

    ghost view = { λ a. a.word / 1099511627776 };

    ghost invariant = { λ a. a.word / 1099511627776 * 1099511627776 ≡ a.word };

    ghost inverse = { λ parts. record { word = parts * 1099511627776 } };

    ghost inverse_ok = { λ a h. ap (λ w. record { word = w }) h };
}

impl Angle {
    /// The angle of `parts` parts, in 2^24ths of a turn.
    #[inline(always)]
    pub(crate) fn of(parts: u32) -> Angle
        requires { parts < turn }
        ensures { result ≡ parts }
    {
        Angle {
            word: u64::from(parts) * PART,
        }
    }

    /// The angle in 2^24ths of a turn.
    #[inline(always)]
    pub(crate) fn parts(self) -> u32
        ensures value { result ≡ self }
        ensures small { result < turn }
    {
        (self.word / PART) as u32
    }

    /// The place of the angle in a curve of `len` points per turn, rounded down.
    #[inline(always)]
    pub(crate) fn place(self, len: usize) -> usize
        requires some { 1 ≤ len }
        requires few { len ≤ 65536 }
        ensures value { result ≡ self * len / turn }
        ensures inside { result < len }
    {
        upper(self.times(len))
    }

    /// The distance of the angle from that place, in 65,536ths of the way to the next place.
    #[inline(always)]
    pub(crate) fn fraction(self, len: usize) -> u32
        requires { len ≤ 65536 }
        ensures value { result ≡ self * len % turn / 256 }
        ensures small { result < 65536 }
    {
        lower(self.times(len))
    }

    // The angle's word times a number.
    #[inline(always)]
    fn times(self, len: usize) -> u128
        ensures value { result ≡ self * len * 1099511627776 }
        ensures small { self < turn }
    {
        u128::from(self.word) * u128::from(len as u64)
    }
}

/// The sum of two angles, within one turn.
#[inline(always)]
pub(crate) fn moved(phase: Angle, by: Angle) -> Angle
    ensures value { result ≡ (phase + by) % turn }
    ensures small { result < turn }
{
    Angle {
        word: phase.word.wrapping_add(by.word),
    }
}

// The number of full turns in a product: its upper 64 bits.
#[inline(always)]
fn upper(n: u128) -> usize
    requires { n < 2 ^ 96 }
    ensures { result ≡ n / 2 ^ 64 }
{
    (n / 18_446_744_073_709_551_616) as usize
}

// The rest of a product below a full turn, in 2^48ths of 2^64.
#[inline(always)]
fn lower(n: u128) -> u32
    ensures { result ≡ n % 2 ^ 64 / 2 ^ 48 }
{
    (n % 18_446_744_073_709_551_616 / 281_474_976_710_656) as u32
}
