// Converts times to steps of a unit.
ghost use Rattle.std.specs.Prelude.{◌≡◌, ◌<◌, ◌≤◌, ◌+◌, ◌*◌, ◌^◌, max, pos, ◌*ℤ◌, unsigned_abs};
ghost use Rattle.cs_base.specs.{Heads.header_of_head, Numbers.IsRaw, Numbers.floor_div, Numbers.one};
ghost use Rattle.cs_signal.specs.Pace.{from_zero, pace_of, samples_of, cycles_of, steps_of, number_after};

use cs_base::{Head, Num, ONE, Rate};

/// A time in seconds, converted to samples and rounded down. A negative time is 0 samples.
pub(crate) fn samples(time: Num, head: &Head) -> u64
    ensures value { result ≡ samples_of (pace_of (header_of_head head.now)) time }
    ensures bounded { result < 2 ^ 49 }
{
    counted(times(time, head.sr), ONE as u32)
}

/// A time in seconds, converted to steps of a unit. A step is a sample at a-rate, and a control cycle
/// otherwise.
pub(crate) fn steps(time: Num, rate: Rate, head: &Head) -> u64
    ensures value { result ≡ steps_of rate (pace_of (header_of_head head.now)) time }
    ensures bounded { result < 2 ^ 49 }
{
    match rate {
        Rate::Audio => samples(time, head),
        Rate::Init | Rate::Control => counted(times(time, head.sr), ONE as u32 * head.ksmps),
    }
}

/// The length in samples of a delay of `time` seconds, at least one.
pub fn delay_samples(time: Num, head: &Head) -> u64
    ensures value { result ≡ max 1 (samples_of (pace_of (header_of_head head.now)) time) }
    ensures bounded { result < 2 ^ 49 }
{
    samples(time, head).max(1)
}

/// The number of the step after this one. It doesn't grow beyond 2^63 - 1.
pub(crate) fn next_number(number: u64) -> u64
    ensures { result ≡ number_after (number + 1) }
{
    number.min(i64::MAX as u64 - 1) + 1
}

// The exact product.
fn times(time: Num, rate: u32) -> i128
    requires { rate ≤ 192000 }
    ensures value { result ≡ time *ℤ pos rate }
    ensures bounded { unsigned_abs result < 2 ^ 65 }
{
    i128::from(time.raw()) * i128::from(rate)
}

// The exact quotient rounded down, as a count. A negative quotient is 0.
fn counted(n: i128, d: u32) -> u64
    requires low { 65536 ≤ d }
    requires bounded { unsigned_abs n < 2 ^ 65 }
    ensures value { result ≡ from_zero (floor_div n (pos d)) }
    ensures bounded { result < 2 ^ 49 }
{
    n.div_euclid(i128::from(d)).max(0) as u64
}
