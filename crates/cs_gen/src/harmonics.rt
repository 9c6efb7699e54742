// GEN10: adds one harmonic after another to all points.
ghost use Rattle.std.specs.Prelude.{ℕ, pos, ◌≡◌, ◌<◌, ◌≤◌, ◌+◌, ◌%◌, ◌^◌, ◌*ℤ◌, ◌+ℤ◌, unsigned_abs, length, IfOk};
ghost use Rattle.std.specs.List.{All};
ghost use Rattle.cs_base.specs.Numbers.{clamp, floor_div};
ghost use Rattle.cs_gen.specs.Points.{at_places, full_scale, harmonics, len_of};
ghost use Rattle.cs_gen.specs.inner.Harmonics.{AreHeights, AreRaised, AreSums, harmonic};

use crate::place::len_of;
use crate::sine::{FULL_SCALE, TURN, wave};
use cs_base::Num;
use std::alloc::{AllocError, Global};

/// Returns the points at places 0 to `size` - 1. `strengths` holds the strengths of harmonics 1, 2 and so on.
pub(crate) fn harmonic_points(
    alloc: Global,
    size: u64,
    strengths: &[Num],
) -> Result<Vec<Num>, AllocError>
    requires some { 2 ≤ size }
    requires wide { size ≤ 65537 }
    ensures { let wave = λ (j : ℕ). clamp (harmonics (len_of size) strengths.now j) in
        IfOk result (λ points. points.items ≡ at_places size wave) }
{
    let heights = heights_of(alloc, u64::from(len_of(size as u32)))?;
    let mut sums = Vec::new(alloc);
    sums.resize(size as usize, 0)?;
    add_harmonics(&mut sums, &heights, strengths);
    let mut points = Vec::new(alloc);
    for sum in &sums {
        points.push(Num::of_wide(*sum))?;
    }
    Ok(points)
}

// Returns the height of the sine wave at `len` evenly spaced places of one period.
fn heights_of(alloc: Global, len: u64) -> Result<Vec<i64>, AllocError>
    requires some { 0 < len }
    requires wide { len ≤ 65536 }
    ensures { IfOk result (λ heights. AreHeights len heights.items) }
{
    let mut heights = Vec::new(alloc);
    for place in 0..len {
        heights.push(wave(place * TURN / len))?;
    }
    Ok(heights)
}

// Adds every harmonic whose strength isn't 0.
fn add_harmonics(sums: &mut [i128], heights: &[i64], strengths: &[Num])
    requires some { 0 < length heights.now }
    requires wide { length heights.now ≤ 65536 }
    requires heights { AreHeights (length heights.now) heights.now }
    requires none { All (λ z. z ≡ pos 0) sums.old }
    ensures sums { AreSums (length heights.now) strengths.now (length strengths.now) (length sums.old) sums.new }
    ensures room { All (λ z. unsigned_abs z ≤ 2 ^ 126) sums.new }
{
    let len = heights.len() as u64;
    for (k, strength) in strengths.iter().enumerate() {
        if strength.raw() != 0 {
            let step = (k as u64 + 1) % len;
            add_harmonic(sums, heights, step, strength.raw());
        }
    }
}

// Adds one harmonic. From each point to the next its phase advances by `step` places of the period.
fn add_harmonic(sums: &mut [i128], heights: &[i64], step: u64, strength: i64)
    requires wide { length heights.now ≤ 65536 }
    requires heights { AreHeights (length heights.now) heights.now }
    requires step { step < length heights.now }
    requires strong { unsigned_abs strength ≤ 2 ^ 47 }
    requires room { All (λ z. unsigned_abs z ≤ 2 ^ 126) sums.old }
    ensures { AreRaised (harmonic (length heights.now) step strength) sums.old sums.new }
{
    let len = heights.len() as u64;
    let mut phase = 0;
    for sum in sums.iter_mut() {
        *sum = raised(*sum, scaled(strength, heights[phase as usize]));
        phase = turned(len, phase, step);
    }
}

fn raised(sum: i128, by: i64) -> i128
    requires room { unsigned_abs sum ≤ 2 ^ 126 }
    ensures { result ≡ sum +ℤ by }
{
    sum + i128::from(by)
}

// A strength times a height of the wave, rounded down.
fn scaled(strength: i64, height: i64) -> i64
    requires strong { unsigned_abs strength ≤ 2 ^ 47 }
    requires high { unsigned_abs height ≤ 32767 }
    ensures value { result ≡ floor_div (strength *ℤ height) full_scale }
    ensures bounded { unsigned_abs result ≤ 2 ^ 47 }
{
    (strength * height).div_euclid(FULL_SCALE)
}

// Returns the phase advanced by `step`, in a period of `len` places.
fn turned(len: u64, phase: u64, step: u64) -> u64
    requires wide { len ≤ 65536 }
    requires phase_within { phase < len }
    requires step_within { step < len }
    ensures value { result ≡ (phase + step) % len }
    ensures within { result < len }
{
    let next = phase + step;
    if next < len { next } else { next - len }
}
