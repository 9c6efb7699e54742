ghost use Rattle.std.specs.Prelude.{◌≡◌, ℕ, List, [], ◌++◌, ◌<◌, ◌-◌, replicate};
ghost use Rattle.cs_edge.specs.{Taps.peak_of, Taps.peak_line, Taps.five_digits, Taps.fitting, inner.Page.Shows};

use crate::Tap;
use crate::page::{add_number, add_piece};
use itoa::Buffer;

/// A meter of the greatest absolute value of the mix.
#[derive(Drop)]
pub struct PeakTap {
    peak: u64,
}

impl PeakTap {
    /// Returns a meter that represents the empty list.
    pub fn new() -> PeakTap
        ensures { ⟦<PeakTap as Tap>⟧.stands_for result [] }
    {
        PeakTap { peak: 0 }
    }
}

impl Tap for PeakTap {
    ghost stands_for = { λ t h. t.peak ≡ peak_of h };

    ghost text = { λ t room. fitting room (peak_line t.peak) };

    fn take(&mut self, frames: &[i64]) {
        for z in frames {
            self.peak = self.peak.max(z.unsigned_abs());
        }
    }

    fn line(&self, out: &mut [u8]) -> usize {
        put_peak(out, self.peak).unwrap_or(0)
    }
}

// Writes a peak's line at the start of the buffer, if it fits.
fn put_peak(out: &mut [u8], peak: u64) -> Option<usize>
    ensures { Shows result out.new (peak_line peak) }
{
    let used = add_piece(out, Some(0), b"peak ");
    let used = add_number(out, used, peak / 65536);
    let used = add_piece(out, used, b".");
    let used = add_five_digits(out, used, peak % 65536 * 100_000 / 65536);
    add_piece(out, used, b"\n")
}

// Appends a number below 100,000 in five digits, with leading zeros.
fn add_five_digits(out: &mut [u8], used: Option<usize>, n: u64) -> Option<usize>
    requires { n < 100000 }
    ensures { (text : List ℕ) → Shows used out.old text → Shows result out.new (text ++ five_digits n) }
{
    let mut buffer = Buffer::new();
    let digits = buffer.format(n).as_bytes();
    let used = add_piece(out, used, zeros_before(digits.len()));
    add_piece(out, used, digits)
}

// The zeros that pad this number of digits to five.
fn zeros_before(digits: usize) -> &'static [u8]
    ensures { result.now ≡ replicate (5 - digits) 48 }
{
    match digits {
        0 => b"00000",
        1 => b"0000",
        2 => b"000",
        3 => b"00",
        4 => b"0",
        _ => b"",
    }
}
