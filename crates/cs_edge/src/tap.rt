ghost use Rattle.std.specs.Prelude.{◌≡◌, ℕ, ℤ, List, ◌++◌, ◌≤◌, length, take};

/// A meter: it takes the mix, frame by frame and channel by channel, and writes one line of the report.
pub trait Tap: Drop {
    /// Whether the tap represents these values, which are all that it has taken.
    ghost stands_for: { Self → List ℤ → Type 0 };

    /// The line that the tap writes into a buffer with this number of bytes.
    ghost text: { Self → ℕ → List ℕ };

    /// Takes the next values of the mix.
    fn take(&mut self, frames: &[i64])
        ensures { (h : List ℤ) → stands_for self.old h → stands_for self.new (h ++ frames.now) };

    /// Writes its line at the start of `out`, or nothing if there is no room, and returns the number of bytes
    /// written.
    fn line(&self, out: &mut [u8]) -> usize
        ensures count { result ≤ length out.old }
        ensures line { take result out.new ≡ text self.now (length out.old) };
}
