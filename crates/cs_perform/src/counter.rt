// Counting the cycles of a performance.
ghost use Rattle.std.specs.Prelude.{◌≡◌, ◌<◌, ◌≤◌, ◌+◌, ℕ, ◌∷◌, [], ◌++◌, length};
ghost use Rattle.cs_perform.specs.Counted.{CountsOn, IsTallyOf, Receipts, room_of};

use cs_desk::{Receipt, Tally};
use cs_voice::Voice;

/// Counts the cycles of a performance, each by its receipt, which holds the voices as the cycle left them.
/// Each counter may count in its own way: the caller of a performance only knows that `count` has counted a
/// receipt.
pub trait Counter {
    /// Whether it has counted exactly these receipts, in this order.
    ghost has_counted: { Self → Receipts → Type 0 };

    /// How much more it can count: a cycle needs at most one, and one for each of its notes.
    ghost room: { Self → ℕ };

    /// Counts a cycle by its receipt, and returns the voices.
    fn count<'t>(&mut self, receipt: Receipt<Voice<'t>>) -> Vec<Voice<'t>>
        requires room { length receipt < room self.old }
        ensures voices { result.items ≡ receipt.entry }
        ensures counted { CountsOn has_counted self.old self.new (receipt.entry ∷ []) }
        ensures room { room self.old ≤ room self.new + (length receipt.entry + 1) };
}

/// A tally counts the cycles, and the notes of all of them.
impl Counter for Tally {
    ghost use Rattle.std.specs.Prelude.{◌≡◌, ◌<◌, ◌≤◌, ◌+◌, ◌++◌, ◌∷◌, [], length};
    ghost use Rattle.cs_perform.specs.Counted.{CountsOn, IsTallyOf, Receipts, room_of};

    ghost has_counted = { λ t receipts. IsTallyOf receipts t };

    ghost room = { room_of };

    fn count<'t>(&mut self, receipt: Receipt<Voice<'t>>) -> Vec<Voice<'t>> {
        self.add(receipt)
    }
}
