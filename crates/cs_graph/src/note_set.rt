// A set of the notes of a cycle, with one bit for each note.
ghost use Rattle.cs_base.specs.Limits.{most_notes};
ghost use Rattle.std.specs.Prelude.{◌≡◌, ◌==◌, ◌||◌, ◌/◌, ℕ, ◌<◌, true, false};
ghost use Rattle.cs_graph.specs.inner.Sets.{has};

use cs_base::MOST_NOTES;
use std::marker::Model;

// The number of 64-bit words that have a bit for each note.
const WORDS: usize = MOST_NOTES / 64;

/// Number of notes whose bits are in one word. A block of this size is skipped if it has no member.
pub const BLOCK: u32 = 64;

/// A set of the notes that a cycle may have, as bits in words. Contracts see the words, and test for a member
/// with `has`.
#[derive(Clone, Copy)]
pub struct NoteSet {
    words: [u64; WORDS],
}

impl Model for NoteSet {
    ghost use Rattle.std.specs.Prelude.{ℕ, List, length, ◌≡◌};

    ghost Value = { List ℕ };

    ghost view = { λ s. s.words };

    ghost invariant = { λ s. length s.words ≡ 8 };

    ghost inverse = { λ ws. record { words = ws } };
}

impl NoteSet {
    /// Returns the empty set.
    pub fn new() -> NoteSet
        ensures { (i : ℕ) → has result i ≡ false }
    {
        NoteSet { words: [0; WORDS] }
    }

    /// Whether `note` is a member.
    pub fn contains(&self, note: u32) -> bool
        requires { note < most_notes }
        ensures { result ≡ has self.now note }
    {
        self.words[(note / 64) as usize] >> (note % 64) & 1 == 1
    }

    /// Returns true only if none of the 64 notes from 64 times `block` on is a member.
    pub fn is_clear(&self, block: u32) -> bool
        requires { block < 8 }
        ensures { result ≡ true → (i : ℕ) → i / 64 ≡ block → has self.now i ≡ false }
    {
        self.words[block as usize] == 0
    }

    /// Adds `note`.
    pub fn insert(&mut self, note: u32)
        requires { note < most_notes }
        ensures { (i : ℕ) → has self.new i ≡ (has self.old i || i == note) }
    {
        self.words[(note / 64) as usize] |= 1u64 << (note % 64);
    }

    /// Adds the members of another set.
    pub fn join(&mut self, other: &NoteSet)
        ensures { (i : ℕ) → has self.new i ≡ (has self.old i || has other.now i) }
    {
        for k in 0..WORDS {
            self.words[k] |= other.words[k];
        }
    }
}
