// The work at one note: which of its earlier conflicting notes are nearest, which notes lead to it, and its
// level.
ghost use Rattle.cs_base.specs.Limits.{most_notes};
ghost use Rattle.std.specs.Prelude.{◌≡◌, ◌==◌, ◌||◌, ◌&&◌, not, ℕ, ◌<◌, ◌≤◌, ◌+◌, true, false, max, length};
ghost use Rattle.cs_graph.specs.{inner.Nearest.IsClosed, inner.Nearest.IsFound, inner.Sets.has};

use crate::note_set::{BLOCK, NoteSet};
use std::cmp::max;

/// The data about a note after it has been added: the earlier notes from which a chain of conflicts leads to
/// it, and its level.
#[derive(Drop)]
pub struct Known {
    pub reach: NoteSet,
    pub level: u32,
}

/// The data found at a note so far, scanning the earlier notes from the latest down.
#[derive(Drop)]
pub struct Found {
    pub near: NoteSet,
    pub known: Known,
}

impl Found {
    fn new() -> Found
        ensures near { (p : ℕ) → has result.near p ≡ false }
        ensures reach { (p : ℕ) → has result.known.reach p ≡ false }
        ensures level { result.known.level ≡ 0 }
    {
        Found {
            near: NoteSet::new(),
            known: Known {
                reach: NoteSet::new(),
                level: 0,
            },
        }
    }

    // Adds an earlier conflicting note: it is nearest unless a chain leads from it to a note that was added
    // before.
    fn take_in(&mut self, note: u32, known: &Known)
        requires small { note < most_notes }
        requires low { known.now.level < most_notes }
        ensures near { (p : ℕ) → has self.new.near p
            ≡ (has self.old.near p || (p == note && not (has self.old.known.reach note))) }
        ensures reached { has self.old.known.reach note ≡ true
            → (p : ℕ) → has self.new.known.reach p ≡ has self.old.known.reach p }
        ensures reaches { has self.old.known.reach note ≡ false → (p : ℕ)
            → has self.new.known.reach p
            ≡ (has self.old.known.reach p || p == note || has known.now.reach p) }
        ensures level { self.new.known.level ≡ max self.old.known.level (known.now.level + 1) }
    {
        self.known.level = max(self.known.level, known.level + 1);
        if !self.known.reach.contains(note) {
            self.near.insert(note);
            self.known.reach.insert(note);
            self.known.reach.join(&known.reach);
        }
    }
}

/// Finds the nearest among the notes in `met`, which conflict with `note`, using the data about the earlier
/// notes.
pub fn nearest(met: &NoteSet, note: u32, known: &[Known]) -> Found
    requires small { note < most_notes }
    requires known { length known.now ≡ note }
    requires closed { IsClosed known.now note }
    ensures { IsFound met.now known.now 0 note result }
{
    let mut found = Found::new();
    for block in (0..note.div_ceil(BLOCK)).rev() {
        if !met.is_clear(block) {
            sort_block(
                &mut found,
                met,
                known,
                block * BLOCK,
                note.min(block * BLOCK + BLOCK),
            );
        }
    }
    found
}

// Adds the members of `met` between `from` (inclusive) and `to` (exclusive), from the latest down; the
// members from `to` on have been added before.
fn sort_block(found: &mut Found, met: &NoteSet, known: &[Known], from: u32, to: u32)
    requires small { length known.now < most_notes }
    requires range { (from ≤ to) × (to ≤ length known.now) }
    requires closed { IsClosed known.now (length known.now) }
    requires found { IsFound met.now known.now to (length known.now) found.old }
    ensures { IsFound met.now known.now from (length known.now) found.new }
{
    for q in (from..to).rev() {
        if met.contains(q) {
            found.take_in(q, &known[q as usize]);
        }
    }
}
