// The edges into one note, appended to the existing edges.
ghost use Rattle.cs_base.specs.Limits.{most_notes};
ghost use Rattle.std.specs.Prelude.{◌≡◌, ◌<◌, ◌≤◌, ℕ, List, length, OnOk};
ghost use Rattle.std.specs.List.{All, AllPairs};
ghost use Rattle.cs_graph.specs.{Graph.ComesBefore, inner.Growing.AreDrawnTo};

use crate::note_set::{BLOCK, NoteSet};
use cs_base::OutOfMemory;

/// Appends the edges from a set of earlier notes to a note.
pub fn add_edges(edges: &mut Vec<(u32, u32)>, near: &NoteSet, note: u32) -> Result<(), OutOfMemory>
    requires small { note < most_notes }
    requires ordered { AllPairs ComesBefore edges.old.items }
    requires before { All (λ e. e.1 < note) edges.old.items }
    ensures { OnOk result (AreDrawnTo edges.old.items near.now note note edges.new.items) }
{
    for block in 0..note.div_ceil(BLOCK) {
        if !near.is_clear(block) {
            add_block(
                edges,
                near,
                note,
                block * BLOCK,
                note.min(block * BLOCK + BLOCK),
            )?;
        }
    }
    Ok(())
}

// Appends the edges from the members of the set between `from` (inclusive) and `to` (exclusive).
fn add_block(
    edges: &mut Vec<(u32, u32)>,
    near: &NoteSet,
    note: u32,
    from: u32,
    to: u32,
) -> Result<(), OutOfMemory>
    requires small { (from ≤ to) × (to ≤ most_notes) }
    ensures { OnOk result ((old : List (ℕ × ℕ)) → AreDrawnTo old near.now note from edges.old.items
        → AreDrawnTo old near.now note to edges.new.items) }
{
    for earlier in from..to {
        if near.contains(earlier) {
            edges.push((earlier, note))?;
        }
    }
    Ok(())
}
