// The number of chains along edges that cover the notes of a cycle.
ghost use Rattle.cs_base.specs.Limits.{most_notes};
ghost use Rattle.std.specs.Prelude.{◌≡◌, ◌<◌, ◌≤◌, ℕ, length, IfOk, IfSome, IfNone};
ghost use Rattle.cs_graph.specs.{Cover.HasCover, Graph.Edge, Graph.LeadsForward, inner.Covering.IsFree};
ghost use Rattle.cs_graph.specs.{inner.Covering.AreTaken, inner.Index.AreInto, inner.Index.range_at};

use cs_base::OutOfMemory;
use std::alloc::Global;

/// Divides the notes into chains, and returns the number of chains. In serial order, each note continues the
/// chain of a note from which an edge leads to it, if no other note continues that chain; otherwise it begins
/// a chain. `into` has, for each note, the range of the edges into it: the first, and the one after the last.
pub fn count_chains(
    alloc: Global,
    edges: &[(u32, u32)],
    into: &[(u32, u32)],
) -> Result<u32, OutOfMemory>
    requires few { length into.now ≤ most_notes }
    requires forward { LeadsForward edges.now (length into.now) }
    requires ranges { (t : ℕ) → t < length into.now
        → AreInto edges.now t (range_at into.now t).0 (range_at into.now t).1 }
    ensures { IfOk result (HasCover edges.now (length into.now)) }
{
    let mut continued = vec![in alloc; false; into.len()]?;
    let mut count = 0;
    for note in 0..into.len() {
        match free_before(edges, into[note], &continued) {
            Some(earlier) => continued[earlier as usize] = true,
            None => count += 1,
        }
    }
    Ok(count)
}

// The first note that has an edge in the range, and whose chain has no later note yet.
fn free_before(edges: &[(u32, u32)], range: (u32, u32), continued: &[bool]) -> Option<u32>
    requires within { (e : ℕ) → range.0 ≤ e → e < range.1 → e < length edges.now }
    requires forward { LeadsForward edges.now (length continued.now) }
    ensures some { IfSome result (IsFree edges.now continued.now range.0 range.1) }
    ensures none { IfNone result (AreTaken edges.now continued.now range.0 range.1) }
{
    for edge in range.0..range.1 {
        let (earlier, _) = edges[edge as usize];
        if !continued[earlier as usize] {
            return Some(earlier);
        }
    }
    None
}
