// The edges of a cycle, linked into lists by the note that they leave.
ghost use Rattle.std.specs.Prelude.{◌≡◌, ◌+◌, ◌<◌, ◌^◌, length, IfOk};
ghost use Rattle.cs_graph.specs.{Graph.LeadsForward, inner.Index.IsChained};

use cs_base::OutOfMemory;
use std::alloc::Global;

/// Returns, for each note, the first edge from it, and for each edge, the next edge from the same note. The
/// number of edges means "none".
pub fn chained(
    alloc: Global,
    edges: &[(u32, u32)],
    notes: u32,
) -> Result<(Vec<u32>, Vec<u32>), OutOfMemory>
    requires forward { LeadsForward edges.now notes }
    requires few { length edges.now < 2 ^ 31 }
    ensures notes { IfOk result (λ r. length r.0.items ≡ notes) }
    ensures chained { IfOk result (λ r. IsChained edges.now 0 r.0.items r.1.items) }
{
    let none = edges.len() as u32;
    let mut first_out = vec![in alloc; none; notes as usize]?;
    let mut next_out = vec![in alloc; none; edges.len()]?;
    let mut edge = none;
    while edge > 0 {
        edge -= 1;
        link(edges, edge, &mut first_out, &mut next_out);
    }
    Ok((first_out, next_out))
}

// Inserts an edge before the later edges from its note.
fn link(edges: &[(u32, u32)], edge: u32, first_out: &mut Vec<u32>, next_out: &mut Vec<u32>)
    requires within { edge < length edges.now }
    requires few { length edges.now < 2 ^ 31 }
    requires forward { LeadsForward edges.now (length first_out.old.items) }
    requires chained { IsChained edges.now (edge + 1) first_out.old.items next_out.old.items }
    ensures chained { IsChained edges.now edge first_out.new.items next_out.new.items }
    ensures notes { length first_out.new.items ≡ length first_out.old.items }
{
    let from = edges[edge as usize].0 as usize;
    next_out[edge as usize] = first_out[from];
    first_out[from] = edge;
}
