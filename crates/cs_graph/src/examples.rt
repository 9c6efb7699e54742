// A cycle as a worked example.
ghost use Rattle.cs_graph.specs.{Conflict.Conflict, Conflict.Near, Graph.IsGraphOf};
ghost use Rattle.cs_graph.specs.Examples.{small_cycle, small_graph};

/// A cycle written out by hand: a note that writes a resource, two that read it, and one that writes it
/// again. It does nothing: its clauses are the results that the definitions yield for this cycle.
pub fn graph_examples()
    ensures conflict { Conflict small_cycle 0 3 }
    // The last note waits for the readers, which waited for the first.
    ensures farther { ¬ (Near small_cycle 0 3) }
    ensures readers { ¬ (Conflict small_cycle 1 2) }
    ensures graph { IsGraphOf small_cycle small_graph }
{}
