// The graph of a control cycle's jobs, computed from their footprints.
ghost use Rattle.cs_base.specs.Limits.{most_notes};
ghost use Rattle.std.specs.Prelude.{◌≡◌, ◌*◌, ◌+◌, ◌<◌, ◌≤◌, ◌↔◌, ℕ, List, length, slice_index, IfOk, IfSome, IfNone};
ghost use Rattle.std.specs.List.{AllPairs};
ghost use Rattle.cs_graph.specs.Graph.{IsGraphOf, IsFit, IsLevelled, Edge, ComesBefore, LeadsForward, StandTogether};
ghost use Rattle.cs_graph.specs.Graph.{IsNextOut, NoneOut, NoneIn};
ghost use Rattle.cs_graph.specs.{Cover.HasCover, Cover.AreApart, inner.Index.AreEnds};

use crate::chains::chained;
use crate::cover::count_chains;
use crate::growing::{Growing, grow};
use cs_base::OutOfMemory;
use cs_cells::Footprint;
use std::alloc::Global;
use std::marker::Model;
use std::ops::Range;

/// For each note of a control cycle, the earlier notes that it waits for: an edge leads from a note to each
/// later one that conflicts with it, unless a path of two or more conflicts already connects them. Edges are
/// numbered by the later note, then by the earlier one. The graph stays valid as long as the same notes are
/// active, and can be shared until then.
#[derive(Drop)]
pub struct Graph {
    edges: Vec<(u32, u32)>,
    levels: Vec<u32>,
    // For each note, the range of the edges into it: the first, and the one after the last.
    into: Vec<(u32, u32)>,
    // For each note, the first edge from it. The number of edges means "none".
    first_out: Vec<u32>,
    // For each edge, the next edge from the same note.
    next_out: Vec<u32>,
    // The number of chains along edges that cover the notes.
    chains: u32,
}

impl Model for Graph {
    ghost use Rattle.cs_graph.specs.{Graph.Dependencies, inner.Index.IsStored};

    ghost Value = { Dependencies };

    ghost view = { λ g. record { edges = g.edges.items; levels = g.levels.items } };

    ghost invariant = { λ g. IsStored g.edges.items g.levels.items g.into.items
        g.first_out.items g.next_out.items g.chains };
}

impl Graph {
    /// Returns the graph of jobs with these footprints, in serial order; at most as many as a cycle may have
    /// notes.
    pub fn of_feet(alloc: Global, feet: &[Footprint]) -> Result<Graph, OutOfMemory>
        requires { length feet.now ≤ most_notes }
        ensures graph { IfOk result (IsGraphOf feet.now) }
        // Each edge is a conflict, and each pair of conflicting notes is connected by a path of edges.
        ensures fit { IfOk result (λ graph. IsFit feet.now graph.edges) }
        // The levels are 0 for a note without earlier conflicts, and otherwise one more than the greatest
        // level among the earlier conflicting notes.
        ensures levelled { IfOk result (λ graph. IsLevelled feet.now graph.levels) }
    {
        let graph = Graph::link(alloc, grow(alloc, feet)?)?;
        Ok(graph)
    }

    // The graph, from the data collected after all notes have been added.
    fn link(alloc: Global, growing: Growing) -> Result<Graph, OutOfMemory>
        requires ends { AreEnds growing.edges.items growing.levels.items growing.into.items }
        ensures edges { IfOk result (λ graph. graph.edges ≡ growing.edges.items) }
        ensures levels { IfOk result (λ graph. graph.levels ≡ growing.levels.items) }
    {
        let Growing {
            edges,
            levels,
            into,
            ..
        } = growing;
        let chains = count_chains(alloc, &edges, &into)?;
        let (first_out, next_out) = chained(alloc, &edges, levels.len() as u32)?;
        Ok(Graph {
            edges,
            levels,
            into,
            first_out,
            next_out,
            chains,
        })
    }

    /// Returns the number of notes.
    pub fn len(&self) -> u32
        ensures notes { result ≡ length self.now.levels }
        ensures few { result ≤ most_notes }
    {
        self.levels.len() as u32
    }

    /// Returns the level of a note: 0 without an earlier conflicting note, and otherwise one more than the
    /// greatest level among those notes.
    pub fn level(&self, note: u32) -> u32
        requires { note < length self.now.levels }
        ensures { result ≡ slice_index self.now.levels note }
    {
        self.levels[note as usize]
    }

    /// Returns how many workers the cycle can use: the number of chains along edges that cover its notes. No
    /// more notes than that can ever run at once.
    pub fn useful_workers(&self) -> u32
        ensures cover { HasCover self.now.edges (length self.now.levels) result }
        ensures most { (notes : List ℕ) → AreApart self.now.edges (length self.now.levels) notes
            → length notes ≤ result }
    {
        self.chains
    }

    /// Returns all edges, each from an earlier note to a later one, ordered by the later note and then by the
    /// earlier one.
    pub fn edges(&self) -> &[(u32, u32)]
        ensures edges { result.now ≡ self.now.edges }
        ensures few { length result.now ≤ most_notes * most_notes }
        ensures ordered { AllPairs ComesBefore self.now.edges }
        ensures forward { LeadsForward self.now.edges (length self.now.levels) }
        // The edges into one note are consecutive.
        ensures together { (t : ℕ) → StandTogether self.now.edges t }
    {
        &self.edges
    }

    /// Returns the number of edges.
    pub fn edge_count(&self) -> u32
        ensures count { result ≡ length self.now.edges }
        ensures few { result ≤ most_notes * most_notes }
    {
        self.edges.len() as u32
    }

    /// Returns the notes that an edge connects, the earlier one first.
    pub fn ends(&self, edge: u32) -> (u32, u32)
        requires { edge < length self.now.edges }
        ensures edge { Edge self.now.edges edge result.0 result.1 }
        ensures forward { (result.0 < result.1) × (result.1 < length self.now.levels) }
    {
        self.edges[edge as usize]
    }

    /// Returns the numbers of the edges that lead to a note.
    pub fn in_edges(&self, note: u32) -> Range<u32>
        requires { note < length self.now.levels }
        ensures { (e : ℕ) → ((result.start ≤ e) × (e < result.end)) ↔ ((p : ℕ) × Edge self.now.edges e p note) }
    {
        let (first, end) = self.into[note as usize];
        first..end
    }

    /// Returns the next edge if it leads to the same note; if it doesn't, no later edge does, and the result
    /// is `None`.
    pub fn next_in(&self, edge: u32, note: u32) -> Option<u32>
        requires { (p : ℕ) × Edge self.now.edges edge p note }
        ensures some { IfSome result (λ next. (next ≡ edge + 1) × ((p : ℕ) × Edge self.now.edges next p note)) }
        ensures none { IfNone result (NoneIn self.now.edges note (edge + 1)) }
    {
        let (_, end) = self.into[note as usize];
        let next = edge + 1;
        if next < end { Some(next) } else { None }
    }

    /// Returns the first edge that leads from a note, or `None` if there is none.
    pub fn first_out(&self, note: u32) -> Option<u32>
        requires { note < length self.now.levels }
        ensures some { IfSome result (IsNextOut self.now.edges note 0) }
        ensures none { IfNone result (NoneOut self.now.edges note 0) }
    {
        self.named(self.first_out[note as usize])
    }

    /// Returns the next edge that leads from the same note as `edge`, or `None` if there is none.
    pub fn next_out(&self, edge: u32, note: u32) -> Option<u32>
        requires { (t : ℕ) × Edge self.now.edges edge note t }
        ensures some { IfSome result (IsNextOut self.now.edges note (edge + 1)) }
        ensures none { IfNone result (NoneOut self.now.edges note (edge + 1)) }
    {
        self.named(self.next_out[edge as usize])
    }

    fn named(&self, edge: u32) -> Option<u32>
        ensures some { IfSome result (λ e. (e ≡ edge) × (e < length self.now.edges)) }
        ensures none { IfNone result (length self.now.edges ≤ edge) }
    {
        (edge < self.edge_count()).then_some(edge)
    }
}
