//! The notes of a control cycle that have to wait for other notes. Two notes conflict if one of them writes a
//! resource that the other uses; the later one waits for the earlier one.
//!
//! The one contract: the edges of a `Graph` are exactly the nearest conflicts, which are not connected by a
//! longer path of conflicts, ordered by the later note; every pair of conflicting notes is connected by a
//! path of edges (`Graph::of_feet`). A look-up takes time proportional to the note's own edges, and a graph
//! stays valid as long as the same notes are active.
//!
//! How conflicts are found, how farther ones are dropped and how edges are linked may change without anyone
//! above noticing. Currently each place has the sets, as bits, of the notes so far that touch it, and each
//! note has the set of notes that lead to it. In reading order: `note_set`, `touched`, `nearest`, `draw`,
//! `growing`, `chains`, `cover` (how many workers a cycle can use), `graph`, `one_chain` (the cycles that one
//! worker plays as fast as several, found without a graph); `examples` has a small cycle as a worked example.
#![tactic(auto)]

mod chains;
mod cover;
mod draw;
mod examples;
mod graph;
mod growing;
mod nearest;
mod note_set;
mod one_chain;
mod touched;

pub use examples::graph_examples;
pub use graph::Graph;
pub use one_chain::is_one_chain;
