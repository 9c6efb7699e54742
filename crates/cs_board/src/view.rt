// What a worker knows about a control cycle. No value of these types exists at run time: only contracts
// mention them.
use cs_cells::Area;
use cs_graph::Graph;
use std::alloc::Global;
use std::collections::LinkedList;
use std::sync::Arc;

/// The content of a slot: a note's job, or nothing. `Told` is never in a slot: it hands the cycle's graph to
/// the step that begins the cycle.
#[derive(Drop)]
pub enum Berth<J> {
    Vacant,
    Full(J),
    Told(Arc<Graph, Global>),
}

/// What a cycle begins with: its notes in serial order, which note waits for which, the layout, the jobs and
/// the cells.
pub struct Plan<J> {
    pub notes: u64,
    /// Each edge leads from an earlier note to a later one; they are in the order of the later note.
    pub edges: LinkedList<(u64, u64)>,
    pub areas: LinkedList<Area>,
    pub jobs: LinkedList<J>,
    pub cells: LinkedList<i64>,
    /// The number of words of the board that the cycle doesn't use.
    pub spare: u64,
}

/// The note that a worker is running.
pub struct Doing {
    pub note: u64,
    /// The number of turn steps made so far: the note's own turn first, then one for each resource that it
    /// writes.
    pub phase: u64,
    /// Whether the worker has taken the note's job out of its slot.
    pub held: bool,
    /// The cells as the note sees them: the cells before it in the serial run, with everything that it has
    /// set so far.
    pub image: LinkedList<i64>,
}

/// A note, and the first of its edges that is still to be looked at.
pub struct Spot {
    pub note: u64,
    pub from: u64,
}

/// All words of a board that rests, and the content of each slot; None while it is taken out.
pub struct Still<J> {
    pub words: LinkedList<u64>,
    pub homes: LinkedList<Option<Berth<J>>>,
}

/// What one seat of the board knows.
pub struct View<J> {
    pub plan: Plan<J>,
    pub doing: Option<Doing>,
    /// A note that is Done and whose watch words are being closed.
    pub closing: Option<Spot>,
    /// A waiting note that was found watching an edge, and that must now watch another edge or be opened.
    pub moving: Option<Spot>,
    /// Notes that this seat made Available, or received when the cycle began, and hasn't tried since.
    pub owes: LinkedList<u64>,
    /// The number of tries that this seat has made to claim a note.
    pub tries: u64,
    /// Each note that the seat found other than Available, with the number of that try, counted from 1.
    pub found: LinkedList<(u64, u64)>,
    /// The notes that this seat finished.
    pub mine: LinkedList<u64>,
    /// Whether this is the first seat, which was made with the board.
    pub first: bool,
    /// The number of a seat that was split off, counted from 0.
    pub number: u64,
    /// In the first seat's view, the numbers of the seats that were split off and not yet joined.
    pub out: LinkedList<u64>,
    /// In the first seat's view, the number of seats that were split off.
    pub made: u64,
    /// Whether the seat was joined, and takes no part any more.
    pub spent: bool,
    /// While the board rests, what its one seat knows about it.
    pub rest: Option<Still<J>>,
}
