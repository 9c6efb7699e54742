// The board and its seats.
ghost use Rattle.std.specs.Prelude.{◌≡◌};
ghost use Rattle.cs_board.specs.{Seen.plan_seen, Built.IsBuilt};

use crate::{Berth, Key, Rule, View};
use atomic_table::{Badge, Seat, Table};
use cs_cells::Job;
use cs_graph::Graph;
use std::alloc::Global;
use std::snapshot::Snapshot;
use std::sync::Arc;

/// What one worker steps with. One thread at a time uses a seat; `Board::begin` returns the first one, and
/// `Board::split` makes the rest. It holds no job between two calls.
#[derive(Drop)]
pub struct BoardSeat<J> {
    pub(crate) badge: Badge<View<J>>,
    /// The note that this seat claimed last.
    pub(crate) note: u32,
    /// A note that this seat opened and hasn't tried since.
    pub(crate) opened: Option<u32>,
    /// The note at which this seat's next round over all notes begins.
    pub(crate) next: u32,
    /// How many seats were split off this one.
    pub(crate) splits: u32,
    /// In the first seat, the empty vector with room for the jobs at the end.
    pub(crate) room: Option<Vec<J>>,
}

/// A seat during a call, or between two cycles.
pub type Sitting<J> = Seat<Berth<J>, View<J>>;

/// The words and slots of a complete performance.
pub type Berths<J> = Table<Berth<J>, View<J>, Key, Rule, Global>;

/// The table of a board while a cycle is played. It is a separate struct because the proof that threads may
/// share a board goes field by field.
#[derive(Drop)]
pub(crate) struct Frame<J: Job> {
    pub(crate) table: Berths<J>,
}

/// The board of one control cycle, shared by all its workers.
#[derive(Drop)]
pub struct Board<J: Job> {
    pub(crate) frame: Frame<J>,
    pub(crate) graph: Arc<Graph, Global>,
    /// What the first seat knew when the cycle began.
    pub(crate) opening: Snapshot<Badge<View<J>>>,
    pub(crate) notes: u32,
    pub(crate) areas: u32,
    pub(crate) cells: u32,
    ghost built: { IsBuilt (plan_seen opening.value) graph.value notes areas cells frame.table.shared.table_id.words
        frame.table.shared.table_id.slots },
}

impl<J: Job> Board<J> {
    ghost use Rattle.std.specs.Prelude.{◌≡◌, ◌+◌, length};
    ghost use Rattle.cs_board.specs.{Board.plan, Board.name, Words.word_total};

    /// The graph of the cycle.
    pub(crate) fn graph(&self) -> &Graph
        ensures edges { result.now.edges ≡ (plan self.now).edges }
        ensures notes { length result.now.levels ≡ (plan self.now).notes }
    {
        &self.graph
    }

    /// The number of notes.
    pub fn notes(&self) -> u32
        ensures { result ≡ (plan self.now).notes }
    {
        self.notes
    }

    /// The words and slots.
    pub fn table(&self) -> &Berths<J>
        ensures name { result.now.shared.table_id ≡ name self.now }
        ensures words { (name self.now).words ≡ word_total (plan self.now) + (plan self.now).spare }
    {
        &self.frame.table
    }
}
