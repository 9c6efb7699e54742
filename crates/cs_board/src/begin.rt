// The start of a cycle that is laid out, and the end of one that was played.
ghost use Rattle.std.specs.Prelude.{◌≡◌, ◌<◌, ◌≤◌, [], length, true};
ghost use Rattle.std.specs.Vec.{vec_capacity};
ghost use Rattle.cs_board.specs.Board.{plan, name, view, graph_of, IsSeatOf, IsIdle, IsViewOf};
ghost use Rattle.cs_board.specs.{Built.IsBuilt, Resting.IsSole, Resting.IsLaying, Resting.areas_in, Resting.known_in};
ghost use Rattle.cs_board.specs.{Ending.IsLast, Ending.IsOver, Plans.IsPlan, Views.opening_view, Views.plan_laid};

use crate::board::{Berths, Board, BoardSeat, Frame, Sitting};
use crate::{Begin, Berth, End};
use cs_cells::Job;
use cs_graph::Graph;
use std::alloc::Global;
use std::snapshot::Snapshot;
use std::sync::Arc;

/// The parts of which a board is made.
pub struct Parts<J: Job> {
    pub table: Berths<J>,
    pub graph: Arc<Graph, Global>,
    pub notes: u32,
    pub areas: u32,
    pub cells: u32,
}

impl<J: Job> Board<J> {
    /// Makes the board of the cycle that is laid out on `table`, and its first seat. `graph` says which note
    /// waits for which, `areas` and `cells` are the counts of the layout, and `room` is empty and has
    /// capacity for the jobs at the end.
    pub fn begin(
        table: Berths<J>,
        mut seat: Sitting<J>,
        graph: Arc<Graph, Global>,
        areas: u32,
        cells: u32,
        room: Vec<J>,
    ) -> (Board<J>, BoardSeat<J>)
        requires sole { IsSole table.shared.table_id seat }
        requires whole { IsPlan J.means (plan_laid (areas_in seat) (known_in seat) graph.value) }
        requires laid { IsLaying (plan_laid (areas_in seat) (known_in seat) graph.value)
            0 (length graph.value.edges) (known_in seat) }
        requires built { IsBuilt (plan_laid (areas_in seat) (known_in seat) graph.value) graph.value
            (length graph.value.levels) areas cells table.shared.table_id.words table.shared.table_id.slots }
        requires room { (room.items ≡ []) × (length graph.value.levels ≤ vec_capacity room) }
        ensures plan { plan result.0 ≡ plan_laid (areas_in seat) (known_in seat) graph.value }
        ensures seat { IsSeatOf J.means (plan result.0) (name result.0) result.1 }
        ensures view { view result.1 ≡ opening_view (plan result.0) }
        ensures graph { graph_of result.0 ≡ graph.value }
        ensures table { name result.0 ≡ table.shared.table_id }
    {
        let notes = graph.len();
        let graph = begin_cycle(&table, &mut seat, graph);
        let badge = seat.into_badge();
        let opening = Snapshot::of(&badge);
        let board = Board {
            frame: Frame { table },
            graph,
            opening,
            notes,
            areas,
            cells,
        };
        let seat = BoardSeat {
            badge,
            note: 0,
            opened: None,
            next: 0,
            splits: 0,
            room: Some(room),
        };
        (board, seat)
    }

    /// Ends the cycle. `seat` is the first seat: its last claim returned None, and it has joined every other
    /// seat. Returns the seat, which now knows everything on the board (the result of the serial run), and
    /// the empty vector with room for the jobs.
    pub fn end(&self, seat: BoardSeat<J>) -> (Sitting<J>, Vec<J>)
        requires seat { IsSeatOf J.means (plan self.now) (name self.now) seat }
        requires idle { IsIdle (view seat) }
        requires owes { (view seat).owes ≡ [] }
        requires alone { ((view seat).first ≡ true) × ((view seat).out ≡ []) }
        ensures sole { IsSole (name self.now) result.0 }
        ensures areas { areas_in result.0 ≡ (plan self.now).areas }
        ensures over { IsOver (plan self.now) J.means (known_in result.0) }
        ensures slots { length (known_in result.0).homes ≡ (name self.now).slots }
        ensures room { (result.1.items ≡ []) × ((plan self.now).notes ≤ vec_capacity result.1) }
    {
        let BoardSeat { badge, room, .. } = seat;
        let Some(room) = room else { unreachable!() };
        let mut seat = badge.into_seat();
        self.end_cycle(&mut seat);
        (seat, room)
    }

    // Ends the cycle, after which this seat knows everything on the board.
    fn end_cycle(&self, seat: &mut Sitting<J>)
        requires table { seat.old.table_id ≡ name self.now }
        requires carries { seat.old.me.1 ≡ [] }
        requires knows { IsViewOf (plan self.now) seat.old.me.0 }
        requires last { IsLast seat.old.me.0 }
        ensures sole { IsSole (name self.now) seat.new }
        ensures areas { areas_in seat.new ≡ (plan self.now).areas }
        ensures over { IsOver (plan self.now) J.means (known_in seat.new) }
        ensures slots { length (known_in seat.new).homes ≡ (name self.now).slots }
    {
        self.frame.table.shared.load::<End>(seat, 0);
    }

    /// Returns the parts again, once no seat is needed any more.
    pub fn into_parts(self) -> Parts<J>
        ensures table { result.table.shared.table_id ≡ name self }
        ensures graph { result.graph.value ≡ graph_of self }
        ensures built { IsBuilt (plan self) (graph_of self) result.notes result.areas result.cells
            (name self).words (name self).slots }
    {
        let Board {
            frame: Frame { table },
            graph,
            notes,
            areas,
            cells,
            ..
        } = self;
        Parts {
            table,
            graph,
            notes,
            areas,
            cells,
        }
    }
}

// Begins the cycle that is laid out. The step takes the cycle's graph and returns it.
fn begin_cycle<J: Job>(
    table: &Berths<J>,
    seat: &mut Sitting<J>,
    graph: Arc<Graph, Global>,
) -> Arc<Graph, Global>
    requires sole { IsSole table.now.shared.table_id seat.old }
    requires words { 0 < table.now.shared.table_id.words }
    requires whole { IsPlan J.means (plan_laid (areas_in seat.old) (known_in seat.old) graph.value) }
    requires laid { IsLaying (plan_laid (areas_in seat.old) (known_in seat.old) graph.value)
        0 (length graph.value.edges) (known_in seat.old) }
    ensures table { seat.new.table_id ≡ seat.old.table_id }
    ensures me { seat.new.me ≡ (opening_view (plan_laid (areas_in seat.old) (known_in seat.old) graph.value), []) }
    ensures graph { result.value ≡ graph.value }
{
    let told = Berth::Told(graph);
    table
        .shared
        .compare_exchange_with::<Begin>(seat, 0, 0, 0, &told);
    let Berth::Told(graph) = told else {
        unreachable!()
    };
    graph
}
