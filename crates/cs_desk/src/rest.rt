// The end of a cycle.
ghost use Rattle.std.specs.Prelude.{◌≡◌, ◌<◌, ◌≤◌, [], Some, length, true, slice_get};
ghost use Rattle.std.specs.Vec.{vec_capacity};
ghost use Rattle.cs_board.specs.Board.{plan, name, view, graph_of, IsSeatOf, IsIdle};
ghost use Rattle.cs_board.specs.Resting.{IsSole, areas_in, known_in};
ghost use Rattle.cs_cells.specs.Serial.{serial_cells, serial_jobs};
ghost use Rattle.cs_desk.specs.inner.Resting.{IsClearing, ClearsTurns};
ghost use Rattle.cs_board.specs.{Plans.IsPlan, Plans.places_written, Views.with_home};
ghost use Rattle.cs_board.specs.declared.view.Berth.TheVariants.{Vacant, Full};

use crate::desk::Desk;
use crate::receipt::Receipt;
use crate::resting::{RestingTable, lay, swap};
use cs_board::{Berth, Berths, Board, BoardSeat, Parts, Sitting};
use cs_cells::Job;
use cs_graph::Graph;
use std::alloc::Global;
use std::sync::Arc;

impl<J: Job> Desk<J> {
    ghost use Rattle.cs_desk.specs.Desk.{areas, cells, note_room, word_room};

    /// Returns the jobs of the complete cycle as the serial run leaves them, the desk with the cells as the
    /// serial run leaves them, and the cycle's graph. The seat is the first one; its last claim returned
    /// None, and it has joined every other seat.
    pub fn rest(board: Board<J>, seat: BoardSeat<J>) -> (Receipt<J>, Desk<J>, Arc<Graph, Global>)
        requires seat { IsSeatOf J.means (plan board) (name board) seat }
        requires idle { IsIdle (view seat) }
        requires owes { (view seat).owes ≡ [] }
        requires alone { ((view seat).first ≡ true) × ((view seat).out ≡ []) }
        ensures jobs { result.0 ≡ serial_jobs J.means (plan board).jobs (plan board).cells }
        ensures cells { cells result.1 ≡ serial_cells J.means (plan board).jobs (plan board).cells }
        ensures areas { areas result.1 ≡ (plan board).areas }
        ensures graph { result.2.value ≡ graph_of board }
        ensures room { (note_room result.1 ≡ (name board).slots) × (word_room result.1 ≡ (name board).words) }
    {
        let (mut seat, room) = board.end(seat);
        let jobs = clear(&board, &mut seat, room);
        let Parts {
            table,
            graph,
            notes,
            areas,
            cells,
        } = board.into_parts();
        let resting = RestingTable {
            table,
            seat,
            areas,
            cells,
        };
        let desk = Desk {
            resting,
            plain: None,
            alone: 0,
        };
        (Receipt { notes, jobs }, desk, graph)
    }
}

// Takes all jobs out of their slots, and sets the turn words that their notes have written to 0 again.
fn clear<J: Job>(board: &Board<J>, seat: &mut Sitting<J>, mut room: Vec<J>) -> Vec<J>
    requires whole { IsPlan J.means (plan board.now) }
    requires sole { IsSole (name board.now) seat.old }
    requires clearing { IsClearing J.means (plan board.now) 0 (known_in seat.old) }
    requires room { (room.items ≡ []) × ((plan board.now).notes ≤ vec_capacity room) }
    ensures jobs { result.items ≡ serial_jobs J.means (plan board.now).jobs (plan board.now).cells }
    ensures sole { IsSole (name board.now) seat.new }
    ensures areas { areas_in seat.new ≡ areas_in seat.old }
    ensures cleared { IsClearing J.means (plan board.now) (plan board.now).notes (known_in seat.new) }
    ensures slots { length (known_in seat.new).homes ≡ length (known_in seat.old).homes }
{
    for note in 0..board.notes() {
        let job = fetch(board.table(), seat, note);
        clear_turns(board, seat, &job, note);
        room.push_reserved(job);
    }
    room
}

// Takes a job out of its slot while the board rests.
fn fetch<J: Job>(table: &Berths<J>, seat: &mut Sitting<J>, note: u32) -> J
    requires sole { IsSole table.now.shared.table_id seat.old }
    requires full { (j : J) × (slice_get (known_in seat.old).homes note ≡ Some (Some (Full j))) }
    requires word { note < table.now.shared.table_id.words }
    ensures job { slice_get (known_in seat.old).homes note ≡ Some (Some (Full result)) }
    ensures sole { IsSole table.now.shared.table_id seat.new }
    ensures areas { areas_in seat.new ≡ areas_in seat.old }
    ensures known { known_in seat.new ≡ with_home (known_in seat.old) note (Some Vacant) }
{
    let held = swap(table, seat, note, Berth::Vacant);
    let Berth::Full(job) = held else {
        unreachable!()
    };
    job
}

// Sets the turn words of the resources that a job writes to 0 again.
fn clear_turns<J: Job>(board: &Board<J>, seat: &mut Sitting<J>, job: &J, note: u32)
    requires whole { IsPlan J.means (plan board.now) }
    requires note { (J.means.foot job.now).writes ≡ places_written J.means (plan board.now) note }
    requires sole { IsSole (name board.now) seat.old }
    ensures sole { IsSole (name board.now) seat.new }
    ensures areas { areas_in seat.new ≡ areas_in seat.old }
    ensures cleared { ClearsTurns (plan board.now) (places_written J.means (plan board.now) note)
        [] (known_in seat.old) (known_in seat.new) }
{
    let table = board.table();
    for area in job.footprint().writes.as_slice() {
        lay(table, seat, board.turn_word(*area), 0);
    }
}
