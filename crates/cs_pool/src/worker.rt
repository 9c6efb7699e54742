// The work of one worker: a helper at its seat, and the caller at its own.
ghost use Rattle.cs_pool.specs.Working.{IsReady, IsThrough};

use cs_board::{Board, BoardSeat, Patience};
use cs_cells::Job;
use cs_edge::Gate;
use std::sync::Wait;

/// Claims a note, calls the gate, runs the note and finishes it, and so on until all notes have begun, or
/// until it has looked for one in vain for so long that it leaves. A worker that leaves runs no note and owes
/// no try.
pub(crate) fn work<J: Job, G: Gate, R: Wait>(
    rt: &R,
    board: &Board<J>,
    seat: &mut BoardSeat<J>,
    cycle: u32,
    gate: &G,
    patience: Patience,
)
    requires { IsReady J.means board.now seat.old }
    ensures { IsThrough J.means board.now seat.old seat.new }
{
    for _ in rt.forever() {
        let Some(note) = board.await_claim(seat, patience) else {
            return;
        };
        gate.before(cycle, note);
        board.run(seat);
        board.finish(seat);
    }
    unreachable!()
}
