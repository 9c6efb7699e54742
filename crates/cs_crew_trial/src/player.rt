// A seat of a board that is played call by call.
ghost use Rattle.std.specs.Prelude.{◌≡◌, ◌≤◌, length, All};
ghost use Rattle.cs_base.specs.Limits.{most_notes};
ghost use Rattle.cs_board.specs.Board.{plan, name, view, IsSeatOf};
ghost use Rattle.cs_board.specs.Views.{opening_view};
ghost use Rattle.cs_crew_trial.specs.{Marks.IsOver, Playing.IsPlayer};

use crate::cycle::opened;
use cs_base::Steps;
use cs_board::{Board, BoardSeat};
use cs_cells::{Job, Layout};
use std::alloc::Global;

/// The state of a seat: it may claim a note, it has claimed one, its note has run, or its last claim returned
/// None.
#[derive(Clone, Copy, PartialEq, Eq)]
pub enum Phase {
    Free,
    Claimed,
    Ran,
    Over,
}

/// A seat, its state, and the number of its tries to claim a note.
#[derive(Drop)]
pub struct Player<J> {
    seat: BoardSeat<J>,
    phase: Phase,
    tries: u64,
}

impl<J: Job> Player<J> {
    // Makes the seat's next call.
    fn call(&mut self, board: &Board<J>)
        requires { IsPlayer J.means board.now self.old }
        ensures { IsPlayer J.means board.now self.new }
    {
        match self.phase {
            Phase::Free | Phase::Over => {
                let mut steps = Steps::new();
                let won = board.claim(&mut self.seat, &mut steps);
                self.tries = self.tries.saturating_add(steps.count);
                match won {
                    Some(_) => self.phase = Phase::Claimed,
                    None => self.phase = Phase::Over,
                }
            }
            Phase::Claimed => {
                board.run(&mut self.seat);
                self.phase = Phase::Ran;
            }
            Phase::Ran => {
                board.finish(&mut self.seat);
                self.phase = Phase::Free;
            }
        }
    }

    // Makes the seat's next call. If it finds no note to claim, the other seat makes a call.
    fn call_or_pass(&mut self, other: &mut Player<J>, board: &Board<J>)
        requires this { IsPlayer J.means board.now self.old }
        requires other { IsPlayer J.means board.now other.old }
        ensures this { IsPlayer J.means board.now self.new }
        ensures other { IsPlayer J.means board.now other.new }
    {
        self.call(board);
        if self.phase == Phase::Over {
            other.call(board);
        }
    }
}

// Plays a board to its end with two seats, and returns the number of the first seat's tries to claim a note.
// The bits of `order`, the lowest first, say which seat makes the next call, 1 for the second; a seat that
// finds no note leaves the call to the other. Returns None if a note is left after three calls for each
// note.
fn tries_by<J: Job + Drop>(board: &Board<J>, mut seat: BoardSeat<J>, order: u32) -> Option<u64>
    requires seat { IsSeatOf J.means (plan board.now) (name board.now) seat }
    requires opens { view seat ≡ opening_view (plan board.now) }
{
    let other = board.split(&mut seat);
    let mut first = Player {
        seat,
        phase: Phase::Free,
        tries: 0,
    };
    let mut second = Player {
        seat: other,
        phase: Phase::Free,
        tries: 0,
    };
    let mut left = order;
    let mut tries = None;
    for _ in 0..board.notes().saturating_mul(3).saturating_add(1) {
        if left % 2 == 1 {
            second.call_or_pass(&mut first, board);
        } else {
            first.call_or_pass(&mut second, board);
        }
        if first.phase == Phase::Over && second.phase == Phase::Over {
            tries = Some(first.tries);
            break;
        }
        left /= 2;
    }
    tries
}

/// Plays these jobs in one order of calls. Returns None also if memory runs out.
pub fn tries_of<J: Job + Drop>(
    alloc: Global,
    layout: &Layout,
    jobs: Vec<J>,
    order: u32,
) -> Option<u64>
    requires few { length jobs.items ≤ most_notes }
    requires over { All (IsOver J.means layout.now) jobs.items }
{
    let Some((board, seat)) = opened(alloc, layout, 0, jobs) else {
        return None;
    };
    tries_by(&board, seat, order)
}
