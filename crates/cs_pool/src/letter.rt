// The content of a helper's mailbox, and the values of its word.
ghost use Rattle.std.specs.Prelude.{◌≡◌};
ghost use Rattle.cs_pool.specs.Mailboxes.{HasNothingOut};

use crate::mailbox::{CallerEnd, Mailbox};
use crate::member::Member;
use cs_board::{Board, BoardSeat};
use cs_cells::Job;
use std::alloc::Global;
use std::sync::Arc;

/// The helper has no seat, and there is no task in the mailbox.
pub(crate) const EMPTY: u64 = 0;
/// A task is in the mailbox, and the helper hasn't taken it.
pub(crate) const GIVEN: u64 = 1;
/// The helper has taken the task, and works at it.
pub(crate) const TAKEN: u64 = 2;
/// The helper's seat is in the mailbox, after its work.
pub(crate) const BACK: u64 = 3;
/// There will be no further task.
pub(crate) const OVER: u64 = 4;

/// A helper's part in one control cycle: a share of the cycle's board, a seat at it, the cycle's number for
/// the gate, and the helper's membership in the group for which the caller waits.
#[derive(Drop)]
pub(crate) struct Task<J: Job> {
    pub(crate) board: Arc<Board<J>, Global>,
    pub(crate) seat: BoardSeat<J>,
    pub(crate) cycle: u32,
    pub(crate) member: Member,
}

impl<J: Job + Drop> Task<J> {
    /// Returns only the seat, of a task that no helper has taken and that belongs to the caller again.
    pub(crate) fn into_seat(self, mailbox: &Mailbox<J>, end: &CallerEnd<J>) -> BoardSeat<J>
        requires { HasNothingOut mailbox.now end.now }
        ensures { result ≡ self.seat }
    {
        let Task {
            board,
            seat,
            cycle: _,
            member,
        } = self;
        drop(board);
        member.leave_untaken(mailbox, end);
        seat
    }
}

/// The content of a mailbox: a task from the caller, or the seat that comes back from the helper.
#[derive(Drop)]
pub(crate) enum MailboxLetter<J: Job> {
    Nothing,
    Task(Task<J>),
    Answer(BoardSeat<J>),
}
