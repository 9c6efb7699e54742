// The mailbox of one helper: the caller puts a task into it in each cycle and gets the seat back.
ghost use Rattle.std.specs.{Prelude.◌≡◌, Prelude.IfOk, Prelude.IfSome, Prelude.IfNone, Arc.arc_value};
ghost use Rattle.cs_board.specs.{declared.board.Board.Board, declared.board.BoardSeat.BoardSeat};
ghost use Rattle.cs_pool.specs.Working.{IsReady, IsDone, IsThrough};

use crate::letter::{BACK, EMPTY, GIVEN, MailboxLetter, OVER, TAKEN, Task};
use crate::mailbox_rule::{
    Close, Collect, Fetch, Give, GiveBack, MailboxRule, SplitOff, Take, Withdraw,
};
use crate::view::Knows;
use atomic_table::{Seat, Table};
use cs_board::BoardSeat;
use cs_cells::Job;
use std::alloc::{AllocError, Global};
use std::sync::atomic::{AtomicU32, Ordering};

/// What one end of a mailbox steps with.
pub(crate) type End<J> = Seat<MailboxLetter<J>, Knows<J>>;

/// The mailbox of one helper: a word, a slot, and two ends, the caller's and the helper's.
#[derive(Drop)]
pub(crate) struct Mailbox<J: Job> {
    pub(crate) table: Table<MailboxLetter<J>, Knows<J>, (), MailboxRule, Global>,
    // How often the helper is to look before it takes the last task. No promise depends on it.
    hesitation: AtomicU32,
    ghost sized: { (table.shared.table_id.words ≡ 1) × (table.shared.table_id.slots ≡ 1) },
}

/// The caller's end of a mailbox.
#[derive(Drop)]
pub(crate) struct CallerEnd<J: Job> {
    pub(crate) seat: End<J>,
}

/// The helper's end of a mailbox.
#[derive(Drop)]
pub(crate) struct HelperEnd<J: Job> {
    pub(crate) seat: End<J>,
}

/// A seat that belongs to the caller again, and whether the helper had begun its task; if it hadn't, the seat
/// is as it was given.
#[derive(Drop)]
pub(crate) struct Returned<J: Job> {
    pub(crate) seat: BoardSeat<J>,
    pub(crate) begun: bool,
}

impl<J: Job + Drop> Mailbox<J> {
    ghost use Rattle.cs_pool.specs.Mailboxes.{HasNothingOut, HasOut, HasSomethingOut, IsFree, IsOnDuty, LooksFor};
    ghost use Rattle.cs_pool.specs.{Mailboxes.tasks, Letters.one_given};

    /// Makes a mailbox and its two ends. It fails only if memory runs out.
    pub(crate) fn new(alloc: Global) -> Result<(Mailbox<J>, CallerEnd<J>, HelperEnd<J>), AllocError>
        ensures caller { IfOk result (λ r. HasNothingOut r.0 r.1) }
        ensures helper { IfOk result (λ r. IsFree r.0 r.2) }
    {
        let mut slots = Vec::with_capacity(alloc, 1)?;
        slots.push_reserved(MailboxLetter::Nothing);
        let Ok((table, mut seat)) = Table::new(alloc, &[EMPTY], slots, &()) else {
            return Err(AllocError);
        };
        table.shared.load::<Fetch>(&mut seat, 0);
        let other = table.shared.split_seat::<SplitOff>(&mut seat);
        Ok((
            Mailbox {
                table,
                hesitation: AtomicU32::new(0),
            },
            CallerEnd { seat },
            HelperEnd { seat: other },
        ))
    }

    /// Puts a task into the mailbox, whose seat does nothing and owes nothing. The helper is to look
    /// `hesitation` times before it takes it.
    pub(crate) fn give(&self, end: &mut CallerEnd<J>, task: Task<J>, hesitation: u32)
        requires end { HasNothingOut self.now end.old }
        requires task { IsDone J.means (arc_value task.board) task.seat }
        ensures out { HasOut self.now end.new (arc_value task.board) task.seat }
        ensures tasks { tasks end.new ≡ one_given (tasks end.old) }
    {
        self.hesitation.store(hesitation, Ordering::SeqCst);
        let shared = &self.table.shared;
        let held = shared.exchange(&mut end.seat, 0, MailboxLetter::Task(task));
        drop(held);
        shared.store::<Give>(&mut end.seat, 0, GIVEN);
    }

    /// Returns the seat that is out: after its work if the helper has given it back, or as it was given if
    /// the helper hasn't taken its task. Otherwise returns None, and the seat stays out.
    pub(crate) fn collect(&self, end: &mut CallerEnd<J>) -> Option<Returned<J>>
        requires { HasSomethingOut self.now end.old }
        ensures { LooksFor J.means self.now self.now end.old end.new result }
    {
        match self.fetch_answer(end) {
            Some(returned) => Some(returned),
            None => self.withdraw(end),
        }
    }

    // Returns the seat that is out if it has come back, otherwise None.
    fn fetch_answer(&self, end: &mut CallerEnd<J>) -> Option<Returned<J>>
        requires { HasSomethingOut self.now end.old }
        ensures { LooksFor J.means self.now self.now end.old end.new result }
    {
        let shared = &self.table.shared;
        let found = shared.compare_exchange::<Collect>(&mut end.seat, 0, BACK, EMPTY);
        if found != BACK {
            return None;
        }
        let letter = shared.exchange(&mut end.seat, 0, MailboxLetter::Nothing);
        let MailboxLetter::Answer(seat) = letter else {
            unreachable!()
        };
        Some(Returned { seat, begun: true })
    }

    // Returns the seat that is out if the helper hasn't taken its task, otherwise None.
    fn withdraw(&self, end: &mut CallerEnd<J>) -> Option<Returned<J>>
        requires { HasSomethingOut self.now end.old }
        ensures { LooksFor J.means self.now self.now end.old end.new result }
    {
        let shared = &self.table.shared;
        let found = shared.compare_exchange::<Withdraw>(&mut end.seat, 0, GIVEN, EMPTY);
        if found != GIVEN {
            return None;
        }
        let letter = shared.exchange(&mut end.seat, 0, MailboxLetter::Nothing);
        let MailboxLetter::Task(task) = letter else {
            unreachable!()
        };
        Some(Returned {
            seat: task.into_seat(self, end),
            begun: false,
        })
    }

    /// Announces that there will be no further task: the helper ends when it finds that.
    pub(crate) fn end(&self, end: &mut CallerEnd<J>)
        requires { HasNothingOut self.now end.old }
        ensures { HasNothingOut self.now end.new }
    {
        self.table.shared.store::<Close>(&mut end.seat, 0, OVER);
    }

    /// Looks at the word, which has one of the values in `letter`. It may have changed since.
    pub(crate) fn word(&self) -> u64 {
        self.table.shared.peek(0)
    }

    /// Returns how often the helper is to look before it takes the task in the mailbox. It may have changed
    /// since.
    pub(crate) fn hesitation(&self) -> u32 {
        self.hesitation.load(Ordering::SeqCst)
    }

    /// Takes the task that was given, or returns None if there is none.
    pub(crate) fn take(&self, end: &mut HelperEnd<J>) -> Option<Task<J>>
        requires { IsFree self.now end.old }
        ensures some { IfSome result (λ task. IsOnDuty self.now end.new (arc_value task.board) task.seat) }
        ensures ready { IfSome result (λ task. IsReady J.means (arc_value task.board) task.seat) }
        ensures none { IfNone result (IsFree self.now end.new) }
    {
        let shared = &self.table.shared;
        let found = shared.compare_exchange::<Take>(&mut end.seat, 0, GIVEN, TAKEN);
        if found != GIVEN {
            return None;
        }
        let letter = shared.exchange(&mut end.seat, 0, MailboxLetter::Nothing);
        let MailboxLetter::Task(task) = letter else {
            unreachable!()
        };
        Some(task)
    }

    /// Gives the helper's seat back, after its work.
    pub(crate) fn give_back(&self, end: &mut HelperEnd<J>, seat: BoardSeat<J>)
        requires { (b : Board J.row.Denot) × (s : BoardSeat J.row.Denot)
            × IsOnDuty self.now end.old b s × IsThrough J.means b s seat }
        ensures { IsFree self.now end.new }
    {
        let shared = &self.table.shared;
        let held = shared.exchange(&mut end.seat, 0, MailboxLetter::Answer(seat));
        drop(held);
        shared.store::<GiveBack>(&mut end.seat, 0, BACK);
    }
}
