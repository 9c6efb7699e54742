// The caller's side of one helper.
ghost use Rattle.std.specs.{Prelude.◌≡◌, Prelude.◌+◌, Prelude.IfOk, Prelude.IfNone, Int.from_bool, Arc.arc_value};
ghost use Rattle.cs_board.specs.{declared.board.Board.Board, declared.board.BoardSeat.BoardSeat};
ghost use Rattle.cs_pool.specs.{Working.IsDone, Working.IsThrough, Letters.one_given};
ghost use Rattle.cs_pool.specs.Mailboxes.{HasNothingOut, IsFree, LooksFor, given, served, tasks};
ghost use Rattle.cs_pool.specs.inner.Lines.{IsIdle, IsLent, IsBusy};

use crate::helper::{help, pause};
use crate::letter::{TAKEN, Task};
use crate::mailbox::{CallerEnd, HelperEnd, Mailbox, Returned};
use crate::member::Member;
use crossbeam_utils::sync::{Parker, Unparker, WaitGroup};
use cs_board::Board;
use cs_cells::Job;
use cs_edge::Gate;
use std::alloc::{AllocError, Global};
use std::sync::{Arc, Wait};
use std::thread;
use std::thread::{Builder, JoinHandle, Scope, Threads};

// The stack size of a helper in bytes, whatever the system's default is. A note's program is run by
// recursion, which takes a few hundred bytes for each level.
const STACK: usize = 1 << 20;

// The number of times that the caller looks for the seat of a helper that is still working, before it sleeps
// until the helper has given the seat back.
const LOOKS: u32 = 1_200;

// The number of these looks that follow each other immediately, a few microseconds in total. After that many
// it yields to other threads between looks.
const BRISK_LOOKS: u32 = 1_000;

/// The mailbox of a helper and the caller's end of it, with the object that wakes the helper and the handle
/// that joins its thread.
pub(crate) struct Line<J: Job> {
    pub(crate) mailbox: Arc<Mailbox<J>, Global>,
    pub(crate) end: CallerEnd<J>,
    unparker: Unparker<Global>,
    handle: JoinHandle<()>,
    // The caller's own membership in the group that the helper leaves after its work. It lasts from cycle to
    // cycle, until the caller has to wait for the group.
    group: Option<WaitGroup<Global>>,
}

impl<J: Job + Drop> Line<J> {
    /// Starts a helper in a thread of the scope, with a stack of a fixed size. It fails only if memory runs
    /// out or no thread can be started.
    pub(crate) fn start<'s, 'e, R, G>(
        rt: &'e R,
        scope: &'s Scope<'s, &'e ()>,
        alloc: Global,
        gate: &'e G,
    ) -> Result<Line<J>, AllocError>
    where
        J: Send + 's,
        R: Threads + Wait + Sync,
        G: Gate + Sync,
        ensures { IfOk result (λ line. IsIdle line) }
    {
        let (mailbox, theirs, end, helper_end) = shared_mailbox::<J>(alloc)?;
        let (parker, unparker) = bell(alloc)?;
        let Ok(handle) = Builder::new()
            .stack_size(STACK)
            .spawn_scoped(scope, move || help(rt, gate, theirs, helper_end, parker))
        else {
            return Err(AllocError);
        };
        Ok(Line {
            mailbox,
            end,
            unparker,
            handle,
            group: None,
        })
    }

    /// Makes what the helper needs in addition to its seat: a share of the board, and a membership in the
    /// group.
    pub(crate) fn part_in(
        &mut self,
        alloc: Global,
        board: &Arc<Board<J>, Global>,
    ) -> Result<(Arc<Board<J>, Global>, Member), AllocError>
        requires { IsIdle self.old }
        ensures idle { IsIdle self.new }
        ensures share { IfOk result (λ r. arc_value r.0 ≡ arc_value board.now) }
        ensures tasks { tasks self.new.end ≡ tasks self.old.end }
    {
        let share = Arc::try_clone(board)?;
        let member = joined(alloc, &mut self.group)?;
        Ok((share, member))
    }

    /// Gives a task to the helper, which is to look `hesitation` times before it takes it, and wakes the
    /// helper.
    pub(crate) fn give(&mut self, task: Task<J>, hesitation: u32)
        requires idle { IsIdle self.old }
        requires task { IsDone J.means (arc_value task.board) task.seat }
        ensures lent { IsLent self.new (arc_value task.board) task.seat }
        ensures tasks { tasks self.new.end ≡ one_given (tasks self.old.end) }
    {
        self.mailbox.give(&mut self.end, task, hesitation);
        self.unparker.unpark();
    }

    /// Returns the seat that is out, after its work. The caller doesn't wait for a helper that hasn't begun:
    /// it takes the seat back. Otherwise it looks for the seat for a while, and then sleeps until the helper
    /// leaves the group.
    pub(crate) fn await_seat<R: Wait>(&mut self, rt: &R) -> Returned<J>
        requires { IsBusy self.old }
        ensures home { IsIdle self.new }
        ensures seat { (b : Board J.row.Denot) (s : BoardSeat J.row.Denot)
            → IsLent self.old b s → IsThrough J.means b s result.seat }
        ensures served { served self.new.end ≡ served self.old.end + from_bool result.begun }
        ensures given { given self.new.end ≡ given self.old.end }
    {
        if let Some(returned) = self.look() {
            return returned;
        }
        if let Some(group) = self.group.take() {
            group.wait(rt);
        }
        for _ in rt.forever() {
            if let Some(returned) = self.collect() {
                return returned;
            }
            thread::yield_now();
        }
        unreachable!()
    }

    // Returns the seat that is out, or None if it isn't found within a while.
    fn look(&mut self) -> Option<Returned<J>>
        requires { IsBusy self.old }
        ensures looked { LooksFor J.means (arc_value self.old.mailbox) (arc_value self.new.mailbox)
            self.old.end self.new.end result }
        ensures busy { IfNone result (IsBusy self.new) }
    {
        for look in 0..LOOKS {
            if let Some(returned) = self.collect() {
                return Some(returned);
            }
            pause(look, BRISK_LOOKS);
        }
        None
    }

    // Returns the seat that is out if it has come back or the helper hasn't begun, and otherwise None.
    fn collect(&mut self) -> Option<Returned<J>>
        requires { IsBusy self.old }
        ensures looked { LooksFor J.means (arc_value self.old.mailbox) (arc_value self.new.mailbox)
            self.old.end self.new.end result }
        ensures busy { IfNone result (IsBusy self.new) }
    {
        let mailbox: &Mailbox<J> = &self.mailbox;
        if mailbox.word() == TAKEN {
            return None;
        }
        mailbox.collect(&mut self.end)
    }

    /// Tells the helper that there will be no further task, wakes it, and joins its thread.
    pub(crate) fn close<R: Threads>(self, rt: &R)
        requires { IsIdle self }
    {
        let Line {
            mailbox,
            mut end,
            unparker,
            handle,
            group: _,
        } = self;
        mailbox.end(&mut end);
        unparker.unpark();
        handle.join(rt);
    }
}

// Makes a mailbox with two owners, and its two ends.
fn shared_mailbox<J: Job + Drop>(
    alloc: Global,
) -> Result<
    (
        Arc<Mailbox<J>, Global>,
        Arc<Mailbox<J>, Global>,
        CallerEnd<J>,
        HelperEnd<J>,
    ),
    AllocError,
>
    ensures caller { IfOk result (λ r. HasNothingOut (arc_value r.0) r.2) }
    ensures helper { IfOk result (λ r. IsFree (arc_value r.1) r.3) }
{
    let (mailbox, end, helper_end) = Mailbox::new(alloc)?;
    let mine = Arc::new(alloc, mailbox)?;
    let theirs = Arc::try_clone(&mine)?;
    Ok((mine, theirs, end, helper_end))
}

// Returns a membership in the group, which is made if there is none.
fn joined(alloc: Global, group: &mut Option<WaitGroup<Global>>) -> Result<Member, AllocError> {
    if let Some(group) = group {
        return Member::of(group);
    }
    let made = WaitGroup::new(alloc)?;
    let member = Member::of(&made)?;
    *group = Some(made);
    Ok(member)
}

// Makes the object on which a helper sleeps, and the one that wakes it.
fn bell(alloc: Global) -> Result<(Parker<Global>, Unparker<Global>), AllocError> {
    let parker = Parker::new(alloc)?;
    let unparker = parker.unparker().clone()?;
    Ok((parker, unparker))
}
