// The work of a helper from its start to the end of the performance.
ghost use Rattle.std.specs.Arc.{arc_value};
ghost use Rattle.cs_pool.specs.Mailboxes.{IsFree};

use crate::letter::{GIVEN, OVER, Task};
use crate::mailbox::{HelperEnd, Mailbox};
use crate::worker::work;
use crossbeam_utils::sync::Parker;
use cs_board::Patience;
use cs_cells::Job;
use cs_edge::Gate;
use std::alloc::Global;
use std::hint::spin_loop;
use std::sync::{Arc, Wait};
use std::thread;

// The number of times that a helper looks for a task before it sleeps.
const LOOKS: u32 = 2_200;

// The number of these looks that follow each other immediately, a few microseconds in total. After that many
// it yields to other threads between looks, so that no helper has to be woken in a series of cycles that are
// a few tens of microseconds apart.
const BRISK_LOOKS: u32 = 2_000;

// The number of tasks in succession for which a helper halves its hesitation each time. After that it
// hesitates as long as at first again.
const EAGER_TASKS: u32 = 64;

// How long a helper that has taken a task and finds no note to claim goes on looking, while notes wait. It
// never yields to other threads: the caller can't take the task back any more, so a thread that keeps this
// helper from the processor would delay the cycle.
const PATIENCE: Patience = Patience {
    looks: 10_000,
    brisk: 10_000,
};

/// Takes part in each cycle for which there is a task in the mailbox, until there will be no further task.
pub(crate) fn help<J: Job + Drop, G: Gate, R: Wait>(
    rt: &R,
    gate: &G,
    mailbox: Arc<Mailbox<J>, Global>,
    mut end: HelperEnd<J>,
    parker: Parker<Global>,
)
    requires { IsFree (arc_value mailbox) end }
{
    let mut taken = 0;
    for _ in rt.forever() {
        match await_word(rt, &mailbox, &parker) {
            GIVEN => taken = serve(rt, gate, &mailbox, &mut end, taken),
            OVER => return,
            _ => {}
        }
    }
    unreachable!()
}

// Looks for a task, or for the end of all tasks, for a while, and then sleeps until the caller wakes it.
// Returns the word that it found last.
fn await_word<J: Job + Drop, R: Wait>(
    rt: &R,
    mailbox: &Mailbox<J>,
    parker: &Parker<Global>,
) -> u64 {
    for look in 0..LOOKS {
        let word = mailbox.word();
        if word == GIVEN || word == OVER {
            return word;
        }
        pause(look, BRISK_LOOKS);
    }
    parker.park(rt);
    mailbox.word()
}

/// Pauses between look number `look` and the next one; the first `brisk` pauses are short.
pub(crate) fn pause(look: u32, brisk: u32) {
    if look < brisk {
        spin_loop();
    } else {
        thread::yield_now();
    }
}

// Does one task, unless the caller has taken it back: the helper works at its seat, drops its share of the
// board, gives the seat back, and leaves the group, in this order. `taken` is the number of tasks in
// succession that it has taken; returns the number after this one.
fn serve<J: Job + Drop, G: Gate, R: Wait>(
    rt: &R,
    gate: &G,
    mailbox: &Mailbox<J>,
    end: &mut HelperEnd<J>,
    taken: u32,
) -> u32
    requires { IsFree mailbox.now end.old }
    ensures { IsFree mailbox.now end.new }
{
    hesitate(mailbox, taken);
    let Some(task) = mailbox.take(end) else {
        return 0;
    };
    let Task {
        board,
        mut seat,
        cycle,
        member,
    } = task;
    work(rt, &board, &mut seat, cycle, gate, PATIENCE);
    drop(board);
    mailbox.give_back(end, seat);
    member.leave(mailbox, end);
    if taken < EAGER_TASKS { taken + 1 } else { 0 }
}

// Lets the caller take back a task that it can play itself within a short while, given by the hesitation of
// the task: a cycle that is over by then isn't shared. The looks follow one another immediately: a pause
// instruction of the processor, which takes from 4 to 60 nanoseconds, would make them as long as a heavy
// cycle.
fn hesitate<J: Job + Drop>(mailbox: &Mailbox<J>, taken: u32) {
    let looks = mailbox.hesitation().checked_shr(taken).unwrap_or(0);
    for _ in 0..looks {
        if mailbox.word() != GIVEN {
            return;
        }
    }
}
