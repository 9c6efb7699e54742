// A helper's membership in the group for which the caller waits.
ghost use Rattle.cs_pool.specs.Mailboxes.{HasNothingOut, IsFree};

use crate::mailbox::{CallerEnd, HelperEnd, Mailbox};
use crossbeam_utils::sync::WaitGroup;
use cs_cells::Job;
use std::alloc::{AllocError, Global};
use std::mem::ManuallyDrop;

/// A membership goes with a task. Dropping it doesn't leave the group: only the two calls here leave, and
/// each of them requires the end of the mailbox that shows where the helper's seat is.
#[derive(Drop)]
pub(crate) struct Member {
    group: ManuallyDrop<WaitGroup<Global>>,
}

impl Member {
    /// Adds one more member to the group.
    pub(crate) fn of(group: &WaitGroup<Global>) -> Result<Member, AllocError> {
        Ok(Member {
            group: ManuallyDrop::new(group.clone()?),
        })
    }

    /// Leaves the group for the helper. The helper is free: its seat is in the mailbox, where the caller,
    /// which waited for the group, finds it.
    pub(crate) fn leave<J: Job>(self, _mailbox: &Mailbox<J>, _end: &HelperEnd<J>)
        requires { IsFree _mailbox.now _end.now }
    {
        let Member { group } = self;
        drop(ManuallyDrop::into_inner(group));
    }

    /// Leaves the group for a helper that never took its task. Nothing is out: the seat belongs to the caller
    /// again.
    pub(crate) fn leave_untaken<J: Job>(self, _mailbox: &Mailbox<J>, _end: &CallerEnd<J>)
        requires { HasNothingOut _mailbox.now _end.now }
    {
        let Member { group } = self;
        drop(ManuallyDrop::into_inner(group));
    }
}
