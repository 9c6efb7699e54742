// Implements the mailbox's protocol as a rule for `atomic_table`, and states what each kind of step lets an
// end know.
use crate::letter::MailboxLetter;
use crate::view::Knows;
use atomic_table::{Play, Split, TableRule};
use cs_cells::Job;

/// The mailbox's rule, as `atomic_table` calls it.
pub(crate) struct MailboxRule;

impl<J: Job> TableRule<MailboxLetter<J>, Knows<J>, ()> for MailboxRule {
    ghost use Rattle.cs_pool.specs.inner.Exchange.{Always, beginning};
    ghost use Rattle.cs_pool.specs.declared.view.Role.TheVariants.{Maker};

    ghost holds = { λ _. Always J.means };

    ghost first = { λ _. beginning Maker };
}

/// The first end takes the content of the slot, with a load.
pub(crate) struct Fetch;

impl<J: Job> Play<MailboxLetter<J>, Knows<J>> for Fetch {
    ghost use Rattle.cs_pool.specs.inner.Telling.{fetched};

    ghost then = { fetched };
}

/// The helper's end is split off the first one, which is the caller's from then on.
pub(crate) struct SplitOff;

impl<J: Job> Split<Knows<J>> for SplitOff {
    ghost use Rattle.std.specs.Prelude.{None};
    ghost use Rattle.cs_pool.specs.Letters.{caller, helper, no_tasks};

    ghost left = { λ _. caller no_tasks None };

    ghost right = { λ _. helper None };
}

/// A task is given: the slot receives it, and the word becomes GIVEN.
pub(crate) struct Give;

impl<J: Job> Play<MailboxLetter<J>, Knows<J>> for Give {
    ghost use Rattle.cs_pool.specs.inner.Telling.{gave};

    ghost then = { gave };
}

/// A task is taken: the word changes from GIVEN to TAKEN, and the helper has the slot's content.
pub(crate) struct Take;

impl<J: Job> Play<MailboxLetter<J>, Knows<J>> for Take {
    ghost use Rattle.cs_pool.specs.inner.Telling.{took};

    ghost then = { took J.means };
}

/// The helper's seat is given back: the slot receives it, and the word becomes BACK.
pub(crate) struct GiveBack;

impl<J: Job> Play<MailboxLetter<J>, Knows<J>> for GiveBack {
    ghost use Rattle.cs_pool.specs.inner.Telling.{gave_back};

    ghost then = { gave_back };
}

/// The seat is collected: the word changes from BACK to EMPTY, and the caller has the slot's content.
pub(crate) struct Collect;

impl<J: Job> Play<MailboxLetter<J>, Knows<J>> for Collect {
    ghost use Rattle.cs_pool.specs.inner.Telling.{collected};

    ghost then = { collected J.means };
}

/// A task that the helper hasn't taken is taken back: the word changes from GIVEN to EMPTY, and the caller
/// has the slot's content.
pub(crate) struct Withdraw;

impl<J: Job> Play<MailboxLetter<J>, Knows<J>> for Withdraw {
    ghost use Rattle.cs_pool.specs.inner.Telling.{withdrew};

    ghost then = { withdrew J.means };
}

/// The word becomes OVER.
pub(crate) struct Close;

impl<J: Job> Play<MailboxLetter<J>, Knows<J>> for Close {
    ghost use Rattle.cs_pool.specs.inner.Telling.{closed};

    ghost then = { closed };
}
