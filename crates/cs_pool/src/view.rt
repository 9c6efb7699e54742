// What the two ends of a mailbox know about it. No value of these types exists at run time: only contracts
// mention them.
use cs_board::{Board, BoardSeat};
use cs_cells::Job;

/// The owner of a view. A mailbox begins with one end, which first takes the content of the slot and then
/// becomes the caller's, when the helper's is split off.
pub(crate) enum Role {
    Maker,
    Holder,
    Caller,
    Helper,
}

/// A seat that was given to the helper, and its board.
pub(crate) struct Errand<J: Job> {
    pub(crate) board: Board<J>,
    pub(crate) seat: BoardSeat<J>,
}

/// How many tasks the caller gave to the helper, and how many of them the helper has begun and given back. A
/// task that was taken back doesn't count as served.
pub(crate) struct Tasks {
    pub(crate) given: u64,
    pub(crate) served: u64,
}

/// What one end of a mailbox knows.
pub(crate) struct Knows<J: Job> {
    pub(crate) role: Role,
    /// In the caller's view the seat that is out, and in the helper's view the seat at which it works.
    pub(crate) out: Option<Errand<J>>,
    /// In the caller's view the tasks so far.
    pub(crate) tasks: Tasks,
}
