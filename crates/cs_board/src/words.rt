// The values of a note's status word and of an edge's watch word.

/// A status: an earlier note that this one waits for isn't Done yet.
pub const WAITING: u64 = 0;

/// A status: the note waits for nothing, and no worker has it yet.
pub const AVAILABLE: u64 = 1;

/// A status: a worker is running the note.
pub const IN_PROGRESS: u64 = 2;

/// A status: the note has run, and its job is back in its slot.
pub const DONE: u64 = 3;

/// A watch word: no note waits at the edge.
pub const IDLE: u64 = 0;

/// A watch word: the later note waits at the edge until the earlier one is Done.
pub const WATCHED: u64 = 1;

/// A watch word: the earlier note is Done.
pub const CLOSED: u64 = 2;
