//! Notes that other notes schedule: which of them wait, and when each begins.
//!
//! Its one contract: contracts see the waiting notes as a list for each cycle, of the notes that begin in it,
//! in the order in which they were added (specs/Waiting.antt). `Pending::add` returns the first answer that
//! applies, and adds the note if and only if that is `Kept`; `Pending::next` takes the first note out. The
//! layout of notes of different cycles in memory, and the way the first note of a cycle is found, may be
//! changed without anyone above noticing.
//!
//! In reading order: `due` (when a note begins and ends), `pending`.
#![tactic(auto)]

mod due;
mod pending;

pub use due::Due;
pub use pending::{Added, Asking, Pending};
