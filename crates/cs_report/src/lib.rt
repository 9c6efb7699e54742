//! What the program prints at its end: the status of a run, its number and its line, and the report of a
//! performance.
//!
//! The one contract: `say_end` writes the line of a status (`message_of`, specs/Talk), and `report` writes
//! the counts, the lines of the meters and the turns (`counts_in`, specs/Report), completely or, if a write
//! failed, a prefix.
//!
//! How a report and a line are made, and in how many writes, may be changed without anyone above noticing.
//!
//! Modules in reading order: `status`, `talk` (the line of a status), `counts` (the report).
#![tactic(auto)]

mod counts;
mod status;
mod talk;

pub use counts::{PerformanceCounts, report};
pub use status::Status;
pub use talk::say_end;
