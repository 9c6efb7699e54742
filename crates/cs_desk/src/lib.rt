//! The state between two control cycles. A desk owns the words and slots of a complete performance with the
//! cells of the piece; it opens a board for each cycle, and the board comes to rest as a desk again.
//!
//! The one contract: a cycle leaves the jobs, and a desk with the cells, that its notes leave when they run
//! one by one in serial order, whether on a board (`Desk::open`, `Desk::rest`) or without one
//! (`Desk::run_alone`). `open` allocates nothing and can't fail.
//!
//! The order in which words are laid and cleared, and the place of the cells, may change without anyone above
//! noticing. In reading order: `receipt`, `resting` (words, slots and their seat), `plain` (cells in plain
//! memory), `desk`, `room`, `course` (the graph that is reused from cycle to cycle), `alone` (a cycle without
//! a board), `open`, `rest`, `laws` (the order of notes on a board of rows).
#![tactic(auto)]

mod alone;
mod course;
mod desk;
mod laws;
mod open;
mod plain;
mod receipt;
mod rest;
mod resting;
mod room;

pub use course::{Course, feet_of};
pub use desk::Desk;
pub use laws::notes_run_in_turn;
pub use receipt::{Receipt, Tally};
pub use room::make_room;
