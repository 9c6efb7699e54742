//! Performing a piece: its notes run cycle by cycle on a desk, and its mix goes to meters and into a sink.
//!
//! The one contract: `perform` with a crew (also named `perform_pool`), and `perform_alone` with one worker,
//! which waits for no other thread, tie bytes, taps and receipts to one number of cycles of the composition
//! that a setup represents. At Ok these are all cycles: the sink has the file of all frames, each tap
//! received the frames, and every cycle was counted by the voices that were heard in it. If the performance
//! stops early, it is some number of complete cycles; the sink has a prefix of their file, which lacks at
//! most the last of them. If memory runs out, the sink has exactly their samples (specs/Performances,
//! Counted).
//!
//! These may be changed without anyone above noticing: how large a desk is and when it is replaced, when the
//! graph of a cycle is built again, and in which blocks the mix is made.
//!
//! Modules in reading order: `order` (the order and the outcome), `performance`, `counter` (counting cycles),
//! `loan` (what the caller lends), `by_crew` (in a scope of threads), `sounder` (making the sound of the
//! cycles), `cycle`, `stand` (the state from cycle to cycle), `recording`, `taps`, `turns`, `sizes`,
//! `writing`; `laws`.
#![tactic(auto)]

mod by_crew;
mod counter;
mod cycle;
mod laws;
mod loan;
mod order;
mod performance;
mod recording;
mod sizes;
mod sounder;
mod stand;
mod taps;
mod turns;
mod writing;

pub use counter::Counter;
pub use cs_pool::Crew;
pub use laws::{early_stops_are_fronts, tallies_count_cycles_and_notes};
pub use order::{Outcome, Output, Performance, PerformanceOrder, PlayFault, TurnLines};
// Each crew stays for the complete performance, so `perform_pool`, for a crew that is asked to stay, is the
// same call.
pub use performance::{perform, perform as perform_pool, perform_alone};
