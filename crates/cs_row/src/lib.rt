//! Consecutive notes of a cycle that touch the same resources, run as one job of the board: they are claimed
//! together, and the thread that runs them adds up their samples.
//!
//! The one contract: a `Row` is a `Job`, whose run is the serial run of its notes. `row_laws` states that the
//! run of rows is the run of their notes, and that two notes conflict if and only if their rows do; so every
//! promise about rows is also one about notes.
//!
//! In reading order: `heard` (what is summed), `order` (jobs that run one after another), `row`, `cut` (which
//! notes make a row), `rows` (what is reused from cycle to cycle), `memory`, `sums`, `laws`.
#![tactic(auto)]

mod cut;
mod heard;
mod laws;
mod memory;
mod order;
mod row;
mod rows;
mod sums;

pub use heard::Heard;
pub use laws::row_laws;
pub use order::run_in_order;
pub use row::{Row, RowRoom};
pub use rows::Rows;
pub use sums::sum_rows;
