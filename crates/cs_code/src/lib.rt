//! The code of notes: translates the typed tree into two flat codes for each instrument, one that a note runs
//! as it begins and one for each control cycle.
//!
//! Its one contract is `lower`'s: for each number in the text it returns one instrument, whose codes mean the
//! tree (specs/Means.antt) in every piece, use and write the same resources, and are valid
//! (specs/Lowered.antt). The ops that are emitted (specs/inner/Code.antt) may be changed without anyone above
//! noticing.
//!
//! In reading order: `frame` (registers, and functions that append ops), `value` and `expr` (expressions),
//! `args`, `reach` and `run` (the values of calls, and ops on them), `simple` (simple statements in either
//! pass), `call` (the core statements of calls), `leaves` (statements that are no `if` and invoke no
//! routine), `jumps` (jumps whose target is set later), `stmt` (statements, blocks, arms, and calls of
//! routines), `routines` (the code of each routine, generated once), `codes` (both codes of a block),
//! `orchestra` (`lower`: valid codes, and instruments by number), `laws` (worked examples).
#![tactic(auto)]

mod args;
mod call;
mod codes;
mod expr;
mod frame;
mod jumps;
mod laws;
mod leaves;
mod orchestra;
mod reach;
mod routines;
mod run;
mod simple;
mod stmt;
mod value;

pub use laws::codes_worked_by_hand;
pub use orchestra::{Lowered, lower};
