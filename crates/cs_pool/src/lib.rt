//! The standing crew of a performance: helpers that are started once, and take part in each control cycle for
//! which the caller gives them a seat at the cycle's board. Between cycles they look for work for a while,
//! and then sleep.
//!
//! The one contract: `Pool::cycle` returns a receipt with the jobs and the desk with the cells of the serial
//! run, for every number of helpers and every interleaving of their steps, in each of any number of cycles.
//!
//! These may change without anyone above noticing: how a helper gets its seat and gives it back, how it is
//! woken, how long a thread looks before it sleeps, how many helpers get a part in a cycle, and who runs
//! which note. In reading order: `worker` (claim, run, finish), `letter` (the content of a helper's mailbox),
//! `member`, `view` (what a mailbox's two ends know), `mailbox_rule`, `mailbox`, `helper` (the work of a
//! helper), `line` (the caller's side of one helper), `sparing` (which cycles the caller plays without
//! helpers), `pool` (all helpers, started and ended), `cycle`; `crew` (the parameters of a performance),
//! `size` (how many workers are useful), `one_cycle` (a crew that starts and ends with one cycle, for a
//! caller with a single cycle to play: the program uses one pool for all of its cycles).
#![tactic(auto)]

mod crew;
mod cycle;
mod helper;
mod letter;
mod line;
mod mailbox;
mod mailbox_rule;
mod member;
mod one_cycle;
mod pool;
mod size;
mod sparing;
mod view;
mod worker;

pub use crew::Crew;
pub use one_cycle::run_cycle;
pub use pool::Pool;
pub use size::crew_size;
