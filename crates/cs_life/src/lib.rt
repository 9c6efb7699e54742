//! The life of notes: how they start, wait, end and leave, cycle by cycle.
//!
//! The one contract: `Life::new` is the opening of the piece's performance (cs_piece_meaning), `begin_cycle`
//! leads from the moment before a cycle to the moment at which the cycle's notes have begun, and `end_cycle`
//! to the moment after it. Between the two, the performer of the notes passes in the result of the serial
//! run, which by `serial_runs_perform` is the cycle's performance (`StandsFor`, specs/Standing). The caller
//! owns the voices and cells. The order in which memory is allocated, and how tables and waiting notes are
//! found, may be changed without anyone above noticing.
//!
//! Modules in reading order: `life` (the state that is stored), `starting` (a note starts), `roster` (it joins
//! the voices that play), `tables` (a table is made), `leaving` (why notes leave), `begin`, `end`, `laws`.
#![tactic(auto)]

mod begin;
mod end;
mod laws;
mod leaving;
mod life;
mod roster;
mod starting;
mod tables;

pub use laws::{serial_runs_perform, voices_are_heard};
pub use life::Life;
