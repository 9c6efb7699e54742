//! The unit generators by opcode: phases, curves that read a table's points, and one type for the state of
//! any opcode of a note.
//!
//! Its one contract: `start`, `step` and `block` are `unit_start`, `unit_step` and the run of steps
//! (specs/Units.antt), and `units_meet_their_formulas` states that these return `gen`, the formula of an
//! opcode over all inputs so far. A table is read through a `Curve`, which no call changes. Only a start can
//! run out of memory; a step can't. The way a phase is stored, the states are combined in one type, and a
//! loop is chosen for a block, may be changed without anyone above noticing. `gen`, the formulas and `Stands`
//! may not.
//!
//! In reading order: `angle` (a part of a turn), `phase` (the phase of a unit), `curve` (what units read),
//! `frozen` (a table that isn't changed after it is made, and its curve), `reading` (points held, or lines
//! between them); `phasor`, `oscillator` (`oscil`, `oscili`), `table` (`table`, `tablei`); `oscillator_laws`;
//! `unit` (the type, its start, one step, and a vector of steps in one call), `laws`.
#![tactic(auto)]

mod angle;
mod curve;
mod frozen;
mod laws;
mod oscillator;
mod oscillator_laws;
mod phase;
mod phasor;
mod reading;
mod table;
mod unit;

pub use cs_signal::delay_samples;
pub use curve::Curve;
pub use frozen::{Frozen, FrozenTable, ShortCurve};
pub use laws::{blocks_meet_their_formulas, units_meet_their_formulas};
pub use oscillator_laws::{made_tables_are_curves, steps_worked_by_hand};
pub use phasor::Phasor;
pub use unit::Unit;
