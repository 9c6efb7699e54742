//! What is performed: everything that a piece needs, made from its typed orchestra and its plot before the
//! first note.
//!
//! The one contract: `Setup::new` returns a setup of its arguments, or the limit on resources or cells that
//! its layout exceeds. A setup represents a composition (specs/Setups, `composition_of`). It returns to its
//! performer the stage of the piece and each instrument with its footprint, with which notes can begin and
//! perform what the composition says (`IsStageOf`, `IsInstrumentOf` of specs/Ready). By the law
//! `instruments_are_performed`, voices that play from an instrument's sheet do, as they begin and in every
//! control cycle, what the definitions say about its notes (specs/Sheets, specs/VoicesOfNotes). How tables
//! are found, stored and told apart, and which of them are cells, may be changed without anyone above
//! noticing, except the definition of `tables_in`.
//!
//! Modules in reading order: `laws` (a voice performs its note), `written` (tables that codes may write),
//! `tables` (the tables of a plot), `setup`, `stage` (what a performer receives).
#![tactic(auto)]

mod erased;
mod laws;
mod setup;
mod stage;
mod tables;
mod written;

pub use laws::{instruments_are_performed, tables_are_in_order, voices_perform_their_notes};
pub use setup::Setup;
pub use stage::Playable;
pub use tables::GivenTable;
