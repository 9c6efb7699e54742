//! A note as it sounds: a job that begins with its first code, performs its second code once in each control
//! cycle, and produces samples.
//!
//! The one contract: a `Voice` obeys the frame law of `Job`, and its run is a cycle of the voice of the
//! definitions, with any sheet that it plays from (`voices_perform`): it leaves in the cells of its
//! footprint, in its registers and units and in its channels exactly what its code does there. `start` leaves
//! the result that the definition of a voice's beginning states (`initialised` of cs_voice_meaning), even if
//! the note is refused; no run can fail for lack of memory. `mix` writes for each frame and channel the plain
//! sum of the voices' samples (`mixed`).
//!
//! These may be changed without anyone above noticing: how a voice lies in memory, how its tables and cells
//! are found, which loop runs its codes, and in which order voices are added.
//!
//! Modules in reading order: `shared` (what notes share, by resource and rate), `zak` (zak places), `unit`
//! (units), `store` (stores into tables), `any` (the act of any op); `tables` (the tables that a note finds),
//! `begin` (units), `asks` (scheduled notes), `starter` (what only the code that begins a note has), `run`
//! (steps, and the routines that they invoke); `stage` (what all notes of a piece play in), `cycle` (the
//! second code, once in each control cycle), `body`, `voice` (the note and its run as a job), `laws`; `pass`
//! (the first code), `note` (how a note begins); `adding` (the sum of voices).
#![tactic(auto)]

mod adding;
mod any;
mod asks;
mod begin;
mod body;
mod cycle;
mod heard;
mod laws;
mod note;
mod pass;
mod run;
mod shared;
mod stage;
mod starter;
mod store;
mod tables;
mod unit;
mod voice;
mod zak;

pub use adding::mix;
pub use laws::voices_perform;
pub use note::{NewNote, Started, start};
pub use stage::{PieceTable, Stage};
pub use voice::Voice;
