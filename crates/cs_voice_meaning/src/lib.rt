//! The meaning of a note as it is played: the world in which a voice performs its code, and how it
//! corresponds to the note of the meaning.
//!
//! In reading order: specs/Placing maps shared resources to their cells. specs/VoiceWorld defines the actions
//! of a voice on cells. specs/Follows relates the state of the voice's world to the state of the plain world.
//! specs/Voices defines a voice as a job.
//!
//! Its one contract: by `voices_stand_for_notes`, a code has the same effect over cells and the states of
//! units as in the plain world; `voices_obey_the_frame_law` goes with it. The layout of registers, units and
//! cells in memory may change without anyone above noticing. This crate has no code.
#![tactic(auto)]

mod examples;
mod laws;

pub use examples::voices_worked_by_hand;
pub use laws::{
    cycles_refuse_nothing, voices_fit_their_room, voices_obey_the_frame_law, voices_stand_for_notes,
};
