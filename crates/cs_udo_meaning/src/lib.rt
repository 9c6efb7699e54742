//! The meaning of calls of user-defined opcodes, and the proof that an expanded orchestra has this meaning.
//!
//! A crate of definitions and laws. specs/Frames defines the actions of a note in which each place of a call
//! has a separate frame, in any world, from the meaning of single statements (cs_meaning). specs/Stands
//! relates a note of the expanded text to the note with frames. specs/Lives defines the life of a note from
//! its beginning on, and `MeansFrames`, which states that both notes have the same life. specs/Numbered
//! defines the typed form of statements by a number for each local name, and specs/Typed states that typing
//! produces this form. specs/Renumbered has worlds with other numbers for shared resources, and
//! specs/Examples small instruments.
//!
//! Its one contract: `expansion_means_calls`, which cs_compile extends to the meaning of texts
//! (`pieces_mean_their_calls`), and `expansions_can_be_lowered`, on which the compiling of texts depends. The
//! way cs_udo makes names fresh and numbers frames may be changed without anyone above noticing.
#![tactic(auto)]

mod laws;

pub use laws::{
    calls_have_frames_of_their_own, calls_worked_by_hand, expansion_means_calls,
    expansions_can_be_lowered, shared_names_have_any_numbers, typing_is_by_numbers,
};
