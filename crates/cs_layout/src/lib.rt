//! Which cells belong to what: one layout for everything that the notes of a piece share.
//!
//! The one contract: `layout` returns the areas that specs/Layouts.antt defines, or the limit that they
//! exceed. A resource has an area if and only if the piece has the resource, with as many cells as it needs
//! (`layouts_are_complete`), so a note of the piece finds in it everything that it reads and writes
//! (`layouts_hold_a_piece`).
//!
//! The order of the areas may be changed without anyone above noticing. In reading order: `areas`, `laws`.
#![tactic(auto)]

mod areas;
mod laws;

pub use areas::{LiveTable, layout};
pub use laws::{layouts_are_complete, layouts_have_their_places, layouts_hold_a_piece};
