//! The resources that a note may touch: its footprint over the zones of a layout.
//!
//! Its one contract: `find_zones` divides a layout into zones, neighbouring areas that each code of a piece
//! touches together. For each performance code it lists the zones that cover exactly the cells of the areas
//! whose resource one of its ops may use or write (cs_ir's specs/Resources, specs/Zones). A literal number
//! names only its table or its zak place, a computed one all that it may reach (`reach_of_numbers`).
//!
//! The way areas are marked, and whether more than neighbours form one zone, may be changed without anyone
//! above noticing. In reading order: `runs` (numbered resources whose areas are adjacent), `marks`, `code`,
//! `zones`, `laws` (facts about the places of resources, and worked examples).
#![tactic(auto)]

mod code;
mod laws;
mod marks;
mod runs;
mod zones;

pub use laws::{
    cells_are_of_resources, footprints_are_of_ops, footprints_worked_by_hand,
    places_are_of_resources, reach_of_numbers, written_is_used,
};
pub use zones::{Zoned, find_zones};
