//! The earliest turn of a control cycle in which each note can run, and the lines that report it.
//!
//! Notes that conflict run one after another, and all others may run at the same time: a note's turn is 0 if
//! it conflicts with no earlier note, and otherwise one more than the highest turn of the earlier notes with
//! which it conflicts (specs/Turns, `turns_in`). Turns depend only on the piece, on what its notes'
//! statements use and write, and not on what the workers did.
//!
//! The one contract: the levels of a cycle's graph are these turns (`turns_are_levels`) if the footprints
//! belong to the notes, and two footprints clash if and only if their notes conflict
//! (`clashes_are_conflicts`); `add_turns` appends their line, for each of the first 1,000 cycles. How a line
//! is made may be changed without anyone above noticing. In reading order: `lines`, `laws`.
#![tactic(auto)]

mod laws;
mod lines;

pub use laws::{
    clashes_are_conflicts, layouts_have_the_stock, turns_are_levels, turns_worked_by_hand,
};
pub use lines::{add_turns, has_line};
