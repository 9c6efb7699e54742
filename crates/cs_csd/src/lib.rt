//! One file with an orchestra and a score, like Csound's `.csd` files: the offsets of both texts.
//!
//! The one contract: `split_csd` returns the parts of a file as specs/Sections.antt reads it, or the first
//! fault of its tags with its line; each file has exactly one reading (`one_reading`), and parts begin on the
//! lines that they name (`parts_begin_on_their_lines`). It allocates nothing. How it goes through the lines
//! (`scan`, specs/inner) may be changed without anyone above noticing.
//!
//! In reading order: `part` (the result), `line` (the kinds of lines), `scan` (line after line), `split`,
//! `laws`.
#![tactic(auto)]

mod laws;
mod line;
mod part;
mod scan;
mod split;

pub use laws::{files_worked_by_hand, one_reading, parts_begin_on_their_lines};
pub use part::{Part, Parts};
pub use split::split_csd;
