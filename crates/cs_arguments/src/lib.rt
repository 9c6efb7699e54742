//! What the command-line arguments ask for.
//!
//! The one contract: `reading` of specs/Reading.antt, the definition to which cs_command's result conforms;
//! the types here are the parts of an order. The proofs show that the crate `clap`, as its statements
//! describe it, reads arguments by this definition. They may be changed without anyone above noticing, the
//! definition may not.
//!
//! In reading order: specs/Reading.antt (the definition), `order` (the result), `usage` (the usage line),
//! `worked` (arguments read by hand); then the proofs, each depending on those before it: Chars, Walking,
//! Rules, Letters, Forms, Turns, Whole, Command, Ends, Values.
#![tactic(auto)]

mod order;
mod usage;
mod worked;

pub use order::{DemoNotes, FromOneTo, Order, Source, Workers};
pub use usage::usage_line;
pub use worked::{words_with_a_reading, words_without_a_reading};
