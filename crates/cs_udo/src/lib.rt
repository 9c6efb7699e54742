//! User-defined opcodes: whether the calls in an orchestra can be replaced by the statements of the called
//! opcodes, and which definition a call refers to.
//!
//! Its one contract: unless memory runs out, `Expansion::new` succeeds if `expanding` (specs/Expanding)
//! yields the expanded orchestra of the tree, and otherwise returns the same refusal as `expanding`: the
//! first refused call, or, if no call is refused, the first exceeded limit on instruments or statements. Its
//! `library` determines with `find` and `before` which definition a call refers to. The expanded orchestra
//! (`expanded_orchestra`) is a definition, and no code builds it: cs_typing makes its typed form from the
//! definitions, each typed once. cs_udo_meaning defines what a call means, with the same definitions, and
//! proves that the expansion means the same. How definitions are found and statements are counted may change
//! without anyone above noticing.
//!
//! In reading order: `library` and `find` (the definitions), `refuse` (refused calls), `tally` (statement
//! counts, and the limits), `expansion` (the entire check), `laws` (expansions worked out by hand).
#![tactic(auto)]

mod expansion;
mod find;
mod laws;
mod library;
mod refuse;
mod tally;

pub use laws::{counts_worked_by_hand, opcodes_worked_by_hand};
pub use library::{Expansion, FoundDefinition, Library};
