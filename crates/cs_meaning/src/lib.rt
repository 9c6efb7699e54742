//! The meaning of a note: its initialisation and its performance over the typed tree, and the shared
//! resources that it uses and writes.
//!
//! A crate of definitions, on which the code of notes, the voices and the life of notes depend. specs/Core
//! reduces each statement to a core statement. specs/Notes defines the values of expressions.
//! specs/Initialising and specs/Performing define the actions of a note as it begins and in a control cycle,
//! in any world (cs_ir's `World`). specs/Uses defines the resources that it touches. specs/Pieces defines the
//! piece in which a note plays. specs/Model describes a world by the way it stores shared resources and runs
//! units. specs/Plain is the plain world, in which shared resources are one map and a unit is the list of its
//! inputs. specs/Examples has small pieces as typed trees, specs/Kinds notes with each kind of statement.
//!
//! Its one contract: the examples have the values that were computed by hand (`notes_worked_by_hand`,
//! `kinds_worked_by_hand`, `values_worked_by_hand`). A definition may be rephrased if every law of the crates
//! above still holds.
#![tactic(auto)]

mod kinds;
mod laws;

pub use kinds::{kinds_worked_by_hand, values_worked_by_hand};
pub use laws::notes_worked_by_hand;
