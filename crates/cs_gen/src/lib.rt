//! Function tables: computes every point of a table from its size, its GEN and its arguments.
//!
//! Its one contract: `make_table` returns a made table (`IsMade`, specs/Tables.antt), the fault that
//! `check_table` finds, or an out-of-memory error. Each point is a formula of its place alone
//! (specs/Points.antt). The way a table is filled (a walk along the segments, an advancing phase, a second
//! pass) may be changed without anyone above noticing.
//!
//! In reading order: `check` (which tables are refused), `sine` (the sine wave), `harmonics` (GEN10),
//! `segments` (GEN07), `normal` (positive GENs), `place` (the places of a table), `table` (GEN02 and
//! `make_table`), `laws`.
#![tactic(auto)]

mod check;
mod harmonics;
mod laws;
mod normal;
mod place;
mod segments;
mod sine;
mod table;

pub use check::{GenFault, check_table};
pub use laws::{accepted_tables_are_made, faults_worked_by_hand, tables_worked_by_hand};
pub use place::{len_of, place_of_index};
pub use table::{Points, make_table};
