//! From two texts to everything that their piece needs to be performed, or to their first refusal. It has no
//! runtime.
//!
//! The one contract: `compile` returns exactly what the texts mean (specs/Meaning, `means`): a setup of the
//! composition that they mean, or the first refusal. The meaning is a chain of steps, each of which goes on
//! from the value of the one before (specs/Then), so the order of the steps decides which refusal is the
//! first. `texts_have_one_meaning` states that there is exactly one meaning, and `pieces_mean_their_calls`
//! what calls of user-defined opcodes mean for the instruments of the piece (specs/Calls). The order in which
//! the parts are computed, what is stored between them and when it is freed may be changed without anyone
//! above noticing, as long as the reported refusal is the first one by the chain.
//!
//! In reading order: `orchestra` (a text's typed orchestra), `score` (a text's plot), `piece` (both together:
//! `compile`), `laws`, `worked` (texts worked out by hand).
#![tactic(auto)]

mod laws;
mod orchestra;
mod piece;
mod score;
mod worked;

pub use laws::{pieces_mean_their_calls, texts_have_one_meaning};
pub use piece::compile;
pub use worked::texts_worked_by_hand;
