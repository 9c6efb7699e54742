//! Reading the command-line arguments: the result is an `Order`, or a refusal.
//!
//! The one contract: `read` returns exactly what `reading` states, the definition of cs_arguments. Arguments
//! are refused only if they have no reading; in that case the result is the refusal or out of memory, since
//! reading allocates memory. The crate `clap` reads them, and the message that it would print about a fault
//! is never printed. How the command is made may be changed without anyone above noticing.
//!
//! In reading order: `options` (single options, flags and names), `command` (all of them together), `given`
//! (their values), `reading`.
#![tactic(auto)]

mod command;
mod given;
mod options;
mod reading;

pub use reading::{Unread, read};
