//! Shared resources exist: each variable, channel, zak place and table that a note may touch is one that its
//! piece has.
//!
//! In reading order: specs/Names defines the names in a typed tree and the resources of a piece, `laws` the
//! two facts about them.
//!
//! Its two contracts: by `typed_trees_name_what_there_is`, an orchestra without a fault names only global
//! variables and channels from its lists. By `notes_touch_what_there_is`, all resources that such a note
//! may read or write, as it begins and in a control cycle, are among these, the zak places and the live
//! tables. The numbering of names may be changed without anyone above noticing. This crate has no code.
#![tactic(auto)]

mod laws;

pub use laws::{notes_touch_what_there_is, typed_trees_name_what_there_is};
