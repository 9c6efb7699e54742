//! The words of the language: the meaning of each word and each sign of an orchestra, independent of the
//! grammar.
//!
//! Its one contract: each call returns the result that its list in specs/ states, and every row of a list is
//! found when its word is looked up: no two opcodes share a name, and no keyword is a header name, a function
//! or an opcode (`words_are_apart`). The catalogue has one row for each opcode, with everything that the
//! layers above need: its name, its results, its arguments, and how it is performed. How a word is looked up
//! may change without anyone above noticing.
//!
//! In reading order: `catalogue` (the opcodes), `word` (the meaning of a word), `sign` (the meaning of a
//! sign), `name` (the rate and scope in a variable's name), `name_set` (different names in the order of their
//! first appearance), `laws` (properties of the tables), `table` (how a row is found).
#![tactic(auto)]

mod catalogue;
mod laws;
mod name;
mod name_set;
mod sign;
mod table;
mod word;

pub use catalogue::{Letter, More, Opcode, Shape, Signature, Space, find_opcode, signature_of};
pub use laws::{
    names_are_letters_of_rates, names_have_places, opcodes_with_tables, settled_arguments,
    words_are_apart,
};
pub use name::{is_global, is_rate_letter, letter_rate, name_rate};
pub use name_set::NameSet;
pub use sign::{BinOp, Sign, sign_of};
pub use word::{Func, HeadName, Keyword, Word, word_of};
