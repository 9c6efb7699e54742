//! Reads the tokens of an orchestra's text, or refuses the text at its first fault.
//!
//! Its one contract: the tokens that `lex` returns are the tokens of the text, and a fault that it returns is
//! the text's first fault. Both are defined in specs/ for the entire text: `Lexed` and `LexFault` cut it into
//! pieces, and `Rows` states the lexical rule of each piece; blanks, line feeds and comments are defined in
//! cs_base. How the reader finds the pieces (`class`, `front`, and specs/inner) may change without anyone
//! above noticing.
//!
//! In reading order: `token` (the result), `lexer` (the one pass), `laws` (every text has either one list of
//! tokens or one first fault; the positions of tokens; worked examples), `front` (the first piece of a text,
//! rule by rule), `class` (bytes).
#![tactic(auto)]

mod class;
mod front;
mod laws;
mod lexer;
mod token;

pub use laws::{one_reading, tokens_stand_in_the_text, worked_examples};
pub use lexer::lex;
pub use token::{Mark, Token, Tokens};
