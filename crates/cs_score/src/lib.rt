//! Reads a score's text into statements, or refuses it at its first fault.
//!
//! Its one contract: `read_score` returns the result of `score_of` (specs/Statements.antt) for the complete
//! text. That is the line and kind of the first fault, otherwise the first limit that the statements exceed
//! (specs/Limits.antt), otherwise the statements in order, each value in its range (specs/Ranges.antt). In
//! the definitions each field of an `i` statement looks back through the previous statements for the value
//! that it carries (specs/Carry.antt); the base and the first size of a table are found in the same way. The
//! code stores the last statement with its omitted fields filled in, and never looks back. Its way of doing
//! so (`comment`, `line`, `last`, `past`, `kept`, and specs/inner/) may be changed without anyone above
//! noticing.
//!
//! In reading order: `statement` and `values` (the result), `read` (the one pass), `line` and `comment` (the
//! text), `row` (the letter and fields of a line), `field` (the meaning of one field), `note`, `table` and
//! `tempo` (the rules of each statement), `carry` and `last` (the fields that an `i` carries), `past` and
//! `statements` (the state between statements), `kept` (the statements up to a limit), `laws`, `worked`
//! (scores read by the definitions).
#![tactic(auto)]

mod carry;
mod comment;
mod field;
mod kept;
mod last;
mod laws;
mod line;
mod note;
mod past;
mod read;
mod row;
mod statement;
mod statement_fault;
mod statements;
mod table;
mod tempo;
mod values;
mod worked;

pub use field::{Field, InstrumentNumber, Signed};
pub use laws::{comments_are_spaces, tables_keep_one_size};
pub use read::read_score;
pub use statement::{ScoreStmt, ScoreStmts, ScoreWhat, TempoPoint, TempoPoints};
pub use values::NoteValues;
pub use worked::{
    fields_worked_by_hand, order_of_refusals_worked_by_hand, refusals_worked_by_hand,
    starts_worked_by_hand,
};
