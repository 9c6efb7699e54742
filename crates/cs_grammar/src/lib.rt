//! Reads the tokens of an orchestra into its tree, or refuses it at the first broken rule of the grammar.
//!
//! Its one contract: the tree that `parse` returns is the tree of the tokens, and a fault that it returns is
//! their first fault. Both are defined by one relation, in specs/Grammar and specs/Orchestra, between the
//! remaining symbols of a text and their reading, with one case for each rule of the grammar; `one_reading`
//! states that there is exactly one reading. Contracts see the tree as a mirror without memory (specs/Tree).
//! How the parser processes the tokens may change without anyone above noticing.
//!
//! In reading order: `tree` (the result), `orc` (the orchestra, and instruments), `definition`, `heading`
//! (the line of `opcode`), `xin` (a definition's first line), `xout` (its last line), `stmt`, `lists`, `expr`
//! (the rules), `laws` (every text has one reading; properties of each tree), `parser` (the current
//! position), `symbol` (a token as the grammar sees it: the parser reads symbols and never looks at a token),
//! `scope` (the context of a line).
#![tactic(auto)]

mod definition;
mod expr;
mod heading;
mod laws;
mod lists;
mod orc;
mod parser;
mod scope;
mod stmt;
mod symbol;
mod tree;
mod xin;
mod xout;

pub use laws::{one_reading, trees_are_well_formed};
pub use orc::parse;
pub use tree::{
    Arg, Args, Arm, Arms, Callee, Expr, HeadLine, Instr, Orc, OrcStmt, StmtWhat, Stmts, Udo,
};
