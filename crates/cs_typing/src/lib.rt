//! Rates, names and types of an orchestra: the grammar's tree with a variable instead of each name, an opcode
//! instead of each opcode name, and a rate for each expression and each statement.
//!
//! Its one contract: `type_orc` returns the typed form of the expanded orchestra (cs_udo) as defined in
//! specs/Typing.antt, or its first broken rule of the kinds 12 to 19 with its line: first header lines and
//! `zakinit`s in the order of the text, then `kr`, and then each statement in the order of the expanded text.
//! The result agrees with the rules of rates (`typing_is_well_rated`), no instrument has a `zakinit`
//! (`instruments_have_no_zakinit`), and each instrument number appears once (`numbers_stand_once`);
//! `types_worked_by_hand` and `settings_worked_by_hand` are its examples. How names are looked up, and which
//! parts are typed only once, may change without anyone above noticing.
//!
//! In reading order: `known` (names and their numbers), `expr`, `call`, `assign` (parts that are checked on
//! their own), `routines` and `invoke` (user-defined opcodes, and the assignments around a call of one),
//! `stmt`, `headers`, `zak` and `settle` (the settings of the entire piece), `globals` (the variables that
//! all instruments share), `orc` (the parts in the order of the text), `laws`, `examples`. The result, the
//! typed tree, is the layer below.
#![tactic(auto)]

mod assign;
mod call;
mod examples;
mod expr;
mod globals;
mod headers;
mod invoke;
mod known;
mod laws;
mod orc;
mod routines;
mod settle;
mod stmt;
mod zak;

pub use cs_typed::{
    Globals, TypedArg, TypedArgs, TypedArm, TypedArms, TypedExpr, TypedInstr, TypedOrc, TypedPart,
    TypedStmt, TypedStmts, TypedWhat, Var, Vars,
};
pub use examples::{settings_worked_by_hand, types_worked_by_hand};
pub use laws::{
    instruments_have_no_zakinit, local_names_dont_matter, numbers_stand_once, typing_is_well_rated,
};
pub use orc::type_orc;
