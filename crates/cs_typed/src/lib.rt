//! The typed tree of an orchestra: variables instead of names, opcodes instead of opcode names, and a rate
//! for each expression and each statement.
//!
//! The layers that read an orchestra produce it and the code of notes is made from it, so that either can be
//! built and proved without the other. Each user-defined opcode is one routine, which statements invoke, and
//! `Var::moved`, the tree's one call, maps the variables of the routine to variables of the caller; the tree
//! as the definitions see it has the statements of the routine in the place of each invocation.
//! specs/TypedTree.antt defines that tree, specs/WellRated.antt the rules of rates that it satisfies
//! (`IsWellRated`), and specs/Variables.antt properties of each of its variables. Adding a form to the tree
//! changes both sides.
//!
//! Modules in reading order: `tree`, `setting` (the context of a statement).
#![tactic(auto)]

mod setting;
mod tree;

pub use setting::Setting;
pub use tree::{
    Globals, TypedArg, TypedArgs, TypedArm, TypedArms, TypedExpr, TypedInstr, TypedOrc, TypedPart,
    TypedStmt, TypedStmts, TypedWhat, Var, Vars,
};
