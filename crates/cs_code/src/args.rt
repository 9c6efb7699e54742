// The values among a call's arguments, and their code. The catalogue's letters determine which of them are
// settled as the note begins.
ghost use Rattle.std.specs.Prelude.{◌≡◌, ◌++◌, not, true, IfOk, OnOk};
ghost use Rattle.cs_ir.specs.{Codes.is_unaimed, Drafts.Grew};
ghost use Rattle.cs_meaning.specs.Core.{settled, moving, values_of};
ghost use Rattle.cs_code.specs.inner.Code.{operands_code, on_code, keep_all_code};
ghost use Rattle.cs_code.specs.inner.Emitted.{arguments_of, expressions_of, taken, when_of};
ghost use Rattle.cs_code.specs.{inner.Kept.past_all, inner.Spots.spots};
ghost use Rattle.cs_words.specs.Catalogue.{is_settled, row_of};
ghost use Rattle.cs_typed.specs.TypedTree as typed;
ghost use Rattle.cs_code.specs.declared.frame.Pass.TheVariants as pass;

use crate::expr::{keep, operand};
use crate::frame::{Context, add, push};
use cs_base::{OutOfMemory, Rate};
use cs_ir::{Act, CodeDraft, Operands, Reg};
use cs_typed::{TypedArg, TypedExpr, Var};
use cs_words::{Letter, Opcode, signature_of};
use std::alloc::Global;

/// A call of an opcode, and its rate.
#[derive(Clone, Copy)]
pub struct Call<'t> {
    pub rate: Rate,
    pub results: &'t [Var],
    pub opcode: Opcode,
    pub args: &'t [TypedArg],
}

/// The values among a call's arguments, in order: settled ones, which are known as the note begins, and
/// moving ones.
#[derive(Drop)]
pub struct Parted<'t> {
    pub settled: Vec<&'t TypedExpr>,
    pub moving: Vec<&'t TypedExpr>,
}

impl<'t> Parted<'t> {
    // Adds an argument of an opcode that accepts it by this letter.
    #[tactic(auto, using(crate::proofs::Lists::expressions_more, crate::proofs::Lists::append_nothing))]
    fn add(&mut self, letter: Letter, arg: &'t TypedArg) -> Result<(), OutOfMemory>
        ensures settled { OnOk result (expressions_of self.new.settled.items
            ≡ expressions_of self.old.settled.items ++ taken (is_settled letter) (typed.argument arg.now)) }
        ensures moving { OnOk result (expressions_of self.new.moving.items
            ≡ expressions_of self.old.moving.items ++ taken (not (is_settled letter)) (typed.argument arg.now)) }
    {
        match arg {
            TypedArg::Value(e) => {
                if letter.is_settled() {
                    self.settled.push(e)?;
                } else {
                    self.moving.push(e)?;
                }
                Ok(())
            }
            TypedArg::Text(_) => Ok(()),
        }
    }
}

/// Divides the values among the arguments of a call into settled and moving ones, by the opcode's letters.
pub fn parted_values<'t>(alloc: Global, call: &Call<'t>) -> Result<Parted<'t>, OutOfMemory>
    ensures settled { IfOk result (λ p. expressions_of p.settled.items
        ≡ settled (row_of call.now.opcode) 0 (arguments_of call.now)) }
    ensures moving { IfOk result (λ p. expressions_of p.moving.items
        ≡ moving (row_of call.now.opcode) 0 (arguments_of call.now)) }
{
    let mut parted = Parted {
        settled: Vec::new(alloc),
        moving: Vec::new(alloc),
    };
    let row = signature_of(call.opcode);
    let mut place: usize = 0;
    for arg in call.args {
        parted.add(row.letter(place), arg)?;
        place += 1;
    }
    Ok(parted)
}

/// All values among the arguments of a call, in order.
pub fn values<'t>(alloc: Global, call: &Call<'t>) -> Result<Vec<&'t TypedExpr>, OutOfMemory>
    ensures { IfOk result (λ v. expressions_of v.items ≡ values_of (arguments_of call.now)) }
{
    let mut values = Vec::new(alloc);
    for arg in call.args {
        add_value(&mut values, arg)?;
    }
    Ok(values)
}

#[tactic(auto, using(crate::proofs::Lists::expressions_more, crate::proofs::Lists::append_nothing))]
fn add_value<'t>(values: &mut Vec<&'t TypedExpr>, arg: &'t TypedArg) -> Result<(), OutOfMemory>
    ensures { OnOk result (expressions_of values.new.items
        ≡ expressions_of values.old.items ++ taken true (typed.argument arg.now)) }
{
    if let TypedArg::Value(e) = arg {
        values.push(e)?;
    }
    Ok(())
}

/// The registers of values, in order, and the number of the next kept value.
#[derive(Drop)]
pub struct Gathered {
    pub regs: Vec<Reg>,
    pub next: u32,
}

/// Emits the code of values that aren't in a register yet, into temporaries from 0 on. Returns all their
/// registers.
pub fn operands(
    ops: &mut CodeDraft<'_>,
    context: Context,
    at: u32,
    values: &[&TypedExpr],
) -> Result<Gathered, OutOfMemory>
    ensures ops { OnOk result (Grew ops.old ops.new (operands_code (when_of context.pass) at (expressions_of
        values.now) 0)) }
    ensures regs { IfOk result (λ g. g.regs.items ≡ spots (when_of context.pass) at (expressions_of values.now) 0) }
    ensures next { IfOk result (λ g. g.next ≡ past_all at (expressions_of values.now)) }
{
    let mut regs = Vec::new(context.alloc);
    let mut next = at;
    let mut d = 0;
    for e in values {
        let spot = operand(ops, context, next, e, d)?;
        regs.push(spot.reg)?;
        next = spot.next;
        d = add(d, 1)?;
    }
    Ok(Gathered { regs, next })
}

/// Emits an op on values, after their code. Returns the number of the next kept value.
#[tactic(auto, using(crate::proofs::Growing::growing))]
pub fn push_on(
    ops: &mut CodeDraft<'_>,
    context: Context,
    at: u32,
    act: Act,
    into: Reg,
    values: &[&TypedExpr],
) -> Result<u32, OutOfMemory>
    requires { is_unaimed act ≡ true }
    ensures ops { OnOk result (Grew ops.old ops.new (on_code (when_of context.pass) at act into (expressions_of
        values.now))) }
    ensures next { IfOk result (λ n. n ≡ past_all at (expressions_of values.now)) }
{
    let found = operands(ops, context, at, values)?;
    let next = found.next;
    push(ops, act, into, Operands::from_vec(found.regs))?;
    Ok(next)
}

/// Emits the code of the kept parts of values. Returns the number of the next kept value.
pub fn keep_all(
    ops: &mut CodeDraft<'_>,
    context: Context,
    at: u32,
    values: &[&TypedExpr],
) -> Result<u32, OutOfMemory>
    requires { context.pass ≡ pass.Initialisation }
    ensures ops { OnOk result (Grew ops.old ops.new (keep_all_code at (expressions_of values.now))) }
    ensures next { IfOk result (λ n. n ≡ past_all at (expressions_of values.now)) }
{
    let mut next = at;
    for e in values {
        next = keep(ops, context, next, e)?;
    }
    Ok(next)
}
