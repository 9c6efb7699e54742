// The code of assignments, and of the conditions of arms.
ghost use Rattle.std.specs.Prelude.{◌≡◌, length, IfOk, OnOk};
ghost use Rattle.cs_ir.specs.Drafts.{Grew, drafted};
ghost use Rattle.cs_typed.specs.TypedTree as typed;
ghost use Rattle.cs_code.specs.inner.Code.{cond_code, cond_reg, pass_block_code};
ghost use Rattle.cs_code.specs.{inner.Emitted.alone_in, inner.Kept.past, inner.Kept.past_block};

use crate::expr::{keep, operand};
use crate::frame::{Context, Pass, Progress, ValueSpot, kept_reg};
use crate::simple::{self, Assignment};
use crate::value::Value;
use cs_base::{OutOfMemory, Rate};
use cs_ir::CodeDraft;
use cs_typed::{TypedExpr, Var};

/// Emits the assignment of an expression's value to a variable, at this rate. Returns the progress at its
/// end.
pub fn assign(
    ops: &mut CodeDraft<'_>,
    context: Context,
    p: Progress,
    done: Rate,
    to: Var,
    e: &TypedExpr,
) -> Result<Progress, OutOfMemory>
    ensures ops { OnOk result (Grew ops.old ops.new (pass_block_code context.pass (length (drafted ops.old)) p
        (alone_in context.spaces (typed.set 0 done to (typed.expression e.now))))) }
    ensures next { IfOk result (λ q. q
        ≡ past_block p (alone_in context.spaces (typed.set 0 done to (typed.expression e.now)))) }
{
    let assignment = Assignment {
        done,
        to,
        value: Value::Of(e),
    };
    simple::assign(ops, context, p, &assignment)
}

/// Emits the code of a condition, and returns the register that holds its value.
#[tactic(auto, using(crate::proofs::Chains::tested))]
pub fn condition(
    ops: &mut CodeDraft<'_>,
    context: Context,
    at: u32,
    e: &TypedExpr,
) -> Result<ValueSpot, OutOfMemory>
    ensures ops { OnOk result (Grew ops.old ops.new (cond_code context.pass at (typed.expression e.now))) }
    ensures reg { IfOk result (λ s. s.reg ≡ cond_reg context.pass at (typed.expression e.now)) }
    ensures next { IfOk result (λ s. s.next ≡ past at (typed.expression e.now)) }
{
    match context.pass {
        Pass::Initialisation => Ok(ValueSpot {
            reg: kept_reg(at),
            next: keep(ops, context, at, e)?,
        }),
        Pass::Performance => operand(ops, context, at, e, 0),
    }
}
