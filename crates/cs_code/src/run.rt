// The code of opcodes with results: units, and opcodes that read or write zak places.
ghost use Rattle.std.specs.Prelude.{◌≡◌, true, IfOk, OnOk};
ghost use Rattle.cs_ir.specs.{Codes.is_unaimed, Drafts.Grew};
ghost use Rattle.cs_code.specs.{inner.Kept.past_all, inner.Emitted.expressions_of, inner.Emitted.when_of};
ghost use Rattle.cs_code.specs.inner.Code.{run_code, target, given_code};

use crate::args::{Call, push_on};
use crate::frame::{Context, local, push, temp};
use cs_base::{OutOfMemory, Rate};
use cs_ir::{Act, CodeDraft, Operands, Reg};
use cs_typed::{TypedExpr, Var};

fn target(rate: Rate, results: &[Var]) -> Result<Reg, OutOfMemory>
    ensures { IfOk result (λ q. q ≡ target rate results.now) }
{
    match results {
        [Var::Local(own, index), ..] => {
            if own.same(rate) {
                local(*own, *index)
            } else {
                Ok(temp(rate, 0))
            }
        }
        _ => Ok(temp(rate, 0)),
    }
}

// Emits the remaining code after a result was computed: if needed, its assignment to the result variable.
#[tactic(auto, using(crate::proofs::Growing::growing))]
fn give(ops: &mut CodeDraft<'_>, rate: Rate, results: &[Var]) -> Result<(), OutOfMemory>
    ensures { OnOk result (Grew ops.old ops.new (given_code rate results.now)) }
{
    match results {
        [] => Ok(()),
        [Var::Local(own, index), ..] => {
            if own.same(rate) {
                Ok(())
            } else {
                let into = local(*own, *index)?;
                push(ops, Act::Copy, into, Operands::one(temp(rate, 0)))
            }
        }
        [Var::Global(res), ..] => {
            let from = temp(rate, 0);
            push(ops, Act::Save(*res), from, Operands::one(from))
        }
    }
}

/// Emits an op on values, whose result is assigned to a variable if its opcode has one. Returns the number of
/// the next kept value.
#[tactic(auto, using(crate::proofs::Growing::growing))]
pub fn run(
    ops: &mut CodeDraft<'_>,
    context: Context,
    at: u32,
    act: Act,
    call: &Call<'_>,
    values: &[&TypedExpr],
) -> Result<u32, OutOfMemory>
    requires { is_unaimed act ≡ true }
    ensures ops { OnOk result (Grew ops.old ops.new (run_code (when_of context.pass) at act call.now.rate
        call.now.results.now (expressions_of values.now))) }
    ensures next { IfOk result (λ n. n ≡ past_all at (expressions_of values.now)) }
{
    let into = target(call.rate, call.results)?;
    let next = push_on(ops, context, at, act, into, values)?;
    give(ops, call.rate, call.results)?;
    Ok(next)
}
