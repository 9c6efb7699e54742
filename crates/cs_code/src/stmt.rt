// The code of statements, blocks and arms, in either pass. Each function appends to `ops`, in which ops are
// counted from the beginning of the code.
ghost use Rattle.std.specs.Prelude.{◌≡◌, ◌++◌, ◌∷◌, [], ℕ, List, length, IfOk};
ghost use Rattle.std.specs.List.{AllZip};
ghost use Rattle.cs_ir.specs.Drafts.{Grew, IsAt, drafted, library_of};
ghost use Rattle.cs_typed.specs.TypedTree as typed;
ghost use Rattle.cs_code.specs.inner.Branches.{body_of, branch_of, branches, condition_of, each_code, joined, jump_at};
ghost use Rattle.cs_code.specs.inner.Branches.{jumps, opened, past_arm, past_list};
ghost use Rattle.cs_code.specs.inner.Emitted.{block_in, each_arm_code, invoked_in, scope_of, statement_in, takes_all};
ghost use Rattle.cs_code.specs.inner.Served.{Lowered, Serve};
ghost use Rattle.cs_code.specs.declared.frame.Pass.TheVariants as pass;

use crate::args;
use crate::call::call;
use crate::frame::{Context, Pass, Place, Progress, add, jump, narrow};
use crate::jumps::aim_all;
use crate::leaves::{assign, condition};
use cs_base::{OutOfMemory, PerRate, Rate};
use cs_ir::{Act, Call, CodeDraft, Mark, Operands};
use cs_typed::{TypedArm, TypedStmt, TypedWhat};

/// Emits the code of the statements of a block. Returns the progress at its end.
#[cycle(stmt)]
#[tactic(auto, using(crate::proofs::Chains::block_none, crate::proofs::Lists::append_nothing))]
pub fn block(
    ops: &mut CodeDraft<'_>,
    context: Context,
    extents: &[Progress],
    p: Progress,
    stmts: &[TypedStmt],
) -> Result<Progress, OutOfMemory>
    ensures { (rs : List typed.Block) → Serve context.pass context.spaces rs (library_of ops.old) extents.now
        → IfOk result (λ q. Lowered context.pass ops.old ops.new p q
        (block_in (scope_of context.spaces rs) stmts.now)) }
{
    let mut next = p;
    for s in stmts {
        next = stmt(ops, context, extents, next, s)?;
    }
    Ok(next)
}

// Emits the code of a statement. Returns the progress at its end.
#[cycle(stmt)]
#[tactic(auto, using(crate::proofs::Calls::at_each_place, crate::proofs::Chains::taken_pass))]
fn stmt(
    ops: &mut CodeDraft<'_>,
    context: Context,
    extents: &[Progress],
    p: Progress,
    s: &TypedStmt,
) -> Result<Progress, OutOfMemory>
    ensures { (rs : List typed.Block) → Serve context.pass context.spaces rs (library_of ops.old) extents.now
        → IfOk result (λ q. Lowered context.pass ops.old ops.new p q
        (statement_in (scope_of context.spaces rs) s.now)) }
{
    match &s.what {
        TypedWhat::Set(v, e) => assign(ops, context, p, s.rate, *v, e),
        TypedWhat::Call(results, opcode, args) => {
            let made = args::Call {
                rate: s.rate,
                results: results.as_slice(),
                opcode: *opcode,
                args,
            };
            call(ops, Place { context, before: p }, &made)
        }
        TypedWhat::Choose(arms, els) => {
            if takes_all(context.pass, s.rate) {
                let next = each_arm(ops, context, extents, p, arms)?;
                block(ops, context, extents, next, els)
            } else {
                let mut ends = Vec::new(context.alloc);
                let last = arms_of(ops, context, extents, p, arms, &mut ends)?;
                let done = block(ops, context, extents, last, els)?;
                aim_all(ops, &ends);
                Ok(done)
            }
        }
        TypedWhat::Invoke(number, base) => invoke(ops, context, extents, p, *number, *base),
    }
}

// Emits a call of a routine, by its number, with its local variables beginning at `base`; nothing if there is
// no such routine.
fn invoke(
    ops: &mut CodeDraft<'_>,
    context: Context,
    extents: &[Progress],
    p: Progress,
    number: usize,
    base: PerRate<usize>,
) -> Result<Progress, OutOfMemory>
    ensures { (rs : List typed.Block) → Serve context.pass context.spaces rs (library_of ops.old) extents.now
        → IfOk result (λ q. Lowered context.pass ops.old ops.new p q
        (invoked_in (scope_of context.spaces rs) number base)) }
{
    let Some(extent) = extents.get(number) else {
        return Ok(p);
    };
    ops.invoke(Call {
        routine: narrow(number)?,
        locals: narrowed(base)?,
        kept: p.part,
        unit: p.unit,
    })?;
    Ok(Progress {
        part: add(p.part, extent.part)?,
        unit: add(p.unit, extent.unit)?,
    })
}

fn narrowed(locals: PerRate<usize>) -> Result<PerRate<u32>, OutOfMemory>
    ensures { IfOk result (λ l. l ≡ locals) }
{
    Ok(PerRate {
        init: narrow(locals.init)?,
        control: narrow(locals.control)?,
        audio: narrow(locals.audio)?,
    })
}

// Whether all arms of an `if` are initialised, because its conditions aren't known as the note begins.
fn takes_all(pass: Pass, rate: Rate) -> bool
    ensures { result ≡ takes_all pass rate }
{
    match pass {
        Pass::Initialisation => !rate.is_init(),
        Pass::Performance => false,
    }
}

// Emits arms of which one is performed. Each ends with a jump whose target isn't known yet; `ends` collects
// the marks of these jumps.
#[cycle(stmt)]
#[tactic(auto, using(crate::proofs::Lists::append_nothing))]
fn arms_of(
    ops: &mut CodeDraft<'_>,
    context: Context,
    extents: &[Progress],
    p: Progress,
    arms: &[TypedArm],
    ends: &mut Vec<Mark>,
) -> Result<Progress, OutOfMemory>
    ensures { (rs : List typed.Block) → Serve context.pass context.spaces rs (library_of ops.old) extents.now
        → let o = scope_of context.spaces rs in
        let bs = branches context.pass o (length (drafted ops.old)) p arms.now in
        IfOk result (λ q. Grew ops.old ops.new (opened (length (drafted ops.old)) bs)
        × ((places : List ℕ) → AllZip (IsAt ops.old) ends.old.items places
        → AllZip (IsAt ops.new) ends.new.items (places ++ jumps (length (drafted ops.old)) bs))
        × (q ≡ past_list o p arms.now)) }
{
    let mut next = p;
    for a in arms {
        next = arm(ops, context, extents, next, a, ends)?;
    }
    Ok(next)
}

// Emits one such arm: its condition, a jump past its body that is taken if the condition doesn't hold, its
// body, and a jump past the remaining arms.
#[cycle(stmt)]
fn arm(
    ops: &mut CodeDraft<'_>,
    context: Context,
    extents: &[Progress],
    p: Progress,
    arm: &TypedArm,
    ends: &mut Vec<Mark>,
) -> Result<Progress, OutOfMemory>
    ensures { (rs : List typed.Block) → Serve context.pass context.spaces rs (library_of ops.old) extents.now
        → let o = scope_of context.spaces rs in
        let b = branch_of context.pass o (length (drafted ops.old)) p arm.now in
        IfOk result (λ q. Grew ops.old ops.new (joined (length (drafted ops.old)) b 0)
        × ((places : List ℕ) → AllZip (IsAt ops.old) ends.old.items places
        → AllZip (IsAt ops.new) ends.new.items (places ++ jump_at (length (drafted ops.old)) b ∷ []))
        × (q ≡ past_arm o p arm.now)) }
{
    let spot = condition(ops, context, p.part, &arm.cond)?;
    let test = jump(ops, Act::Unless(0), spot.reg, Operands::one(spot.reg))?;
    let at = Progress {
        part: spot.next,
        unit: p.unit,
    };
    let next = block(ops, context, extents, at, &arm.body)?;
    let end = jump(ops, Act::Jump(0), spot.reg, Operands::none())?;
    ends.push(end)?;
    ops.aim(test);
    Ok(next)
}

// Emits arms that are all initialised, since none is chosen yet.
#[cycle(stmt)]
fn each_arm(
    ops: &mut CodeDraft<'_>,
    context: Context,
    extents: &[Progress],
    p: Progress,
    arms: &[TypedArm],
) -> Result<Progress, OutOfMemory>
    requires { context.pass ≡ pass.Initialisation }
    ensures { (rs : List typed.Block) → Serve context.pass context.spaces rs (library_of ops.old) extents.now
        → let o = scope_of context.spaces rs in
        IfOk result (λ q. Grew ops.old ops.new (each_code o (length (drafted ops.old)) p arms.now)
        × (q ≡ past_list o p arms.now)) }
{
    let mut next = p;
    for a in arms {
        next = one_arm(ops, context, extents, next, a)?;
    }
    Ok(next)
}

#[cycle(stmt)]
fn one_arm(
    ops: &mut CodeDraft<'_>,
    context: Context,
    extents: &[Progress],
    p: Progress,
    arm: &TypedArm,
) -> Result<Progress, OutOfMemory>
    requires { context.pass ≡ pass.Initialisation }
    ensures { (rs : List typed.Block) → Serve context.pass context.spaces rs (library_of ops.old) extents.now
        → let o = scope_of context.spaces rs in
        IfOk result (λ q. Grew ops.old ops.new
        (each_arm_code (length (drafted ops.old)) p (condition_of arm.now) (body_of o arm.now))
        × (q ≡ past_arm o p arm.now)) }
{
    let spot = condition(ops, context, p.part, &arm.cond)?;
    let at = Progress {
        part: spot.next,
        unit: p.unit,
    };
    block(ops, context, extents, at, &arm.body)
}
