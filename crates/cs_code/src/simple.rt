// The code of simple statements, in either pass: as the note begins, and in each cycle.
ghost use Rattle.std.specs.Prelude.{◌≡◌, IfOk, OnOk};
ghost use Rattle.cs_base.specs.declared.resource.Rate.TheVariants as rate;
ghost use Rattle.cs_ir.specs.Drafts.{Grew};
ghost use Rattle.cs_meaning.specs.Core.{unit, zak, store, table_reach, ask, turnoff};
ghost use Rattle.cs_code.specs.inner.Kept.{start, past_stmt};
ghost use Rattle.cs_code.specs.inner.Code.{pass_code, start_code, seek_code, out_ops, out_at_ops};
ghost use Rattle.cs_code.specs.declared.frame.Pass.TheVariants as pass;
ghost use Rattle.cs_code.specs.inner.Emitted.{assignment_of, expressions_of, set_of, sent_as, sent_ops};

use crate::args::{Call, Parted, keep_all, operands, push_on};
use crate::expr::{keep_value, set};
use crate::frame::{Context, Pass, Progress, add, push, temp};
use crate::reach::table_reach;
use crate::run::run;
use crate::value::Value;
use cs_base::{OutOfMemory, Rate};
use cs_ir::{Act, CodeDraft, Operands, Reach, Reg};
use cs_typed::{TypedExpr, Var};

/// The channels to which values are output.
#[derive(Clone, Copy)]
pub enum Sending {
    /// The channels in order, from the first on.
    InTurn,
    /// Pairs of a channel's number and a value for it.
    ByNumber,
}

/// An assignment: its rate, the variable, and the value.
#[derive(Clone, Copy)]
pub struct Assignment<'t> {
    pub done: Rate,
    pub to: Var,
    pub value: Value<'t>,
}

/// Emits an assignment: once as the note begins, or in each cycle; then its parts that don't change are kept.
#[tactic(auto, using(crate::proofs::Growing::growing))]
pub fn assign(
    ops: &mut CodeDraft<'_>,
    context: Context,
    p: Progress,
    it: &Assignment<'_>,
) -> Result<Progress, OutOfMemory>
    ensures ops { OnOk result (Grew ops.old ops.new (pass_code context.pass 0 p (set_of (assignment_of it.now)))) }
    ensures next { IfOk result (λ q. q ≡ past_stmt p (set_of (assignment_of it.now))) }
{
    match (context.pass, it.done) {
        (Pass::Initialisation, Rate::Init) => {
            set(ops, context, 0, it.to, &it.value)?;
            Ok(p)
        }
        (Pass::Initialisation, Rate::Control | Rate::Audio) => {
            let part = keep_value(ops, context, p.part, &it.value)?;
            Ok(Progress { part, ..p })
        }
        (Pass::Performance, Rate::Init) => Ok(p),
        (Pass::Performance, Rate::Control | Rate::Audio) => {
            let part = set(ops, context, p.part, it.to, &it.value)?;
            Ok(Progress { part, ..p })
        }
    }
}

/// Emits a unit: it is started as the note begins, and runs then if it is i-rate, otherwise in each cycle.
#[tactic(auto, using(crate::proofs::Growing::growing))]
pub fn unit(
    ops: &mut CodeDraft<'_>,
    context: Context,
    p: Progress,
    reach: Reach,
    call: &Call<'_>,
    values: &Parted<'_>,
) -> Result<Progress, OutOfMemory>
    ensures ops { OnOk result (Grew ops.old ops.new (pass_code context.pass 0 p (unit call.now.rate
        call.now.results.now call.now.opcode reach (expressions_of values.now.moving.items) (expressions_of
        values.now.settled.items)))) }
    ensures next { IfOk result (λ q. q
        ≡ past_stmt p (unit call.now.rate call.now.results.now call.now.opcode reach
        (expressions_of values.now.moving.items)
        (expressions_of values.now.settled.items))) }
{
    let unit = add(p.unit, 1)?;
    let act = Act::Unit(call.opcode, p.unit, reach);
    match (context.pass, call.rate) {
        (Pass::Initialisation, Rate::Init) => {
            start(ops, context, p.unit, call, &values.settled)?;
            run(ops, context, 0, act, call, &values.moving)?;
            Ok(Progress { part: p.part, unit })
        }
        (Pass::Initialisation, Rate::Control | Rate::Audio) => {
            let part = keep_all(ops, context, p.part, &values.moving)?;
            start(ops, context, p.unit, call, &values.settled)?;
            Ok(Progress { part, unit })
        }
        (Pass::Performance, Rate::Init) => Ok(Progress { part: p.part, unit }),
        (Pass::Performance, Rate::Control | Rate::Audio) => {
            let part = run(ops, context, p.part, act, call, &values.moving)?;
            Ok(Progress { part, unit })
        }
    }
}

fn start(
    ops: &mut CodeDraft<'_>,
    context: Context,
    unit: u32,
    call: &Call<'_>,
    settled: &[&TypedExpr],
) -> Result<(), OutOfMemory>
    requires { context.pass ≡ pass.Initialisation }
    ensures { OnOk result (Grew ops.old ops.new (start_code call.now.rate call.now.opcode unit (expressions_of
        settled.now))) }
{
    let act = Act::Start(call.opcode, unit);
    push_on(ops, context, 0, act, temp(call.rate, 0), settled)?;
    Ok(())
}

/// Emits an op that reads or writes zak places: once as the note begins, or in each cycle.
#[tactic(auto, using(crate::proofs::Growing::growing))]
pub fn zak(
    ops: &mut CodeDraft<'_>,
    context: Context,
    p: Progress,
    reach: Reach,
    call: &Call<'_>,
    values: &[&TypedExpr],
) -> Result<Progress, OutOfMemory>
    ensures ops { OnOk result (Grew ops.old ops.new (pass_code context.pass 0 p (zak call.now.rate
        call.now.results.now call.now.opcode reach (expressions_of values.now)))) }
    ensures next { IfOk result (λ q. q ≡ past_stmt p (zak call.now.rate
        call.now.results.now
        call.now.opcode reach (expressions_of values.now))) }
{
    let act = Act::Zak(call.opcode, reach);
    match (context.pass, call.rate) {
        (Pass::Initialisation, Rate::Init) => {
            run(ops, context, 0, act, call, values)?;
            Ok(p)
        }
        (Pass::Initialisation, Rate::Control | Rate::Audio) => {
            let part = keep_all(ops, context, p.part, values)?;
            Ok(Progress { part, ..p })
        }
        (Pass::Performance, Rate::Init) => Ok(p),
        (Pass::Performance, Rate::Control | Rate::Audio) => {
            let part = run(ops, context, p.part, act, call, values)?;
            Ok(Progress { part, ..p })
        }
    }
}

/// Emits a store. As the note begins its table must exist; it stores then if it is i-rate, otherwise in each
/// cycle.
#[tactic(auto, using(crate::proofs::Growing::growing))]
pub fn store(
    ops: &mut CodeDraft<'_>,
    context: Context,
    p: Progress,
    rate: Rate,
    values: &[&TypedExpr],
    settled: &[&TypedExpr],
) -> Result<Progress, OutOfMemory>
    ensures ops { OnOk result (Grew ops.old ops.new (pass_code context.pass 0 p (store rate (table_reach
        (expressions_of settled.now)) (expressions_of values.now) (expressions_of settled.now)))) }
    ensures next { IfOk result (λ q. q ≡ past_stmt p (store rate
        (table_reach (expressions_of settled.now)) (expressions_of values.now)
        (expressions_of settled.now))) }
{
    let act = Act::Store(table_reach(settled));
    let into = temp(rate, 0);
    match (context.pass, rate) {
        (Pass::Initialisation, Rate::Init) => {
            seek(ops, context, settled)?;
            push_on(ops, context, 0, act, into, values)?;
            Ok(p)
        }
        (Pass::Initialisation, Rate::Control | Rate::Audio) => {
            let part = keep_all(ops, context, p.part, values)?;
            seek(ops, context, settled)?;
            Ok(Progress { part, ..p })
        }
        (Pass::Performance, Rate::Init) => Ok(p),
        (Pass::Performance, Rate::Control | Rate::Audio) => {
            let part = push_on(ops, context, p.part, act, into, values)?;
            Ok(Progress { part, ..p })
        }
    }
}

fn seek(
    ops: &mut CodeDraft<'_>,
    context: Context,
    settled: &[&TypedExpr],
) -> Result<(), OutOfMemory>
    requires { context.pass ≡ pass.Initialisation }
    ensures { OnOk result (Grew ops.old ops.new (seek_code (expressions_of settled.now))) }
{
    push_on(ops, context, 0, Act::Seek, temp(Rate::Init, 0), settled)?;
    Ok(())
}

fn out_ops(ops: &mut CodeDraft<'_>, regs: &[Reg]) -> Result<(), OutOfMemory>
    ensures { OnOk result (Grew ops.old ops.new (out_ops 0 regs.now)) }
{
    let mut channel: usize = 0;
    for reg in regs {
        push(ops, Act::Out(channel), *reg, Operands::one(*reg))?;
        channel += 1;
    }
    Ok(())
}

// Emits the ops that output pairs of a channel's number and a value for it.
fn out_at_ops(ops: &mut CodeDraft<'_>, regs: &[Reg]) -> Result<(), OutOfMemory>
    ensures { OnOk result (Grew ops.old ops.new (out_at_ops regs.now)) }
{
    let mut channel = None;
    for reg in regs {
        channel = match channel {
            None => Some(*reg),
            Some(number) => {
                push(ops, Act::OutAt, *reg, Operands::two(number, *reg))?;
                None
            }
        };
    }
    Ok(())
}

fn send_regs(ops: &mut CodeDraft<'_>, sending: Sending, regs: &[Reg]) -> Result<(), OutOfMemory>
    ensures { OnOk result (Grew ops.old ops.new (sent_ops sending regs.now)) }
{
    match sending {
        Sending::InTurn => out_ops(ops, regs),
        Sending::ByNumber => out_at_ops(ops, regs),
    }
}

/// Emits the output of values. Their parts that don't change are kept as the note begins, and each cycle
/// outputs the values.
pub fn send(
    ops: &mut CodeDraft<'_>,
    context: Context,
    p: Progress,
    sending: Sending,
    values: &[&TypedExpr],
) -> Result<Progress, OutOfMemory>
    ensures ops { OnOk result (Grew ops.old ops.new (pass_code context.pass 0 p (sent_as sending rate.Audio
        (expressions_of values.now)))) }
    ensures next { IfOk result (λ q. q ≡ past_stmt p (sent_as sending rate.Audio (expressions_of values.now))) }
{
    match context.pass {
        Pass::Initialisation => {
            let part = keep_all(ops, context, p.part, values)?;
            Ok(Progress { part, ..p })
        }
        Pass::Performance => {
            let found = operands(ops, context, p.part, values)?;
            send_regs(ops, sending, &found.regs)?;
            Ok(Progress {
                part: found.next,
                ..p
            })
        }
    }
}

/// Emits the scheduling of a note, as the note begins.
#[tactic(auto, using(crate::proofs::Growing::growing))]
pub fn ask(
    ops: &mut CodeDraft<'_>,
    context: Context,
    values: &[&TypedExpr],
) -> Result<(), OutOfMemory>
    ensures { OnOk result (Grew ops.old ops.new (pass_code context.pass 0 start (ask (expressions_of values.now)))) }
{
    match context.pass {
        Pass::Initialisation => {
            push_on(ops, context, 0, Act::Ask, temp(Rate::Init, 0), values)?;
            Ok(())
        }
        Pass::Performance => Ok(()),
    }
}

/// Emits an op that ends the note after this cycle.
#[tactic(auto, using(crate::proofs::Growing::growing))]
pub fn turnoff(ops: &mut CodeDraft<'_>, context: Context) -> Result<(), OutOfMemory>
    ensures { OnOk result (Grew ops.old ops.new (pass_code context.pass 0 start (turnoff rate.Audio))) }
{
    match context.pass {
        Pass::Initialisation => Ok(()),
        Pass::Performance => { push(ops, Act::Turnoff, temp(Rate::Init, 0), Operands::none()) }
    }
}
