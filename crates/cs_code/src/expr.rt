// The code of expressions and of assignments. Each function appends to `ops`.
ghost use Rattle.std.specs.Prelude.{◌≡◌, ◌+◌, [], ◌∷◌, true, IfOk, OnOk};
ghost use Rattle.cs_ir.specs.{Codes.is_unaimed, Drafts.Grew, Waves.if_init};
ghost use Rattle.cs_code.specs.inner.Code.{own, code, operand_code, look_code, keep_code, kept_code, set_code};
ghost use Rattle.cs_code.specs.inner.Emitted.{value_of, when_of};
ghost use Rattle.cs_code.specs.{inner.Kept.past, inner.Spots.kept_reg, inner.Spots.op_of, inner.Spots.spot};
ghost use Rattle.cs_typed.specs.TypedTree as typed;
ghost use Rattle.cs_typed.specs.declared.tree.Var.TheVariants.{Local};
ghost use Rattle.cs_code.specs.declared.frame.Pass.TheVariants as pass;

use crate::frame::{Context, ValueSpot, add, kept_reg, local, next_of, push, temp};
use crate::value::{Value, direct, rate_of};
use cs_base::{Num, OutOfMemory, Rate};
use cs_ir::{Act, CodeDraft, Op, Operands, Reg};
use cs_typed::{TypedExpr, TypedPart, Var};
use cs_words::BinOp;

fn look(ops: &mut CodeDraft<'_>, v: Var, into: Reg) -> Result<(), OutOfMemory>
    ensures { OnOk result (Grew ops.old ops.new (look_code v into)) }
{
    match v {
        Var::Local(rate, index) => {
            push(ops, Act::Copy, into, Operands::one(local(rate, index)?))
        }
        Var::Global(res) => push(ops, Act::Load(res), into, Operands::none()),
    }
}

// Emits the op of a value without parts. Returns the number of the next kept value.
fn leaf(
    ops: &mut CodeDraft<'_>,
    act: Act,
    rate: Rate,
    at: u32,
    into: Reg,
) -> Result<u32, OutOfMemory>
    requires { is_unaimed act ≡ true }
    ensures ops { OnOk result (Grew ops.old ops.new (op_of act into [] ∷ [])) }
    ensures next { IfOk result (λ n. n ≡ if_init rate (at + 1) at) }
{
    push(ops, act, into, Operands::none())?;
    next_of(rate, at, at)
}

// Emits the last op of a value, after its parts. `next` is the number of the next kept value after the parts.
// Returns the number after the value.
fn finish(
    ops: &mut CodeDraft<'_>,
    op: Op,
    rate: Rate,
    at: u32,
    parts: u32,
) -> Result<u32, OutOfMemory>
    requires { is_unaimed op.act ≡ true }
    ensures ops { OnOk result (Grew ops.old ops.new (op ∷ [])) }
    ensures next { IfOk result (λ n. n ≡ if_init rate (at + 1) parts) }
{
    ops.push(op)?;
    next_of(rate, at, parts)
}

// Emits the code of an expression that isn't in a register yet; `d` is the first free temporary. Returns the
// number of the next kept value.
#[cycle(expr)]
#[tactic(auto, using(crate::proofs::Growing::growing))]
fn own(
    ops: &mut CodeDraft<'_>,
    context: Context,
    at: u32,
    e: &TypedExpr,
    into: Reg,
    d: u32,
) -> Result<u32, OutOfMemory>
    ensures ops { OnOk result (Grew ops.old ops.new (own (when_of context.pass) at (typed.expression e.now) into d)) }
    ensures next { IfOk result (λ n. n ≡ past at (typed.expression e.now)) }
{
    match &e.what {
        TypedPart::Number(value) => leaf(ops, Act::Const(*value), e.rate, at, into),
        TypedPart::Var(v) => {
            look(ops, *v, into)?;
            next_of(e.rate, at, at)
        }
        TypedPart::Field(field) => leaf(ops, Act::Field(*field), e.rate, at, into),
        TypedPart::Head(name) => leaf(ops, Act::Head(*name), e.rate, at, into),
        TypedPart::Neg(a) => {
            let a = operand(ops, context, at, a, d)?;
            let act = Act::Neg;
            let from = Operands::one(a.reg);
            finish(ops, Op { act, into, from }, e.rate, at, a.next)
        }
        TypedPart::Pair(op, a, b) => {
            let a = operand(ops, context, at, a, d)?;
            let b = operand(ops, context, a.next, b, add(d, 1)?)?;
            let act = Act::Pair(*op);
            let from = Operands::two(a.reg, b.reg);
            finish(ops, Op { act, into, from }, e.rate, at, b.next)
        }
        TypedPart::Pick(c, a, b) => {
            let second = add(d, 1)?;
            let c = operand(ops, context, at, c, d)?;
            let a = operand(ops, context, c.next, a, second)?;
            let b = operand(ops, context, a.next, b, add(second, 1)?)?;
            let act = Act::Pick;
            let from = Operands::three(c.reg, a.reg, b.reg);
            finish(ops, Op { act, into, from }, e.rate, at, b.next)
        }
        TypedPart::Call(func, a) => {
            let a = operand(ops, context, at, a, d)?;
            let act = Act::Call(*func);
            let from = Operands::one(a.reg);
            finish(ops, Op { act, into, from }, e.rate, at, a.next)
        }
    }
}

/// Returns the register that holds `e`. If `e` isn't in one yet, emits its code into temporary `d` of its
/// rate.
#[cycle(expr)]
#[tactic(auto, using(crate::proofs::Nodes::rate_of_part, crate::proofs::Nodes::nodes, crate::proofs::Growing::growing))]
pub fn operand(
    ops: &mut CodeDraft<'_>,
    context: Context,
    at: u32,
    e: &TypedExpr,
    d: u32,
) -> Result<ValueSpot, OutOfMemory>
    ensures ops { OnOk result (Grew ops.old ops.new (operand_code (when_of context.pass) at (typed.expression e.now)
        d)) }
    ensures spot { IfOk result (λ s. s.reg ≡ spot (when_of context.pass) at (typed.expression e.now) d) }
    ensures next { IfOk result (λ s. s.next ≡ past at (typed.expression e.now)) }
{
    match direct(context, at, &Value::Of(e))? {
        Some(reg) => Ok(ValueSpot {
            reg,
            next: next_of(e.rate, at, at)?,
        }),
        None => {
            let reg = temp(e.rate, d);
            let next = own(ops, context, at, e, reg, d)?;
            Ok(ValueSpot { reg, next })
        }
    }
}

// Puts a variable's value into a register, if it isn't in one yet.
#[tactic(auto, using(crate::proofs::Nodes::nodes, crate::proofs::Growing::growing))]
fn variable(
    ops: &mut CodeDraft<'_>,
    context: Context,
    at: u32,
    rate: Rate,
    v: Var,
    d: u32,
) -> Result<ValueSpot, OutOfMemory>
    ensures ops { OnOk result (Grew ops.old ops.new (operand_code (when_of context.pass) at (typed.var rate v) d)) }
    ensures spot { IfOk result (λ s. s.reg ≡ spot (when_of context.pass) at (typed.var rate v) d) }
    ensures next { IfOk result (λ s. s.next ≡ past at (typed.var rate v)) }
{
    let next = next_of(rate, at, at)?;
    match direct(context, at, &Value::Read(rate, v))? {
        Some(reg) => Ok(ValueSpot { reg, next }),
        None => {
            let reg = temp(rate, d);
            look(ops, v, reg)?;
            Ok(ValueSpot { reg, next })
        }
    }
}

// Emits the code of a value that isn't in a register yet.
fn made(
    ops: &mut CodeDraft<'_>,
    context: Context,
    at: u32,
    value: &Value<'_>,
    into: Reg,
    d: u32,
) -> Result<u32, OutOfMemory>
    ensures ops { OnOk result (Grew ops.old ops.new (own (when_of context.pass) at (value_of value.now) into d)) }
    ensures next { IfOk result (λ n. n ≡ past at (value_of value.now)) }
{
    match value {
        Value::Of(e) => own(ops, context, at, e, into, d),
        Value::Read(rate, v) => {
            look(ops, *v, into)?;
            next_of(*rate, at, at)
        }
        Value::Mixed(v, e) => {
            let x = variable(ops, context, at, Rate::Audio, *v, d)?;
            let y = operand(ops, context, x.next, e, add(d, 1)?)?;
            let act = Act::Pair(BinOp::Add);
            let from = Operands::two(x.reg, y.reg);
            finish(ops, Op { act, into, from }, Rate::Audio, at, y.next)
        }
        Value::Zero => leaf(ops, Act::Const(Num::of_raw(0)), Rate::Init, at, into),
    }
}

/// Puts a value into a register: emits nothing if it is in one, otherwise its code into the first temporary
/// of its rate.
#[tactic(auto, using(crate::proofs::Nodes::nodes, crate::proofs::Growing::growing))]
pub fn spot_of(
    ops: &mut CodeDraft<'_>,
    context: Context,
    at: u32,
    value: &Value<'_>,
) -> Result<ValueSpot, OutOfMemory>
    ensures ops { OnOk result (Grew ops.old ops.new (operand_code (when_of context.pass) at (value_of value.now) 0)) }
    ensures spot { IfOk result (λ s. s.reg ≡ spot (when_of context.pass) at (value_of value.now) 0) }
    ensures next { IfOk result (λ s. s.next ≡ past at (value_of value.now)) }
{
    match direct(context, at, value)? {
        Some(reg) => Ok(ValueSpot {
            reg,
            next: next_of(rate_of(value), at, at)?,
        }),
        None => {
            let reg = temp(rate_of(value), 0);
            let next = made(ops, context, at, value, reg, 0)?;
            Ok(ValueSpot { reg, next })
        }
    }
}

/// Emits the code of a value into a given register, a copy if the value is in a register already. Returns the
/// number of the next kept value.
#[tactic(auto, using(crate::proofs::Nodes::copies))]
pub fn code(
    ops: &mut CodeDraft<'_>,
    context: Context,
    at: u32,
    value: &Value<'_>,
    into: Reg,
) -> Result<u32, OutOfMemory>
    ensures ops { OnOk result (Grew ops.old ops.new (code (when_of context.pass) at (value_of value.now) into 0)) }
    ensures next { IfOk result (λ n. n ≡ past at (value_of value.now)) }
{
    match direct(context, at, value)? {
        Some(reg) => {
            push(ops, Act::Copy, into, Operands::one(reg))?;
            next_of(rate_of(value), at, at)
        }
        None => made(ops, context, at, value, into, 0),
    }
}

/// Emits the outermost parts that don't change, each into its register. Returns the number of the next kept
/// value.
#[cycle(keep)]
#[tactic(auto, using(crate::proofs::Nodes::splits, crate::proofs::Growing::growing))]
pub fn keep(
    ops: &mut CodeDraft<'_>,
    context: Context,
    at: u32,
    e: &TypedExpr,
) -> Result<u32, OutOfMemory>
    requires { context.pass ≡ pass.Initialisation }
    ensures ops { OnOk result (Grew ops.old ops.new (keep_code at (typed.expression e.now))) }
    ensures next { IfOk result (λ n. n ≡ past at (typed.expression e.now)) }
{
    match e.rate {
        Rate::Init => {
            code(ops, context, 0, &Value::Of(e), kept_reg(at))?;
            add(at, 1)
        }
        Rate::Control | Rate::Audio => match &e.what {
            TypedPart::Number(_) | TypedPart::Var(_) | TypedPart::Field(_) | TypedPart::Head(_) => {
                Ok(at)
            }
            TypedPart::Neg(a) | TypedPart::Call(_, a) => keep(ops, context, at, a),
            TypedPart::Pair(_, a, b) => {
                let next = keep(ops, context, at, a)?;
                keep(ops, context, next, b)
            }
            TypedPart::Pick(c, a, b) => {
                let next = keep(ops, context, at, c)?;
                let next = keep(ops, context, next, a)?;
                keep(ops, context, next, b)
            }
        },
    }
}

/// Emits the kept parts of a value. Returns the number of the next kept value.
#[tactic(auto, using(crate::proofs::Growing::growing))]
pub fn keep_value(
    ops: &mut CodeDraft<'_>,
    context: Context,
    at: u32,
    value: &Value<'_>,
) -> Result<u32, OutOfMemory>
    requires { context.pass ≡ pass.Initialisation }
    ensures ops { OnOk result (Grew ops.old ops.new (keep_code at (value_of value.now))) }
    ensures next { IfOk result (λ n. n ≡ past at (value_of value.now)) }
{
    match value {
        Value::Of(e) => keep(ops, context, at, e),
        Value::Read(Rate::Init, _) | Value::Zero => {
            code(ops, context, 0, value, kept_reg(at))?;
            add(at, 1)
        }
        Value::Mixed(_, e) => keep(ops, context, at, e),
        Value::Read(_, _) => Ok(at),
    }
}

/// Emits an assignment to a variable. Returns the number of the next kept value.
#[tactic(auto, using(crate::proofs::Growing::growing))]
pub fn set(
    ops: &mut CodeDraft<'_>,
    context: Context,
    at: u32,
    to: Var,
    value: &Value<'_>,
) -> Result<u32, OutOfMemory>
    ensures ops { OnOk result (Grew ops.old ops.new (set_code (when_of context.pass) at to (value_of value.now))) }
    ensures next { IfOk result (λ n. n ≡ past at (value_of value.now)) }
{
    match to {
        Var::Local(own, index) => set_local(ops, context, at, own, index, value),
        Var::Global(res) => {
            let spot = spot_of(ops, context, at, value)?;
            push(ops, Act::Save(res), spot.reg, Operands::one(spot.reg))?;
            Ok(spot.next)
        }
    }
}

fn set_local(
    ops: &mut CodeDraft<'_>,
    context: Context,
    at: u32,
    own: Rate,
    index: usize,
    value: &Value<'_>,
) -> Result<u32, OutOfMemory>
    ensures ops { OnOk result (Grew ops.old ops.new (set_code (when_of context.pass) at (Local own index)
        (value_of value.now))) }
    ensures next { IfOk result (λ n. n ≡ past at (value_of value.now)) }
{
    let to = local(own, index)?;
    if rate_of(value).same(own) {
        code(ops, context, at, value, to)
    } else {
        let spot = spot_of(ops, context, at, value)?;
        push(ops, Act::Copy, to, Operands::one(spot.reg))?;
        Ok(spot.next)
    }
}
