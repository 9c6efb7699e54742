// The code of calls in either pass, by their core statements.
ghost use Rattle.std.specs.Prelude.{◌≡◌, IfOk, OnOk};
ghost use Rattle.cs_ir.specs.Drafts.{Grew};
ghost use Rattle.cs_meaning.specs.Core.{ask, unit_call, store_call, zak_call, values_of};
ghost use Rattle.cs_code.specs.inner.Kept.{start, past_stmt};
ghost use Rattle.cs_code.specs.inner.Emitted.{IsAssignmentOf, alone_in, arguments_of, called, effect_of, put_shape};
ghost use Rattle.cs_code.specs.{inner.Code.pass_code, inner.Emitted.sent_as, inner.Served.Lowered};
ghost use Rattle.cs_words.specs.Catalogue.{row_of};
ghost use Rattle.cs_base.specs.declared.resource.Rate.TheVariants as rate;
ghost use Rattle.cs_words.specs.declared.catalogue.Shape.TheVariants as shape;

use crate::args::{Call, parted_values, values};
use crate::frame::{Place, Progress};
use crate::reach::{unit_reach, zak_reach};
use crate::simple::{Assignment, Sending, ask, assign, send, store, turnoff, unit, zak};
use crate::value::Value;
use cs_base::{OutOfMemory, Rate};
use cs_ir::CodeDraft;
use cs_typed::TypedArg;
use cs_words::{Shape, signature_of};

/// The value that is assigned to a channel: an expression, or the sum of the channel's value and an
/// expression.
#[derive(Clone, Copy)]
pub enum Putting {
    Value,
    Sum,
}

// A call that assigns a value to a variable once, as the note begins.
fn once<'t>(call: &Call<'t>) -> Option<Assignment<'t>>
    ensures { IsAssignmentOf result shape.Init call.now }
{
    match (call.results, call.args) {
        ([v, ..], [TypedArg::Value(e), ..]) => Some(Assignment {
            done: Rate::Init,
            to: *v,
            value: Value::Of(e),
        }),
        _ => None,
    }
}

fn get<'t>(call: &Call<'t>) -> Option<Assignment<'t>>
    ensures { IsAssignmentOf result shape.ChannelGet call.now }
{
    match (call.results, call.args) {
        ([v, ..], [TypedArg::Text(c), ..]) => Some(Assignment {
            done: call.rate,
            to: *v,
            value: Value::Read(call.rate, *c),
        }),
        _ => None,
    }
}

// A call that assigns a value to a channel, or adds it to the channel's value.
fn put<'t>(call: &Call<'t>, how: Putting) -> Option<Assignment<'t>>
    ensures { IsAssignmentOf result (put_shape how) call.now }
{
    match call.args {
        [TypedArg::Value(e), TypedArg::Text(c), ..] => Some(Assignment {
            done: call.rate,
            to: *c,
            value: match how {
                Putting::Value => Value::Of(e),
                Putting::Sum => Value::Mixed(*c, e),
            },
        }),
        _ => None,
    }
}

fn clear<'t>(call: &Call<'t>) -> Option<Assignment<'t>>
    ensures { IsAssignmentOf result shape.ChannelClear call.now }
{
    match call.args {
        [TypedArg::Text(c), ..] => Some(Assignment {
            done: call.rate,
            to: *c,
            value: Value::Zero,
        }),
        _ => None,
    }
}

fn assigned<'t>(call: &Call<'t>) -> Option<Assignment<'t>>
    ensures { IsAssignmentOf result (row_of call.now.opcode).shape call.now }
{
    match signature_of(call.opcode).shape() {
        Shape::Init => once(call),
        Shape::ChannelGet => get(call),
        Shape::ChannelPut => put(call, Putting::Value),
        Shape::ChannelMix => put(call, Putting::Sum),
        Shape::ChannelClear => clear(call),
        _ => None,
    }
}

// Emits the code of a unit, over the values among its arguments.
fn unit_call(ops: &mut CodeDraft<'_>, at: Place, call: &Call<'_>) -> Result<Progress, OutOfMemory>
    ensures ops { OnOk result (Grew ops.old ops.new (pass_code at.context.pass 0 at.before (unit_call call.now.rate
        call.now.results.now call.now.opcode (arguments_of call.now)))) }
    ensures next { IfOk result (λ q. q
        ≡ past_stmt at.before (unit_call call.now.rate call.now.results.now call.now.opcode
        (arguments_of call.now))) }
{
    let values = parted_values(at.context.alloc, call)?;
    let reach = unit_reach(call.opcode, &values.settled);
    unit(ops, at.context, at.before, reach, call, &values)
}

// Emits the code of a store, over all values among its arguments. The settled one is the number of its table.
fn store_call(ops: &mut CodeDraft<'_>, at: Place, call: &Call<'_>) -> Result<Progress, OutOfMemory>
    ensures ops { OnOk result (Grew ops.old ops.new (pass_code at.context.pass 0 at.before (store_call call.now.rate
        call.now.opcode (arguments_of call.now)))) }
    ensures next { IfOk result (λ q. q
        ≡ past_stmt at.before (store_call call.now.rate call.now.opcode (arguments_of call.now))) }
{
    let all = values(at.context.alloc, call)?;
    let parted = parted_values(at.context.alloc, call)?;
    store(ops, at.context, at.before, call.rate, &all, &parted.settled)
}

// Emits the code of an opcode that reads or writes zak places, over its values.
fn zak_call(ops: &mut CodeDraft<'_>, at: Place, call: &Call<'_>) -> Result<Progress, OutOfMemory>
    ensures ops { OnOk result (Grew ops.old ops.new (pass_code at.context.pass 0 at.before (zak_call at.context.spaces
        call.now.rate call.now.results.now call.now.opcode (row_of call.now.opcode).shape (arguments_of call.now)))) }
    ensures next { IfOk result (λ q. q ≡ past_stmt at.before (zak_call at.context.spaces call.now.rate
        call.now.results.now call.now.opcode (row_of call.now.opcode).shape
        (arguments_of call.now))) }
{
    let values = parted_values(at.context.alloc, call)?;
    let shape = signature_of(call.opcode).shape();
    let reach = zak_reach(at.context.spaces, shape, &values.moving);
    zak(ops, at.context, at.before, reach, call, &values.moving)
}

fn out(
    ops: &mut CodeDraft<'_>,
    at: Place,
    sending: Sending,
    call: &Call<'_>,
) -> Result<Progress, OutOfMemory>
    ensures ops { OnOk result (Grew ops.old ops.new (pass_code at.context.pass 0 at.before (sent_as sending rate.Audio
        (values_of (arguments_of call.now))))) }
    ensures next { IfOk result (λ q. q
        ≡ past_stmt at.before (sent_as sending rate.Audio (values_of (arguments_of call.now)))) }
{
    let values = values(at.context.alloc, call)?;
    send(ops, at.context, at.before, sending, &values)
}

fn schedule(ops: &mut CodeDraft<'_>, at: Place, call: &Call<'_>) -> Result<(), OutOfMemory>
    ensures { OnOk result (Grew ops.old ops.new (pass_code at.context.pass 0 start (ask (values_of (arguments_of
        call.now))))) }
{
    let values = values(at.context.alloc, call)?;
    ask(ops, at.context, &values)
}

fn effect(ops: &mut CodeDraft<'_>, at: Place, call: &Call<'_>) -> Result<Progress, OutOfMemory>
    ensures ops { OnOk result (Grew ops.old ops.new (pass_code at.context.pass 0 at.before (effect_of at.context.spaces
        call.now (row_of call.now.opcode).shape))) }
    ensures next { IfOk result (λ q. q
        ≡ past_stmt at.before (effect_of at.context.spaces call.now (row_of call.now.opcode).shape)) }
{
    match signature_of(call.opcode).shape() {
        Shape::Out => out(ops, at, Sending::InTurn, call),
        Shape::OutAt => out(ops, at, Sending::ByNumber, call),
        Shape::Turnoff => {
            turnoff(ops, at.context)?;
            Ok(at.before)
        }
        Shape::Ask => {
            schedule(ops, at, call)?;
            Ok(at.before)
        }
        Shape::Unit => unit_call(ops, at, call),
        Shape::Store => store_call(ops, at, call),
        Shape::ZakGet(_) | Shape::ZakPut(_) | Shape::ZakMix | Shape::ZakClear(_) => {
            zak_call(ops, at, call)
        }
        _ => Ok(at.before),
    }
}

/// Emits the code of a call. Returns the progress at its end.
pub fn call(ops: &mut CodeDraft<'_>, at: Place, call: &Call<'_>) -> Result<Progress, OutOfMemory>
    ensures { IfOk result (λ q. Lowered at.context.pass ops.old ops.new at.before q
        (alone_in at.context.spaces (called call.now))) }
{
    match assigned(call) {
        Some(assignment) => assign(ops, at.context, at.before, &assignment),
        None => effect(ops, at, call),
    }
}
