// Calls of opcodes: the number of arguments, the form of each argument, the channel that is used, and the
// typed form.
ghost use Rattle.std.specs.Prelude.{◌≡◌, ◌++◌, IfOk, List, OnOk, map};
ghost use Rattle.std.specs.List.{list_all};
ghost use Rattle.cs_base.specs.declared.fault.Or.TheVariants as or;
ghost use Rattle.cs_grammar.specs.Tree.{argument};
ghost use Rattle.cs_typing.specs.Calls.{fits, all_fit, bound_of, may_result, is_sound, any_sound, is_even, kind_of};
ghost use Rattle.cs_typing.specs.Calls.{channel_use, text_of, argument_read_by, all_read_by, rates_agree};
ghost use Rattle.cs_typing.specs.Calls.{row_fault_by, is_still, plain_rate, call_rate, argument_by};
ghost use Rattle.cs_typing.specs.Calls.{arguments_by, row_by, call_fault_by, call_shared, call_by};
ghost use Rattle.cs_typing.specs.{Settings.at};
ghost use Rattle.cs_typed.specs.{Places.stands_outside};
ghost use Rattle.cs_typed.specs.TypedTree as typed;
ghost use Rattle.cs_typing.specs.{inner.Answers.GivesOne, inner.Held.known_of};
ghost use Rattle.cs_typing.specs.inner.Routines.{all_given_in, known_in, knows_in, variable_in};

use crate::expr::{is_value, rate_of, reads_known, typed_expression};
use crate::known::{Channel, KnownNames};
use cs_base::{Name, Or, OrcFault, OrcKind, OutOfMemory, Rate};
use cs_grammar::{Arg, Callee};
use cs_typed::{Setting, TypedArg, TypedArgs, TypedStmt, TypedWhat, Vars};
use cs_words::{Letter, Opcode, Shape, Signature, name_rate, signature_of};

fn fits(letter: Letter, bound: Rate, arg: &Arg) -> bool
    ensures { result ≡ fits letter bound (argument arg.now) }
{
    match arg {
        Arg::Value(e) => is_value(e) && letter.takes(bound, rate_of(e)),
        Arg::Text(_) => letter.is_text(),
    }
}

fn all_fit(row: &Signature, bound: Rate, args: &[Arg]) -> bool
    ensures { result ≡ all_fit row.now bound 0 (map argument args.now) }
{
    let mut n: usize = 0;
    for arg in args {
        if !fits(row.letter(n), bound, arg) {
            return false;
        }
        n += 1;
    }
    true
}

// The rate of the result, which limits the rates of the arguments; without a result there is no limit.
fn bound_of(results: &[Name]) -> Rate
    ensures { result ≡ bound_of results.now }
{
    match results {
        [] => Rate::Audio,
        [name, ..] => name_rate(name.as_slice()),
    }
}

fn may_result(row: &Signature, name: &[u8]) -> bool
    ensures { result ≡ may_result row.now name.now }
{
    let rate = name_rate(name);
    row.results().iter().any(|allowed| rate.same(*allowed))
}

fn all_may_result(row: &Signature, results: &[Name]) -> bool
    ensures { result ≡ list_all (may_result row.now) results.now }
{
    results.iter().all(|name| may_result(row, name.as_slice()))
}

fn is_sound(arg: &Arg) -> bool
    ensures { result ≡ is_sound (argument arg.now) }
{
    match arg {
        Arg::Value(e) => rate_of(e).is_audio(),
        Arg::Text(_) => false,
    }
}

fn any_sound(args: &[Arg]) -> bool
    ensures { result ≡ any_sound (map argument args.now) }
{
    for arg in args {
        if is_sound(arg) {
            return true;
        }
    }
    false
}

// Whether both arguments of a table store are a-rate, or neither is.
fn is_even(shape: Shape, args: &[Arg]) -> bool
    ensures { result ≡ is_even shape (map argument args.now) }
{
    match (shape, args) {
        (Shape::Store, [a, b, ..]) => is_sound(a) == is_sound(b),
        _ => true,
    }
}

// Whether an opcode is allowed outside instruments.
fn stands_outside(shape: Shape) -> bool
    ensures { result ≡ stands_outside shape }
{
    matches!(shape, Shape::Init | Shape::ZakInit)
}

fn kind_of(is_sound: bool) -> Channel
    ensures { result ≡ kind_of is_sound }
{
    if is_sound {
        Channel::Sound
    } else {
        Channel::Control
    }
}

// The kind of channel that a call uses, if it uses one.
fn channel_use(shape: Shape, results: &[Name], args: &[Arg]) -> Option<Channel>
    ensures { result ≡ channel_use shape results.now (map argument args.now) }
{
    match shape {
        Shape::ChannelGet => Some(kind_of(bound_of(results).is_audio())),
        Shape::ChannelPut => Some(kind_of(any_sound(args))),
        Shape::ChannelMix | Shape::ChannelClear => Some(Channel::Sound),
        _ => None,
    }
}

// The first text among the arguments; empty if there is none.
fn text_of(args: &[Arg]) -> &[u8]
    ensures { result.now ≡ text_of (map argument args.now) }
{
    for arg in args {
        if let Arg::Text(name) = arg {
            return name.as_slice();
        }
    }
    b"".as_slice()
}

fn argument_known<'t>(names: &KnownNames<'t>, arg: &Arg) -> bool
    ensures { result ≡ argument_read_by (knows_in (known_of names.now)) (argument arg.now) }
{
    match arg {
        Arg::Value(e) => reads_known(names, e),
        Arg::Text(_) => true,
    }
}

fn all_known<'t>(names: &KnownNames<'t>, args: &[Arg]) -> bool
    ensures { result ≡ all_read_by (knows_in (known_of names.now)) (map argument args.now) }
{
    for arg in args {
        if !argument_known(names, arg) {
            return false;
        }
    }
    true
}

// Whether arguments and results have the rates that the row allows, and the opcode is allowed in this
// context.
fn rates_agree(setting: Setting, row: &Signature, results: &[Name], args: &[Arg]) -> bool
    ensures { result ≡ rates_agree setting row.now results.now (map argument args.now) }
{
    all_fit(row, bound_of(results), args)
        && all_may_result(row, results)
        && is_even(row.shape(), args)
        && (setting.inside || stands_outside(row.shape()))
}

/// Returns the first rule that a call of an opcode breaks, or `None` if it breaks none.
pub fn row_fault<'t>(
    setting: Setting,
    names: &KnownNames<'t>,
    row: &Signature,
    results: &[Name],
    args: &[Arg],
) -> Option<OrcKind>
    ensures { result ≡ row_fault_by setting names.now.shared (knows_in (known_of names.now)) row.now results.now
        (map argument args.now) }
{
    if !(results.len() == row.result_count() && row.takes_count(args.len())) {
        Some(OrcKind::ArgCount)
    } else if !all_known(names, args) {
        Some(OrcKind::Undefined)
    } else if !rates_agree(setting, row, results, args) {
        Some(OrcKind::RateMismatch)
    } else if names
        .shared
        .clashes(channel_use(row.shape(), results, args), text_of(args))
    {
        Some(OrcKind::ChannelRate)
    } else if matches!(row.shape(), Shape::Out) && args.len() > setting.channels as usize {
        Some(OrcKind::OutCount)
    } else {
        None
    }
}

// Whether an argument is a text, or a value that is known when the note begins.
fn is_still(arg: &Arg) -> bool
    ensures { result ≡ is_still (argument arg.now) }
{
    match arg {
        Arg::Value(e) => rate_of(e).is_init(),
        Arg::Text(_) => true,
    }
}

fn all_still(args: &[Arg]) -> bool
    ensures { result ≡ list_all is_still (map argument args.now) }
{
    for arg in args {
        if !is_still(arg) {
            return false;
        }
    }
    true
}

// The rate of a call without a result.
fn plain_rate(shape: Shape, args: &[Arg]) -> Rate
    ensures { result ≡ plain_rate shape (map argument args.now) }
{
    if matches!(shape, Shape::Store | Shape::ChannelPut) && all_still(args) {
        Rate::Init
    } else if any_sound(args) {
        Rate::Audio
    } else {
        Rate::Control
    }
}

/// Returns the rate at which a call runs.
pub fn call_rate(shape: Shape, results: &[Name], args: &[Arg]) -> Rate
    ensures { result ≡ call_rate shape results.now (map argument args.now) }
{
    match results {
        _ if matches!(shape, Shape::Init | Shape::ZakInit | Shape::Ask) => Rate::Init,
        [] => plain_rate(shape, args),
        [name, ..] => name_rate(name.as_slice()),
    }
}

fn variables<'t>(names: &KnownNames<'t>, results: &[Name]) -> Result<Vars, OutOfMemory>
    ensures { IfOk result (λ made. made ≡ map (variable_in (known_of names.now)) results.now) }
{
    let mut made = Vars::new(names.alloc());
    for name in results {
        made.push(names.variable(name.as_slice()))?;
    }
    Ok(made)
}

// Adds the typed form of an argument, if it has one.
fn add_argument<'t>(
    names: &KnownNames<'t>,
    role: Option<Channel>,
    arg: &Arg,
    made: &mut TypedArgs,
) -> Result<(), OutOfMemory>
    ensures { OnOk result (map typed.argument made.new.items ≡ map typed.argument made.old.items
        ++ argument_by names.now.shared (variable_in (known_of names.now)) role (argument arg.now)) }
{
    match (arg, role) {
        (Arg::Value(e), _) => made.push(TypedArg::Value(typed_expression(names, e)?))?,
        (Arg::Text(name), Some(kind)) => made.push(TypedArg::Text(
            names.shared.channel(kind, name.as_slice()),
        ))?,
        (Arg::Text(_), None) => {}
    }
    Ok(())
}

fn typed_arguments<'t>(
    names: &KnownNames<'t>,
    role: Option<Channel>,
    args: &[Arg],
) -> Result<TypedArgs, OutOfMemory>
    ensures { IfOk result (λ made. map typed.argument made.items
        ≡ arguments_by names.now.shared (variable_in (known_of names.now)) role (map argument args.now)) }
{
    let mut made = Vec::new(names.alloc());
    for arg in args {
        add_argument(names, role, arg, &mut made)?;
    }
    Ok(made)
}

fn typed_row<'t>(
    names: &KnownNames<'t>,
    line: u32,
    opcode: Opcode,
    row: &Signature,
    results: &[Name],
    args: &[Arg],
) -> Result<TypedStmt, OutOfMemory>
    ensures { IfOk result (λ made. (rs : List typed.Block) → typed.statement rs made
        ≡ typed.alone (row_by line names.now.shared (variable_in (known_of names.now)) opcode row.now results.now
        (map argument args.now))) }
{
    let role = channel_use(row.shape(), results, args);
    let vars = variables(names, results)?;
    let typed = typed_arguments(names, role, args)?;
    Ok(TypedStmt {
        line,
        rate: call_rate(row.shape(), results, args),
        what: TypedWhat::Call(vars, opcode, typed),
    })
}

fn give_all<'t>(names: &mut KnownNames<'t>, results: &'t [Name]) -> Result<(), OutOfMemory>
    ensures { OnOk result (known_of names.new
        ≡ known_in names.old.shared (all_given_in (known_of names.old).locals results.now)) }
{
    for name in results {
        names.scope.give(name.as_slice())?;
    }
    Ok(())
}

/// Checks a call, and returns its typed form; from then on its results and its channel are known.
pub fn call<'t>(
    setting: Setting,
    names: &mut KnownNames<'t>,
    line: u32,
    results: &'t [Name],
    callee: &Callee,
    args: &'t [Arg],
) -> Result<TypedStmt, Or<OrcFault>>
    ensures gives { GivesOne result
        (at line (call_fault_by setting names.old.shared (knows_in (known_of names.old)) callee.now results.now
        (map argument args.now)))
        (call_by line names.old.shared (variable_in (known_of names.old)) callee.now results.now
        (map argument args.now)) }
    ensures known { OnOk result (known_of names.new ≡ known_in
        (call_shared names.old.shared callee.now results.now (map argument args.now))
        (all_given_in (known_of names.old).locals results.now)) }
{
    let Callee::Opcode(opcode) = callee else {
        return Err(broken(line, OrcKind::UnknownOpcode));
    };
    let row = signature_of(*opcode);
    if let Some(kind) = row_fault(setting, names, &row, results, args) {
        return Err(broken(line, kind));
    }
    let made = typed_row(names, line, *opcode, &row, results, args)?;
    give_all(names, results)?;
    let role = channel_use(row.shape(), results, args);
    names.shared.use_channel(role, text_of(args))?;
    Ok(made)
}

/// Returns the fault for a broken rule on a line.
pub fn broken(line: u32, kind: OrcKind) -> Or<OrcFault>
    ensures { result ≡ or.Fault (record { line = line; kind = kind }) }
{
    Or::Fault(OrcFault { line, kind })
}
