// The assignments around the routine of a call: arguments to inputs, the values of `xout` to slots, and the
// slots to the caller's variables.
ghost use Rattle.std.specs.Prelude.{◌≡◌, ◌+◌, IfOk, OnOk, length, map};
ghost use Rattle.cs_base.specs.Rates.{at_rate};
ghost use Rattle.cs_grammar.specs.Tree as tree;
ghost use Rattle.cs_typed.specs.TypedTree as typed;
ghost use Rattle.cs_typed.specs.declared.tree.Var.TheVariants.{Local};
ghost use Rattle.cs_typing.specs.inner.Answers.{Judged};
ghost use Rattle.cs_typing.specs.{inner.Listed.Adds, inner.Routines.variable_in, Expressions.expression_by};
ghost use Rattle.cs_typing.specs.{Settings.at, Statements.set_fault_by, inner.Held.known_of, inner.Held.locals_of};
ghost use Rattle.cs_typing.specs.inner.Routines.{all_given_in, inputs_fault, known_in, no_locals, knows_in};
ghost use Rattle.cs_typing.specs.inner.Slots.{given_set, slot_numbers, slots_fault, slots_past, slots_set, taken_fault};
ghost use Rattle.cs_typing.specs.inner.Slots.{one_counted, taken_kind, taken_set};
ghost use Rattle.cs_udo.specs.Names.{slot};
ghost use Rattle.cs_words.specs.Names.{name_rate};

use crate::assign::{Target, set};
use crate::call::broken;
use crate::known::{KnownNames, Scope};
use cs_base::{Name, Or, OrcFault, OrcKind, OutOfMemory, PerRate, Rate};
use cs_grammar::{Arg, Expr, Udo};
use cs_typed::{Setting, TypedExpr, TypedPart, TypedStmt, TypedStmts, TypedWhat, Var};
use cs_words::name_rate;

/// A call of a user-defined opcode.
#[derive(Clone, Copy)]
pub struct Invocation<'t> {
    pub line: u32,
    pub results: &'t [Name],
    pub args: &'t [Arg],
    pub definition: &'t Udo,
    /// The number of variables of each rate that the caller has used so far.
    pub base: PerRate<usize>,
}

/// Returns the local variables of a definition after its inputs have been assigned.
pub fn inputs_of<'t>(names: &KnownNames<'t>, definition: &'t Udo) -> Result<Scope<'t>, OutOfMemory>
    ensures { IfOk result (λ l. locals_of l ≡ all_given_in no_locals definition.now.names) }
{
    let mut made = Scope::new(names.alloc());
    for name in definition.names.as_slice() {
        made.give(name.as_slice())?;
    }
    Ok(made)
}

// A variable of the routine with its number in the caller.
fn moved(base: PerRate<usize>, rate: Rate, number: usize) -> Result<Target, OutOfMemory>
    ensures rate { IfOk result (λ t. t.rate ≡ rate) }
    ensures var { IfOk result (λ t. t.var ≡ Local rate (at_rate base rate + number)) }
{
    Ok(Target {
        rate,
        var: Var::Local(rate, number).moved(base)?,
    })
}

/// Checks that the arguments can be assigned to the inputs, and adds the assignments.
pub fn give_inputs<'t>(
    setting: Setting,
    names: &KnownNames<'t>,
    done: &mut TypedStmts,
    it: &Invocation<'t>,
    inputs: &Scope<'t>,
) -> Result<(), Or<OrcFault>>
    requires { it.now.base ≡ (known_of names.now).locals.counts }
    ensures fault { Judged result (inputs_fault setting (known_of names.now) it.now.line it.now.definition.now.names
        (map tree.argument it.now.args.now)) }
    ensures made { OnOk result (Adds done.old.items done.new.items (given_set (known_of names.now)
        (locals_of inputs.now) it.now.line it.now.definition.now.names (map tree.argument it.now.args.now))) }
{
    let list = it.definition.names.as_slice();
    for i in 0..list.len().min(it.args.len()) {
        match &it.args[i] {
            Arg::Text(_) => return Ok(()),
            Arg::Value(e) => {
                let name = list[i].as_slice();
                let to = moved(it.base, name_rate(name), inputs.number(name))?;
                set(setting, names, done, it.line, to, e)?;
            }
        }
    }
    Ok(())
}

/// Checks that the values of `xout` can be assigned to the slots of the results, and adds the assignments;
/// returns the slots' numbers.
pub fn give_slots<'t>(
    setting: Setting,
    names: &mut KnownNames<'t>,
    done: &mut TypedStmts,
    definition: &'t Udo,
) -> Result<Vec<usize>, Or<OrcFault>>
    ensures fault { Judged result (slots_fault setting (known_of names.old) definition.now.line definition.now.outs
        (map tree.argument definition.now.result.items)) }
    ensures made { OnOk result (Adds done.old.items done.new.items (slots_set (known_of names.old) definition.now.line
        definition.now.outs (map tree.argument definition.now.result.items))) }
    ensures known { OnOk result (known_of names.new
        ≡ known_in names.old.shared (slots_past (known_of names.old).locals definition.now.outs
        (map tree.argument definition.now.result.items))) }
    ensures numbers { IfOk result (λ v. v.items ≡ slot_numbers (known_of names.old).locals.counts definition.now.outs
        (map tree.argument definition.now.result.items)) }
{
    let mut slots = Vec::new(names.alloc());
    let rates = definition.outs.as_slice();
    for i in 0..rates.len().min(definition.result.len()) {
        match &definition.result[i] {
            Arg::Text(_) => return Ok(slots),
            Arg::Value(e) => {
                let number = give_slot(setting, names, done, definition.line, rates[i], e)?;
                slots.push(number)?;
            }
        }
    }
    Ok(slots)
}

fn give_slot<'t>(
    setting: Setting,
    names: &mut KnownNames<'t>,
    done: &mut TypedStmts,
    line: u32,
    rate: Rate,
    e: &Expr,
) -> Result<usize, Or<OrcFault>>
    ensures fault { Judged result (at line (set_fault_by setting (knows_in (known_of names.old)) (slot 0 rate)
        (tree.expression e.now))) }
    ensures made { OnOk result (Adds done.old.items done.new.items (typed.alone (typed.set line rate
        (Local rate (at_rate (known_of names.old).locals.counts rate))
        (expression_by (variable_in (known_of names.old)) (tree.expression e.now))))) }
    ensures known { OnOk result (known_of names.new
        ≡ known_in names.old.shared (one_counted (known_of names.old).locals rate)) }
    ensures number { IfOk result (λ n. n ≡ at_rate (known_of names.old).locals.counts rate) }
{
    let number = names.scope.counts().of(rate);
    let to = Target {
        rate,
        var: Var::Local(rate, number),
    };
    set(setting, names, done, line, to, e)?;
    names.scope.take_one(rate)?;
    Ok(number)
}

/// Checks that the results in the slots with these numbers can be assigned to variables of the caller, and
/// adds the assignments; from then on these variables are known.
pub fn give_results<'t>(
    setting: Setting,
    names: &mut KnownNames<'t>,
    done: &mut TypedStmts,
    it: &Invocation<'t>,
    slots: &[usize],
) -> Result<(), Or<OrcFault>>
    requires { length slots.now ≡ length it.now.definition.now.outs }
    ensures fault { Judged result (taken_fault setting it.now.line it.now.results.now it.now.definition.now.outs) }
    ensures made { OnOk result (Adds done.old.items done.new.items (taken_set (known_of names.old)
        it.now.base it.now.line it.now.results.now it.now.definition.now.outs slots.now)) }
    ensures known { OnOk result ((known_of names.new)
        ≡ known_in names.old.shared (all_given_in (known_of names.old).locals it.now.results.now)) }
{
    let rates = it.definition.outs.as_slice();
    for i in 0..it.results.len() {
        let name = it.results[i].as_slice();
        if i < rates.len() {
            let from = moved(it.base, rates[i], slots[i])?;
            take(setting, names, done, it.line, name, from)?;
        }
        names.scope.give(name)?;
    }
    Ok(())
}

// Assigns one variable to another, `name`: checks it, and adds the assignment.
fn take<'t>(
    setting: Setting,
    names: &KnownNames<'t>,
    done: &mut TypedStmts,
    line: u32,
    name: &'t [u8],
    from: Target,
) -> Result<(), Or<OrcFault>>
    ensures fault { Judged result (at line (taken_kind setting name.now from.rate)) }
    ensures made { OnOk result (Adds done.old.items done.new.items (typed.alone
        (typed.set line (name_rate name.now) (variable_in (known_of names.now) name.now)
        (typed.var from.rate from.var)))) }
{
    let rate = name_rate(name);
    if !(from.rate.within(rate) && (setting.inside || rate.is_init())) {
        return Err(broken(line, OrcKind::RateMismatch));
    }
    let value = TypedExpr {
        rate: from.rate,
        what: TypedPart::Var(from.var),
    };
    done.push(TypedStmt {
        line,
        rate,
        what: TypedWhat::Set(names.variable(name), value),
    })?;
    Ok(())
}
