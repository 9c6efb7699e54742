// Statements: checked in the order of the text, and converted to their typed form. A user-defined opcode is
// typed at its first call.
ghost use Rattle.std.specs.Prelude.{◌≡◌, ◌<◌, List, OnOk, Some, length, map, slice_get};
ghost use Rattle.cs_grammar.specs.Tree as tree;
ghost use Rattle.cs_grammar.specs.declared.tree.Callee.{Callee};
ghost use Rattle.cs_typing.specs.{Expressions.expression_by, Settings.at};
ghost use Rattle.cs_typing.specs.Statements.{condition_fault_by, choice_rate};
ghost use Rattle.cs_typed.specs.TypedTree as typed;
ghost use Rattle.cs_typing.specs.{inner.Answers.Gives, inner.Answers.Judged, inner.Held.known_of, inner.Held.locals_of};
ghost use Rattle.cs_typing.specs.inner.Listed.{AddsOver, GivesArm, GivesBlock, GivesChoice, IsAhead};
ghost use Rattle.cs_typing.specs.inner.Listed.{IsListed, IsSound, routine_here, routines_at};
ghost use Rattle.cs_typing.specs.inner.Routines.{all_given_in, call_fault_in, call_in, locals_after_call, fault_in};
ghost use Rattle.cs_typing.specs.inner.Routines.{block_fault_in, known_after, known_after_arms, known_after_block};
ghost use Rattle.cs_typing.specs.inner.Routines.{knows_in, known_in, no_locals, past_call, typed_in, typed_block_in};
ghost use Rattle.cs_typing.specs.{inner.Routines.variable_in, inner.Slots.taken_fault, inner.Slots.taken_set};
ghost use Rattle.cs_udo.specs.Library.{definitions_of};

use crate::assign::set_name;
use crate::call::{broken, call};
use crate::expr::{is_condition, rate_of, reads_known, typed_expression};
use crate::invoke::{Invocation, give_inputs, give_results, give_slots, inputs_of};
use crate::known::{KnownNames, Scope};
use crate::routines::{Site, SoFar, TypedDefinition};
use cs_base::{Or, OrcFault, OrcKind, PerRate, Rate};
use cs_grammar::{Arm, Expr, OrcStmt, StmtWhat, Udo};
use cs_typed::{Setting, TypedArm, TypedExpr, TypedStmt, TypedStmts, TypedWhat};

// The rate of an `if`: it runs once if all its conditions are known when the note begins.
fn choice_rate(list: &[Arm]) -> Rate
    ensures { (els : tree.Block) → result ≡ choice_rate (tree.arms els list.now) }
{
    for arm in list {
        if !rate_of(&arm.cond).is_init() {
            return Rate::Control;
        }
    }
    Rate::Init
}

fn condition<'t>(
    setting: Setting,
    names: &KnownNames<'t>,
    line: u32,
    e: &Expr,
) -> Result<TypedExpr, Or<OrcFault>>
    ensures { Gives typed.expression result
        (at line (condition_fault_by setting (knows_in (known_of names.now)) (tree.expression e.now)))
        (expression_by (variable_in (known_of names.now)) (tree.expression e.now)) }
{
    if !reads_known(names, e) {
        return Err(broken(line, OrcKind::Undefined));
    }
    if !(is_condition(e) && (setting.inside || rate_of(e).is_init())) {
        return Err(broken(line, OrcKind::RateMismatch));
    }
    Ok(typed_expression(names, e)?)
}

// Checks a statement, and adds its typed form; from then on the variables that it assigns are known.
#[cycle(typing)]
fn stmt<'t>(
    site: &Site<'_, 't>,
    so_far: &mut SoFar<'t>,
    done: &mut TypedStmts,
    s: &'t OrcStmt,
) -> Result<(), Or<OrcFault>>
    requires sound { IsSound site.now so_far.old }
    ensures fault { Judged result (fault_in site.now.setting (routines_at site.now) (known_of so_far.old.names)
        (tree.statement s.now)) }
    ensures made { OnOk result (AddsOver so_far.new.routines done.old.items done.new.items
        (typed_in (routines_at site.now) (known_of so_far.old.names) (tree.statement s.now))) }
    ensures known { OnOk result (known_of so_far.new.names
        ≡ known_after (routines_at site.now) (known_of so_far.old.names) (tree.statement s.now)) }
    ensures ahead { OnOk result (IsAhead site.now so_far.old so_far.new) }
{
    match &s.what {
        StmtWhat::Set(name, e) => {
            let names = &mut so_far.names;
            set_name(site.setting, names, done, s.line, name.as_slice(), e)
        }
        StmtWhat::Call(results, callee, args) => {
            let results = results.as_slice();
            match site.library.find(site.visible, callee) {
                None => {
                    let names = &mut so_far.names;
                    let made = call(site.setting, names, s.line, results, callee, args)?;
                    done.push(made)?;
                    Ok(())
                }
                Some(found) => {
                    let it = Invocation {
                        line: s.line,
                        results,
                        args,
                        definition: found.definition,
                        base: so_far.names.scope.counts(),
                    };
                    invoke(site, so_far, done, &it, found.place)
                }
            }
        }
        StmtWhat::Choose(list, els) => {
            let made = choice(site, so_far, s.line, list, els)?;
            done.push(made)?;
            Ok(())
        }
    }
}

// Checks an `if` on line `line`, and returns its typed form.
#[cycle(typing)]
fn choice<'t>(
    site: &Site<'_, 't>,
    so_far: &mut SoFar<'t>,
    line: u32,
    list: &'t [Arm],
    els: &'t [OrcStmt],
) -> Result<TypedStmt, Or<OrcFault>>
    requires sound { IsSound site.now so_far.old }
    ensures gives { GivesChoice so_far.new.routines result site.now.setting (routines_at site.now)
        (known_of so_far.old.names) line (tree.arms (tree.block els.now) list.now) }
    ensures known { OnOk result (known_of so_far.new.names ≡ known_after_arms (routines_at site.now)
        (known_of so_far.old.names) (tree.arms (tree.block els.now) list.now)) }
    ensures ahead { OnOk result (IsAhead site.now so_far.old so_far.new) }
{
    let mut typed = Vec::new(so_far.names.alloc());
    for a in list {
        typed.push(arm(site, so_far, line, a)?)?;
    }
    let typed_els = block(site, so_far, els)?;
    Ok(TypedStmt {
        line,
        rate: choice_rate(list),
        what: TypedWhat::Choose(typed, typed_els),
    })
}

// Checks a call of the definition at index `place`, and adds its typed form: assignments to the inputs, an
// invocation of the routine, and assignments of the results.
#[cycle(typing)]
fn invoke<'t>(
    site: &Site<'_, 't>,
    so_far: &mut SoFar<'t>,
    done: &mut TypedStmts,
    it: &Invocation<'t>,
    place: usize,
) -> Result<(), Or<OrcFault>>
    requires sound { IsSound site.now so_far.old }
    requires base { it.now.base ≡ (known_of so_far.old.names).locals.counts }
    requires front { place < site.now.visible }
    requires here { slice_get (definitions_of site.now.library.now) place
        ≡ Some (tree.definition it.now.definition.now) }
    ensures fault { let r = routine_here site.now place (tree.definition it.now.definition.now) in
        (c : Callee) → Judged result (call_fault_in site.now.setting (known_of so_far.old.names) it.now.line
        it.now.results.now c
        (map tree.argument it.now.args.now) (Some r)) }
    ensures made { let r = routine_here site.now place (tree.definition it.now.definition.now) in
        OnOk result ((c : Callee) → AddsOver so_far.new.routines done.old.items done.new.items
        (call_in (known_of so_far.old.names) it.now.line it.now.results.now c (map tree.argument it.now.args.now)
        (Some r))) }
    ensures known { let r = routine_here site.now place (tree.definition it.now.definition.now) in
        OnOk result (known_of so_far.new.names ≡ known_in (r.shared so_far.old.names.shared)
        (locals_after_call (known_of so_far.old.names).locals it.now.results.now (Some r))) }
    ensures ahead { OnOk result (IsAhead site.now so_far.old so_far.new) }
{
    let inputs = inputs_of(&so_far.names, it.definition)?;
    give_inputs(site.setting, &so_far.names, done, it, &inputs)?;
    typed_routine(site, so_far, it.definition, inputs, place)?;
    let SoFar { names, routines } = so_far;
    match routines.of(place) {
        None => Ok(()),
        Some(found) => give_routine(site.setting, names, done, it, found),
    }
}

// Adds the invocation of a typed definition's routine, and the assignments of its results.
fn give_routine<'t>(
    setting: Setting,
    names: &mut KnownNames<'t>,
    done: &mut TypedStmts,
    it: &Invocation<'t>,
    found: &TypedDefinition,
) -> Result<(), Or<OrcFault>>
    requires { length found.now.slots.items ≡ length it.now.definition.now.outs }
    ensures fault { Judged result (taken_fault setting it.now.line it.now.results.now it.now.definition.now.outs) }
    ensures made { OnOk result ((rs : List typed.Block) → typed.block rs done.new.items
        ≡ typed.then_block (typed.block rs done.old.items) (typed.then_block
        (typed.moved_block it.now.base (typed.routine_at rs found.now.routine))
        (taken_set (known_in names.old.shared (past_call (known_of names.old).locals found.now.locals))
        it.now.base it.now.line it.now.results.now it.now.definition.now.outs found.now.slots.items))) }
    ensures known { OnOk result (known_of names.new ≡ known_in names.old.shared
        (all_given_in (past_call (known_of names.old).locals found.now.locals) it.now.results.now)) }
{
    done.push(invocation(it.line, found.routine, it.base))?;
    names.scope.take(found.locals)?;
    give_results(setting, names, done, it, &found.slots)
}

fn invocation(line: u32, routine: usize, base: PerRate<usize>) -> TypedStmt
    ensures { (rs : List typed.Block) → typed.statement rs result
        ≡ typed.moved_block base (typed.routine_at rs routine) }
{
    TypedStmt {
        line,
        rate: Rate::Init,
        what: TypedWhat::Invoke(routine, base),
    }
}

// Types the definition at index `place`, unless it has been typed.
#[cycle(typing)]
fn typed_routine<'t>(
    site: &Site<'_, 't>,
    so_far: &mut SoFar<'t>,
    definition: &'t Udo,
    inputs: Scope<'t>,
    place: usize,
) -> Result<(), Or<OrcFault>>
    requires sound { IsSound site.now so_far.old }
    requires inputs { locals_of inputs ≡ all_given_in no_locals definition.now.names }
    requires front { place < site.now.visible }
    requires here { slice_get (definitions_of site.now.library.now) place ≡ Some (tree.definition definition.now) }
    ensures fault { let r = routine_here site.now place (tree.definition definition.now) in
        Judged result (r.fault site.now.setting so_far.old.names.shared) }
    ensures listed { let r = routine_here site.now place (tree.definition definition.now) in
        OnOk result (IsListed so_far.new.routines place r so_far.old.names.shared) }
    ensures known { let r = routine_here site.now place (tree.definition definition.now) in
        OnOk result (known_of so_far.new.names
        ≡ known_in (r.shared so_far.old.names.shared) (known_of so_far.old.names).locals) }
    ensures ahead { OnOk result (IsAhead site.now so_far.old so_far.new) }
{
    if so_far.routines.of(place).is_some() {
        return Ok(());
    }
    let mut around = inputs;
    so_far.names.exchange(&mut around);
    let inner = Site {
        setting: site.setting,
        library: site.library,
        visible: place,
    };
    let mut body = block(&inner, so_far, &definition.body)?;
    let slots = give_slots(site.setting, &mut so_far.names, &mut body, definition)?;
    so_far.names.exchange(&mut around);
    Ok(so_far.routines.add(place, around.counts(), slots, body)?)
}

/// Checks statements, and returns their typed forms.
#[cycle(typing)]
pub fn block<'t>(
    site: &Site<'_, 't>,
    so_far: &mut SoFar<'t>,
    stmts: &'t [OrcStmt],
) -> Result<TypedStmts, Or<OrcFault>>
    requires sound { IsSound site.now so_far.old }
    ensures gives { GivesBlock so_far.new.routines result
        (block_fault_in site.now.setting (routines_at site.now) (known_of so_far.old.names) (tree.block stmts.now))
        (typed_block_in (routines_at site.now) (known_of so_far.old.names) (tree.block stmts.now)) }
    ensures known { OnOk result (known_of so_far.new.names
        ≡ known_after_block (routines_at site.now) (known_of so_far.old.names) (tree.block stmts.now)) }
    ensures ahead { OnOk result (IsAhead site.now so_far.old so_far.new) }
{
    let mut done = Vec::new(so_far.names.alloc());
    for s in stmts {
        stmt(site, so_far, &mut done, s)?;
    }
    Ok(done)
}

// Checks an arm of an `if` on line `line`, and returns its typed form.
#[cycle(typing)]
fn arm<'t>(
    site: &Site<'_, 't>,
    so_far: &mut SoFar<'t>,
    line: u32,
    a: &'t Arm,
) -> Result<TypedArm, Or<OrcFault>>
    requires sound { IsSound site.now so_far.old }
    ensures gives { GivesArm so_far.new.routines site.now.setting (routines_at site.now)
        (known_of so_far.old.names) line a.now result (known_of so_far.new.names) }
    ensures ahead { OnOk result (IsAhead site.now so_far.old so_far.new) }
{
    let cond = condition(site.setting, &so_far.names, line, &a.cond)?;
    let body = block(site, so_far, &a.body)?;
    Ok(TypedArm { cond, body })
}
