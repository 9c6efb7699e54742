// Assignments: the values that a variable may be assigned, and the typed form.
ghost use Rattle.std.specs.Prelude.{ℕ, ◌≡◌, List, OnOk};
ghost use Rattle.cs_words.specs.Names.{name_rate};
ghost use Rattle.cs_grammar.specs.Tree as tree;
ghost use Rattle.cs_typing.specs.{Expressions.expression_by, Settings.at, Statements.may_set, Statements.set_fault_by};
ghost use Rattle.cs_typed.specs.TypedTree as typed;
ghost use Rattle.cs_typing.specs.{inner.Answers.Judged, inner.Held.known_of, inner.Listed.Adds};
ghost use Rattle.cs_typing.specs.inner.Routines.{given_in, known_in, knows_in, variable_in};

use crate::call::broken;
use crate::expr::{is_value, rate_of, reads_known, typed_expression};
use crate::known::KnownNames;
use cs_base::{Or, OrcFault, OrcKind, Rate};
use cs_grammar::Expr;
use cs_typed::{Setting, TypedStmt, TypedStmts, TypedWhat, Var};
use cs_words::name_rate;

fn may_set(setting: Setting, rate: Rate, e: &Expr) -> bool
    ensures { (x : List ℕ) → name_rate x ≡ rate → result ≡ may_set setting x (tree.expression e.now) }
{
    is_value(e) && rate_of(e).within(rate) && (setting.inside || rate.is_init())
}

/// A variable, and its rate.
#[derive(Clone, Copy)]
pub struct Target {
    pub rate: Rate,
    pub var: Var,
}

/// Checks an assignment to a variable, and adds its typed form.
pub fn set<'t>(
    setting: Setting,
    names: &KnownNames<'t>,
    done: &mut TypedStmts,
    line: u32,
    to: Target,
    e: &Expr,
) -> Result<(), Or<OrcFault>>
    ensures fault { (x : List ℕ) → name_rate x ≡ to.rate → Judged result
        (at line (set_fault_by setting (knows_in (known_of names.now)) x (tree.expression e.now))) }
    ensures made { OnOk result (Adds done.old.items done.new.items (typed.alone
        (typed.set line to.rate to.var (expression_by (variable_in (known_of names.now)) (tree.expression e.now))))) }
{
    if !reads_known(names, e) {
        return Err(broken(line, OrcKind::Undefined));
    }
    if !may_set(setting, to.rate, e) {
        return Err(broken(line, OrcKind::RateMismatch));
    }
    let value = typed_expression(names, e)?;
    done.push(TypedStmt {
        line,
        rate: to.rate,
        what: TypedWhat::Set(to.var, value),
    })?;
    Ok(())
}

/// Checks `name = e` and adds its typed form; from then on the name is known.
pub fn set_name<'t>(
    setting: Setting,
    names: &mut KnownNames<'t>,
    done: &mut TypedStmts,
    line: u32,
    name: &'t [u8],
    e: &Expr,
) -> Result<(), Or<OrcFault>>
    ensures fault { Judged result
        (at line (set_fault_by setting (knows_in (known_of names.old)) name.now (tree.expression e.now))) }
    ensures made { OnOk result (Adds done.old.items done.new.items (typed.alone
        (typed.set line (name_rate name.now) (variable_in (known_of names.old) name.now)
        (expression_by (variable_in (known_of names.old)) (tree.expression e.now))))) }
    ensures known { OnOk result (known_of names.new
        ≡ known_in names.old.shared (given_in (known_of names.old).locals name.now)) }
{
    let to = Target {
        rate: name_rate(name),
        var: names.variable(name),
    };
    set(setting, names, done, line, to, e)?;
    names.scope.give(name)?;
    Ok(())
}
