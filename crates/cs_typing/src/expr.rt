// Expressions: their rates, whether they are values or conditions, the variables that they read, and their
// typed form.
ghost use Rattle.std.specs.{Prelude.◌≡◌, Prelude.IfOk, Box.box_value};
ghost use Rattle.cs_grammar.specs.Tree.{expression};
ghost use Rattle.cs_typing.specs.Expressions.{rate_of, applied_rate, is_control_name, is_value, is_condition, reads_by};
ghost use Rattle.cs_typing.specs.{Expressions.expression_by, inner.Routines.knows_in, inner.Routines.variable_in};
ghost use Rattle.cs_typed.specs.TypedTree as typed;
ghost use Rattle.cs_typing.specs.inner.Held.{known_of};

use crate::known::KnownNames;
use cs_base::{OutOfMemory, Rate};
use cs_grammar::Expr;
use cs_typed::{TypedExpr, TypedPart};
use cs_words::{Func, name_rate};

/// Returns the rate of an expression: the rate of its fastest part.
pub fn rate_of(e: &Expr) -> Rate
    ensures { result ≡ rate_of (expression e.now) }
{
    match e {
        Expr::Number(_) | Expr::Field(_) | Expr::Head(_) => Rate::Init,
        Expr::Var(name) => name_rate(name.as_slice()),
        Expr::Neg(a) => rate_of(a),
        Expr::Pair(_, a, b) => rate_of(a).faster(rate_of(b)),
        Expr::Pick(c, a, b) => rate_of(c).faster(rate_of(a).faster(rate_of(b))),
        Expr::Call(Func::I, _) => Rate::Init,
        Expr::Call(_, a) => rate_of(a),
    }
}

fn is_control_name(e: &Expr) -> bool
    ensures { result ≡ is_control_name (expression e.now) }
{
    matches!(e, Expr::Var(name) if name_rate(name.as_slice()).is_control())
}

/// Whether an expression is a value, with values and conditions as operands wherever they are required.
#[cycle(kinds)]
pub fn is_value(e: &Expr) -> bool
    ensures { result ≡ is_value (expression e.now) }
{
    match e {
        Expr::Number(_) | Expr::Var(_) | Expr::Field(_) | Expr::Head(_) => true,
        Expr::Neg(a) => is_value(a),
        Expr::Pair(op, a, b) => op.is_arithmetic() && is_value(a) && is_value(b),
        Expr::Pick(c, a, b) => is_condition(c) && is_value(a) && is_value(b),
        Expr::Call(Func::I, a) => is_control_name(a),
        Expr::Call(Func::Cpspch, a) => is_value(a) && !rate_of(a).is_audio(),
        Expr::Call(_, a) => is_value(a),
    }
}

/// Whether an expression is a condition.
#[cycle(kinds)]
pub fn is_condition(e: &Expr) -> bool
    ensures { result ≡ is_condition (expression e.now) }
{
    match e {
        Expr::Pair(op, a, b) => {
            if op.is_logic() {
                is_condition(a) && is_condition(b)
            } else {
                !op.is_arithmetic()
                    && (is_value(a) && is_value(b) && !rate_of(a).faster(rate_of(b)).is_audio())
            }
        }
        _ => false,
    }
}

/// Whether every variable that the expression reads is known.
pub fn reads_known<'t>(names: &KnownNames<'t>, e: &Expr) -> bool
    ensures { result ≡ reads_by (knows_in (known_of names.now)) (expression e.now) }
{
    match e {
        Expr::Number(_) | Expr::Field(_) | Expr::Head(_) => true,
        Expr::Var(name) => names.knows(name.as_slice()),
        Expr::Neg(a) | Expr::Call(_, a) => reads_known(names, a),
        Expr::Pair(_, a, b) => { reads_known(names, a) && reads_known(names, b) }
        Expr::Pick(c, a, b) => {
            reads_known(names, c) && reads_known(names, a) && reads_known(names, b)
        }
    }
}

/// Returns the typed form of an expression, with the rate of each part.
#[cycle(typed)]
pub fn typed_expression<'t>(names: &KnownNames<'t>, e: &Expr) -> Result<TypedExpr, OutOfMemory>
    ensures form { IfOk result (λ made. typed.expression made
        ≡ expression_by (variable_in (known_of names.now)) (expression e.now)) }
    ensures rate { IfOk result (λ made. made.rate ≡ rate_of (expression e.now)) }
{
    let (rate, what) = match e {
        Expr::Number(value) => (Rate::Init, TypedPart::Number(*value)),
        Expr::Field(number) => (Rate::Init, TypedPart::Field(*number)),
        Expr::Head(name) => (Rate::Init, TypedPart::Head(*name)),
        Expr::Var(name) => {
            let name = name.as_slice();
            (name_rate(name), TypedPart::Var(names.variable(name)))
        }
        Expr::Neg(a) => {
            let a = boxed(names, a)?;
            (a.rate, TypedPart::Neg(a))
        }
        Expr::Pair(op, a, b) => {
            let a = boxed(names, a)?;
            let b = boxed(names, b)?;
            (a.rate.faster(b.rate), TypedPart::Pair(*op, a, b))
        }
        Expr::Pick(c, a, b) => {
            let c = boxed(names, c)?;
            let a = boxed(names, a)?;
            let b = boxed(names, b)?;
            (
                c.rate.faster(a.rate.faster(b.rate)),
                TypedPart::Pick(c, a, b),
            )
        }
        Expr::Call(func, a) => {
            let a = boxed(names, a)?;
            (applied_rate(*func, a.rate), TypedPart::Call(*func, a))
        }
    };
    Ok(TypedExpr { rate, what })
}

#[cycle(typed)]
fn boxed<'t>(names: &KnownNames<'t>, e: &Expr) -> Result<Box<TypedExpr>, OutOfMemory>
    ensures form { IfOk result (λ made. typed.expression (box_value made)
        ≡ expression_by (variable_in (known_of names.now)) (expression e.now)) }
    ensures rate { IfOk result (λ made. (box_value made).rate ≡ rate_of (expression e.now)) }
{
    let made = typed_expression(names, e)?;
    Ok(Box::new(names.alloc(), made)?)
}

fn applied_rate(func: Func, rate: Rate) -> Rate
    ensures { result ≡ applied_rate func rate }
{
    match func {
        Func::I => Rate::Init,
        _ => rate,
    }
}
