// Values that are assigned to variables, and the registers that hold them already.
ghost use Rattle.std.specs.Prelude.{◌≡◌, IfOk};
ghost use Rattle.cs_typed.specs.TypedTree as typed;
ghost use Rattle.cs_typed.specs.WellRated.{node_rate};
ghost use Rattle.cs_code.specs.inner.Emitted.{value_of, when_of};
ghost use Rattle.cs_code.specs.inner.Spots.{local_of, direct};

use crate::frame::{Context, Pass, kept_reg, local};
use cs_base::{OutOfMemory, Rate};
use cs_ir::Reg;
use cs_typed::{TypedExpr, TypedPart, Var};

/// A value that is assigned to a variable.
#[derive(Clone, Copy)]
pub enum Value<'t> {
    /// An expression's value.
    Of(&'t TypedExpr),
    /// The value of a variable, read at a rate.
    Read(Rate, Var),
    /// The sum of an audio channel's value and an expression.
    Mixed(Var, &'t TypedExpr),
    /// The number 0.
    Zero,
}

/// The rate at which a value changes.
#[tactic(auto, using(crate::proofs::Nodes::rate_of_part))]
pub fn rate_of(value: &Value<'_>) -> Rate
    ensures { result ≡ node_rate (value_of value.now) }
{
    match value {
        Value::Of(e) => e.rate,
        Value::Read(rate, _) => *rate,
        Value::Mixed(_, _) => Rate::Audio,
        Value::Zero => Rate::Init,
    }
}

fn local_of(value: &Value<'_>) -> Result<Option<Reg>, OutOfMemory>
    ensures { IfOk result (λ q. q ≡ local_of (value_of value.now)) }
{
    match value {
        Value::Of(e) => local_in(e),
        Value::Read(_, Var::Local(rate, index)) => Ok(Some(local(*rate, *index)?)),
        _ => Ok(None),
    }
}

fn local_in(e: &TypedExpr) -> Result<Option<Reg>, OutOfMemory>
    ensures { IfOk result (λ q. q ≡ local_of (typed.expression e.now)) }
{
    match &e.what {
        TypedPart::Var(Var::Local(rate, index)) => Ok(Some(local(*rate, *index)?)),
        _ => Ok(None),
    }
}

/// The register that holds a value already, or None.
pub fn direct(context: Context, at: u32, value: &Value<'_>) -> Result<Option<Reg>, OutOfMemory>
    ensures { IfOk result (λ q. q ≡ direct (when_of context.pass) at (value_of value.now)) }
{
    match (context.pass, rate_of(value)) {
        (Pass::Performance, Rate::Init) => Ok(Some(kept_reg(at))),
        _ => local_of(value),
    }
}
