// The typed tree of an orchestra, which the layers above read instead of names and opcode names.
ghost use Rattle.std.specs.Prelude.{◌≡◌, IfOk};
ghost use Rattle.cs_typed.specs.TypedTree.{moved_variable};

use cs_base::{Head, Items, Names, Num, Numbers, OutOfMemory, PerRate, Rate, Res, Spaces};
use cs_words::{BinOp, Func, HeadName, Opcode};

/// A variable: a local one, with its rate and its number among the local variables of that rate; or a shared
/// one.
#[derive(Clone, Copy, PartialEq, Eq)]
pub enum Var {
    Local(Rate, usize),
    Global(Res),
}

impl Var {
    /// Returns this variable of a routine with its number in a body that has `base` other variables of each
    /// rate before it; a shared variable is unchanged. A number that doesn't fit is reported as out of
    /// memory; this never happens, since an expanded body has at most `MOST_STATEMENTS` statements.
    pub fn moved(self, base: PerRate<usize>) -> Result<Var, OutOfMemory>
        ensures { IfOk result (λ v. v ≡ moved_variable base self) }
    {
        match self {
            Var::Local(rate, number) => {
                let number = base.of(rate).checked_add(number).ok_or(OutOfMemory)?;
                Ok(Var::Local(rate, number))
            }
            Var::Global(_) => Ok(self),
        }
    }
}

/// Variables, in order.
pub type Vars = Items<Var>;

/// An expression, with the rate at which its value changes.
#[derive(Drop)]
#[cycle(expr)]
pub struct TypedExpr {
    pub rate: Rate,
    pub what: TypedPart,
}

/// The form of an expression.
#[derive(Drop)]
#[cycle(expr)]
pub enum TypedPart {
    Number(Num),
    Var(Var),
    /// `p1` to `p100`, with its number.
    Field(u32),
    Head(HeadName),
    Neg(Box<TypedExpr>),
    Pair(BinOp, Box<TypedExpr>, Box<TypedExpr>),
    /// A condition, the value if it is true, and the value if it is false.
    Pick(Box<TypedExpr>, Box<TypedExpr>, Box<TypedExpr>),
    Call(Func, Box<TypedExpr>),
}

/// An argument of a call: a value, or the channel that a text names. The text of `event_i` is left out.
#[derive(Drop)]
pub enum TypedArg {
    Value(TypedExpr),
    Text(Var),
}

/// The arguments of a call.
pub type TypedArgs = Vec<TypedArg>;

/// A statement, with the line of its first token and its rate: a statement of rate `Init` runs once, when the
/// note begins.
#[derive(Drop)]
#[cycle(stmt)]
pub struct TypedStmt {
    pub line: u32,
    pub rate: Rate,
    pub what: TypedWhat,
}

/// Statements, in order.
pub type TypedStmts = Vec<TypedStmt>;

/// The form of a statement.
#[derive(Drop)]
#[cycle(stmt)]
pub enum TypedWhat {
    Set(Var, TypedExpr),
    /// The results, the opcode, and the arguments.
    Call(Vars, Opcode, TypedArgs),
    /// The arms of `if` and `elseif`, and the statements after `else`.
    Choose(TypedArms, TypedStmts),
    /// The index of a routine, whose statements run with its local variables moved by these base numbers.
    Invoke(usize, PerRate<usize>),
}

/// A condition, and the statements that run if it is the first true one.
#[derive(Drop)]
#[cycle(stmt)]
pub struct TypedArm {
    pub cond: TypedExpr,
    pub body: Vec<TypedStmt>,
}

/// The arms of an `if`, in order.
pub type TypedArms = Vec<TypedArm>;

/// An instrument, with the line of its `instr` and its numbers.
#[derive(Drop)]
pub struct TypedInstr {
    pub line: u32,
    pub numbers: Numbers,
    pub body: TypedStmts,
}

/// The names of the shared variables, k-rate channels and audio channels, each list in the order of first
/// appearance.
#[derive(Drop)]
pub struct Globals {
    pub variables: PerRate<Names>,
    pub control: Names,
    pub sound: Names,
}

/// A typed orchestra.
#[derive(Drop)]
pub struct TypedOrc {
    pub head: Head,
    /// The numbers of places of the two zak spaces.
    pub spaces: Spaces,
    /// The statements outside instruments.
    pub zero: TypedStmts,
    pub instrs: Vec<TypedInstr>,
    /// The routines that statements invoke: one for each user-defined opcode that is called, with its local
    /// variables numbered from 0. A routine invokes only those before it.
    pub routines: Vec<TypedStmts>,
    pub globals: Globals,
}
