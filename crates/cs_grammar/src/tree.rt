// The tree of an orchestra, which the layers above read instead of tokens.
use cs_base::{Name, Names, Num, Numbers, Rates};
use cs_words::{BinOp, Func, HeadName, Opcode};

/// An expression. Brackets leave no trace: `(1)` is the number 1.
#[derive(Drop)]
pub enum Expr {
    /// A literal without a sign.
    Number(Num),
    Var(Name),
    /// `p1` to `p100`, with its number.
    Field(u32),
    Head(HeadName),
    Neg(Box<Expr>),
    Pair(BinOp, Box<Expr>, Box<Expr>),
    /// A condition, the value if it is true, and the value if it is false.
    Pick(Box<Expr>, Box<Expr>, Box<Expr>),
    Call(Func, Box<Expr>),
}

/// An argument of a call.
#[derive(Drop)]
pub enum Arg {
    Value(Expr),
    /// A quoted text, without its quotation marks.
    Text(Name),
}

/// The arguments of a call.
pub type Args = Vec<Arg>;

/// The opcode that a statement calls.
#[derive(Drop)]
pub enum Callee {
    /// An opcode of the catalogue.
    Opcode(Opcode),
    /// Any other name, whether or not it is the name of a user-defined opcode.
    Name(Name),
}

/// A statement, with the line of its first token.
#[derive(Drop)]
#[cycle(stmt)]
pub struct OrcStmt {
    pub line: u32,
    pub what: StmtWhat,
}

/// Statements, in order.
pub type Stmts = Vec<OrcStmt>;

/// The form of a statement.
#[derive(Drop)]
#[cycle(stmt)]
pub enum StmtWhat {
    /// `name = expression`; `name += expression` is read as `name = name + expression`.
    Set(Name, Expr),
    /// The variables that receive the results, the called opcode, and the arguments.
    Call(Names, Callee, Args),
    /// The arms of `if` and `elseif`, and the statements after `else`.
    Choose(Arms, Stmts),
}

/// A condition, and the statements that run if it is the first true one.
#[derive(Drop)]
#[cycle(stmt)]
pub struct Arm {
    pub cond: Expr,
    pub body: Vec<OrcStmt>,
}

/// The arms of an `if`, in order.
pub type Arms = Vec<Arm>;

/// A header line, such as `sr = 48000`.
#[derive(Clone, Copy)]
pub struct HeadLine {
    pub line: u32,
    pub name: HeadName,
    pub value: Num,
}

/// An instrument, with the line of its `instr`.
#[derive(Drop)]
pub struct Instr {
    pub line: u32,
    /// Numbers from 1 to 32,767, which no other instrument has.
    pub numbers: Numbers,
    pub body: Stmts,
}

/// A user-defined opcode, with the line of its `opcode`.
#[derive(Drop)]
pub struct Udo {
    pub line: u32,
    pub name: Name,
    /// The rates of the results.
    pub outs: Rates,
    /// The rates of the inputs.
    pub ins: Rates,
    /// The local variables that receive the inputs.
    pub names: Names,
    pub body: Stmts,
    /// The values of `xout`: one for each result.
    pub result: Args,
}

/// An orchestra: its header lines, user-defined opcodes, statements outside both, and instruments, each in
/// the order of the text.
#[derive(Drop)]
pub struct Orc {
    pub head: Vec<HeadLine>,
    pub opcodes: Vec<Udo>,
    pub zero: Stmts,
    pub instrs: Vec<Instr>,
}
