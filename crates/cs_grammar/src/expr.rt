// Expressions: levels of operators, and the operands between them.
ghost use Rattle.std.specs.Prelude.{◌≡◌, ◌≤◌, List, Ok, Some, None, IfSome, length, true};
ghost use Rattle.cs_base.specs.declared.fault.Or.TheVariants as or;
ghost use Rattle.cs_grammar.specs.declared.expr.Level.TheVariants as at;
ghost use Rattle.cs_grammar.specs.declared.expr.PartForm.TheVariants as part;
ghost use Rattle.cs_grammar.specs.Tree.{expression};
ghost use Rattle.cs_grammar.specs.Symbols.{Symbol};
ghost use Rattle.cs_grammar.specs.declared.symbol.Expected.TheVariants as expected;
ghost use Rattle.cs_grammar.specs.declared.symbol.Kind.TheVariants as kind;
ghost use Rattle.cs_grammar.specs.{Reading.next_is, Grammar.ReadsExpr, Grammar.ReadsTail};
ghost use Rattle.cs_grammar.specs.Parts.{one_symbol, atom, tighter, rank, is_at, repeats, operator_of, part_form};
ghost use Rattle.cs_grammar.specs.Parts.{part_form_of, no_part};
ghost use Rattle.cs_grammar.specs.inner.Answers.{Gives, IsClosed, in_box};
ghost use Rattle.cs_grammar.specs.Symbols.{next, after};

use crate::parser::Parser;
use crate::scope::Scope;
use crate::symbol::{Expected, Kind};
use crate::tree::Expr;
use cs_base::{Or, OrcFault, OrcKind};
use cs_words::{BinOp, Func, Sign, Word};

/// The precedence levels of an expression, the lowest first.
#[derive(Clone, Copy, PartialEq, Eq)]
pub enum Level {
    Expr,
    And,
    Cmp,
    Sum,
    Term,
    Fact,
}

impl Level {
    // The next lower precedence level, up to `last`.
    fn looser(self, last: Level) -> Option<Level>
        requires { rank self ≤ rank last }
        ensures next { IfSome result (λ l. (tighter l ≡ Some self) × (rank l ≤ rank last)) }
        ensures end { result ≡ None → self ≡ last }
    {
        if self == last {
            return None;
        }
        match self {
            Level::Expr => None,
            Level::And => Some(Level::Expr),
            Level::Cmp => Some(Level::And),
            Level::Sum => Some(Level::Cmp),
            Level::Term => Some(Level::Sum),
            Level::Fact => Some(Level::Term),
        }
    }

    fn has(self, op: BinOp) -> bool
        ensures { result ≡ is_at self op }
    {
        match op {
            BinOp::Or => matches!(self, Level::Expr),
            BinOp::And => matches!(self, Level::And),
            BinOp::Less
            | BinOp::Greater
            | BinOp::LessEqual
            | BinOp::GreaterEqual
            | BinOp::Equal
            | BinOp::NotEqual => matches!(self, Level::Cmp),
            BinOp::Add | BinOp::Sub => matches!(self, Level::Sum),
            BinOp::Mul | BinOp::Div | BinOp::Rem => matches!(self, Level::Term),
        }
    }

    // Whether several operators of the level may follow one another: a comparison may not be followed by
    // another one.
    fn repeats(self) -> bool
        ensures { result ≡ repeats self }
    {
        !matches!(self, Level::Cmp)
    }

    fn operator(self, kind: Kind) -> Option<BinOp>
        ensures { result ≡ operator_of self kind }
    {
        match kind {
            Kind::Sign(Sign::Operator(op)) if self.has(op) => Some(op),
            _ => None,
        }
    }
}

/// How an operand begins.
#[derive(Clone, Copy)]
pub enum PartForm {
    Minus,
    Bracket,
    Function(Func),
    Alone,
}

impl PartForm {
    fn of(kind: Kind, opens: bool) -> PartForm
        ensures { result ≡ part_form_of kind opens }
    {
        match kind {
            Kind::Sign(Sign::Operator(BinOp::Sub)) => PartForm::Minus,
            Kind::Sign(Sign::Open) => PartForm::Bracket,
            Kind::Word(Word::Func(func)) if opens => PartForm::Function(func),
            _ => PartForm::Alone,
        }
    }
}

impl<'s> Parser<'s> {
    fn part_form(&self) -> PartForm
        ensures { result ≡ part_form self.now }
    {
        PartForm::of(self.kind(), self.second_is(Expected::Open))
    }

    /// Returns the fault of a symbol that can't begin an operand.
    pub fn no_part(&self, scope: &Scope) -> Or<OrcFault>
        ensures { result ≡ or.Fault (no_part scope.now self.now) }
    {
        if self.kind().is_word() {
            self.misfit(scope, OrcKind::NotInProfile)
        } else {
            self.misfit(scope, OrcKind::Unexpected)
        }
    }

    fn atom(&mut self, scope: &Scope) -> Result<Expr, Or<OrcFault>>
        ensures reads { Gives expression result self.new (λ o. o ≡ atom scope.now self.old) }
        ensures goes { length self.new ≤ length self.old }
    {
        if self.kind().is_word() && self.second_is(Expected::Open) {
            return Err(self.no_part(scope));
        }
        let part = self.single(scope)?;
        self.skip();
        Ok(part)
    }

    // The next symbol as an expression of one symbol.
    fn single(&self, scope: &Scope) -> Result<Expr, Or<OrcFault>>
        ensures { Gives expression result (after self.now) (λ o. o ≡ one_symbol scope.now self.now) }
    {
        match self.kind() {
            Kind::Number(value) => Ok(Expr::Number(value)),
            Kind::Word(word) => self.word(scope, word),
            _ => Err(self.no_part(scope)),
        }
    }

    fn word(&self, scope: &Scope, word: Word) -> Result<Expr, Or<OrcFault>>
        requires { (next self.now).kind ≡ kind.Word word }
        ensures { Gives expression result (after self.now) (λ o. o ≡ one_symbol scope.now self.now) }
    {
        match word {
            Word::Field(number) => Ok(Expr::Field(number)),
            Word::Header(name) => Ok(Expr::Head(name)),
            Word::Name if !scope.is_defined(self.text()) => Ok(Expr::Var(self.name()?)),
            _ => Err(self.no_part(scope)),
        }
    }

    /// Reads an expression of a level: an operand, and then the operators of each level up to `level`, the
    /// tightest first. A bracket therefore needs the stack of only one call of `expr`, instead of one for
    /// each level.
    #[cycle(expr)]
    pub fn expr(&mut self, scope: &Scope, level: Level) -> Result<Expr, Or<OrcFault>>
        ensures reads { Gives expression result self.new (ReadsExpr scope.now level (Ok self.old)) }
        ensures goes { length self.new ≤ length self.old }
    {
        let mut value = self.fact(scope)?;
        let mut inner = Level::Fact;
        while let Some(outer) = inner.looser(level) {
            value = self.operators(scope, outer, inner, value)?;
            inner = outer;
        }
        Ok(value)
    }

    // Reads the operators of a level after their first operand, with their right sides; they group to the
    // left.
    #[cycle(expr)]
    fn operators(
        &mut self,
        scope: &Scope,
        level: Level,
        inner: Level,
        first: Expr,
    ) -> Result<Expr, Or<OrcFault>>
        requires { tighter level ≡ Some inner }
        ensures reads { Gives expression result self.new (ReadsTail scope.now level (Ok (expression first, self.old))) }
        ensures goes { length self.new ≤ length self.old }
    {
        let mut left = first;
        while let Some(op) = level.operator(self.kind()) {
            let operand = Box::new(self.alloc(), left)?;
            self.skip();
            let right = self.boxed(scope, inner)?;
            left = Expr::Pair(op, operand, right);
            if !level.repeats() {
                return Ok(left);
            }
        }
        Ok(left)
    }

    // Reads an expression of a level into a box, which an early return drops with one call.
    #[cycle(expr)]
    fn boxed(&mut self, scope: &Scope, level: Level) -> Result<Box<Expr>, Or<OrcFault>>
        ensures reads { Gives in_box result self.new (ReadsExpr scope.now level (Ok self.old)) }
        ensures goes { length self.new ≤ length self.old }
    {
        let value = self.expr(scope, level)?;
        Ok(Box::new(self.alloc(), value)?)
    }

    #[cycle(expr)]
    fn fact(&mut self, scope: &Scope) -> Result<Expr, Or<OrcFault>>
        ensures reads { Gives expression result self.new (ReadsExpr scope.now at.Fact (Ok self.old)) }
        ensures goes { length self.new ≤ length self.old }
    {
        match self.part_form() {
            PartForm::Minus => self.negation(scope),
            PartForm::Bracket => self.bracket(scope),
            PartForm::Function(func) => self.function(scope, func),
            PartForm::Alone => self.atom(scope),
        }
    }

    #[cycle(expr)]
    fn negation(&mut self, scope: &Scope) -> Result<Expr, Or<OrcFault>>
        requires { part_form self.old ≡ part.Minus }
        ensures reads { Gives expression result self.new (ReadsExpr scope.now at.Fact (Ok self.old)) }
        ensures goes { length self.new ≤ length self.old }
    {
        self.skip();
        let part = self.boxed(scope, Level::Fact)?;
        Ok(Expr::Neg(part))
    }

    #[cycle(expr)]
    fn function(&mut self, scope: &Scope, func: Func) -> Result<Expr, Or<OrcFault>>
        requires { part_form self.old ≡ part.Function func }
        ensures reads { Gives expression result self.new (ReadsExpr scope.now at.Fact (Ok self.old)) }
        ensures goes { length self.new ≤ length self.old }
    {
        self.skip();
        self.skip();
        let argument = self.closed(scope, Expected::Close)?;
        Ok(Expr::Call(func, argument))
    }

    // Reads an expression, and the symbol that must follow it.
    #[cycle(expr)]
    fn closed(&mut self, scope: &Scope, end: Expected) -> Result<Box<Expr>, Or<OrcFault>>
        ensures reads { Gives in_box result self.new (IsClosed scope.now end self.old) }
        ensures goes { length self.new ≤ length self.old }
    {
        let part = self.boxed(scope, Level::Expr)?;
        self.followed(scope, end, part)
    }

    // Reads an expression in brackets, or a choice with `?` and `:`.
    #[cycle(expr)]
    fn bracket(&mut self, scope: &Scope) -> Result<Expr, Or<OrcFault>>
        requires { part_form self.old ≡ part.Bracket }
        ensures reads { Gives expression result self.new (ReadsExpr scope.now at.Fact (Ok self.old)) }
        ensures goes { length self.new ≤ length self.old }
    {
        self.skip();
        let first = self.expr(scope, Level::Expr)?;
        if self.next_is(Expected::Question) {
            return self.choice(scope, first);
        }
        self.followed(scope, Expected::Close, first)
    }

    // Reads the rest of a choice, after its condition.
    #[cycle(expr)]
    fn choice(&mut self, scope: &Scope, cond: Expr) -> Result<Expr, Or<OrcFault>>
        requires { next_is expected.Question self.old ≡ true }
        ensures reads { Gives expression result self.new (λ o. (ts : List Symbol) → part_form ts ≡ part.Bracket
            → ReadsExpr scope.now at.Expr (Ok (after ts)) (Ok (expression cond, self.old))
            → ReadsExpr scope.now at.Fact (Ok ts) o) }
        ensures goes { length self.new ≤ length self.old }
    {
        let cond = Box::new(self.alloc(), cond)?;
        self.skip();
        let yes = self.closed(scope, Expected::Colon)?;
        let no = self.closed(scope, Expected::Close)?;
        Ok(Expr::Pick(cond, yes, no))
    }
}
