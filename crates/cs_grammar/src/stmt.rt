// Statements, including the statements in an `if`.
ghost use Rattle.std.specs.Prelude.{◌≡◌, ◌≢◌, ◌≤◌, ◌<◌, ℕ, Ok, IfOk, IfErr, length, false, nat_lt, if◌then◌else◌};
ghost use Rattle.cs_base.specs.Limits.{most_nested_ifs};
ghost use Rattle.cs_base.specs.declared.fault.Or.TheVariants as or;
ghost use Rattle.cs_words.specs.declared.sign.BinOp.TheVariants as op;
ghost use Rattle.cs_grammar.specs.declared.stmt.LineForm.TheVariants as form;
ghost use Rattle.cs_grammar.specs.declared.tree.Arm.{out-Arm};
ghost use Rattle.cs_grammar.specs.{Reading.next_is, Lines.word_form, Lines.line_form};
ghost use Rattle.cs_grammar.specs.Tree.{var, pair, expression, of_what, statement, block, arms, otherwise};
ghost use Rattle.cs_grammar.specs.inner.Answers.{Gives, GivesLine, IsArm, IsCondition};
ghost use Rattle.cs_grammar.specs.Grammar.{assign, ends_block, ReadsStmt, ReadsBlock, ReadsArms, ReadsMore};
ghost use Rattle.cs_grammar.specs.declared.symbol.Expected.TheVariants as expected;
ghost use Rattle.cs_grammar.specs.Symbols.{next};

use crate::expr::Level;
use crate::parser::Parser;
use crate::scope::{Place, Scope};
use crate::symbol::{Expected, Kind};
use crate::tree::{Arm, Arms, Expr, OrcStmt, StmtWhat, Stmts};
use cs_base::{Items, MOST_NESTED_IFS, Name, Names, Or, OrcFault, OrcKind};
use cs_words::{BinOp, Keyword, Sign, Word};

/// The form of a line, determined by its first word and the symbol after it.
#[derive(Clone, Copy)]
pub enum LineForm {
    /// `name = ..` or `name += ..`
    Assignment,
    /// Results, followed by an opcode.
    Results,
    /// An opcode without results.
    Bare,
    /// `if`
    Conditional,
    /// A label, or an `if` inside `MOST_NESTED_IFS` others.
    Beyond,
    /// A symbol that can't begin a statement.
    Misplaced,
}

impl LineForm {
    // The form of a line that begins with `if`.
    fn of_if(scope: &Scope) -> LineForm
        ensures form { result ≡ (if nat_lt scope.now.depth most_nested_ifs then form.Conditional else form.Beyond) }
        ensures shallow { result ≡ form.Conditional → scope.now.depth < most_nested_ifs }
    {
        if (scope.depth() as usize) < MOST_NESTED_IFS {
            LineForm::Conditional
        } else {
            LineForm::Beyond
        }
    }

    // The form of a line that begins with a word, determined by the symbol after it and by whether the word
    // is an opcode.
    fn of_word(second: Kind, opcode: bool) -> LineForm
        ensures form { result ≡ word_form second opcode }
        ensures other { result ≢ form.Conditional }
    {
        match second {
            Kind::Sign(Sign::Colon) => LineForm::Beyond,
            Kind::Sign(Sign::Equals | Sign::PlusEquals) => LineForm::Assignment,
            Kind::Sign(Sign::Comma) => LineForm::Results,
            _ if opcode => LineForm::Bare,
            kind if kind.is_word() => LineForm::Results,
            _ => LineForm::Bare,
        }
    }
}

impl<'s> Parser<'s> {
    fn line_form(&self, scope: &Scope) -> LineForm
        ensures form { result ≡ line_form scope.now self.now }
        ensures shallow { result ≡ form.Conditional → scope.now.depth < most_nested_ifs }
    {
        match self.kind() {
            Kind::Word(Word::Keyword(Keyword::If)) => LineForm::of_if(scope),
            Kind::Word(Word::Keyword(_)) => LineForm::Misplaced,
            Kind::Word(_) => LineForm::of_word(self.second(), self.at_opcode(scope)),
            _ => LineForm::Misplaced,
        }
    }

    // Whether the next symbol ends the statements of an `if`, an instrument or a definition.
    fn at_end_of_block(&self, scope: &Scope) -> bool
        ensures { result ≡ ends_block scope.now (next self.now).kind }
    {
        if scope.depth() > 0 {
            return self.next_is(Expected::Elseif)
                || self.next_is(Expected::Else)
                || self.next_is(Expected::Endif);
        }
        match scope.place() {
            Place::Outside => false,
            Place::Instrument => self.next_is(Expected::Endin),
            Place::Definition => self.next_is(Expected::Endop) || self.next_is(Expected::Xout),
        }
    }

    /// Reads a statement and the end of its line.
    #[cycle(stmt)]
    pub fn stmt(&mut self, scope: &Scope) -> Result<OrcStmt, Or<OrcFault>>
        ensures reads { Gives statement result self.new (ReadsStmt scope.now self.old) }
        ensures goes { length self.new ≤ length self.old }
    {
        let line = self.line();
        let what = self.what(scope)?;
        self.ended(scope, OrcStmt { line, what })
    }

    #[cycle(stmt)]
    fn what(&mut self, scope: &Scope) -> Result<StmtWhat, Or<OrcFault>>
        ensures reads { GivesLine scope.now self.old result self.new }
        ensures goes { length self.new ≤ length self.old }
    {
        match self.line_form(scope) {
            LineForm::Assignment => self.assignment(scope),
            LineForm::Results => self.call_with_results(scope),
            LineForm::Bare => self.bare_call(scope),
            LineForm::Conditional => self.conditional(scope),
            LineForm::Beyond => Err(self.fault(OrcKind::NotInProfile)),
            LineForm::Misplaced => Err(self.misfit(scope, OrcKind::Unexpected)),
        }
    }

    fn assignment(&mut self, scope: &Scope) -> Result<StmtWhat, Or<OrcFault>>
        requires { line_form scope.now self.old ≡ form.Assignment }
        ensures reads { GivesLine scope.now self.old result self.new }
        ensures goes { length self.new ≤ length self.old }
    {
        let sign = self.second();
        let name = self.target(scope)?;
        self.skip();
        let value = self.expr(scope, Level::Expr)?;
        self.assigned(sign, name, value)
    }

    // The statement `name = ..` or `name += ..`, depending on its sign.
    fn assigned(&self, sign: Kind, name: Name, value: Expr) -> Result<StmtWhat, Or<OrcFault>>
        ensures value { (line : ℕ) → IfOk result (λ w. of_what line w ≡ assign line sign name (expression value)) }
        ensures memory { IfErr result (λ e. e ≡ or.OutOfMemory) }
    {
        match sign {
            Kind::Sign(Sign::PlusEquals) => {
                let sum = self.sum(name.as_slice(), value)?;
                Ok(StmtWhat::Set(name, sum))
            }
            _ => Ok(StmtWhat::Set(name, value)),
        }
    }

    // The sum of a variable and a value.
    fn sum(&self, name: &[u8], value: Expr) -> Result<Expr, Or<OrcFault>>
        ensures value { IfOk result (λ e. expression e ≡ pair op.Add (var name.now) (expression value)) }
        ensures memory { IfErr result (λ e. e ≡ or.OutOfMemory) }
    {
        let value = Box::new(self.alloc(), value)?;
        let variable = Expr::Var(Items::of_slice(self.alloc(), name)?);
        Ok(Expr::Pair(BinOp::Add, Box::new(self.alloc(), variable)?, value))
    }

    fn call_with_results(&mut self, scope: &Scope) -> Result<StmtWhat, Or<OrcFault>>
        requires { line_form scope.now self.old ≡ form.Results }
        ensures reads { GivesLine scope.now self.old result self.new }
        ensures goes { length self.new ≤ length self.old }
    {
        let results = self.targets(scope)?;
        let callee = self.operation(scope)?;
        let args = self.arguments(scope)?;
        Ok(StmtWhat::Call(results, callee, args))
    }

    fn bare_call(&mut self, scope: &Scope) -> Result<StmtWhat, Or<OrcFault>>
        requires { line_form scope.now self.old ≡ form.Bare }
        ensures reads { GivesLine scope.now self.old result self.new }
        ensures goes { length self.new ≤ length self.old }
    {
        let callee = self.operation(scope)?;
        let args = self.arguments(scope)?;
        Ok(StmtWhat::Call(Names::new(self.alloc()), callee, args))
    }

    #[cycle(stmt)]
    fn conditional(&mut self, scope: &Scope) -> Result<StmtWhat, Or<OrcFault>>
        requires form { line_form scope.now self.old ≡ form.Conditional }
        requires shallow { scope.now.depth < most_nested_ifs }
        ensures reads { GivesLine scope.now self.old result self.new }
        ensures goes { length self.new ≤ length self.old }
    {
        self.skip();
        let (chain, els) = self.arms(&scope.deeper())?;
        Ok(StmtWhat::Choose(chain, els))
    }

    /// Reads statements, up to the symbol that ends them.
    #[cycle(stmt)]
    pub fn block(&mut self, scope: &Scope) -> Result<Stmts, Or<OrcFault>>
        ensures reads { Gives (λ v. block v.items) result self.new (ReadsBlock scope.now (Ok self.old)) }
        ensures goes { length self.new ≤ length self.old }
    {
        let mut stmts = Vec::new(self.alloc());
        while !self.at_end_of_block(scope) {
            stmts.push(self.stmt(scope)?)?;
        }
        Ok(stmts)
    }

    // Reads the arms after `if`, and the statements after `else`, including `endif`.
    #[cycle(stmt)]
    fn arms(&mut self, scope: &Scope) -> Result<(Arms, Stmts), Or<OrcFault>>
        ensures reads { Gives (λ p. arms (block p.1.items) p.0.items) result self.new
            (ReadsArms scope.now (Ok self.old)) }
        ensures goes { length self.new ≤ length self.old }
    {
        let mut chain = Vec::new(self.alloc());
        loop {
            chain.push(self.arm(scope)?)?;
            if !self.next_is(Expected::Elseif) {
                let els = self.otherwise(scope)?;
                return Ok((chain, els));
            }
            self.skip();
        }
    }

    // Reads an arm, after `if` or `elseif`.
    #[cycle(stmt)]
    fn arm(&mut self, scope: &Scope) -> Result<Arm, Or<OrcFault>>
        ensures reads { Gives (λ a. (expression (out-Arm a).cond, block (out-Arm a).body.items)) result self.new
            (IsArm scope.now self.old) }
        ensures goes { length self.new ≤ length self.old }
    {
        let cond = self.condition(scope)?;
        let body = self.block(scope)?;
        Ok(Arm { cond, body })
    }

    // Reads a condition, `then`, and the end of the line.
    fn condition(&mut self, scope: &Scope) -> Result<Expr, Or<OrcFault>>
        ensures reads { Gives expression result self.new (IsCondition scope.now self.old) }
        ensures goes { length self.new ≤ length self.old }
    {
        let cond = self.expr(scope, Level::Expr)?;
        let cond = self.followed(scope, Expected::Then, cond)?;
        self.ended(scope, cond)
    }

    // Reads the statements after `else`, if it is next, and `endif`.
    #[cycle(stmt)]
    fn otherwise(&mut self, scope: &Scope) -> Result<Stmts, Or<OrcFault>>
        requires { next_is expected.Elseif self.old ≡ false }
        ensures reads { Gives (λ v. otherwise (block v.items)) result self.new (ReadsMore scope.now (Ok self.old)) }
        ensures goes { length self.new ≤ length self.old }
    {
        if !self.next_is(Expected::Else) {
            let none = Vec::new(self.alloc());
            return self.followed(scope, Expected::Endif, none);
        }
        self.skip();
        self.end_line(scope)?;
        let stmts = self.block(scope)?;
        self.followed(scope, Expected::Endif, stmts)
    }
}
