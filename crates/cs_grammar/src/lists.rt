// Lists on a line: the variables that receive results, the called opcode, and the arguments.
ghost use Rattle.std.specs.Prelude.{◌≡◌, ◌≤◌, Ok, length, map};
ghost use Rattle.cs_grammar.specs.{Tree.argument, Parts.is_variable, Parts.is_opcode, inner.Answers.Gives};
ghost use Rattle.cs_grammar.specs.{inner.Rows.targets, inner.Rows.quoted};
ghost use Rattle.cs_grammar.specs.Lines.{no_target, target, operation, by_opcode, called, is_other_text};
ghost use Rattle.cs_grammar.specs.Grammar.{ReadsArg, ReadsList, ReadsArgs};
ghost use Rattle.cs_grammar.specs.Symbols.{next, after};
ghost use Rattle.cs_grammar.specs.declared.lists.Role.TheVariants as role;

use crate::expr::Level;
use crate::parser::Parser;
use crate::scope::{Place, Scope};
use crate::symbol::{Expected, Kind};
use crate::tree::{Arg, Args, Callee};
use cs_base::{Name, Names, Or, OrcFault, OrcKind};
use cs_words::{Opcode, Word};

/// The role of a value in a list: an argument of a call, or a result of a definition.
#[derive(Clone, Copy)]
pub enum Role {
    Argument,
    Result,
}

// The kind of fault of a symbol that can't be assigned to.
fn no_target(kind: Kind) -> OrcKind
    ensures { result ≡ no_target kind }
{
    match kind {
        Kind::Word(Word::Field(_) | Word::Header(_)) => OrcKind::Unexpected,
        _ if kind.is_word() => OrcKind::NotInProfile,
        _ => OrcKind::Unexpected,
    }
}

impl<'s> Parser<'s> {
    /// Whether the next symbol is a variable: a name that isn't the name of a user-defined opcode.
    pub fn at_variable(&self, scope: &Scope) -> bool
        ensures { result ≡ is_variable scope.now (next self.now) }
    {
        matches!(self.kind(), Kind::Word(Word::Name)) && !scope.is_defined(self.text())
    }

    /// Whether the next symbol is an opcode.
    pub fn at_opcode(&self, scope: &Scope) -> bool
        ensures { result ≡ is_opcode scope.now (next self.now).text (next self.now).kind }
    {
        scope.is_opcode(self.text(), self.kind())
    }

    // Reads the next symbol's bytes as a name.
    fn take_name(&mut self) -> Result<Name, Or<OrcFault>>
        ensures reads { Gives (λ n. n) result self.new (λ o. o ≡ Ok ((next self.old).text, after self.old)) }
        ensures goes { length self.new ≤ length self.old }
    {
        let name = self.name()?;
        self.skip();
        Ok(name)
    }

    /// Reads a variable that is assigned to.
    pub fn target(&mut self, scope: &Scope) -> Result<Name, Or<OrcFault>>
        ensures reads { Gives (λ n. n) result self.new (λ o. o ≡ target scope.now self.old) }
        ensures goes { length self.new ≤ length self.old }
    {
        if self.at_variable(scope) {
            self.take_name()
        } else {
            Err(self.misfit(scope, no_target(self.kind())))
        }
    }

    /// Reads the variables that receive the results of a call.
    pub fn targets(&mut self, scope: &Scope) -> Result<Names, Or<OrcFault>>
        ensures reads { Gives (λ ns. ns) result self.new (λ o. o ≡ targets scope.now self.old) }
        ensures goes { length self.new ≤ length self.old }
    {
        let mut names = Names::new(self.alloc());
        loop {
            names.push(self.target(scope)?)?;
            if !self.next_is(Expected::Comma) {
                return Ok(names);
            }
            self.skip();
        }
    }

    // Whether the next symbol is a text other than `"i"`.
    fn at_other_text(&self) -> bool
        ensures { result ≡ is_other_text (next self.now) }
    {
        self.next_is(Expected::Text) && self.text() != b"i".as_slice()
    }

    /// Reads the called opcode.
    pub fn operation(&mut self, scope: &Scope) -> Result<Callee, Or<OrcFault>>
        ensures reads { Gives (λ c. c) result self.new (λ o. o ≡ operation scope.now (Ok self.old)) }
        ensures goes { length self.new ≤ length self.old }
    {
        match self.kind() {
            Kind::Word(Word::Opcode(opcode)) => self.opcode(scope, opcode),
            Kind::Word(Word::Keyword(_) | Word::Foreign) => {
                Err(self.misfit(scope, OrcKind::Unexpected))
            }
            Kind::Word(_) => self.called(scope),
            _ => Err(self.misfit(scope, OrcKind::Unexpected)),
        }
    }

    // Reads an opcode of the catalogue; `zakinit` is allowed only outside instruments and definitions.
    fn opcode(&mut self, scope: &Scope, opcode: Opcode) -> Result<Callee, Or<OrcFault>>
        ensures reads { Gives (λ c. c) result self.new (λ o. o ≡ by_opcode scope.now self.old opcode) }
        ensures goes { length self.new ≤ length self.old }
    {
        if matches!(opcode, Opcode::Zakinit) && !matches!(scope.place(), Place::Outside) {
            return Err(self.fault(OrcKind::Unexpected));
        }
        self.skip();
        if matches!(opcode, Opcode::EventI) && self.at_other_text() {
            return Err(self.fault(OrcKind::NotInProfile));
        }
        Ok(Callee::Opcode(opcode))
    }

    // Reads a called name that isn't in the catalogue.
    fn called(&mut self, scope: &Scope) -> Result<Callee, Or<OrcFault>>
        ensures reads { Gives (λ c. c) result self.new (λ o. o ≡ called scope.now self.old) }
        ensures goes { length self.new ≤ length self.old }
    {
        if scope.is_own(self.text()) {
            return Err(self.fault(OrcKind::Recursion));
        }
        Ok(Callee::Name(self.take_name()?))
    }

    fn argument(&mut self, scope: &Scope, role: Role) -> Result<Arg, Or<OrcFault>>
        ensures reads { Gives argument result self.new (ReadsArg scope.now role self.old) }
        ensures goes { length self.new ≤ length self.old }
    {
        if self.next_is(Expected::Text) {
            return self.quoted(role);
        }
        Ok(Arg::Value(self.expr(scope, Level::Expr)?))
    }

    // Reads a text as an argument; a text can't be a result of a definition.
    fn quoted(&mut self, role: Role) -> Result<Arg, Or<OrcFault>>
        ensures reads { Gives argument result self.new (λ o. o ≡ quoted role self.old) }
        ensures goes { length self.new ≤ length self.old }
    {
        match role {
            Role::Argument => Ok(Arg::Text(self.take_name()?)),
            Role::Result => Err(self.fault(OrcKind::XinXout)),
        }
    }

    /// Reads arguments or results, at least one.
    pub fn list(&mut self, scope: &Scope, role: Role) -> Result<Args, Or<OrcFault>>
        ensures reads { Gives (λ v. map argument v.items) result self.new (ReadsList scope.now role (Ok self.old)) }
        ensures goes { length self.new ≤ length self.old }
    {
        let mut args = Vec::new(self.alloc());
        loop {
            args.push(self.argument(scope, role)?)?;
            if !self.next_is(Expected::Comma) {
                return Ok(args);
            }
            self.skip();
        }
    }

    /// Reads the arguments up to the end of the line; there may be none.
    pub fn arguments(&mut self, scope: &Scope) -> Result<Args, Or<OrcFault>>
        ensures reads { Gives (λ v. map argument v.items) result self.new (ReadsArgs scope.now (Ok self.old)) }
        ensures goes { length self.new ≤ length self.old }
    {
        if self.kind().ends_line() {
            return Ok(Vec::new(self.alloc()));
        }
        self.list(scope, Role::Argument)
    }
}
