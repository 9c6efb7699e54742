// The line of `opcode`.
ghost use Rattle.std.specs.Prelude.{◌≡◌, Ok, IfOk, map, true, false};
ghost use Rattle.std.specs.List.{list_all};
ghost use Rattle.cs_words.specs.{Names.is_rate_letter, Names.letter_rate, NameSets.has};
ghost use Rattle.cs_grammar.specs.{Kinds.is_word, Kinds.may_be_opcode, Symbols.next, Symbols.after};
ghost use Rattle.cs_grammar.specs.inner.Answers.{Gives, signature};
ghost use Rattle.cs_grammar.specs.Headings.{heading, new_name, types, types_at};

use crate::parser::Parser;
use crate::scope::Scope;
use crate::symbol::{Expected, Kind};
use cs_base::{Items, Or, OrcFault, OrcKind, Rate, Rates};
use cs_words::{Word, is_rate_letter, letter_rate};
use std::alloc::{AllocError, Global};
use std::marker::Model;

/// The line of `opcode`: the name, the rates of the results, and the rates of the inputs.
#[derive(Drop)]
pub struct Heading<'s> {
    pub line: u32,
    pub name: &'s [u8],
    pub outs: Rates,
    pub ins: Rates,
}

impl<'s> Model for Heading<'s> {
    ghost use Rattle.cs_grammar.specs.Headings.{Heading};

    ghost Value = { Heading };

    ghost view = { λ h. record { line = h.line; name = h.name.now; outs = h.outs; ins = h.ins } };
}

impl<'s> Heading<'s> {
    /// Returns the line number.
    pub fn line(&self) -> u32
        ensures { result ≡ self.now.line }
    {
        self.line
    }

    /// Returns the name of the opcode.
    pub fn name(&self) -> &'s [u8]
        ensures { result.now ≡ self.now.name }
    {
        self.name
    }

    /// Returns the rates of the results.
    pub fn outs(&self) -> &[Rate]
        ensures { result.now ≡ self.now.outs }
    {
        self.outs.as_slice()
    }

    /// Returns the rates of the inputs.
    pub fn ins(&self) -> &[Rate]
        ensures { result.now ≡ self.now.ins }
    {
        self.ins.as_slice()
    }
}

fn each_rate(alloc: Global, letters: &[u8]) -> Result<Vec<Rate>, AllocError>
    ensures { IfOk result (λ rates. rates.items ≡ map letter_rate letters.now) }
{
    letters
        .iter()
        .map(|letter| letter_rate(*letter))
        .collect(alloc)
}

fn are_rate_letters(letters: &[u8]) -> bool
    ensures { result ≡ list_all is_rate_letter letters.now }
{
    letters.iter().all(|letter| is_rate_letter(*letter))
}

impl<'s> Parser<'s> {
    fn new_name(&mut self, scope: &Scope) -> Result<&'s [u8], Or<OrcFault>>
        ensures reads { Gives (λ n. n.now) result self.new (λ o. o ≡ new_name scope.now self.old) }
        ensures fresh { IfOk result (λ n. has scope.now.defined n.now ≡ false) }
    {
        match self.kind() {
            Kind::Word(Word::Name | Word::Other | Word::Field(_)) => self.fresh_name(scope),
            Kind::Word(Word::Foreign) => Err(self.fault(OrcKind::Unexpected)),
            _ => Err(self.misfit(scope, OrcKind::Unexpected)),
        }
    }

    fn fresh_name(&mut self, scope: &Scope) -> Result<&'s [u8], Or<OrcFault>>
        requires { may_be_opcode (next self.old).kind ≡ true }
        ensures reads { Gives (λ n. n.now) result self.new (λ o. o ≡ new_name scope.now self.old) }
        ensures fresh { IfOk result (λ n. has scope.now.defined n.now ≡ false) }
    {
        let name = self.text();
        if scope.is_defined(name) {
            return Err(self.fault(OrcKind::OpcodeTwice));
        }
        self.skip();
        Ok(name)
    }

    // Reads the rates of results or inputs: a word of the letters a, k and i, or 0 for none.
    fn types(&mut self, scope: &Scope) -> Result<Rates, Or<OrcFault>>
        ensures { Gives (λ rates. rates) result self.new (λ o. o ≡ types scope.now (Ok self.old)) }
    {
        match self.kind() {
            Kind::Number(value) if value.raw() == 0 => {
                self.skip();
                Ok(Rates::new(self.alloc()))
            }
            Kind::Word(_) => self.letters(scope),
            _ => Err(self.misfit(scope, OrcKind::Unexpected)),
        }
    }

    fn letters(&mut self, scope: &Scope) -> Result<Rates, Or<OrcFault>>
        requires { is_word (next self.old).kind ≡ true }
        ensures { Gives (λ rates. rates) result self.new (λ o. o ≡ types_at scope.now self.old) }
    {
        if !are_rate_letters(self.text()) {
            return Err(self.misfit(scope, OrcKind::NotInProfile));
        }
        let rates = Items::from_vec(each_rate(self.alloc(), self.text())?);
        self.skip();
        Ok(rates)
    }

    /// Reads the line of `opcode`.
    pub fn heading(&mut self, scope: &Scope) -> Result<Heading<'s>, Or<OrcFault>>
        ensures reads { Gives (λ h. h) result self.new
            (λ o. o ≡ heading scope.now (next self.old).line (after self.old)) }
        ensures fresh { IfOk result (λ h. has scope.now.defined h.name ≡ false) }
    {
        let line = self.line();
        self.skip();
        let name = self.new_name(scope)?;
        self.pass(scope, Expected::Comma)?;
        let (outs, ins) = self.signature(scope)?;
        Ok(Heading {
            line,
            name,
            outs,
            ins,
        })
    }

    // Reads the results and the inputs, and the end of the line.
    fn signature(&mut self, scope: &Scope) -> Result<(Rates, Rates), Or<OrcFault>>
        ensures { Gives (λ p. p) result self.new (λ o. o ≡ signature scope.now self.old) }
    {
        let outs = self.types(scope)?;
        self.pass(scope, Expected::Comma)?;
        let ins = self.types(scope)?;
        self.ended(scope, (outs, ins))
    }
}
