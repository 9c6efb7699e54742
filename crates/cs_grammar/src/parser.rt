// The symbols of an orchestra, and the current position.
ghost use Rattle.std.specs.Prelude.{◌≡◌, ◌≤◌, ◌<◌, ◌^◌, IfOk, length};
ghost use Rattle.cs_base.specs.declared.fault.Or.TheVariants as or;
ghost use Rattle.cs_grammar.specs.Symbols.{symbols, Spanned, next, after};
ghost use Rattle.cs_grammar.specs.Reading.{next_is, fault, misfit};
ghost use Rattle.cs_grammar.specs.inner.Answers.{Passes, past, line_past};

use crate::scope::Scope;
use crate::symbol::{Expected, Kind, bytes_of, counted, first_kind, second_kind, unquoted};
use cs_base::{Items, Name, Or, OrcFault, OrcKind};
use cs_lex::Token;
use std::alloc::{AllocError, Global};
use std::marker::Model;

/// A reader of symbols, which determines the kind of each token when it reaches the token. Contracts see the
/// remaining symbols.
#[derive(Drop)]
pub struct Parser<'s> {
    alloc: Global,
    source: &'s [u8],
    // The remaining tokens, and the number of tokens before the first of them on its line.
    tokens: &'s [Token],
    place: usize,
    // The kinds of the next two symbols.
    first: Kind,
    second: Kind,
}

impl<'s> Model for Parser<'s> {
    ghost use Rattle.std.specs.Prelude.{List};
    ghost use Rattle.cs_grammar.specs.inner.Reached.{IsReached};
    ghost use Rattle.cs_grammar.specs.Symbols.{Symbol, symbols_from};

    ghost Value = { List Symbol };

    ghost view = { λ p. symbols_from p.source.now p.place p.tokens.now };

    ghost invariant = { λ p. IsReached p.source.now p.place p.tokens.now p.first p.second };
}

impl<'s> Parser<'s> {
    /// Returns a reader of the tokens of a source.
    pub fn new(alloc: Global, source: &'s [u8], tokens: &'s [Token]) -> Parser<'s>
        requires { Spanned (length source.now) tokens.now }
        ensures { result ≡ symbols source.now tokens.now }
    {
        Parser {
            alloc,
            source,
            tokens,
            place: 0,
            first: first_kind(source, 0, tokens),
            second: second_kind(source, 0, tokens),
        }
    }

    /// Returns a copy of the reader, to look ahead.
    pub fn again(&self) -> Parser<'s>
        ensures same { result ≡ self.now }
        ensures short { length self.now < 2 ^ 63 }
    {
        Parser {
            alloc: self.alloc,
            source: self.source,
            tokens: self.tokens,
            place: self.place,
            first: self.first,
            second: self.second,
        }
    }

    /// Returns the allocator.
    pub fn alloc(&self) -> Global {
        self.alloc
    }

    /// Returns the kind of the next symbol; End if none remains.
    pub fn kind(&self) -> Kind
        ensures { result ≡ (next self.now).kind }
    {
        self.first
    }

    /// Returns the kind of the symbol after the next one.
    pub fn second(&self) -> Kind
        ensures { result ≡ (next (after self.now)).kind }
    {
        self.second
    }

    /// Whether the symbol after the next one is the expected one.
    pub fn second_is(&self, expected: Expected) -> bool
        ensures { result ≡ next_is expected (after self.now) }
    {
        expected.is(self.second())
    }

    /// Returns the bytes of the next symbol, without the quotation marks of a quoted text; empty if none
    /// remains.
    pub fn text(&self) -> &'s [u8]
        ensures { result.now ≡ (next self.now).text }
    {
        match self.tokens {
            [] => b"".as_slice(),
            [token, ..] => unquoted(token.mark, bytes_of(self.source, token)),
        }
    }

    /// Returns the line of the next symbol; 0 if none remains.
    pub fn line(&self) -> u32
        ensures { result ≡ (next self.now).line }
    {
        match self.tokens {
            [] => 0,
            [token, ..] => token.line,
        }
    }

    /// Advances past the next symbol, if there is one.
    pub fn skip(&mut self)
        ensures { self.new ≡ after self.old }
    {
        let tokens = self.tokens;
        if let [token, rest @ ..] = tokens {
            self.place = counted(self.place, token.mark);
            self.tokens = rest;
            self.first = self.second;
            self.second = second_kind(self.source, self.place, rest);
        }
    }

    /// Returns the bytes of the next symbol as a name.
    pub fn name(&self) -> Result<Name, AllocError>
        ensures { IfOk result (λ n. n ≡ (next self.now).text) }
    {
        Items::of_slice(self.alloc, self.text())
    }

    /// Returns a fault at the next symbol.
    pub fn fault(&self, kind: OrcKind) -> Or<OrcFault>
        ensures { result ≡ or.Fault (fault self.now kind) }
    {
        Or::Fault(OrcFault {
            line: self.line(),
            kind,
        })
    }

    /// Returns the fault of the next symbol, which fits no rule: a special kind of fault for some symbols,
    /// and otherwise the kind `usual`.
    pub fn misfit(&self, scope: &Scope, usual: OrcKind) -> Or<OrcFault>
        ensures { result ≡ or.Fault (misfit scope.now usual self.now) }
    {
        self.fault(scope.misfit_kind(usual, self.kind()))
    }

    /// Whether the next symbol is the expected one.
    pub fn next_is(&self, expected: Expected) -> bool
        ensures { result ≡ next_is expected self.now }
    {
        expected.is(self.kind())
    }

    /// Reads a symbol that must come next.
    pub fn pass(&mut self, scope: &Scope, expected: Expected) -> Result<(), Or<OrcFault>>
        ensures passes { Passes result self.new (past scope.now expected self.old) }
        ensures goes { length self.new ≤ length self.old }
    {
        if self.next_is(expected) {
            self.skip();
            Ok(())
        } else {
            Err(self.misfit(scope, OrcKind::Unexpected))
        }
    }

    /// Reads the end of a line: consumes a NewLine, and accepts End without consuming it.
    pub fn end_line(&mut self, scope: &Scope) -> Result<(), Or<OrcFault>>
        ensures passes { Passes result self.new (line_past scope.now (next self.old).kind self.old) }
        ensures goes { length self.new ≤ length self.old }
    {
        match self.kind() {
            Kind::NewLine => {
                self.skip();
                Ok(())
            }
            Kind::End => Ok(()),
            _ => Err(self.misfit(scope, OrcKind::Unexpected)),
        }
    }

    /// Reads the symbol that must follow a value, and returns the value.
    pub fn followed<T: Drop>(
        &mut self,
        scope: &Scope,
        expected: Expected,
        value: T,
    ) -> Result<T, Or<OrcFault>>
        ensures value { IfOk result (λ kept. kept ≡ value) }
        ensures passes { Passes result self.new (past scope.now expected self.old) }
        ensures goes { length self.new ≤ length self.old }
    {
        self.pass(scope, expected)?;
        Ok(value)
    }

    /// Reads the end of the line after a value, and returns the value.
    pub fn ended<T: Drop>(&mut self, scope: &Scope, value: T) -> Result<T, Or<OrcFault>>
        ensures value { IfOk result (λ kept. kept ≡ value) }
        ensures passes { Passes result self.new (line_past scope.now (next self.old).kind self.old) }
        ensures goes { length self.new ≤ length self.old }
    {
        self.end_line(scope)?;
        Ok(value)
    }
}
