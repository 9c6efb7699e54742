// The first line of a definition: the names that receive its inputs.
ghost use Rattle.std.specs.Prelude.{◌≡◌, ◌≤◌, ◌<◌, ◌^◌, ◌++◌, IfOk, IfSome, length};
ghost use Rattle.cs_words.specs.NameSets.{has};
ghost use Rattle.cs_grammar.specs.{Inputs.is_free, Inputs.is_local, inner.Answers.Gives};
ghost use Rattle.cs_grammar.specs.inner.Takes.{input_count, plus_one, is_input, are_inputs, words, at_xin, inputs};
ghost use Rattle.cs_grammar.specs.inner.Takes.{no_names, taken_so_many, is_none, first_fits, after_first};
ghost use Rattle.cs_grammar.specs.Symbols.{next};

use crate::heading::Heading;
use crate::parser::Parser;
use crate::scope::Scope;
use crate::symbol::Expected;
use cs_base::{Names, Or, OrcFault, OrcKind, Rate};
use cs_words::{is_global, name_rate};
use std::alloc::AllocError;

fn plus_one(count: Option<usize>) -> Option<usize>
    requires { IfSome count (λ n. n < 2 ^ 63) }
    ensures { result ≡ plus_one count }
{
    match count {
        Some(n) => Some(n + 1),
        None => None,
    }
}

fn is_none(ins: &[Rate]) -> bool
    ensures { result ≡ is_none ins.now }
{
    matches!(ins, [])
}

// The inputs after the first.
fn after_first(ins: &[Rate]) -> &[Rate]
    ensures { result.now ≡ after_first ins.now }
{
    match ins {
        [] => ins,
        [_, rest @ ..] => rest,
    }
}

fn is_among(names: &Names, name: &[u8]) -> bool
    ensures { result ≡ has names.now name.now }
{
    names
        .as_slice()
        .iter()
        .any(|other| name == other.as_slice())
}

impl<'s> Parser<'s> {
    // Whether the next symbol is a word of the profile that is neither a keyword nor an opcode.
    fn at_free(&self, scope: &Scope) -> bool
        ensures { result ≡ is_free scope.now (next self.now) }
    {
        self.kind().is_plain() && !self.at_opcode(scope)
    }

    // The number of free words before `xin`, separated by commas; None if the line doesn't have this form.
    #[tactic(auto, using(crate::proofs::Steps::some_word))]
    fn input_count(&self, scope: &Scope) -> Option<usize>
        ensures count { result ≡ input_count scope.now self.now }
        ensures some { IfSome result (λ n. 1 ≤ n) }
    {
        let mut ahead = self.again();
        ahead.count_words(scope)
    }

    // Counts the free words before `xin` as `input_count` does, but advances the reader: up to `xin`, or to
    // the symbol that doesn't fit the form.
    fn count_words(&mut self, scope: &Scope) -> Option<usize>
        requires { length self.old < 2 ^ 63 }
        ensures { result ≡ input_count scope.now self.old }
    {
        if !self.at_free(scope) {
            return None;
        }
        self.skip();
        if self.next_is(Expected::Xin) {
            return Some(1);
        }
        if !self.next_is(Expected::Comma) {
            return None;
        }
        self.skip();
        plus_one(self.count_words(scope))
    }

    // Whether the next symbol is a local variable, which each call has separately.
    fn at_local(&self, scope: &Scope) -> bool
        ensures { result ≡ is_local scope.now (next self.now) }
    {
        self.at_variable(scope) && !is_global(self.text())
    }

    // Whether the next symbol is a local variable of rate `rate` that isn't among the names `before`.
    fn at_input(&self, scope: &Scope, before: &Names, rate: Rate) -> bool
        ensures { result ≡ is_input scope.now before.now rate (next self.now) }
    {
        self.at_local(scope) && rate.same(name_rate(self.text())) && !is_among(before, self.text())
    }

    // Reads `count` names, adds them to `names`, and stops at `xin`. Returns whether they fit the inputs
    // `ins` and differ from the names before them.
    fn take_inputs(
        &mut self,
        scope: &Scope,
        ins: &[Rate],
        count: usize,
        names: &mut Names,
    ) -> Result<bool, AllocError>
        requires { 1 ≤ count }
        ensures fit { IfOk result (λ fit. fit ≡ are_inputs scope.now names.old ins.now count self.old) }
        ensures names { IfOk result (λ _. names.new ≡ names.old ++ words count self.old) }
        ensures place { IfOk result (λ _. self.new ≡ at_xin count self.old) }
    {
        let fit = self.first_fits(scope, names, ins);
        let rest = after_first(ins);
        names.push(self.name()?)?;
        self.skip();
        if count == 1 {
            return Ok(fit && is_none(rest));
        }
        self.skip();
        let others = self.take_inputs(scope, rest, count - 1, names)?;
        Ok(fit && others)
    }

    // Whether the next symbol is a valid name for the first of these inputs.
    fn first_fits(&self, scope: &Scope, before: &Names, ins: &[Rate]) -> bool
        ensures { result ≡ first_fits scope.now before.now ins.now (next self.now) }
    {
        match ins {
            [] => false,
            [rate, ..] => self.at_input(scope, before, *rate),
        }
    }

    /// Reads the names that receive the inputs.
    pub fn inputs(&mut self, scope: &Scope, heading: &Heading) -> Result<Names, Or<OrcFault>>
        ensures { Gives (λ ns. ns) result self.new (λ o. o ≡ inputs scope.now heading.now self.old) }
    {
        if self.next_is(Expected::Xin) {
            return Err(self.fault(OrcKind::XinXout));
        }
        match self.input_count(scope) {
            Some(count) => self.taken(scope, heading, count),
            None => self.no_names(heading),
        }
    }

    fn no_names(&self, heading: &Heading) -> Result<Names, Or<OrcFault>>
        ensures { Gives (λ ns. ns) result self.now (λ o. o ≡ no_names heading.now self.now) }
    {
        if is_none(heading.ins()) {
            Ok(Names::new(self.alloc()))
        } else {
            Err(Or::Fault(OrcFault {
                line: heading.line(),
                kind: OrcKind::XinXout,
            }))
        }
    }

    fn taken(
        &mut self,
        scope: &Scope,
        heading: &Heading,
        count: usize,
    ) -> Result<Names, Or<OrcFault>>
        requires { 1 ≤ count }
        ensures { Gives (λ ns. ns) result self.new (λ o. o ≡ taken_so_many scope.now heading.now self.old count) }
    {
        let mut names = Names::new(self.alloc());
        if !self.take_inputs(scope, heading.ins(), count, &mut names)? {
            return Err(self.fault(OrcKind::XinXout));
        }
        self.skip();
        self.ended(scope, names)
    }
}
