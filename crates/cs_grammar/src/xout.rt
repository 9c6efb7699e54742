// The last line of a definition: the values of its results.
ghost use Rattle.std.specs.Prelude.{◌≡◌, Ok, map};
ghost use Rattle.cs_grammar.specs.{Tree.argument, Orchestra.ReadsXout, Orchestra.ReadsResult};
ghost use Rattle.cs_grammar.specs.inner.Answers.{Gives, Passes, last_left};
ghost use Rattle.cs_grammar.specs.inner.Takes.{are_results, results_of, no_results};

use crate::lists::Role;
use crate::parser::Parser;
use crate::scope::Scope;
use crate::symbol::Expected;
use crate::tree::{Arg, Args};
use cs_base::{Or, OrcFault, OrcKind, Rate};

// Whether there is one value for each result.
fn are_results(values: &[Arg], outs: &[Rate]) -> bool
    ensures { result ≡ are_results (map argument values.now) outs.now }
{
    values.len() == outs.len()
}

impl<'s> Parser<'s> {
    /// Reads the line of `xout`, or finds that there is none.
    pub fn results(&mut self, scope: &Scope, outs: &[Rate]) -> Result<Args, Or<OrcFault>>
        ensures { Gives (λ v. map argument v.items) result self.new
            (ReadsResult scope.now outs.now (Ok self.old)) }
    {
        if !self.next_is(Expected::Xout) {
            return self.no_results(outs);
        }
        let line = self.line();
        let values = self.values(scope)?;
        self.judged(scope, line, outs, values)
    }

    // Reads the values of `xout`, and the end of the line.
    fn values(&mut self, scope: &Scope) -> Result<Args, Or<OrcFault>>
        ensures { Gives (λ v. map argument v.items) result self.new (ReadsXout scope.now self.old) }
    {
        self.skip();
        let values = self.list(scope, Role::Result)?;
        self.ended(scope, values)
    }

    // Checks the values of `xout` on line `line`: there must be one for each result, and `endop` must follow.
    fn judged(
        &self,
        scope: &Scope,
        line: u32,
        outs: &[Rate],
        values: Args,
    ) -> Result<Args, Or<OrcFault>>
        ensures { Gives (λ v. map argument v.items) result self.now
            (λ o. o ≡ results_of scope.now line outs.now (Ok (map argument values.items, self.now))) }
    {
        if !are_results(&values, outs) {
            return Err(Or::Fault(OrcFault {
                line,
                kind: OrcKind::XinXout,
            }));
        }
        self.last_line(scope)?;
        Ok(values)
    }

    // Checks that `endop` follows the line of `xout`.
    fn last_line(&self, scope: &Scope) -> Result<(), Or<OrcFault>>
        ensures { Passes result self.now (last_left scope.now self.now) }
    {
        if self.next_is(Expected::Endop) {
            Ok(())
        } else if self.next_is(Expected::End) {
            Err(self.misfit(scope, OrcKind::Unexpected))
        } else {
            Err(self.fault(OrcKind::XinXout))
        }
    }

    fn no_results(&self, outs: &[Rate]) -> Result<Args, Or<OrcFault>>
        ensures { Gives (λ v. map argument v.items) result self.now (λ o. o ≡ no_results outs.now self.now) }
    {
        if outs.is_empty() {
            Ok(Vec::new(self.alloc()))
        } else {
            Err(self.fault(OrcKind::XinXout))
        }
    }
}
