// Definitions of opcodes.
ghost use Rattle.std.specs.Prelude.{◌≡◌, [], List, Ok, IfOk, IfErr};
ghost use Rattle.cs_base.specs.declared.fault.Or.TheVariants as or;
ghost use Rattle.cs_grammar.specs.{Headings.heading, Tree.definition, Orchestra.ReadsDefinition};
ghost use Rattle.cs_grammar.specs.inner.Answers.{Gives, IsInside, IsLines, inside, of_inside};
ghost use Rattle.cs_grammar.specs.Symbols.{Symbol};
ghost use Rattle.cs_grammar.specs.Reading.{in_definition};
ghost use Rattle.cs_grammar.specs.Symbols.{after, next};

use crate::heading::Heading;
use crate::parser::Parser;
use crate::scope::Scope;
use crate::symbol::Expected;
use crate::tree::{Args, Stmts, Udo};
use cs_base::{Items, Names, Or, OrcFault};
use cs_words::NameSet;

/// The part of a definition between the line of `opcode` and `endop`.
#[derive(Drop)]
pub struct Inside {
    pub names: Names,
    pub body: Stmts,
    pub given: Args,
}

impl<'s> Parser<'s> {
    /// Reads the part of a definition after the line of `opcode`, and returns the complete definition.
    pub fn under(&mut self, head: Heading<'s>, defined: &NameSet<'s>) -> Result<Udo, Or<OrcFault>>
        ensures reads { Gives definition result self.new (λ o. (ts : List Symbol)
            → heading (in_definition [] defined.now) (next ts).line (after ts) ≡ Ok (head.entry, self.old)
            → ReadsDefinition defined.now ts o) }
        ensures name { IfOk result (λ u. u.name ≡ head.entry.name) }
    {
        let lines = self.lines(&Scope::in_definition(head.name(), defined), &head, defined)?;
        self.defined_as(head, lines)
    }

    // The definition that consists of this line of `opcode` and the lines after it.
    fn defined_as(&self, head: Heading, lines: Inside) -> Result<Udo, Or<OrcFault>>
        ensures value { IfOk result (λ u. definition u ≡ of_inside head.entry (inside lines)) }
        ensures name { IfOk result (λ u. u.name ≡ head.entry.name) }
        ensures memory { IfErr result (λ e. e ≡ or.OutOfMemory) }
    {
        let name = Items::of_slice(self.alloc(), head.name())?;
        let Heading {
            line,
            outs,
            ins,
            ..
        } = head;
        let Inside { names, body, given } = lines;
        Ok(Udo {
            line,
            name,
            outs,
            ins,
            names,
            body,
            result: given,
        })
    }

    // Reads the lines of a definition, including the line of `endop`.
    fn lines(
        &mut self,
        scope: &Scope,
        head: &Heading,
        defined: &NameSet<'s>,
    ) -> Result<Inside, Or<OrcFault>>
        ensures { Gives inside result self.new (IsLines scope.now defined.now head.now self.old) }
    {
        let lines = self.inside(scope, head)?;
        let lines = self.followed(scope, Expected::Endop, lines)?;
        self.ended(&Scope::outside(defined), lines)
    }

    // Reads the names of the inputs, the statements and the results.
    fn inside(&mut self, scope: &Scope, head: &Heading) -> Result<Inside, Or<OrcFault>>
        ensures { Gives inside result self.new (IsInside scope.now head.now self.old) }
    {
        let names = self.inputs(scope, head)?;
        let body = self.block(scope)?;
        let given = self.results(scope, head.outs())?;
        Ok(Inside { names, body, given })
    }
}
