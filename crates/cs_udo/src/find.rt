// Finds definitions by name and by line.
ghost use Rattle.std.specs.Prelude.{◌≡◌, ◌≤◌, IfOk, map, nat_lt, length};
ghost use Rattle.std.specs.List.{prefix_len};
ghost use Rattle.cs_grammar.specs.Inputs.{AreDifferent};
ghost use Rattle.cs_grammar.specs.Tree as tree;
ghost use Rattle.cs_grammar.specs.declared.tree.Callee.TheVariants as callee;
ghost use Rattle.cs_udo.specs.Library.{definitions_of, IsFound, IsDefined};

use crate::library::{FoundDefinition, Library};
use cs_base::OutOfMemory;
use cs_grammar::{Callee, Udo};
use cs_words::NameSet;
use std::alloc::Global;

impl<'t> Library<'t> {
    /// Returns the library of these definitions, whose names must be different.
    pub fn new(alloc: Global, definitions: &'t [Udo]) -> Result<Library<'t>, OutOfMemory>
        requires { AreDifferent (map (λ u. u.name) definitions.now) }
        ensures { IfOk result (λ l. definitions_of l ≡ map tree.definition definitions.now) }
    {
        let mut names = NameSet::new(alloc);
        for definition in definitions {
            names.add(definition.name.as_slice())?;
        }
        Ok(Library { definitions, names })
    }

    /// Finds the called definition among the first `visible` ones; `None` if it is not among them.
    pub fn find(&self, visible: usize, callee: &Callee) -> Option<FoundDefinition<'t>>
        ensures found { IsFound (definitions_of self.now) visible callee.now result }
        ensures defined { IsDefined (definitions_of self.now) visible callee.now result }
    {
        match callee {
            Callee::Opcode(_) => None,
            Callee::Name(name) => self.named(visible, name.as_slice()),
        }
    }

    // Finds the definition with this name among the first `visible` ones.
    fn named(&self, visible: usize, name: &[u8]) -> Option<FoundDefinition<'t>>
        ensures found { IsFound (definitions_of self.now) visible (callee.Name name.now) result }
        ensures defined { IsDefined (definitions_of self.now) visible (callee.Name name.now) result }
    {
        let place = self.names.place(name);
        if place < visible.min(self.definitions.len()) {
            Some(FoundDefinition {
                place,
                definition: &self.definitions[place],
            })
        } else {
            None
        }
    }

    /// Returns the number of definitions before a line.
    pub fn before(&self, line: u32) -> usize
        ensures count { result ≡ prefix_len (λ d. nat_lt d.line line) (definitions_of self.now) }
        ensures within { result ≤ length (definitions_of self.now) }
    {
        let mut count: usize = 0;
        for definition in self.definitions {
            if definition.line >= line {
                return count;
            }
            count += 1;
        }
        count
    }
}
