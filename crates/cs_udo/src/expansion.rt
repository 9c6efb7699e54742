// Orchestras whose calls can be expanded, and the reasons why others can't.
ghost use Rattle.std.specs.Prelude.{◌≡◌, IfOk, Ok, Err, None};
ghost use Rattle.cs_base.specs.declared.fault.Or.TheVariants as or;
ghost use Rattle.cs_base.specs.declared.refusal.Refusal.{Refusal};
ghost use Rattle.cs_grammar.specs.Tree as tree;
ghost use Rattle.cs_grammar.specs.WellFormed.{IsWellFormed};
ghost use Rattle.cs_udo.specs.{Counted.first_limit, Expanding.expanding, Refused.first_fault, Library.definitions_of};
ghost use Rattle.cs_udo.specs.Expanded.{expanded_orchestra};

use crate::library::{Expansion, Library};
use crate::refuse::first_fault;
use crate::tally::{costs_of, first_limit};
use cs_base::{Or, Refusal};
use cs_grammar::{Orc, Udo};
use std::alloc::Global;

impl<'t> Expansion<'t> {
    ghost use Rattle.cs_udo.specs.Ready.{IsReady};

    /// Returns an orchestra with its definitions, without copying anything. Otherwise returns the first
    /// refused call, or, if no call is refused, the first exceeded limit on instruments or statements, each
    /// with its line. The names of the definitions are different, as in every orchestra that is read.
    pub fn new(alloc: Global, orc: &'t Orc) -> Result<Expansion<'t>, Or<Refusal>>
        requires { IsWellFormed (tree.orchestra orc.now) }
        ensures ready { IfOk result (λ e. IsReady e) }
        ensures orchestra { IfOk result (λ e. tree.orchestra e.orc.now ≡ tree.orchestra orc.now) }
        ensures expanded { IfOk result (λ _. expanding (tree.orchestra orc.now)
            ≡ Ok (expanded_orchestra (tree.orchestra orc.now))) }
        ensures fault { (f : Refusal) → result ≡ Err (or.Fault f) → expanding (tree.orchestra orc.now) ≡ Err f }
    {
        let definitions: &'t [Udo] = &orc.opcodes;
        let library = Library::new(alloc, definitions)?;
        check(alloc, &library, orc)?;
        Ok(Expansion { orc, library })
    }
}

// Refuses an orchestra with a call that breaks a rule, or otherwise one that exceeds a limit.
fn check(alloc: Global, library: &Library, orc: &Orc) -> Result<(), Or<Refusal>>
    requires { definitions_of library.now ≡ (tree.orchestra orc.now).opcodes }
    ensures fine { IfOk result (λ _. first_fault (tree.orchestra orc.now) ≡ None) }
    ensures within { IfOk result (λ _. first_limit (tree.orchestra orc.now) ≡ None) }
    ensures fault { (f : Refusal) → result ≡ Err (or.Fault f) → expanding (tree.orchestra orc.now) ≡ Err f }
{
    if let Some(fault) = first_fault(library, orc) {
        return Err(Or::Fault(Refusal::Orc(fault)));
    }
    let costs = costs_of(alloc, library)?;
    match first_limit(library, &costs, &orc.instrs) {
        None => Ok(()),
        Some(hit) => Err(Or::Fault(Refusal::Limit(hit))),
    }
}
