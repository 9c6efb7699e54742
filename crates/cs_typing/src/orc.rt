// An orchestra: its parts in the order of the text, each instrument with its own local variables.
ghost use Rattle.std.specs.Prelude.{◌≡◌, ◌≤◌, ◌++◌, ◌∷◌, [], List, OnOk, IfOk, length, map, None, Err, nat_lt};
ghost use Rattle.std.specs.List.{prefix_len};
ghost use Rattle.cs_base.specs.declared.fault.Or.TheVariants as or;
ghost use Rattle.cs_base.specs.declared.fault.OrcFault.{OrcFault};
ghost use Rattle.cs_grammar.specs.Tree as tree;
ghost use Rattle.cs_typed.specs.TypedTree as typed;
ghost use Rattle.cs_typing.specs.Typing.{items, alone, body, type_fault, typed_of};
ghost use Rattle.cs_typing.specs.{inner.Answers.Judged, inner.Settled.settings_of, inner.Listed.blocks_in};
ghost use Rattle.cs_typing.specs.{inner.Walk.made_of, inner.Walk.IsBehind, inner.Held.known_of};
ghost use Rattle.cs_typing.specs.inner.Parts.{made_from, made_with, nothing, part_fault, parts_fault, instrument_in};
ghost use Rattle.cs_typing.specs.inner.Parts.{statements_fault, typed_by};
ghost use Rattle.cs_typing.specs.inner.Walk.{AddsPart, AddsParts, AreSound, GivesInstrument, GivesOrc, IsBegun};
ghost use Rattle.cs_udo.specs.{Expanded.expanded_orchestra, Library.definitions_of, Ready.IsReady};

use crate::globals::globals_of;
use crate::known::{KnownNames, Scope};
use crate::routines::{RoutineTable, Site, SoFar};
use crate::settle::{Settings, judge_settings};
use crate::stmt::block;
use cs_base::{Or, OrcFault, OutOfMemory};
use cs_grammar::{Instr, OrcStmt};
use cs_typed::{Setting, TypedInstr, TypedOrc, TypedStmts};
use cs_udo::{Expansion, Library};
use std::alloc::Global;
use std::mem::replace;

/// The typed form of the parts so far: the statements outside instruments, and the instruments.
#[derive(Drop)]
pub struct Done {
    zero: TypedStmts,
    instrs: Vec<TypedInstr>,
}

impl Done {
    fn new(alloc: Global) -> Done
        ensures { (rs : List typed.Block) → made_of rs result ≡ nothing }
    {
        Done {
            zero: Vec::new(alloc),
            instrs: Vec::new(alloc),
        }
    }

    fn add_outside(&mut self, mut more: TypedStmts) -> Result<(), OutOfMemory>
        ensures { OnOk result ((rs : List typed.Block) → made_of rs self.new
            ≡ made_with (typed.then_block (made_of rs self.old).zero (typed.block rs more.items))
            (made_of rs self.old).instrs) }
    {
        self.zero.append(&mut more)?;
        Ok(())
    }

    fn add_instrument(&mut self, i: TypedInstr) -> Result<(), OutOfMemory>
        ensures { OnOk result ((rs : List typed.Block) → made_of rs self.new
            ≡ made_with (made_of rs self.old).zero ((made_of rs self.old).instrs ++ typed.instrument rs i ∷ [])) }
    {
        self.instrs.push(i)?;
        Ok(())
    }
}

/// An orchestra that is checked part by part: the known names, and the typed form so far.
#[derive(Drop)]
pub struct Typing<'t> {
    so_far: SoFar<'t>,
    made: Done,
}

impl<'t> Typing<'t> {
    fn new(alloc: Global, expansion: &Expansion<'t>) -> Result<Typing<'t>, OutOfMemory>
        requires { IsReady expansion.now }
        ensures { IfOk result (λ t. IsBegun expansion.now t) }
    {
        let routines = RoutineTable::new(alloc, expansion.library.definitions.len())?;
        let globals = globals_of(alloc, expansion)?;
        Ok(Typing {
            so_far: SoFar {
                names: KnownNames::new(alloc, globals),
                routines,
            },
            made: Done::new(alloc),
        })
    }

    fn add_outside(
        &mut self,
        channels: u32,
        library: &Library<'t>,
        stmts: &'t [OrcStmt],
    ) -> Result<(), Or<OrcFault>>
        requires sound { AreSound channels (definitions_of library.now) self.old.so_far }
        ensures { AddsPart channels (definitions_of library.now) self.old self.new result
            (alone (tree.block stmts.now)) }
    {
        let site = Site {
            setting: Setting {
                inside: false,
                channels,
            },
            library,
            visible: 0,
        };
        let more = block(&site, &mut self.so_far, stmts)?;
        Ok(self.made.add_outside(more)?)
    }

    fn add_instrument(
        &mut self,
        channels: u32,
        library: &Library<'t>,
        i: &'t Instr,
    ) -> Result<(), Or<OrcFault>>
        requires sound { AreSound channels (definitions_of library.now) self.old.so_far }
        ensures { AddsPart channels (definitions_of library.now) self.old self.new result
            (body (tree.instrument i.now)) }
    {
        let made = instrument(channels, library, &mut self.so_far, i)?;
        Ok(self.made.add_instrument(made)?)
    }

    // Checks the parts of an orchestra in the order of the text, and adds their typed forms.
    fn add_parts(
        &mut self,
        channels: u32,
        library: &Library<'t>,
        outside: &'t [OrcStmt],
        instrs: &'t [Instr],
    ) -> Result<(), Or<OrcFault>>
        requires sound { AreSound channels (definitions_of library.now) self.old.so_far }
        ensures fault { Judged result (parts_fault channels (definitions_of library.now)
            (known_of self.old.so_far.names)
            (items (tree.block outside.now) (map tree.instrument instrs.now))) }
        ensures adds { OnOk result (AddsParts channels (definitions_of library.now) self.old self.new
            (items (tree.block outside.now) (map tree.instrument instrs.now))) }
    {
        let mut rest = outside;
        for i in instrs {
            let (front, back) = rest.split_at(before_line(rest, i.line));
            self.add_outside(channels, library, front)?;
            self.add_instrument(channels, library, i)?;
            rest = back;
        }
        self.add_outside(channels, library, rest)
    }

    fn finished(&mut self, settings: Settings) -> Result<TypedOrc, OutOfMemory>
        ensures { IfOk result (λ t. typed.orchestra t
            ≡ made_from (settings_of settings) (known_of self.old.so_far.names)
            (made_of (blocks_in self.old.so_far.routines) self.old.made)) }
    {
        let alloc = self.so_far.names.alloc();
        let globals = self.so_far.names.shared.copied(alloc)?;
        let made = replace(&mut self.made, Done::new(alloc));
        let list = replace(&mut self.so_far.routines.list, Vec::new(alloc));
        let Done { zero, instrs } = made;
        Ok(TypedOrc {
            head: settings.head,
            spaces: settings.spaces,
            zero,
            instrs,
            routines: list,
            globals,
        })
    }

    // Checks an orchestra whose settings have no fault, of which no part has been checked yet.
    fn typed(
        &mut self,
        settings: Settings,
        expansion: &Expansion<'t>,
    ) -> Result<TypedOrc, Or<OrcFault>>
        requires ready { IsReady expansion.now }
        requires begun { IsBegun expansion.now self.old }
        ensures { GivesOrc result (statements_fault settings.head.nchnls (tree.orchestra expansion.now.orc.now))
            (typed_by (settings_of settings) (tree.orchestra expansion.now.orc.now)) }
    {
        let Expansion { orc, library } = expansion;
        self.add_parts(settings.head.nchnls, library, &orc.zero, &orc.instrs)?;
        Ok(self.finished(settings)?)
    }
}

// The typed form of an instrument, which has its own local variables.
fn instrument<'t>(
    channels: u32,
    library: &Library<'t>,
    so_far: &mut SoFar<'t>,
    i: &'t Instr,
) -> Result<TypedInstr, Or<OrcFault>>
    requires sound { AreSound channels (definitions_of library.now) so_far.old }
    ensures gives { GivesInstrument so_far.new.routines result
        (part_fault channels (definitions_of library.now) (known_of so_far.old.names) (body (tree.instrument i.now)))
        (instrument_in (definitions_of library.now) (known_of so_far.old.names) (tree.instrument i.now)) }
    ensures behind { OnOk result (IsBehind channels (definitions_of library.now) so_far.old so_far.new
        (body (tree.instrument i.now))) }
{
    let site = Site {
        setting: Setting {
            inside: true,
            channels,
        },
        library,
        visible: library.before(i.line),
    };
    let alloc = so_far.names.alloc();
    let numbers = i.numbers.to_items(alloc)?;
    let mut around = Scope::new(alloc);
    so_far.names.exchange(&mut around);
    let body = block(&site, so_far, &i.body)?;
    so_far.names.exchange(&mut around);
    Ok(TypedInstr {
        line: i.line,
        numbers,
        body,
    })
}

// The number of statements before a line.
fn before_line(stmts: &[OrcStmt], line: u32) -> usize
    ensures count { result ≡ prefix_len (λ s. nat_lt s.line line) stmts.now }
    ensures within { result ≤ length stmts.now }
{
    stmts.iter().take_while(|s| s.line < line).count()
}

/// Checks rates, names and types of an orchestra, as if its calls of user-defined opcodes were expanded, and
/// returns its typed form, or its first fault, which is of the kinds 12 to 19. Header lines and `zakinit`s
/// are checked first, then `kr`, and then each statement in the order of the expanded text.
///
/// A definition is checked at its first call. No clause states how often its text is processed.
pub fn type_orc(alloc: Global, expansion: &Expansion<'_>) -> Result<TypedOrc, Or<OrcFault>>
    requires { IsReady expansion.now }
    ensures typed { IfOk result (λ t. typed.orchestra t
        ≡ typed_of (expanded_orchestra (tree.orchestra expansion.now.orc.now))) }
    ensures right { OnOk result (type_fault (expanded_orchestra (tree.orchestra expansion.now.orc.now)) ≡ None) }
    ensures fault { (f : OrcFault) → result ≡ Err (or.Fault f)
        → type_fault (expanded_orchestra (tree.orchestra expansion.now.orc.now)) ≡ Some f }
{
    let settings = judge_settings(&expansion.orc.head, &expansion.orc.zero)?;
    let mut typing = Typing::new(alloc, expansion)?;
    typing.typed(settings, expansion)
}
