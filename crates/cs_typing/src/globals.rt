// The global variables of an orchestra, in the order in which statements first assign them, beginning with
// the statements outside instruments. A variable that a user-defined opcode assigns counts as assigned at its
// first call, so each definition is searched once.
ghost use Rattle.std.specs.Prelude.{◌≡◌, OnOk, IfOk, map, true};
ghost use Rattle.cs_grammar.specs.Tree as tree;
ghost use Rattle.cs_typing.specs.Typing.{given_global, given_globals, all_globals};
ghost use Rattle.cs_typing.specs.inner.Globals.{called_names, names_in, names_in_block, IsDone, Looks};
ghost use Rattle.cs_typing.specs.inner.Globals.{givers_in, names_in_instruments};
ghost use Rattle.cs_udo.specs.{Expanded.expanded_orchestra, Library.definitions_of, Ready.IsReady};

use crate::known::NamesByRate;
use cs_base::{Name, OutOfMemory};
use cs_grammar::{Callee, Instr, OrcStmt, StmtWhat};
use cs_udo::{Expansion, Library};
use cs_words::is_global;
use std::alloc::Global;

/// The global variables so far, and for each definition whether its variables are among them.
#[derive(Drop)]
pub struct GivenGlobals<'t> {
    names: NamesByRate<'t>,
    done: Vec<bool>,
}

/// The definitions before a part of the text.
#[derive(Clone, Copy)]
pub struct Front<'l, 't> {
    library: &'l Library<'t>,
    visible: usize,
}

fn give_global<'t>(t: &mut NamesByRate<'t>, name: &'t [u8]) -> Result<(), OutOfMemory>
    ensures { OnOk result (t.new ≡ given_global t.old name.now) }
{
    if is_global(name) { t.add(name) } else { Ok(()) }
}

fn give_globals<'t>(t: &mut NamesByRate<'t>, names: &'t [Name]) -> Result<(), OutOfMemory>
    ensures { OnOk result (t.new ≡ given_globals t.old names.now) }
{
    for name in names {
        give_global(t, name.as_slice())?;
    }
    Ok(())
}

#[cycle(globals)]
fn globals_of_stmt<'t>(
    given: &mut GivenGlobals<'t>,
    front: Front<'_, 't>,
    s: &'t OrcStmt,
) -> Result<(), OutOfMemory>
    requires { IsDone (definitions_of front.library.now) given.old }
    ensures { OnOk result (Looks front.entry given.old given.new
        (names_in (givers_in front.entry) (tree.statement s.now))) }
{
    match &s.what {
        StmtWhat::Set(name, _) => give_global(&mut given.names, name.as_slice()),
        StmtWhat::Call(results, callee, _) => {
            globals_of_callee(given, front, callee)?;
            give_globals(&mut given.names, results.as_slice())
        }
        StmtWhat::Choose(list, els) => {
            for a in list {
                globals_of_block(given, front, &a.body)?;
            }
            globals_of_block(given, front, els)
        }
    }
}

// Adds the global variables that the called opcode assigns, if it is user-defined and hasn't been searched
// yet.
#[cycle(globals)]
fn globals_of_callee<'t>(
    given: &mut GivenGlobals<'t>,
    front: Front<'_, 't>,
    callee: &Callee,
) -> Result<(), OutOfMemory>
    requires { IsDone (definitions_of front.library.now) given.old }
    ensures { OnOk result (Looks front.entry given.old given.new (called_names (givers_in front.entry) callee.now)) }
{
    match front.library.find(front.visible, callee) {
        None => Ok(()),
        Some(found) => {
            if !given.done[found.place] {
                let inner = Front {
                    library: front.library,
                    visible: found.place,
                };
                globals_of_block(given, inner, &found.definition.body)?;
                given.done[found.place] = true;
            }
            Ok(())
        }
    }
}

#[cycle(globals)]
fn globals_of_block<'t>(
    given: &mut GivenGlobals<'t>,
    front: Front<'_, 't>,
    stmts: &'t [OrcStmt],
) -> Result<(), OutOfMemory>
    requires { IsDone (definitions_of front.library.now) given.old }
    ensures { OnOk result (Looks front.entry given.old given.new
        (names_in_block (givers_in front.entry) (tree.block stmts.now))) }
{
    for s in stmts {
        globals_of_stmt(given, front, s)?;
    }
    Ok(())
}

// Adds the global variables that instruments assign, each with the definitions before it.
fn globals_of_instruments<'t>(
    given: &mut GivenGlobals<'t>,
    library: &Library<'t>,
    instrs: &'t [Instr],
) -> Result<(), OutOfMemory>
    requires { IsDone (definitions_of library.now) given.old }
    ensures { OnOk result (given.new.names ≡ given_globals given.old.names
        (names_in_instruments (definitions_of library.now) (map tree.instrument instrs.now))) }
{
    for i in instrs {
        let front = Front {
            library,
            visible: library.before(i.line),
        };
        globals_of_block(given, front, &i.body)?;
    }
    Ok(())
}

/// Returns the global variables that the statements of an orchestra assign, including the variables of the
/// definitions that they call.
pub fn globals_of<'t>(
    alloc: Global,
    expansion: &Expansion<'t>,
) -> Result<NamesByRate<'t>, OutOfMemory>
    requires { IsReady expansion.now }
    ensures { IfOk result (λ t. t ≡ all_globals (expanded_orchestra (tree.orchestra expansion.now.orc.now))) }
{
    let library = &expansion.library;
    let done = vec![in alloc; false; library.definitions.len()]?;
    let mut given = GivenGlobals {
        names: NamesByRate::new(alloc),
        done,
    };
    let outside = Front {
        library,
        visible: 0,
    };
    globals_of_block(&mut given, outside, &expansion.orc.zero)?;
    globals_of_instruments(&mut given, library, &expansion.orc.instrs)?;
    Ok(given.names)
}
