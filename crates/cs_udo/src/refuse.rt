// Refused calls.
ghost use Rattle.std.specs.Prelude.{◌≡◌, ◌==◌, ◌&&◌, ◌||◌, not, if◌then◌else◌, Some, None, map, length};
ghost use Rattle.cs_base.specs.declared.fault.OrcKind.TheVariants as orc;
ghost use Rattle.cs_grammar.specs.Tree as tree;
ghost use Rattle.cs_grammar.specs.declared.tree.Arm.{out-Arm};
ghost use Rattle.cs_udo.specs.Refused.{has_text, broken_rule, at, call_faults, uppermost_of, faults, faults_in};
ghost use Rattle.cs_udo.specs.Refused.{faults_in_arms, faults_outside, faults_of_definitions, faults_of_instruments};
ghost use Rattle.cs_udo.specs.{Refused.first_fault, Library.definitions_of};
ghost use Rattle.cs_udo.specs.Expanded.{Opcodes, no_opcodes, defined, template};
ghost use Rattle.cs_udo.specs.inner.Walks.{opcodes_at, listed, after_faults};

use crate::library::Library;
use cs_base::{Name, OrcFault, OrcKind};
use cs_grammar::{Arg, Arm, Callee, Instr, Orc, OrcStmt, StmtWhat, Udo};

/// The context of calls, and the number of definitions before them.
#[derive(Clone, Copy)]
pub struct Site<'l, 't> {
    library: &'l Library<'t>,
    visible: usize,
    // Whether the calls are inside an instrument or a definition.
    inside: bool,
}

fn has_text(args: &[Arg]) -> bool
    ensures { result ≡ has_text (map tree.argument args.now) }
{
    for arg in args {
        if matches!(arg, Arg::Text(_)) {
            return true;
        }
    }
    false
}

// Whether there are as many results and arguments as the definition has.
fn are_as_many(results: &[Name], args: &[Arg], definition: &Udo) -> bool
    ensures { result
        ≡ (length results.now == length definition.now.outs && length args.now == length definition.now.names) }
{
    results.len() == definition.outs.len() && args.len() == definition.names.len()
}

// Whether a call has a text among its arguments, or is outside instruments and definitions.
fn is_misplaced(inside: bool, args: &[Arg]) -> bool
    ensures { result ≡ (has_text (map tree.argument args.now) || not inside) }
{
    has_text(args) || !inside
}

fn rule_of(as_many: bool, misplaced: bool) -> Option<OrcKind>
    ensures { result
        ≡ (if not as_many then Some orc.ArgCount else (if misplaced then Some orc.RateMismatch else None)) }
{
    if !as_many {
        Some(OrcKind::ArgCount)
    } else if misplaced {
        Some(OrcKind::RateMismatch)
    } else {
        None
    }
}

// The rule that a call of a definition breaks, if any.
fn broken_rule(inside: bool, results: &[Name], args: &[Arg], definition: &Udo) -> Option<OrcKind>
    ensures { (opcodes : Opcodes) → result
        ≡ broken_rule inside results.now (map tree.argument args.now)
        (template opcodes (tree.definition definition.now)) }
{
    rule_of(
        are_as_many(results, args, definition),
        is_misplaced(inside, args),
    )
}

fn fault_at(line: u32, kind: Option<OrcKind>) -> Option<OrcFault>
    ensures { listed result ≡ at line kind }
{
    match kind {
        None => None,
        Some(kind) => Some(OrcFault { line, kind }),
    }
}

// The fault of a call, if any.
fn call_fault(
    site: &Site,
    line: u32,
    results: &[Name],
    callee: &Callee,
    args: &[Arg],
) -> Option<OrcFault>
    ensures { listed result ≡ call_faults site.now.inside line results.now (map tree.argument args.now)
        (defined (opcodes_at site.now) callee.now) }
{
    match site.library.find(site.visible, callee) {
        None => None,
        Some(found) => {
            fault_at(
                line,
                broken_rule(site.inside, results, args, found.definition),
            )
        }
    }
}

// The earlier of two faults, by line.
fn uppermost(first: Option<OrcFault>, next: Option<OrcFault>) -> Option<OrcFault>
    ensures { result ≡ uppermost_of first next }
{
    match (first, next) {
        (None, _) => next,
        (Some(_), None) => first,
        (Some(f), Some(g)) => if f.line <= g.line { first } else { next },
    }
}

#[cycle(refuse)]
fn after_stmt(first: Option<OrcFault>, site: &Site, s: &OrcStmt) -> Option<OrcFault>
    ensures { result ≡ after_faults first (faults (opcodes_at site.now) site.now.inside (tree.statement s.now)) }
{
    match &s.what {
        StmtWhat::Set(_, _) => first,
        StmtWhat::Call(results, callee, args) => uppermost(
            first,
            call_fault(site, s.line, results.as_slice(), callee, args),
        ),
        StmtWhat::Choose(list, els) => after_block(after_arms(first, site, list), site, els),
    }
}

#[cycle(refuse)]
fn after_block(first: Option<OrcFault>, site: &Site, stmts: &[OrcStmt]) -> Option<OrcFault>
    ensures { result ≡ after_faults first (faults_in (opcodes_at site.now) site.now.inside (tree.block stmts.now)) }
{
    let mut known = first;
    for s in stmts {
        known = after_stmt(known, site, s);
    }
    known
}

#[cycle(refuse)]
fn after_arms(first: Option<OrcFault>, site: &Site, list: &[Arm]) -> Option<OrcFault>
    ensures { (els : tree.Block) → after_faults result
        (faults_in (opcodes_at site.now) site.now.inside els)
        ≡ after_faults first
        (faults_in_arms (opcodes_at site.now) site.now.inside (tree.arms els list.now)) }
{
    let mut known = first;
    for a in list {
        known = after_arm(known, site, a);
    }
    known
}

#[cycle(refuse)]
fn after_arm(first: Option<OrcFault>, site: &Site, a: &Arm) -> Option<OrcFault>
    ensures { result ≡ after_faults first
        (faults_in (opcodes_at site.now) site.now.inside (tree.block (out-Arm a.now).body.items)) }
{
    after_block(first, site, &a.body)
}

// The earliest fault after the statements outside instruments are checked, each against the definitions
// before it.
fn after_outside(
    first: Option<OrcFault>,
    library: &Library,
    outside: &[OrcStmt],
) -> Option<OrcFault>
    ensures { result ≡ after_faults first (faults_outside (definitions_of library.now) (tree.block outside.now)) }
{
    let mut known = first;
    for s in outside {
        let site = Site {
            library,
            visible: library.before(s.line),
            inside: false,
        };
        known = after_stmt(known, &site, s);
    }
    known
}

// The earliest fault after the definitions are checked, each against the definitions before it.
fn after_definitions(first: Option<OrcFault>, library: &Library) -> Option<OrcFault>
    ensures { result ≡ after_faults first (faults_of_definitions no_opcodes (definitions_of library.now)) }
{
    let mut known = first;
    let definitions = library.definitions;
    for i in 0..definitions.len() {
        let site = Site {
            library,
            visible: i,
            inside: true,
        };
        known = after_block(known, &site, &definitions[i].body);
    }
    known
}

// The earliest fault after the instruments are checked, each against the definitions before it.
fn after_instruments(
    first: Option<OrcFault>,
    library: &Library,
    instrs: &[Instr],
) -> Option<OrcFault>
    ensures { result
        ≡ after_faults first (faults_of_instruments (definitions_of library.now) (map tree.instrument instrs.now)) }
{
    let mut known = first;
    for i in instrs {
        let site = Site {
            library,
            visible: library.before(i.line),
            inside: true,
        };
        known = after_block(known, &site, &i.body);
    }
    known
}

/// Returns the first refused call of an orchestra, or `None` if there is none.
pub fn first_fault(library: &Library, orc: &Orc) -> Option<OrcFault>
    requires { (definitions_of library.now) ≡ (tree.orchestra orc.now).opcodes }
    ensures { result ≡ first_fault (tree.orchestra orc.now) }
{
    let outside = after_outside(None, library, &orc.zero);
    let definitions = after_definitions(outside, library);
    after_instruments(definitions, library, &orc.instrs)
}
