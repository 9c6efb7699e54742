// `zakinit`s outside instruments, in the order of the text: their first fault, and the two zak spaces.
ghost use Rattle.std.specs.{Prelude.◌≡◌, Prelude.map, Prelude.true, Prelude.false, Prelude.None, List.list_all};
ghost use Rattle.cs_grammar.specs.Tree as tree;
ghost use Rattle.cs_typing.specs.Settings.{at, is_size, zak_fault, zaks, zaks_of_block, zaks_of_arms};
ghost use Rattle.cs_typing.specs.Settings.{zaks_fault, places, sizes, zak_spaces};
ghost use Rattle.cs_typing.specs.inner.Settled.{zak_at, after_zak, after_zaks};

use crate::headers::{is_whole_to, whole};
use cs_base::{GREATEST_ZAK_SIZE, OrcFault, OrcKind, Spaces};
use cs_grammar::{Arg, Arm, Callee, Expr, OrcStmt, StmtWhat};
use cs_words::Opcode;

/// The data about the `zakinit`s before a point of the text.
#[derive(Clone, Copy)]
pub struct Zaks {
    /// Whether there is one.
    pub seen: bool,
    /// The first rule that they break.
    pub fault: Option<OrcFault>,
    /// The zak spaces that the first of them sets.
    pub spaces: Spaces,
}

// Whether an argument may be a size: a literal integer from 1 to 1,000. A text is checked with its statement.
fn is_size(arg: &Arg) -> bool
    ensures { result ≡ is_size (tree.argument arg.now) }
{
    match arg {
        Arg::Value(Expr::Number(value)) => is_whole_to(GREATEST_ZAK_SIZE, *value),
        Arg::Value(_) => false,
        Arg::Text(_) => true,
    }
}

fn all_sizes(args: &[Arg]) -> bool
    ensures { result ≡ list_all is_size (map tree.argument args.now) }
{
    for arg in args {
        if !is_size(arg) {
            return false;
        }
    }
    true
}

// The first rule that a `zakinit` breaks; `before` is true if there is an earlier one.
fn zak_fault(before: bool, line: u32, args: &[Arg]) -> Option<OrcFault>
    ensures { result ≡ at line (zak_fault before (zak_at line (map tree.argument args.now))) }
{
    if !all_sizes(args) {
        Some(OrcFault {
            line,
            kind: OrcKind::HeaderValue,
        })
    } else if before {
        Some(OrcFault {
            line,
            kind: OrcKind::HeaderTwice,
        })
    } else {
        None
    }
}

// The number of places for a size: places 0 to the size.
fn places(arg: &Arg) -> u32
    ensures { result ≡ places (tree.argument arg.now) }
{
    match arg {
        Arg::Value(Expr::Number(value)) => whole(*value) + 1,
        _ => 0,
    }
}

// No places.
const NO_SPACES: Spaces = Spaces {
    control: 0,
    audio: 0,
};

// The zak spaces for two sizes; the first size is for the a-rate space.
fn sizes(args: &[Arg]) -> Spaces
    ensures { result ≡ sizes (map tree.argument args.now) }
{
    match args {
        [a, b, ..] => Spaces {
            control: places(b),
            audio: places(a),
        },
        _ => NO_SPACES,
    }
}

fn after_zak(before: Zaks, line: u32, args: &[Arg]) -> Zaks
    ensures { result ≡ after_zak before (zak_at line (map tree.argument args.now)) }
{
    Zaks {
        seen: true,
        fault: before.fault.or(zak_fault(before.seen, line, args)),
        spaces: if before.seen {
            before.spaces
        } else {
            sizes(args)
        },
    }
}

#[cycle(zaks)]
fn after_stmt(before: Zaks, s: &OrcStmt) -> Zaks
    ensures { result ≡ after_zaks before (zaks (tree.statement s.now)) }
{
    match &s.what {
        StmtWhat::Set(_, _) => before,
        StmtWhat::Call(_, callee, args) => {
            if matches!(callee, Callee::Opcode(Opcode::Zakinit)) {
                after_zak(before, s.line, args)
            } else {
                before
            }
        }
        StmtWhat::Choose(list, els) => after_block(after_arms(before, list), els),
    }
}

#[cycle(zaks)]
fn after_block(before: Zaks, stmts: &[OrcStmt]) -> Zaks
    ensures { result ≡ after_zaks before (zaks_of_block (tree.block stmts.now)) }
{
    let mut known = before;
    for s in stmts {
        known = after_stmt(known, s);
    }
    known
}

#[cycle(zaks)]
fn after_arms(before: Zaks, list: &[Arm]) -> Zaks
    ensures { (els : tree.Block) → after_zaks result (zaks_of_block els)
        ≡ after_zaks before (zaks_of_arms (tree.arms els list.now)) }
{
    let mut known = before;
    for a in list {
        known = after_block(known, &a.body);
    }
    known
}

/// Returns the first fault of the `zakinit`s among statements, including those in `if`s, and the two spaces.
pub fn zaks_of(outside: &[OrcStmt]) -> Zaks
    ensures fault { result.fault ≡ zaks_fault false (zaks_of_block (tree.block outside.now)) }
    ensures spaces { result.spaces ≡ zak_spaces (zaks_of_block (tree.block outside.now)) }
{
    let none = Zaks {
        seen: false,
        fault: None,
        spaces: NO_SPACES,
    };
    after_block(none, outside)
}
