// Reads the complete text, line after line.
ghost use Rattle.std.specs.Prelude.{◌≡◌, ◌≤◌, [], length, Some, None, Result, Ok, Err, IfOk, OnOk, All};
ghost use Rattle.cs_base.specs.{Limits.most_score_bytes, declared.fault.ScoreFault.ScoreFault};
ghost use Rattle.cs_base.specs.declared.fault.Or.TheVariants as or;
ghost use Rattle.cs_base.specs.declared.refusal.Refusal.{Refusal};
ghost use Rattle.cs_score.specs.Limits.{IsRefusedFor, limit_of_score};
ghost use Rattle.cs_score.specs.{Plain.plain_of, Ranges.IsInRange, Statements.score_of};
ghost use Rattle.cs_score.specs.{inner.Counts.Holds, inner.Counts.IsWhole};
ghost use Rattle.cs_score.specs.inner.Past.{IsFaultOf, Keeps, LineTaken};

use crate::comment::plain;
use crate::kept::KeptStatements;
use crate::line::read_line;
use crate::past::Past;
use crate::row::{Row, StatementLetter};
use crate::statement_fault::StatementFault;
use crate::{ScoreStmt, ScoreStmts};
use cs_base::{Excerpt, Or, Refusal, ScoreFault};
use std::alloc::Global;

/// Reads a score of at most 4,194,304 bytes into its statements. Fails with the first fault; otherwise with
/// the first limit that the statements exceed, first the limit on table numbers, then the limit on
/// statements. Carried fields are filled in, and the base of the section is added.
pub fn read_score(alloc: Global, text: &Excerpt) -> Result<ScoreStmts, Or<Refusal>>
    requires { length text.now.bytes ≤ most_score_bytes }
    ensures statements { IfOk result (λ statements. score_of text.now ≡ Ok statements) }
    ensures within { IfOk result (λ statements. limit_of_score statements ≡ None) }
    ensures ranges { IfOk result (λ statements. All IsInRange statements) }
    // The first fault of the complete text, even if a limit is exceeded before it.
    ensures refused { (r : Refusal) → result ≡ Err (or.Fault r) → IsRefusedFor r (score_of text.now) }
{
    let kept = read_all(alloc, text)?;
    match kept.answer() {
        Ok(statements) => Ok(statements),
        Err(hit) => Err(Or::Fault(Refusal::Limit(hit))),
    }
}

// Reads the complete text. Statements are stored until they exceed a limit.
fn read_all(alloc: Global, text: &Excerpt) -> Result<KeptStatements, Or<ScoreFault>>
    requires { length text.now.bytes ≤ most_score_bytes }
    ensures whole { IfOk result (IsWhole text.now) }
    ensures ranges { IfOk result (λ kept. All IsInRange kept.statements) }
    ensures fault { (f : ScoreFault) → result ≡ Err (or.Fault f) → score_of text.now ≡ Err f }
{
    let plain = plain(alloc, text.bytes())?;
    let mut past = Past::new(alloc);
    let mut kept = KeptStatements::new(alloc);
    read_lines(alloc, text, &plain, &mut past, &mut kept)?;
    Ok(kept)
}

// Reads all lines. `plain` is the text without its comments.
fn read_lines(
    alloc: Global,
    text: &Excerpt,
    plain: &[u8],
    past: &mut Past,
    kept: &mut KeptStatements,
) -> Result<(), Or<ScoreFault>>
    requires small { length text.now.bytes ≤ most_score_bytes }
    requires plain { plain.now ≡ plain_of text.now.bytes }
    requires keeps { Keeps [] past.old }
    requires holds { Holds [] kept.old }
    requires none { kept.old.statements ≡ [] }
    ensures whole { OnOk result (IsWhole text.now kept.new) }
    ensures ranges { OnOk result (All IsInRange kept.new.statements) }
    ensures fault { (f : ScoreFault) → result ≡ Err (or.Fault f) → score_of text.now ≡ Err f }
{
    let mut at = 0;
    let mut line = text.first_line();
    while at < plain.len() {
        let read = read_line(alloc, text, plain, at, line)?;
        at = read.next;
        line = read.line;
        let ends = read_row(alloc, past, kept, read.row)?;
        if ends {
            return Ok(());
        }
    }
    Ok(())
}

// Adds the statement of a line, if it has one. Returns whether it was an `e`.
fn read_row(
    alloc: Global,
    past: &mut Past,
    kept: &mut KeptStatements,
    row: Option<Row>,
) -> Result<bool, Or<ScoreFault>>
    ensures read { IfOk result (λ ends. LineTaken past.old kept.old row ends past.new kept.new) }
    ensures fault { (f : ScoreFault) → result ≡ Err (or.Fault f) → IsFaultOf past.old row f }
    ensures ranges { OnOk result (All IsInRange kept.old.statements → All IsInRange kept.new.statements) }
{
    let Some(row) = row else {
        return Ok(false);
    };
    let line = row.line;
    let ends = matches!(row.letter, StatementLetter::End);
    match past.read(alloc, row) {
        Ok(None) => Ok(ends),
        Ok(Some(what)) => {
            kept.take(ScoreStmt { line, what })?;
            Ok(ends)
        }
        Err(StatementFault::Kind(kind)) => Err(Or::Fault(ScoreFault { line, kind })),
        Err(StatementFault::OutOfMemory) => Err(Or::OutOfMemory),
    }
}
