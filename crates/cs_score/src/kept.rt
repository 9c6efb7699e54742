// The statements of a score that are stored: all of them, until they exceed a limit. Later statements aren't
// counted.
ghost use Rattle.std.specs.Prelude.{◌≡◌, ◌++◌, ◌∷◌, [], ℕ, List, nat_lt, cond, All, IfOk, OnOk, Option, Some, None};
ghost use Rattle.std.specs.{Prelude.Err, Prelude.if◌then◌else◌, Option.is_none, Option.option_or};
ghost use Rattle.cs_base.specs.declared.limit.LimitHit.{LimitHit};
ghost use Rattle.cs_score.specs.{declared.statement.ScoreStmt.ScoreStmt, Ranges.IsInRange};
ghost use Rattle.cs_score.specs.Limits.{is_counted, limit_of_score, own_number};
ghost use Rattle.cs_score.specs.inner.Counts.{HasCount, HasNumbers, IsSeen, Holds};

use crate::{ScoreStmt, ScoreStmts, ScoreWhat};
use cs_base::{Limit, LimitHit, MOST_EVENTS, MOST_TABLES};
use std::alloc::{AllocError, Global};

/// The different table numbers so far, and the limit hit at the table that made them too many.
#[derive(Drop)]
pub struct TableNumbers {
    pub seen: Vec<u32>,
    pub hit: Option<LimitHit>,
}

/// The number of `i` and `f` statements so far, and the limit hit at the statement that made them too many.
#[derive(Drop)]
pub struct EventCount {
    pub count: usize,
    pub hit: Option<LimitHit>,
}

/// The statements so far: all of them, until they exceed a limit.
#[derive(Drop)]
pub struct KeptStatements {
    pub statements: ScoreStmts,
    pub tables: TableNumbers,
    pub events: EventCount,
}

impl TableNumbers {
    fn new(alloc: Global) -> TableNumbers
        ensures { HasNumbers [] result }
    {
        TableNumbers {
            seen: Vec::new(alloc),
            hit: None,
        }
    }

    fn see(&mut self, statement: &ScoreStmt) -> Result<(), AllocError>
        ensures { (all : List ScoreStmt) → HasNumbers all self.old
            → OnOk result (HasNumbers (all ++ statement.now ∷ []) self.new) }
    {
        if self.hit.is_none() {
            see_table(&mut self.seen, &statement.what)?;
            self.hit = hit(self.seen.len(), MOST_TABLES, Limit::Tables, statement.line);
        }
        Ok(())
    }
}

// Adds the number of a table statement to `seen`.
fn see_table(seen: &mut Vec<u32>, what: &ScoreWhat) -> Result<(), AllocError>
    ensures { (numbers : List ℕ) → IsSeen seen.old.items numbers
        → OnOk result (IsSeen seen.new.items (numbers ++ own_number what.now)) }
{
    match what {
        ScoreWhat::Table { number, .. } => see_number(seen, *number),
        _ => Ok(()),
    }
}

fn see_number(seen: &mut Vec<u32>, number: u32) -> Result<(), AllocError>
    ensures { (numbers : List ℕ) → IsSeen seen.old.items numbers
        → OnOk result (IsSeen seen.new.items (numbers ++ number ∷ [])) }
{
    if seen.contains(&number) {
        return Ok(());
    }
    seen.push(number)?;
    Ok(())
}

// The limit hit at a statement, if it brings `count` above `most`.
fn hit(count: usize, most: usize, limit: Limit, line: u32) -> Option<LimitHit>
    ensures { result ≡ (if nat_lt most count then Some (record { limit = limit; line = line }) else None) }
{
    if count > most {
        Some(LimitHit { limit, line })
    } else {
        None
    }
}

impl EventCount {
    fn new() -> EventCount
        ensures { HasCount [] result }
    {
        EventCount {
            count: 0,
            hit: None,
        }
    }

    fn see(&mut self, statement: &ScoreStmt)
        ensures { (all : List ScoreStmt) → HasCount all self.old → HasCount (all ++ statement.now ∷ []) self.new }
    {
        if self.hit.is_none() {
            self.count = self.count.saturating_add(counted(&statement.what));
            self.hit = hit(self.count, MOST_EVENTS, Limit::Events, statement.line);
        }
    }
}

fn counted(what: &ScoreWhat) -> usize
    ensures { result ≡ cond (is_counted what.now) 1 0 }
{
    match what {
        ScoreWhat::Tempo { .. } | ScoreWhat::Section => 0,
        _ => 1,
    }
}

impl KeptStatements {
    /// No statements so far.
    pub fn new(alloc: Global) -> KeptStatements
        ensures keeps { Holds [] result }
        ensures none { result.statements ≡ [] }
    {
        KeptStatements {
            statements: ScoreStmts::new(alloc),
            tables: TableNumbers::new(alloc),
            events: EventCount::new(),
        }
    }

    /// Adds a statement. It is stored unless a limit was exceeded.
    pub fn take(&mut self, statement: ScoreStmt) -> Result<(), AllocError>
        ensures keeps { (all : List ScoreStmt) → Holds all self.old
            → OnOk result (Holds (all ++ statement ∷ []) self.new) }
        ensures ranges { OnOk result (All IsInRange self.old.statements → IsInRange statement
            → All IsInRange self.new.statements) }
    {
        self.tables.see(&statement)?;
        self.events.see(&statement);
        if self.hit().is_none() {
            self.statements.push(statement)?;
        }
        Ok(())
    }

    // The first limit that was exceeded: the one on table numbers, otherwise the one on statements.
    fn hit(&self) -> Option<LimitHit>
        ensures { result ≡ option_or self.now.tables.hit self.now.events.hit }
    {
        self.tables.hit.or(self.events.hit)
    }

    /// Returns the statements, or the first limit that they exceed.
    pub fn answer(self) -> Result<ScoreStmts, LimitHit>
        ensures statements { (all : List ScoreStmt) → Holds all self
            → IfOk result (λ statements. (statements ≡ all) × (limit_of_score all ≡ None)) }
        ensures kept { IfOk result (λ statements. statements ≡ self.statements) }
        ensures limit { (all : List ScoreStmt) (hit : LimitHit) → Holds all self
            → result ≡ Err hit → limit_of_score all ≡ Some hit }
    {
        match self.hit() {
            Some(hit) => Err(hit),
            None => Ok(self.statements),
        }
    }
}
