// The order in which the tables, notes and stops of a section take effect.
ghost use Rattle.std.specs.Prelude.{◌≡◌, ◌<◌, ◌+◌, length, map, IfOk, OnOk, Option, Some, None, ◌++◌, if◌then◌else◌};
ghost use Rattle.std.specs.List.{All};
ghost use Rattle.cs_score.specs.Ranges.{IsInRange, HasRange};
ghost use Rattle.cs_tempo.specs.Order.{has_turn, in_order};
ghost use Rattle.cs_tempo.specs.inner.Turns.{turn_of, own_turn, turns_from, turn_order, sorted};

use cs_base::OutOfMemory;
use cs_score::{ScoreStmt, ScoreWhat};
use std::alloc::Global;

/// The key by which turns are sorted: the beat, p1 and p3, and the index in the section.
#[derive(Clone, Copy, PartialEq, Eq, PartialOrd, Ord)]
pub struct SortKey {
    pub at: u64,
    pub p1: i32,
    pub p3: i64,
    pub index: usize,
}

// The p1 of a table in the sort key. It is below every other p1, so that tables come first.
const TABLE: i32 = -32_768;

/// Returns the statements of a section that have a turn, in the order of their turns.
pub fn in_order(alloc: Global, section: &[ScoreStmt]) -> Result<Vec<&ScoreStmt>, OutOfMemory>
    requires { All IsInRange section.now }
    ensures { IfOk result (λ order. map (λ s. s.now) order.items ≡ in_order section.now) }
{
    let turns = sorted_turns(alloc, section)?;
    let mut order = Vec::new(alloc);
    for turn in &turns {
        order.push(&section[turn.index])?;
    }
    Ok(order)
}

fn sorted_turns(alloc: Global, section: &[ScoreStmt]) -> Result<Vec<SortKey>, OutOfMemory>
    requires { All IsInRange section.now }
    ensures sorted { IfOk result (λ turns. turns.items ≡ sorted turn_order (turns_from 0 section.now)) }
    ensures within { IfOk result (λ turns. All (λ t. t.index < length section.now) turns.items) }
{
    let mut turns = turns_of(alloc, section)?;
    turns.sort()?;
    Ok(turns)
}

fn turns_of(alloc: Global, section: &[ScoreStmt]) -> Result<Vec<SortKey>, OutOfMemory>
    requires { All IsInRange section.now }
    ensures { IfOk result (λ turns. turns.items ≡ turns_from 0 section.now) }
{
    let mut turns = Vec::new(alloc);
    for (index, statement) in section.iter().enumerate() {
        push_turn(&mut turns, &statement.what, index)?;
    }
    Ok(turns)
}

fn push_turn(turns: &mut Vec<SortKey>, what: &ScoreWhat, index: usize) -> Result<(), OutOfMemory>
    requires { HasRange what.now }
    ensures { OnOk result (turns.new.items ≡ turns.old.items ++ own_turn index what.now) }
{
    if let Some(turn) = turn_of(what, index) {
        turns.push(turn)?;
    }
    Ok(())
}

// The sort key of the statement at an index, if it has a turn.
fn turn_of(what: &ScoreWhat, index: usize) -> Option<SortKey>
    requires { HasRange what.now }
    ensures { result ≡ (if has_turn what.now then Some (turn_of index what.now) else None) }
{
    let (at, p1, p3) = match what {
        ScoreWhat::Note {
            instr,
            at,
            length,
            ..
        } => (*at, *instr as i32, *length as i64),
        ScoreWhat::Hold {
            instr,
            at,
            given,
            ..
        } => (*at, *instr as i32, given.raw()),
        ScoreWhat::Stop { instr, at } => (*at, -(*instr as i32), 0),
        ScoreWhat::Table { at, .. } => (*at, TABLE, 0),
        _ => return None,
    };
    Some(SortKey { at, p1, p3, index })
}
