// Counts the notes that are active in each cycle, in one pass through the events in order.
ghost use Rattle.std.specs.Prelude.{◌≡◌, ◌≤◌, ◌<◌, ◌+◌, ◌++◌, [], ℕ, length, nat_lt, slice_index, cond, IfOk, OnOk};
ghost use Rattle.cs_base.specs.Limits.{most_notes};
ghost use Rattle.std.specs.List.Sorted.{IsNonDecreasingBy, IsNonDecreasing, IsPermutation};
ghost use Rattle.cs_score.specs.Limits.{first_at};
ghost use Rattle.cs_tempo.specs.Limits.{passes_notes, at_event, cycles_in};
ghost use Rattle.cs_tempo.specs.inner.Sweep.{ends_of, own_end, is_note, HaveEnded};

use crate::plot::{Event, EventAct};
use cs_base::{Limit, LimitHit, MOST_NOTES, OutOfMemory};
use std::alloc::Global;

/// The limit hit at the first start that makes more notes active in its cycle than allowed, or `None`.
pub fn note_hit(alloc: Global, events: &[Event]) -> Result<Option<LimitHit>, OutOfMemory>
    requires { IsNonDecreasingBy (λ e. e.cycle) events.now }
    ensures { IfOk result (λ hit. hit ≡ at_event (first_at passes_notes [] events.now)) }
{
    let ends = sorted_ends(alloc, events)?;
    let mut started: usize = 0;
    let mut ended: usize = 0;
    for event in events {
        started += notes_in(event);
        ended = ended_by(&ends, ended, u64::from(event.cycle));
        if is_too_many(started - ended) {
            return Ok(Some(LimitHit {
                limit: Limit::Notes,
                line: event.line,
            }));
        }
    }
    Ok(None)
}

// Whether this number of active notes exceeds the limit.
fn is_too_many(active: usize) -> bool
    ensures { result ≡ nat_lt most_notes active }
{
    active > MOST_NOTES
}

// The number of ends at or before a cycle. The first `from` of them are known to be.
fn ended_by(ends: &[u64], from: usize, cycle: u64) -> usize
    requires within { from ≤ length ends.now }
    requires below { (i : ℕ) → i < from → slice_index ends.now i ≤ cycle }
    ensures { HaveEnded ends.now cycle result }
{
    let mut ended = from;
    while ended < ends.len() && ends[ended] <= cycle {
        ended += 1;
    }
    ended
}

// The cycles in which notes end, in ascending order.
fn sorted_ends(alloc: Global, events: &[Event]) -> Result<Vec<u64>, OutOfMemory>
    ensures ends { IfOk result (λ ends. IsPermutation (ends_of events.now) ends.items) }
    ensures order { IfOk result (λ ends. IsNonDecreasing ends.items) }
{
    let mut ends = Vec::new(alloc);
    for event in events {
        push_end(&mut ends, event)?;
    }
    ends.sort()?;
    Ok(ends)
}

fn push_end(ends: &mut Vec<u64>, event: &Event) -> Result<(), OutOfMemory>
    ensures { OnOk result (ends.new.items ≡ ends.old.items ++ own_end event.now) }
{
    let cycles = cycles_in(&event.act);
    if cycles > 0 {
        ends.push(u64::from(event.cycle) + u64::from(cycles))?;
    }
    Ok(())
}

fn notes_in(event: &Event) -> usize
    ensures { result ≡ cond (is_note event.now) 1 0 }
{
    if cycles_in(&event.act) > 0 { 1 } else { 0 }
}

// The number of cycles that an event's note lasts, or 0 for a table.
fn cycles_in(act: &EventAct) -> u32
    ensures { result ≡ cycles_in act.now }
{
    match act {
        EventAct::Start { cycles, .. } => *cycles,
        EventAct::Table { .. } => 0,
    }
}
