// The plot of a score, or the first limit that it exceeds.
ghost use Rattle.std.specs.Prelude.{◌≡◌, ◌≤◌, ◌<◌, ◌+◌, ◌^◌, ◌++◌, [], map, sum, IfOk, OnOk, Some, None};
ghost use Rattle.std.specs.List.{All};
ghost use Rattle.cs_base.specs.declared.limit.LimitHit.{LimitHit};
ghost use Rattle.cs_base.specs.declared.fault.Or.TheVariants as or;
ghost use Rattle.cs_score.specs.{Ranges.IsInRange, Limits.limit_of_score};
ghost use Rattle.cs_tempo.specs.{Sections.length_of, Sections.sections_of, Order.in_order, Performable.IsPerformable};
ghost use Rattle.cs_tempo.specs.Plot.{setting_of, events_along, events_from, plot_of_sections, plot_of};
ghost use Rattle.cs_tempo.specs.Limits.{limit_of_sections, limit_of};

use crate::active::note_hit;
use crate::clock::Clock;
use crate::events::add_section;
use crate::limits::passes_bytes;
use crate::plot::{Event, Events, Plot};
use crate::section::{behind, length_of, section_end, tempo_of};
use cs_base::{Head, Limit, LimitHit, Or, OutOfMemory};
use cs_score::{ScoreStmt, ScoreStmts};
use std::alloc::Global;

/// Returns the plot of a score that was read, or the first limit that it exceeds: first the limit on the
/// bytes of the sound file, then the limit on simultaneous notes. The limits on table numbers and on
/// statements were checked as it was read.
pub fn schedule(alloc: Global, score: &ScoreStmts, head: &Head) -> Result<Plot, Or<LimitHit>>
    requires range { All IsInRange score.now }
    requires read { limit_of_score score.now ≡ None }
    ensures plot { IfOk result (λ plot. plot ≡ plot_of head.now score.now) }
    ensures performable { IfOk result (IsPerformable head.now) }
    ensures within { OnOk result (limit_of head.now score.now ≡ None) }
    ensures limit { (hit : LimitHit) → result ≡ Err (or.Fault hit) → limit_of head.now score.now ≡ Some hit }
{
    plot_sections(alloc, head, score.as_slice())
}

// Returns the plot of statements, or the first limit that they exceed.
fn plot_sections(alloc: Global, head: &Head, score: &[ScoreStmt]) -> Result<Plot, Or<LimitHit>>
    requires { All IsInRange score.now }
    ensures plot { IfOk result (λ plot. plot ≡ plot_of_sections head.now (sections_of score.now)) }
    ensures within { OnOk result (limit_of_sections head.now (sections_of score.now) ≡ None) }
    ensures limit { (hit : LimitHit) → result ≡ Err (or.Fault hit)
        → limit_of_sections head.now (sections_of score.now) ≡ Some hit }
{
    let cycles = total(alloc, head, score)?;
    if passes_bytes(head, cycles) {
        return Err(Or::Fault(LimitHit::at_no_line(Limit::WavBytes)));
    }
    let events = events_of(alloc, head, score)?;
    match note_hit(alloc, &events)? {
        Some(hit) => Err(Or::Fault(hit)),
        None => Ok(Plot {
            events: Events::from_vec(events),
            cycles: cycles as u32,
        }),
    }
}

// The total number of control cycles of all sections of a score.
fn total(alloc: Global, head: &Head, score: &[ScoreStmt]) -> Result<u128, OutOfMemory>
    requires { All IsInRange score.now }
    ensures sum { IfOk result (λ n. n ≡ sum (map (length_of head.now) (sections_of score.now))) }
    ensures small { IfOk result (λ n. n < 2 ^ 111) }
{
    let mut total: u128 = 0;
    let mut left = score;
    loop {
        let end = section_end(left);
        total += u128::from(section_length(alloc, head, &left[..end])?);
        if end == left.len() {
            return Ok(total);
        }
        left = behind(left, end);
    }
}

fn section_length(alloc: Global, head: &Head, section: &[ScoreStmt]) -> Result<u64, OutOfMemory>
    requires { All IsInRange section.now }
    ensures length { IfOk result (λ n. n ≡ length_of head.now section.now) }
    ensures small { IfOk result (λ n. n ≤ 2 ^ 47) }
{
    let clock = Clock::new(alloc, head, tempo_of(section))?;
    Ok(length_of(&clock, section))
}

// The events of all sections of a score, which follow one another from cycle 0 on.
fn events_of(alloc: Global, head: &Head, score: &[ScoreStmt]) -> Result<Vec<Event>, OutOfMemory>
    requires range { All IsInRange score.now }
    requires short { sum (map (length_of head.now) (sections_of score.now)) ≤ 2 ^ 30 }
    ensures { IfOk result (λ events. events.items ≡ events_from head.now 0 (sections_of score.now)) }
{
    let mut events = Vec::new(alloc);
    let mut offset = 0;
    let mut left = score;
    loop {
        let end = section_end(left);
        offset += section_events(alloc, head, offset, &left[..end], &mut events)?;
        if end == left.len() {
            return Ok(events);
        }
        left = behind(left, end);
    }
}

// Adds the events of a section that begins at cycle `offset`. Returns the number of cycles that the section
// lasts.
fn section_events(
    alloc: Global,
    head: &Head,
    offset: u32,
    section: &[ScoreStmt],
    events: &mut Vec<Event>,
) -> Result<u32, OutOfMemory>
    requires range { All IsInRange section.now }
    requires short { offset + length_of head.now section.now ≤ 2 ^ 30 }
    ensures length { IfOk result (λ n. n ≡ length_of head.now section.now) }
    ensures events { OnOk result (events.new.items ≡ events.old.items
        ++ events_along (setting_of head.now offset section.now) [] (in_order section.now)) }
{
    let clock = Clock::new(alloc, head, tempo_of(section))?;
    let cycles = length_of(&clock, section) as u32;
    add_section(alloc, &clock, offset, cycles, section, events)?;
    Ok(cycles)
}
