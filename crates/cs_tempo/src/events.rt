// The events of a section at their control cycles.
ghost use Rattle.std.specs.Prelude.{◌≡◌, ℕ, List, ◌≤◌, ◌<◌, ◌+◌, ◌-◌, ◌*◌, ◌^◌, ◌++◌, [], map, length, pos, IfOk, OnOk};
ghost use Rattle.std.specs.{Prelude.IfSome, List.All};
ghost use Rattle.cs_score.specs.Ranges.{IsInRange, HasRange, IsInstrument, beats_end};
ghost use Rattle.cs_tempo.specs.{Order.beat_of, Order.in_order, declared.plot.EventAct.EventAct};
ghost use Rattle.cs_time.specs.Time.{seconds_of};
ghost use Rattle.cs_tempo.specs.Sections.{reach_of, end_of, cycle_at};
ghost use Rattle.cs_tempo.specs.Plot.{fields_of, length_in_seconds, held_until, acts_of, events_along};
ghost use Rattle.cs_tempo.specs.inner.Events.{in_section, HasEnd, IsTurnIn, Acts};

use crate::clock::Clock;
use crate::fields::NoteFields;
use crate::order::in_order;
use crate::pairing::{stops_by_instrument, take_turn};
use crate::plot::{Event, EventAct};
use crate::section::end_of;
use cs_base::{Num, OutOfMemory};
use cs_score::{NoteValues, ScoreStmt, ScoreWhat};
use cs_time::seconds_of;
use std::alloc::Global;
use std::cmp::max;

/// Adds the events of a section that begins at cycle `offset` and lasts `cycles` cycles.
pub fn add_section(
    alloc: Global,
    clock: &Clock,
    offset: u32,
    cycles: u32,
    section: &[ScoreStmt],
    events: &mut Vec<Event>,
) -> Result<(), OutOfMemory>
    requires range { All IsInRange section.now }
    requires reach { All (λ s. reach_of clock.now.head clock.now.tempo s.what ≤ cycles) section.now }
    requires short { offset + cycles ≤ 2 ^ 30 }
    ensures { OnOk result (events.new.items
        ≡ events.old.items
        ++ events_along (in_section clock.now offset cycles) [] (in_order section.now)) }
{
    let order = in_order(alloc, section)?;
    add_events(alloc, clock, offset, cycles, &order, events)
}

fn add_events(
    alloc: Global,
    clock: &Clock,
    offset: u32,
    cycles: u32,
    order: &[&ScoreStmt],
    events: &mut Vec<Event>,
) -> Result<(), OutOfMemory>
    requires turns { All (λ s. IsTurnIn clock.now cycles s.now) order.now }
    requires short { offset + cycles ≤ 2 ^ 30 }
    ensures { OnOk result (events.new.items
        ≡ events.old.items
        ++ events_along (in_section clock.now offset cycles) [] (map (λ s. s.now) order.now)) }
{
    let mut queues = stops_by_instrument(alloc, order)?;
    for statement in order {
        let stop = take_turn(&mut queues, &statement.what);
        let act = act_of(alloc, clock, cycles, stop, &statement.what)?;
        push_event(events, clock, offset, cycles, statement, act)?;
    }
    Ok(())
}

fn push_event(
    events: &mut Vec<Event>,
    clock: &Clock,
    offset: u32,
    cycles: u32,
    statement: &ScoreStmt,
    act: Option<EventAct>,
) -> Result<(), OutOfMemory>
    requires turn { IsTurnIn clock.now cycles statement.now }
    requires short { offset + cycles ≤ 2 ^ 30 }
    ensures { (acts : List EventAct) → Acts act acts → OnOk result (events.new.items
        ≡ events.old.items ++ map (λ what. record {
          cycle = offset + cycle_at clock.now.head clock.now.tempo (beat_of statement.now.what);
          line = statement.now.line;
          act = what;
        }) acts) }
{
    if let Some(act) = act {
        let cycle = offset + clock.cycle(beat_of(&statement.what)) as u32;
        events.push(Event {
            cycle,
            line: statement.line,
            act,
        })?;
    }
    Ok(())
}

// The beat of a turn.
fn beat_of(what: &ScoreWhat) -> u64
    ensures { result ≡ beat_of what.now }
{
    match what {
        ScoreWhat::Note { at, .. } => *at,
        ScoreWhat::Hold { at, .. } => *at,
        ScoreWhat::Stop { at, .. } => *at,
        ScoreWhat::Table { at, .. } => *at,
        _ => 0,
    }
}

// The action of a turn. `stop` is the beat of the stop that ends it.
#[tactic(auto, unfolding(crate::specs::Plot::acts_of))]
fn act_of(
    alloc: Global,
    clock: &Clock,
    cycles: u32,
    stop: Option<u64>,
    what: &ScoreWhat,
) -> Result<Option<EventAct>, OutOfMemory>
    requires range { HasRange what.now }
    requires reach { reach_of clock.now.head clock.now.tempo what.now ≤ cycles }
    requires stop { IfSome stop (λ beat. HasEnd clock.now cycles beat) }
    requires short { cycles ≤ 2 ^ 30 }
    ensures { IfOk result (λ act. (offset : ℕ)
        → Acts act (acts_of (in_section clock.now offset cycles) stop what.now)) }
{
    match what {
        ScoreWhat::Note {
            instr,
            at,
            length,
            more,
        } => Ok(Some(note(clock, *instr, *at, *length, more)?)),
        ScoreWhat::Hold {
            instr,
            at,
            given,
            more,
        } => {
            let cycles = held_cycles(clock, cycles, *at, stop);
            let fields = fields_of(clock, *instr, *at, *given, more)?;
            Ok(Some(EventAct::Start {
                instr: *instr,
                cycles,
                fields,
            }))
        }
        ScoreWhat::Table {
            number,
            size,
            gen_,
            args,
            ..
        } => Ok(Some(EventAct::Table {
            number: *number,
            size: *size,
            gen_: *gen_,
            args: args.to_items(alloc)?,
        })),
        _ => Ok(None),
    }
}

// The start of a note whose length is 0 or more.
fn note(
    clock: &Clock,
    instr: u32,
    at: u64,
    length: u64,
    more: &NoteValues,
) -> Result<EventAct, OutOfMemory>
    requires instr { IsInstrument instr }
    requires end { at + length < beats_end }
    requires short { end_of clock.now.head clock.now.tempo at length ≤ 2 ^ 30 }
    ensures { IfOk result (λ act. act ≡ EventAct.Start instr
        (end_of clock.now.head clock.now.tempo at length
        - cycle_at clock.now.head clock.now.tempo at)
        (fields_of clock.now.tempo instr at
        (length_in_seconds clock.now.tempo at length) more.now)) }
{
    let p3 = seconds_of(clock.span(at, at + length));
    let fields = fields_of(clock, instr, at, Num::of_raw(p3), more)?;
    let cycles = (end_of(clock, at, length) - clock.cycle(at)) as u32;
    Ok(EventAct::Start {
        instr,
        cycles,
        fields,
    })
}

// The number of cycles that a held note lasts: until the stop at beat `stop`, or else until its section ends.
fn held_cycles(clock: &Clock, cycles: u32, at: u64, stop: Option<u64>) -> u32
    requires at { HasEnd clock.now cycles at }
    requires stop { IfSome stop (λ beat. HasEnd clock.now cycles beat) }
    requires short { cycles ≤ 2 ^ 30 }
    ensures { (offset : ℕ) → result ≡ held_until (in_section clock.now offset cycles) at stop
        - cycle_at clock.now.head clock.now.tempo at }
{
    let start = clock.cycle(at);
    let end = match stop {
        Some(beat) => clock.cycle(beat),
        None => u64::from(cycles),
    };
    (max(end, start + 1) - start) as u32
}

// A note's fields: p1, p2 and p3, followed by the score's fields from p4 on.
fn fields_of(
    clock: &Clock,
    instr: u32,
    at: u64,
    p3: Num,
    more: &NoteValues,
) -> Result<NoteFields, OutOfMemory>
    requires instr { IsInstrument instr }
    requires at { at < beats_end }
    ensures { IfOk result (λ fields. fields ≡ fields_of clock.now.tempo instr at p3 more.now) }
{
    let p2 = Num::of_raw(seconds_of(clock.time(at)));
    Ok(NoteFields::new(p1(instr), p2, p3, more.share()?))
}

fn p1(instr: u32) -> Num
    requires { IsInstrument instr }
    ensures { result ≡ pos (instr * 65536) }
{
    Num::of_whole(i64::from(instr))
}
