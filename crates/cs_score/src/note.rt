// An `i` statement: its written and carried fields, and the note that they describe.
ghost use Rattle.std.specs.Prelude.{◌≡◌, ◌<◌, ◌≤◌, ◌+◌, ◌-◌, ◌^◌, Some, Ok, Err, IfOk, OnOk, slice_get, drop};
ghost use Rattle.std.specs.Prelude.{length};
ghost use Rattle.cs_base.specs.{Limits.greatest_field, declared.fault.ScoreKind.TheVariants.NothingToCarry};
ghost use Rattle.cs_score.specs.Ranges.{IsInstrument, number_or_one, HasRange, beats_end};
ghost use Rattle.cs_score.specs.{declared.statement.ScoreWhat.ScoreWhat, Notes.fewest, Notes.counted, Notes.note_by};
ghost use Rattle.cs_score.specs.Carry.{and_then, as_instrument, p1_by};
ghost use Rattle.cs_score.specs.Notes.{as_time, moved, p2_by, gap_by, p3_by, times_of, values_of};
ghost use Rattle.cs_score.specs.inner.State.{Answers, Ends, p1_before};
ghost use Rattle.cs_score.specs.inner.Values.{AreValues, IsTakenFrom};

use crate::field::{Field, InstrumentNumber, Signed};
use crate::statement_fault::StatementFault;
use crate::{NoteValues, ScoreWhat};
use cs_base::{Decimal, GREATEST_FIELD, GREATEST_INSTRUMENT, Items, Nums, ScoreKind};
use std::alloc::Global;

/// Exclusive upper bound of a beat, in millionths: 10,000,000 beats.
pub const BEATS_END: u64 = 10_000_000_000_000;

/// p1. If it is omitted, it is carried from the `i` statement right before.
pub fn p1(
    written: Option<Field>,
    before: Option<InstrumentNumber>,
) -> Result<InstrumentNumber, ScoreKind>
    requires { IsInstrument (number_or_one before) }
    ensures value { result ≡ p1_by written (p1_before before) }
    ensures range { IfOk result (λ instr. IsInstrument instr.number) }
{
    match written {
        None | Some(Field::Same) => before.ok_or(ScoreKind::NothingToCarry),
        Some(field) => instrument(field.number(ScoreKind::NothingToCarry)?),
    }
}

// An instrument number. A minus sign makes the statement a stop.
fn instrument(n: Signed) -> Result<InstrumentNumber, ScoreKind>
    ensures value { result ≡ as_instrument n }
    ensures range { IfOk result (λ instr. IsInstrument instr.number) }
{
    if !n.is_whole() {
        return Err(ScoreKind::NotInProfile);
    }
    if 1 <= n.size.whole && n.size.whole <= GREATEST_INSTRUMENT {
        Ok(InstrumentNumber {
            number: n.size.whole,
            stop: n.minus,
        })
    } else {
        Err(ScoreKind::BadNumber)
    }
}

/// A time in millionths of a beat, at least 0.
pub fn time(n: Signed) -> Result<u64, ScoreKind>
    ensures { result ≡ as_time n }
{
    if n.is_negative_time() {
        Err(ScoreKind::NegativeTime)
    } else {
        Ok(n.millionths())
    }
}

/// p2 before the base is added. The previous note starts at `before`, and `+` means `gap` later.
pub fn p2(continuing: bool, before: u64, gap: u64, written: Option<Field>) -> Result<u64, ScoreKind>
    requires before { before < beats_end }
    requires gap { gap < 2 ^ 62 }
    ensures { result ≡ p2_by continuing before gap written }
{
    match written {
        None => Ok(0),
        Some(Field::After) => moved(continuing, before, gap),
        Some(Field::Ahead(x)) => moved(continuing, before, x.millionths()),
        Some(field) => time(field.number(ScoreKind::NothingToCarry)?),
    }
}

fn moved(continuing: bool, before: u64, distance: u64) -> Result<u64, ScoreKind>
    requires before { before < beats_end }
    requires distance { distance < 2 ^ 62 }
    ensures { result ≡ moved continuing before distance }
{
    if continuing {
        Ok(before + distance)
    } else {
        Err(ScoreKind::NothingToCarry)
    }
}

/// The time from the start of this note to the start of a next note with `+`.
pub fn gap(instr: InstrumentNumber, p3: Option<Field>) -> u64
    ensures value { result ≡ gap_by (Ok instr) p3 }
    ensures small { result < 2 ^ 62 }
{
    match p3 {
        Some(Field::Number(n)) if !instr.stop => n.millionths(),
        _ => 0,
    }
}

// p3 of a note that starts at `at`. It is 0 if it is omitted.
fn p3(instr: InstrumentNumber, at: u64, written: Option<Field>) -> Result<Signed, ScoreKind>
    requires { at < beats_end }
    ensures value { result ≡ p3_by instr at written }
    ensures ends { IfOk result (Ends instr at) }
{
    match written {
        None => Ok(Signed {
            minus: false,
            size: Decimal {
                whole: 0,
                billionths: 0,
            },
        }),
        Some(field) => {
            let n = field.number(ScoreKind::NothingToCarry)?;
            // A note with a length ends before the last allowed beat. p3 of a stop is only a number.
            if instr.stop || n.minus || at + n.millionths() < BEATS_END {
                Ok(n)
            } else {
                Err(ScoreKind::BadNumber)
            }
        }
    }
}

/// The start of a note in millionths of a beat, and its p3.
#[derive(Clone, Copy)]
pub struct Times {
    pub at: u64,
    pub p3: Signed,
}

/// Returns the start, with the base added, and p3.
pub fn timed(
    base: u64,
    instr: InstrumentNumber,
    p2: u64,
    written: Option<Field>,
) -> Result<Times, ScoreKind>
    requires base { base < beats_end }
    requires p2 { p2 < 2 ^ 63 }
    ensures value { result ≡ times_of base instr p2 written }
    ensures at { IfOk result (λ t. (t.at < beats_end) × (p2 < beats_end)) }
    ensures ends { IfOk result (λ t. Ends instr t.at t.p3) }
{
    let at = p2 + base;
    if at >= BEATS_END {
        return Err(ScoreKind::BadNumber);
    }
    let p3 = p3(instr, at, written)?;
    Ok(Times { at, p3 })
}

/// The values of fields that must all be numbers. Fails with `dot` for a `.` that has nothing to carry.
pub fn values(alloc: Global, dot: ScoreKind, fields: &[Field]) -> Result<Nums, StatementFault>
    ensures value { Answers result (values_of dot fields.now) }
    ensures len { IfOk result (λ values. length values ≡ length fields.now) }
{
    let mut values = Nums::from_vec(Vec::with_capacity(alloc, fields.len())?);
    for field in fields {
        let n = field.number(dot)?;
        values.push(n.num())?;
    }
    Ok(values)
}

/// The values of the fields from p4 on. All fields after the first `written` ones are carried from the
/// previous statement.
pub fn more_values(
    alloc: Global,
    fields: &[Field],
    written: usize,
    before: &NoteValues,
) -> Result<NoteValues, StatementFault>
    requires { IsTakenFrom written fields.now before.now }
    ensures value { Answers result (values_of NothingToCarry (drop 3 fields.now)) }
    ensures values { IfOk result (AreValues fields.now) }
{
    let more = rest(fields, 3);
    let own = &more[..written.saturating_sub(3)];
    let own = values(alloc, ScoreKind::NothingToCarry, own)?;
    Ok(NoteValues::over(alloc, own, before)?)
}

/// Checks the number of fields. This check comes last.
pub fn check_count(instr: InstrumentNumber, count: usize) -> Result<(), ScoreKind>
    ensures value { (what : ScoreWhat) → counted instr count what ≡ and_then result (λ _. Ok what) }
    ensures few { OnOk result (count ≤ greatest_field) }
{
    let fewest = if instr.stop { 2 } else { 3 };
    if count < fewest {
        return Err(ScoreKind::MissingField);
    }
    if count > GREATEST_FIELD {
        return Err(ScoreKind::BadStatement);
    }
    Ok(())
}

/// The statement: a stop if p1 is negative, a held note if p3 is negative, a note otherwise.
pub fn what(instr: InstrumentNumber, times: Times, more: NoteValues) -> ScoreWhat
    requires instr { IsInstrument instr.number }
    requires at { times.at < beats_end }
    requires ends { Ends instr times.at times.p3 }
    requires few { length more ≤ 97 }
    ensures value { result ≡ note_by instr times.at times.p3 more }
    ensures range { HasRange result }
{
    let number = instr.number;
    let Times { at, p3 } = times;
    if instr.stop {
        ScoreWhat::Stop { instr: number, at }
    } else if p3.is_negative_time() {
        ScoreWhat::Hold {
            instr: number,
            at,
            given: p3.num(),
            more,
        }
    } else {
        ScoreWhat::Note {
            instr: number,
            at,
            length: p3.millionths(),
            more,
        }
    }
}

/// The field at place `k`, counted from 0, or `None` if there is no such field.
pub fn field_at(fields: &Items<Field>, k: usize) -> Option<Field>
    ensures { result ≡ slice_get fields.now k }
{
    fields.as_slice().get(k).copied()
}

/// The fields from place `k` on, counted from 0.
pub fn rest(fields: &[Field], k: usize) -> &[Field]
    ensures value { result.now ≡ drop k fields.now }
    ensures len { length result.now ≡ length fields.now - k }
{
    if k < fields.len() { &fields[k..] } else { &[] }
}
