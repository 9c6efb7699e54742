// The fields that an `i` statement carries from the one before. The code stores the previous statement with
// its omitted fields filled in.
ghost use Rattle.std.specs.Prelude.{◌≡◌, ◌<◌, ◌^◌, Some, Ok, IfOk};
ghost use Rattle.std.proofs.Props.{props};
ghost use Rattle.cs_score.specs.{Carry.is_same, Notes.note_of, Ranges.HasRange, Ranges.IsInstrument};
ghost use Rattle.cs_score.specs.{Ranges.beats_end, inner.Values.IsTakenFrom};
ghost use Rattle.cs_score.specs.inner.State.{IsKept, IsLast, NoteAnswers, completed, filled, filled_one};
ghost use Rattle.cs_score.specs.inner.State.{instr_read, note_read, note_with, p1_before};

use crate::NoteValues;
use crate::field::{Field, InstrumentNumber};
use crate::last::{LastNote, NoteRead};
use crate::note::{check_count, field_at, gap, more_values, p1, p2, timed, what};
use crate::statement_fault::StatementFault;
use cs_base::Items;
use std::alloc::{AllocError, Global};

/// Reads an `i` statement from its written fields. `base` is the base of the section, and `last` the `i`
/// statement right before.
pub fn read_note(
    alloc: Global,
    base: u64,
    last: LastNote,
    written: Items<Field>,
) -> Result<NoteRead, StatementFault>
    requires { base < beats_end }
    ensures value { NoteAnswers result (note_read base last written) }
    ensures kept { IfOk result (λ read. IsKept last written read.last) }
    ensures range { IfOk result (λ read. HasRange read.what) }
{
    let instr = p1(field_at(&written, 0), last.instr)?;
    note_with(alloc, base, last, written, instr)
}

// Reads the rest of the statement after its p1.
fn note_with(
    alloc: Global,
    base: u64,
    last: LastNote,
    written: Items<Field>,
    instr: InstrumentNumber,
) -> Result<NoteRead, StatementFault>
    requires base { base < beats_end }
    requires instr { instr_read last written ≡ Ok instr }
    requires in_range { IsInstrument instr.number }
    ensures value { NoteAnswers result (note_with base last written instr) }
    ensures kept { IfOk result (λ read. IsKept last written read.last) }
    ensures range { IfOk result (λ read. HasRange read.what) }
{
    let continuing = is_same(instr, last.instr);
    let before = last.p2;
    let gap = last.gap;
    let carried = carry(continuing, written, last)?;
    let p2 = p2(continuing, before, gap, field_at(&carried.fields, 1))?;
    note_of(alloc, base, instr, p2, carried)
}

// Reads the rest of the statement after its p2. Returns it with the fields that the next one may carry.
fn note_of(
    alloc: Global,
    base: u64,
    instr: InstrumentNumber,
    p2: u64,
    carried: Carried,
) -> Result<NoteRead, StatementFault>
    requires base { base < beats_end }
    requires instr { IsInstrument instr.number }
    requires p2 { p2 < 2 ^ 63 }
    ensures value { NoteAnswers result (note_of base instr (Ok p2) carried.fields) }
    ensures range { IfOk result (λ read. HasRange read.what) }
    ensures kept { IfOk result (λ read. IsLast instr p2 carried.fields read.last) }
{
    let Carried {
        fields,
        written,
        before,
    } = carried;
    let p3 = field_at(&fields, 2);
    let times = timed(base, instr, p2, p3)?;
    let more = more_values(alloc, fields.as_slice(), written, &before)?;
    check_count(instr, fields.len())?;
    Ok(NoteRead {
        what: what(instr, times, more.share()?),
        last: LastNote {
            instr: Some(instr),
            p2,
            gap: gap(instr, p3),
            fields,
            more,
        },
    })
}

// Whether a statement continues the one before: both have the same p1.
fn is_same(instr: InstrumentNumber, last: Option<InstrumentNumber>) -> bool
    ensures { result ≡ is_same (Ok instr) (p1_before last) }
{
    match last {
        Some(last) => instr.is_same(last),
        None => false,
    }
}

/// The statement's fields, with the omitted ones filled in from the previous `i`.
#[derive(Drop)]
pub struct Carried {
    pub fields: Items<Field>,
    /// The number of written fields. All later fields are carried from the previous statement, whose values
    /// from p4 on are `before`.
    pub written: usize,
    pub before: NoteValues,
    ghost taken: { IsTakenFrom written fields before } by { Prim.hlevel props },
}

fn carry(continuing: bool, written: Items<Field>, last: LastNote) -> Result<Carried, AllocError>
    ensures { IfOk result (λ c. c.fields ≡ completed continuing written last.fields) }
{
    let count = written.len();
    if !continuing {
        return Ok(Carried {
            fields: written,
            written: count,
            before: NoteValues::none(),
        });
    }
    let LastNote { fields, more, .. } = last;
    let fields = filled(written.as_slice(), fields)?;
    Ok(Carried {
        fields,
        written: count,
        before: more,
    })
}

fn filled(written: &[Field], before: Items<Field>) -> Result<Items<Field>, AllocError>
    ensures { IfOk result (λ fields. fields ≡ filled written.now before) }
{
    let mut fields = before.into_vec();
    let count = written.len().min(fields.len());
    for k in 0..count {
        fields[k] = filled_one(written[k], fields[k]);
    }
    fields.extend_from_slice(&written[count..])?;
    Ok(Items::from_vec(fields))
}

fn filled_one(written: Field, before: Field) -> Field
    ensures { result ≡ filled_one written before }
{
    match written {
        Field::Same => before,
        _ => written,
    }
}
