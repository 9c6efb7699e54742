// An `f` statement, and the base that a `b` statement sets.
ghost use Rattle.std.specs.Prelude.{◌≡◌, ◌<◌, Some, None, Ok, IfOk, nat_eq};
ghost use Rattle.std.specs.HashMap.{get};
ghost use Rattle.cs_base.specs.declared.fault.ScoreKind.TheVariants.{BadNumber};
ghost use Rattle.cs_score.specs.{Ranges.beats_end, Ranges.IsTableNumber, Statements.refusal_of, Statements.base_by};
ghost use Rattle.cs_score.specs.Statements.{time_of, time_at, whole_at, as_table_number, table_number_at};
ghost use Rattle.cs_score.specs.Statements.{table_by, written_table, is_other_size, table_refusal};
ghost use Rattle.cs_score.specs.inner.State.{Answers, HasWrittenRange};

use crate::ScoreWhat;
use crate::field::{Field, Signed};
use crate::note::{BEATS_END, rest, time, values};
use crate::statement_fault::StatementFault;
use cs_base::{GREATEST_TABLE, ScoreKind};
use cs_gen::{GenFault, check_table};
use std::alloc::Global;
use std::collections::HashMap;

/// The size of the first `f` of each table number.
pub type Sizes = HashMap<u32, i64>;

// A time of `f` or `b`, in millionths of a beat, below 10,000,000 beats.
fn beats(field: Field) -> Result<u64, ScoreKind>
    ensures value { result ≡ time_of field }
    ensures below { IfOk result (λ at. at < beats_end) }
{
    let at = time(field.number(ScoreKind::BadNumber)?)?;
    if at < BEATS_END {
        Ok(at)
    } else {
        Err(ScoreKind::BadNumber)
    }
}

// The time in field `k`. A missing field reads as 0; the later check of the number of fields reports it.
fn time_at(fields: &[Field], k: usize) -> Result<u64, ScoreKind>
    ensures value { result ≡ time_at fields.now k }
    ensures below { IfOk result (λ at. at < beats_end) }
{
    match fields.get(k) {
        None => Ok(0),
        Some(field) => beats(*field),
    }
}

// The integer in field `k`: a size or a GEN.
fn whole_at(fields: &[Field], k: usize) -> Result<i64, ScoreKind>
    ensures { result ≡ whole_at fields.now k }
{
    match fields.get(k) {
        None => Ok(0),
        Some(field) => {
            let n = field.number(ScoreKind::BadNumber)?;
            if n.is_whole() {
                Ok(n.whole())
            } else {
                Err(ScoreKind::BadNumber)
            }
        }
    }
}

fn table_number_at(fields: &[Field]) -> Result<u32, ScoreKind>
    ensures value { result ≡ table_number_at fields.now }
    ensures range { IfOk result (λ number. number < 65536) }
{
    match fields.get(0) {
        None => Ok(0),
        Some(field) => table_number(field.number(ScoreKind::BadNumber)?),
    }
}

// The number of a table, or 0.
fn table_number(n: Signed) -> Result<u32, ScoreKind>
    ensures value { result ≡ as_table_number n }
    ensures range { IfOk result (λ number. number < 65536) }
{
    if n.is_below_zero() {
        return Err(ScoreKind::NotInProfile);
    }
    if n.is_whole() && n.size.whole <= GREATEST_TABLE {
        Ok(n.size.whole)
    } else {
        Err(ScoreKind::BadNumber)
    }
}

/// Reads an `f` from its fields, without the statements before it: a table, or an extension of the section by
/// `f 0 time`.
pub fn written_table(alloc: Global, fields: &[Field]) -> Result<ScoreWhat, StatementFault>
    ensures value { Answers result (written_table fields.now) }
    ensures range { IfOk result HasWrittenRange }
{
    let number = table_number_at(fields)?;
    if number != 0 {
        return table(alloc, number, fields);
    }
    // Further fields of `f 0 time` aren't checked.
    let at = time_at(fields, 1)?;
    if fields.len() < 2 {
        return Err(ScoreKind::MissingField.into());
    }
    Ok(ScoreWhat::Extend { at })
}

// Reads the fields of a table in order, then checks their number.
fn table(alloc: Global, number: u32, fields: &[Field]) -> Result<ScoreWhat, StatementFault>
    requires { IsTableNumber number }
    ensures value { Answers result (table_by number fields.now) }
    ensures range { IfOk result HasWrittenRange }
{
    let at = time_at(fields, 1)?;
    let size = whole_at(fields, 2)?;
    let gen_ = whole_at(fields, 3)?;
    let args = values(alloc, ScoreKind::BadNumber, rest(fields, 4))?;
    if fields.len() < 4 {
        return Err(ScoreKind::MissingField.into());
    }
    Ok(ScoreWhat::Table {
        number,
        at,
        size,
        gen_,
        args,
    })
}

/// Why a table is refused, given the sizes of the first table of each number. `None` if it is accepted.
pub fn refusal(sizes: &Sizes, what: &ScoreWhat) -> Option<ScoreKind>
    ensures { result ≡ refusal_of (get nat_eq sizes.now) what.now }
{
    match what {
        ScoreWhat::Table {
            number,
            size,
            gen_,
            args,
            ..
        } => table_refusal(
            check_table(*size, *gen_, args.as_slice()).err(),
            is_other_size(first_size(sizes, *number), *size),
        ),
        _ => None,
    }
}

/// The size of the first `f` of a table number, or `None` if there was none.
pub fn first_size(sizes: &Sizes, number: u32) -> Option<i64>
    ensures { result ≡ get nat_eq sizes.now number }
{
    sizes.get(&number).copied()
}

fn is_other_size(first: Option<i64>, size: i64) -> bool
    ensures { result ≡ is_other_size first size }
{
    match first {
        None => false,
        Some(first) => first != size,
    }
}

// The rules of a table in their order: its size, the first size of its number, its GEN.
fn table_refusal(fault: Option<GenFault>, resized: bool) -> Option<ScoreKind>
    ensures { result ≡ table_refusal fault resized }
{
    match fault {
        Some(GenFault::Size) => Some(ScoreKind::BadTableSize),
        _ if resized => Some(ScoreKind::TableResized),
        Some(_) => Some(ScoreKind::BadGen),
        None => None,
    }
}

/// The base that a `b` sets, in millionths of a beat. Its further fields must be numbers and have no effect.
pub fn base(alloc: Global, fields: &[Field]) -> Result<u64, StatementFault>
    ensures value { Answers result (base_by fields.now) }
    ensures below { IfOk result (λ base. base < beats_end) }
{
    match fields {
        [] => Err(ScoreKind::MissingField.into()),
        [first, others @ ..] => {
            let base = beats(*first)?;
            values(alloc, ScoreKind::BadNumber, others)?;
            Ok(base)
        }
    }
}
