// The tables of a piece: each number once, in ascending order, as the score defines it first, and frozen if
// nothing changes it.
ghost use Rattle.std.specs.Prelude.{◌≡◌, ◌<◌, ◌++◌, ◌∷◌, [], ℕ, List, length, map, pos, IfOk, OnOk, Some, None};
ghost use Rattle.std.specs.{Prelude.if◌then◌else◌, List.All};
ghost use Rattle.cs_code.specs.Lowered.{AreInstrumentsOf};
ghost use Rattle.cs_gen.specs.{Faults.table_fault, Points.points_of};
ghost use Rattle.cs_meaning.specs.Plain.{Table};
ghost use Rattle.cs_piece.specs.Tables.{Given, ascending, firsts, given_by, given_in, table_given, table_of, tables_in};
ghost use Rattle.cs_piece.specs.inner.Marked.{Differ, IsRight, StandFor, frozen_by, given_of, numbers_end, table_by};
ghost use Rattle.cs_piece.specs.declared.tables.Times.TheVariants as often;
ghost use Rattle.cs_piece.specs.inner.Marked.{is_once, times_at};
ghost use Rattle.cs_tempo.specs.Performable.{IsActInRange};
ghost use Rattle.cs_typed.specs.TypedTree as typed;

use crate::written::{Written, written_by};
use cs_base::{GREATEST_TABLE, Num, Or, OutOfMemory};
use cs_code::Lowered;
use cs_gen::{Points, accepted_tables_are_made, make_table};
use cs_tempo::{Event, EventAct};
use cs_ugen::FrozenTable;
use cs_voice::PieceTable;
use std::alloc::Global;

/// One more than the highest number of a table.
pub(crate) const NUMBERS_END: usize = GREATEST_TABLE as usize + 1;

/// A table as an event of the score defines it.
#[derive(Clone, Copy)]
pub struct GivenTable<'p> {
    /// From 1 to 65,535.
    pub number: u32,
    pub size: i64,
    pub gen_: i64,
    pub args: &'p [Num],
}

impl GivenTable<'_> {
    /// Returns the points of a table that has no fault.
    pub fn points(&self, alloc: Global) -> Result<Points, OutOfMemory>
        requires { table_fault self.now.size self.now.gen_ self.now.args.now ≡ None }
        ensures points { IfOk result (λ p. p ≡ points_of self.now.size self.now.gen_ self.now.args.now) }
        ensures long { IfOk result (λ p. pos (length p) ≡ self.now.size) }
    {
        match make_table(alloc, self.size, self.gen_, self.args) {
            Ok(points) => Ok(points),
            Err(Or::Fault(_)) => unreachable!(),
            Err(Or::OutOfMemory) => Err(OutOfMemory),
        }
    }
}

// How often a table number is defined: never, once, or more often.
#[derive(Clone, Copy)]
enum Times {
    Never,
    Once,
    Again,
}

impl Times {
    fn is_once(self) -> bool
        ensures { result ≡ is_once self }
    {
        matches!(self, Times::Once)
    }
}

// The tables that events define.
#[derive(Drop)]
struct Firsts<'p> {
    // For each number that is defined, its first table.
    items: Vec<GivenTable<'p>>,
    // For each number below 65,536, how often it is defined.
    times: Vec<Times>,
}

/// Returns the tables that events define, each number once, in ascending order, as it is defined first. A
/// table has its points if its number is defined only once and no code of an instrument may write it. The
/// cost is proportional to the number of events, of ops of instruments, and of points.
pub(crate) fn tables_of(
    alloc: Global,
    lowered: &Lowered,
    events: &[Event],
) -> Result<Vec<PieceTable>, OutOfMemory>
    requires { All (λ e. IsActInRange e.act) events.now }
    ensures { IfOk result (λ v. (o : typed.Orchestra) → AreInstrumentsOf o lowered.now.instruments
        → map table_of v.items ≡ tables_in o events.now) }
{
    let given = firsts_of(alloc, events)?;
    let written = written_by(alloc, lowered.instruments.as_slice())?;
    let tables = made_tables(alloc, &given.items, &given.times, &written)?;
    Ok(by_number(tables))
}

// Sorts tables by number; no two have the same number.
fn by_number(mut tables: Vec<PieceTable>) -> Vec<PieceTable>
    requires { Differ (λ (t : Table). t.number) (map table_of tables.items) }
    ensures { map table_of result.items ≡ ascending (map table_of tables.items) }
{
    tables.sort_unstable_by_key(|table: &PieceTable| table.number);
    tables
}

// Returns the tables that events define.
fn firsts_of<'p>(alloc: Global, events: &'p [Event]) -> Result<Firsts<'p>, OutOfMemory>
    requires { All (λ e. IsActInRange e.act) events.now }
    ensures stand { IfOk result (StandFor (given_in events.now)) }
    ensures long { IfOk result (λ f. length f.times.items ≡ numbers_end) }
    ensures right { IfOk result (λ f. All (λ x. IsRight (given_of x)) f.items.items) }
{
    let mut given = Firsts {
        items: Vec::new(alloc),
        times: never(alloc, NUMBERS_END)?,
    };
    for event in events {
        if let EventAct::Table {
            number,
            size,
            gen_,
            args,
        } = &event.act
        {
            let first = GivenTable {
                number: *number,
                size: *size,
                gen_: *gen_,
                args: args.as_slice(),
            };
            given.add(first)?;
        }
    }
    Ok(given)
}

// Returns `count` numbers that aren't defined.
fn never(alloc: Global, count: usize) -> Result<Vec<Times>, OutOfMemory>
    ensures long { IfOk result (λ v. length v.items ≡ count) }
    ensures none { IfOk result (λ v. (n : ℕ) → times_at v.items n ≡ often.Never) }
{
    Ok(vec![in alloc; Times::Never; count]?)
}

impl<'p> Firsts<'p> {
    // Adds a table that an event defines.
    fn add(&mut self, table: GivenTable<'p>) -> Result<(), OutOfMemory>
        requires right { IsRight (given_of table) }
        requires long { length self.old.times.items ≡ numbers_end }
        requires all { All (λ x. IsRight (given_of x)) self.old.items.items }
        ensures stand { OnOk result ((gs : List Given) → StandFor gs self.old
            → StandFor (gs ++ given_of table.entry ∷ []) self.new) }
        ensures long { OnOk result (length self.new.times.items ≡ numbers_end) }
        ensures all { OnOk result (All (λ x. IsRight (given_of x)) self.new.items.items) }
    {
        let number = table.number as usize;
        let times = match self.times[number] {
            Times::Never => {
                self.items.push(table)?;
                Times::Once
            }
            _ => Times::Again,
        };
        self.times[number] = times;
        Ok(())
    }
}

// Returns the tables that are defined, in their order.
fn made_tables(
    alloc: Global,
    given: &[GivenTable<'_>],
    times: &[Times],
    written: &Written,
) -> Result<Vec<PieceTable>, OutOfMemory>
    requires right { All (λ x. IsRight (given_of x)) given.now }
    requires long { length times.now ≡ numbers_end }
    ensures { IfOk result (λ v. map table_of v.items
        ≡ map (λ x. table_by times.now written.now (given_of x)) given.now) }
{
    let mut tables = Vec::new(alloc);
    for first in given {
        let number = first.number as usize;
        let frozen = times[number].is_once() && !written.is_marked(number);
        tables.push(table_for(alloc, first, frozen)?)?;
    }
    Ok(tables)
}

// Returns a table as it is defined, with its points if it is frozen.
fn table_for(alloc: Global, first: &GivenTable<'_>, frozen: bool) -> Result<PieceTable, OutOfMemory>
    requires { IsRight (given_of first.now) }
    ensures { IfOk result (λ t. table_of t ≡ table_given frozen (given_of first.now)) }
{
    accepted_tables_are_made();
    let points = if frozen {
        Some(FrozenTable::new(first.points(alloc)?)?)
    } else {
        None
    };
    Ok(PieceTable {
        number: first.number as usize,
        size: first.size as u32,
        points,
    })
}
