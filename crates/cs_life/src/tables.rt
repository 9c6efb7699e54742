// A table of the score is made while notes play.
ghost use Rattle.std.specs.Prelude.{◌≡◌, List, length, true, OnOk, Some};
ghost use Rattle.cs_machine.specs.Access.{CanSet, row_wave};
ghost use Rattle.cs_base.specs.declared.resource.Res.TheVariants as res;
ghost use Rattle.cs_cells.specs.{Access.AllowsBelow, Areas.word_count, Cells.cell, declared.footprint.Area.Area};
ghost use Rattle.cs_piece_meaning.specs.{Moments.Moment, Starts.made_table};
ghost use Rattle.cs_gen.specs.Points.{points_of};
ghost use Rattle.cs_life.specs.{Standing.StandsFor, inner.Doing.CanBeMade};
ghost use Rattle.cs_life.specs.inner.Marks.{PointsWritten, has_cells, marked};
ghost use Rattle.cs_piece.specs.Setups.{composition_of};
ghost use Rattle.cs_voice_meaning.specs.Placing.{area_of, with_wave};
ghost use Rattle.cs_voice.specs.VoiceData.{VoiceData};

use crate::life::Life;
use cs_base::{Num, OutOfMemory, Res};
use cs_cells::{Bank, Layout};
use cs_machine::{area_of, write_row};
use cs_piece::GivenTable;
use cs_voice::PieceTable;
use std::alloc::Global;

impl<'t> Life<'t> {
    /// Makes a table: every table with its number has been made from now on, and if the points of the first
    /// one are cells, they are set to its points.
    pub(crate) fn make_table<B: Bank>(
        &mut self,
        alloc: Global,
        table: GivenTable<'_>,
        bank: &mut B,
    ) -> Result<(), OutOfMemory>
        requires stands { (voices : List VoiceData) × (m : Moment)
            × StandsFor (composition_of self.old.setup.now) self.old voices (B.cells bank.old) m }
        requires access { AllowsBelow (B.access (B.rest bank.old)) (word_count self.old.setup.now.layout) }
        requires table { CanBeMade (composition_of self.old.setup.now) table.number table.size table.gen_
            table.args.now }
        ensures made { OnOk result ((voices : List VoiceData) (m : Moment)
            → StandsFor (composition_of self.old.setup.now) self.old voices (B.cells bank.old) m
            → StandsFor (composition_of self.old.setup.now) self.new voices (B.cells bank.new)
            (made_table (composition_of self.old.setup.now) table.entry.number
            (points_of table.entry.size table.entry.gen_ table.entry.args.now) m)) }
        ensures setup { self.new.setup.now ≡ self.old.setup.now }
        ensures rest { B.rest bank.new ≡ B.rest bank.old }
    {
        let number = table.number as usize;
        mark(self.stage.tables, number, &mut self.made);
        if has_cells(self.stage.tables, number) {
            let points = table.points(alloc)?;
            put(self.stage.layout, number, points.as_slice(), bank);
        }
        Ok(())
    }
}

// Marks each table with a number as made.
fn mark(tables: &[PieceTable], number: usize, flags: &mut Vec<bool>)
    requires { length flags.old.items ≡ length tables.now }
    ensures { flags.new.items ≡ marked number tables.now flags.old.items }
{
    for place in 0..tables.len() {
        if tables[place].number == number {
            flags[place] = true;
        }
    }
}

// Returns whether there is a table with a number and the points of the first one are cells.
fn has_cells(tables: &[PieceTable], number: usize) -> bool
    ensures { result ≡ has_cells tables.now number }
{
    for place in 0..tables.len() {
        let table = &tables[place];
        if table.number == number {
            return table.points.is_none();
        }
    }
    false
}

// Writes the points of a table into its area.
fn put<B: Bank>(layout: &Layout, number: usize, points: &[Num], bank: &mut B)
    requires there { (area : Area) × (area_of layout.now (res.Table number) ≡ Some area)
        × (length points.now ≡ area.length)
        × CanSet (B.access (B.rest bank.old)) area }
    ensures written { PointsWritten true layout.now number points.now (B.cells bank.old) (B.cells bank.new) }
    ensures rest { B.rest bank.new ≡ B.rest bank.old }
{
    match area_of(layout, Res::Table(number)) {
        Some(area) => write_row(bank, area, points),
        None => unreachable!(),
    }
}
