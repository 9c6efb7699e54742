// A unit of a note, with the table that it was started with.
ghost use Rattle.std.specs.Prelude.{◌≡◌, ◌++◌, ◌||◌, not, true, unsigned_abs, length, None, Some};
ghost use Rattle.std.specs.List.{All};
ghost use Rattle.cs_cells.specs.Cells.{cell};
ghost use Rattle.cs_ir.specs.Resources.{reaches};
ghost use Rattle.cs_machine.specs.Players.{CanRead, SamePlayer, curve_at, has_table};
ghost use Rattle.cs_gen.specs.Points.{len_of};
ghost use Rattle.cs_ugen.specs.{Points.is_len, Units.inputs_at, Units.moving_count, Units.opcode_of, Units.unit_step};
ghost use Rattle.cs_signal.specs.{Operands.Lasts, Steps.run};

use crate::live::LiveTable;
use cs_base::Num;
use cs_cells::{Area, Bank};
use cs_ir::Reach;
use cs_signal::Operand;
use cs_ugen::{Frozen, FrozenTable, Unit};
use std::marker::Model;

// The place of a unit's table.
#[derive(Drop)]
enum Reads<'t> {
    Nothing,
    Frozen(Frozen<'t>),
    Live(Area),
}

/// A unit as a note stores it.
#[derive(Drop)]
pub struct Player<'t> {
    table: i64,
    unit: Unit,
    reads: Reads<'t>,
}

impl<'t> Model for Player<'t> {
    ghost use Rattle.cs_machine.specs.{Players.PlayerData, Readings.area_in, Readings.points_in};

    ghost Value = { PlayerData };

    ghost view = { λ p. record {
      table = p.table;
      state = p.unit;
      points = points_in p.reads;
      area = area_in p.reads;
    } };
}

impl<'t> Player<'t> {
    /// Makes a player of a unit without a table. `table` is a number that no table has.
    pub fn new(table: i64, unit: Unit) -> Player<'t>
        ensures { result ≡ record { table = table; state = unit; points = None; area = None } }
    {
        Player {
            table,
            unit,
            reads: Reads::Nothing,
        }
    }

    /// Makes a player of a unit on a frozen table: the table's number, and its points.
    pub fn on_frozen(table: i64, unit: Unit, points: &'t FrozenTable) -> Player<'t>
        requires { is_len (len_of (length points.now)) ≡ true }
        ensures { result ≡ record { table = table; state = unit; points = Some points.now; area = None } }
    {
        Player {
            table,
            unit,
            reads: Reads::Frozen(Frozen::new(points)),
        }
    }

    /// Makes a player of a unit on a live table: the table's number, and its area.
    pub fn on_live(table: i64, unit: Unit, area: Area) -> Player<'t>
        ensures { result ≡ record { table = table; state = unit; points = None; area = Some area } }
    {
        Player {
            table,
            unit,
            reads: Reads::Live(area),
        }
    }

    /// Returns whether the unit may touch its table: either it has none, or the reach contains the table's
    /// number.
    #[inline(always)]
    pub fn may_touch(&self, reach: Reach) -> bool
        ensures { result ≡ (not (has_table self.now) || reaches reach (unsigned_abs self.now.table)) }
    {
        match &self.reads {
            Reads::Nothing => true,
            _ => reach.contains(self.table.unsigned_abs() as usize),
        }
    }

    /// Makes a step for each frame of `row`.
    #[inline(always)]
    pub fn block<B: Bank>(&mut self, inputs: &[Operand], bank: &mut B, row: &mut [Num])
        requires count { length inputs.now ≡ moving_count (opcode_of self.old.state) }
        requires last { All (Lasts (length row.old)) inputs.now }
        requires read { CanRead (B.access (B.rest bank.old)) self.old }
        ensures value { (self.new.state, row.new) ≡ run unit_step
            (λ j. inputs_at inputs.now j ++ curve_at self.old.points self.old.area (cell (B.cells bank.old)))
            self.old.state 0 (length row.old) }
        ensures player { SamePlayer self.old self.new }
        ensures same { B.cells bank.new ≡ B.cells bank.old }
        ensures rest { B.rest bank.new ≡ B.rest bank.old }
    {
        match &mut self.reads {
            Reads::Nothing => self.unit.block(inputs, row),
            Reads::Frozen(curve) => self.unit.block_on(inputs, curve, row),
            Reads::Live(area) => {
                let mut table = LiveTable::new(bank, *area);
                self.unit.block_on(inputs, &mut table, row);
                let _ = table.into_bank();
            }
        }
    }

    /// Makes one step.
    #[inline(always)]
    pub fn step<B: Bank>(&mut self, inputs: &[Num], bank: &mut B) -> Num
        requires count { length inputs.now ≡ moving_count (opcode_of self.old.state) }
        requires read { CanRead (B.access (B.rest bank.old)) self.old }
        ensures value { (self.new.state, result) ≡ unit_step self.old.state
            (inputs.now ++ curve_at self.old.points self.old.area (cell (B.cells bank.old))) }
        ensures player { SamePlayer self.old self.new }
        ensures same { B.cells bank.new ≡ B.cells bank.old }
        ensures rest { B.rest bank.new ≡ B.rest bank.old }
    {
        match &mut self.reads {
            Reads::Nothing => self.unit.step(inputs),
            Reads::Frozen(curve) => self.unit.step_on(inputs, curve),
            Reads::Live(area) => {
                let mut table = LiveTable::new(bank, *area);
                let value = self.unit.step_on(inputs, &mut table);
                let _ = table.into_bank();
                value
            }
        }
    }
}
