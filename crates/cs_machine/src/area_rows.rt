// Areas as values over a control cycle, with one cell for each frame.
ghost use Rattle.std.specs.Prelude.{◌≡◌, ◌+◌, ◌<◌, ◌≤◌, length, slice_set, Some};
ghost use Rattle.cs_machine.specs.{Access.CanGet, Access.CanSet, Rows.HasFrames, Rows.row_wave};
ghost use Rattle.cs_base.specs.declared.resource.Rate.TheVariants as rate;
ghost use Rattle.cs_cells.specs.Cells.{cell};
ghost use Rattle.cs_ir.specs.Waves.{constant, silence};
ghost use Rattle.cs_meaning.specs.Pieces.{added};
ghost use Rattle.cs_voice_meaning.specs.Placing.{wave_in, with_wave};

use crate::outputs::add_row;
use cs_base::Num;
use cs_cells::{Area, Bank};

// The number of cells that are cleared at a time.
const CLEARED_AT_ONCE: usize = 64;

/// Reads an area into a row of the same length.
pub fn read_row<B: Bank>(bank: &mut B, area: Area, row: &mut [Num])
    requires row { length row.old ≡ area.length }
    requires read { CanGet (B.access (B.rest bank.old)) area }
    requires small { area.first + area.length ≤ 65536 }
    ensures frames { HasFrames (wave_in rate.Audio area (cell (B.cells bank.old))) row.new }
    ensures row { length row.new ≡ length row.old }
    ensures same { B.cells bank.new ≡ B.cells bank.old }
    ensures rest { B.rest bank.new ≡ B.rest bank.old }
{
    bank.get_row(area.first, row);
}

/// Writes a row into an area of the same length.
pub fn write_row<B: Bank>(bank: &mut B, area: Area, row: &[Num])
    requires row { length row.now ≡ area.length }
    requires write { CanSet (B.access (B.rest bank.old)) area }
    requires small { area.first + area.length ≤ 65536 }
    ensures cells { cell (B.cells bank.new) ≡ with_wave (Some area) (row_wave row.now) (cell (B.cells bank.old)) }
    ensures rest { B.rest bank.new ≡ B.rest bank.old }
{
    bank.set_row(area.first, row);
}

/// Writes one value into an area of one cell.
pub fn write_value<B: Bank>(bank: &mut B, area: Area, value: Num)
    requires one { area.length ≡ 1 }
    requires write { CanSet (B.access (B.rest bank.old)) area }
    requires small { area.first + area.length ≤ 65536 }
    ensures cells { cell (B.cells bank.new) ≡ with_wave (Some area) (constant value) (cell (B.cells bank.old)) }
    ensures rest { B.rest bank.new ≡ B.rest bank.old }
{
    set_frame(bank, area, 0, value);
}

/// Adds a row to the cells of an area of the same length. `room` is a buffer of the same length, whose
/// contents don't matter.
pub fn mix_row<B: Bank>(bank: &mut B, area: Area, row: &[Num], room: &mut [Num])
    requires row { length row.now ≡ area.length }
    requires room { length room.old ≡ area.length }
    requires read { CanGet (B.access (B.rest bank.old)) area }
    requires write { CanSet (B.access (B.rest bank.old)) area }
    requires small { area.first + area.length ≤ 65536 }
    ensures cells { cell (B.cells bank.new) ≡ with_wave (Some area)
        (added (wave_in rate.Audio area (cell (B.cells bank.old))) (row_wave row.now)) (cell (B.cells bank.old)) }
    ensures room { length room.new ≡ length room.old }
    ensures rest { B.rest bank.new ≡ B.rest bank.old }
{
    read_row(bank, area, room);
    add_row(row, room);
    write_row(bank, area, room);
}

/// Sets each cell of an area to 0.
pub(crate) fn clear<B: Bank>(bank: &mut B, area: Area)
    requires write { CanSet (B.access (B.rest bank.old)) area }
    requires small { area.first + area.length ≤ 65536 }
    ensures cells { cell (B.cells bank.new) ≡ with_wave (Some area) silence (cell (B.cells bank.old)) }
    ensures rest { B.rest bank.new ≡ B.rest bank.old }
{
    let zeros = [Num::exact(0); CLEARED_AT_ONCE];
    let length = area.length as usize;
    let mut done = 0;
    while done < length {
        let count = zeros.len().min(length - done);
        bank.set_row(area.first + done as u32, &zeros[..count]);
        done += count;
    }
}

/// Returns the value of one cell of an area.
#[inline(always)]
pub(crate) fn get_frame<B: Bank>(bank: &mut B, area: Area, frame: usize) -> Num
    requires read { CanGet (B.access (B.rest bank.old)) area }
    requires small { area.first + area.length ≤ 65536 }
    requires frame { frame < area.length }
    ensures value { result ≡ cell (B.cells bank.old) (area.first + frame) }
    ensures same { B.cells bank.new ≡ B.cells bank.old }
    ensures rest { B.rest bank.new ≡ B.rest bank.old }
{
    bank.get(address(area, frame))
}

/// Sets one cell of an area.
#[inline(always)]
pub(crate) fn set_frame<B: Bank>(bank: &mut B, area: Area, frame: usize, value: Num)
    requires write { CanSet (B.access (B.rest bank.old)) area }
    requires small { area.first + area.length ≤ 65536 }
    requires frame { frame < area.length }
    ensures cells { B.cells bank.new ≡ slice_set (B.cells bank.old) (area.first + frame) value }
    ensures rest { B.rest bank.new ≡ B.rest bank.old }
{
    bank.set(address(area, frame), value);
}

// Returns the address of an area's cell.
#[inline(always)]
fn address(area: Area, frame: usize) -> u32
    requires small { area.first + area.length ≤ 65536 }
    requires frame { frame < area.length }
    ensures { result ≡ area.first + frame }
{
    area.first + frame as u32
}
