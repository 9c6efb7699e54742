// What notes share, read and written at the rate of its resource.
ghost use Rattle.std.specs.Prelude.{◌≡◌, ◌≤◌, ◌<◌, ◌+◌, [], ◌∷◌, length, true, Some};
ghost use Rattle.cs_machine.specs.Access.{CanGet, CanSet};
ghost use Rattle.cs_voice.specs.Cells.{AreSized, DoesOver};
ghost use Rattle.cs_base.specs.declared.resource.Rate.TheVariants as rate;
ghost use Rattle.cs_cells.specs.Cells.{cell};
ghost use Rattle.cs_ir.specs.{Validity.has_register, Validity.has_value, Waves.held};
ghost use Rattle.cs_ir.specs.declared.op.Act.TheVariants as act;
ghost use Rattle.cs_ir.specs.declared.register.Reg.{Reg};
ghost use Rattle.cs_machine.specs.{Registers.IsWritten, Registers.values, States.HasRoom, States.MayGet, States.MaySet};
ghost use Rattle.cs_voice_meaning.specs.Placing.{cell_count, wave_in, with_wave};

use cs_base::{Num, Rate, Res};
use cs_cells::{Area, Bank};
use cs_ir::Reg;
use cs_machine::{NoteSetting, Registers, State, area_in, read_row, write_row, write_value};

/// Reads a shared resource into a register: the act `Load`.
pub(crate) fn load<B: Bank>(
    state: &mut State<'_>,
    at: &NoteSetting<'_>,
    into: Reg,
    res: Res,
    bank: &mut B,
)
    requires into { has_register state.old.regs.counts into ≡ true }
    requires room { HasRoom state.old }
    requires value { has_value res ≡ true }
    requires sized { AreSized at.now.layout.now state.old.regs.ksmps }
    requires read { MayGet (B.access (B.rest bank.old)) at.now.layout.now res }
    ensures does { DoesOver at.now (act.Load res) into [] state.old (cell (B.cells bank.old)) state.new
        (cell (B.cells bank.new)) }
    ensures same { B.cells bank.new ≡ B.cells bank.old }
    ensures rest { B.rest bank.new ≡ B.rest bank.old }
{
    let area = area_in(at.layout, res);
    read(
        &mut state.regs,
        &mut state.row,
        into,
        res.rate(),
        area,
        bank,
    );
}

/// Writes a register to a shared resource: the act `Save`.
pub(crate) fn save<B: Bank>(
    state: &mut State<'_>,
    at: &NoteSetting<'_>,
    res: Res,
    x: Reg,
    bank: &mut B,
)
    requires x { has_register state.old.regs.counts x ≡ true }
    requires room { HasRoom state.old }
    requires value { has_value res ≡ true }
    requires sized { AreSized at.now.layout.now state.old.regs.ksmps }
    requires write { MaySet (B.access (B.rest bank.old)) at.now.layout.now res }
    ensures does { (into : Reg) → DoesOver at.now (act.Save res) into (x ∷ []) state.old (cell (B.cells bank.old))
        state.new (cell (B.cells bank.new)) }
    ensures rest { B.rest bank.new ≡ B.rest bank.old }
{
    let area = area_in(at.layout, res);
    write(&state.regs, &mut state.row, x, res.rate(), area, bank);
}

/// Sets a register to the value, of some rate, that is in an area.
pub(crate) fn read<B: Bank>(
    regs: &mut Registers,
    row: &mut Vec<Num>,
    into: Reg,
    rate: Rate,
    area: Area,
    bank: &mut B,
)
    requires into { has_register regs.old.counts into ≡ true }
    requires row { length row.old.items ≡ regs.old.ksmps }
    requires frames { 0 < regs.old.ksmps }
    requires size { area.length ≡ cell_count regs.old.ksmps rate }
    requires read { CanGet (B.access (B.rest bank.old)) area }
    requires small { area.first + area.length ≤ 65536 }
    ensures values { IsWritten regs.old into (wave_in rate area (cell (B.cells bank.old))) regs.new }
    ensures row { length row.new.items ≡ regs.old.ksmps }
    ensures same { B.cells bank.new ≡ B.cells bank.old }
    ensures rest { B.rest bank.new ≡ B.rest bank.old }
{
    if rate.is_audio() && into.is_audio() {
        read_row(bank, area, row);
        regs.swap(into, row);
    } else {
        regs.hold(into, first_cell(bank, area), row);
    }
}

// Returns the first cell of an area.
fn first_cell<B: Bank>(bank: &mut B, area: Area) -> Num
    requires some { 0 < area.length }
    requires read { CanGet (B.access (B.rest bank.old)) area }
    ensures value { result ≡ cell (B.cells bank.old) area.first }
    ensures same { B.cells bank.new ≡ B.cells bank.old }
    ensures rest { B.rest bank.new ≡ B.rest bank.old }
{
    bank.get(area.first)
}

/// Writes a register's value into an area, as a rate stores it.
pub(crate) fn write<B: Bank>(
    regs: &Registers,
    row: &mut Vec<Num>,
    x: Reg,
    rate: Rate,
    area: Area,
    bank: &mut B,
)
    requires x { has_register regs.now.counts x ≡ true }
    requires row { length row.old.items ≡ regs.now.ksmps }
    requires size { area.length ≡ cell_count regs.now.ksmps rate }
    requires write { CanSet (B.access (B.rest bank.old)) area }
    requires small { area.first + area.length ≤ 65536 }
    ensures cells { cell (B.cells bank.new)
        ≡ with_wave (Some area) (held regs.now.ksmps rate (values regs.now x)) (cell (B.cells bank.old)) }
    ensures row { length row.new.items ≡ regs.now.ksmps }
    ensures rest { B.rest bank.new ≡ B.rest bank.old }
{
    match rate {
        Rate::Audio => write_frames(regs, row, x, area, bank),
        _ => write_value(bank, area, regs.first(x)),
    }
}

// Writes a register into an audio area, frame by frame.
fn write_frames<B: Bank>(regs: &Registers, row: &mut Vec<Num>, x: Reg, area: Area, bank: &mut B)
    requires x { has_register regs.now.counts x ≡ true }
    requires row { length row.old.items ≡ regs.now.ksmps }
    requires size { area.length ≡ regs.now.ksmps }
    requires write { CanSet (B.access (B.rest bank.old)) area }
    requires small { area.first + area.length ≤ 65536 }
    ensures cells { cell (B.cells bank.new)
        ≡ with_wave (Some area) (held regs.now.ksmps rate.Audio (values regs.now x)) (cell (B.cells bank.old)) }
    ensures row { length row.new.items ≡ regs.now.ksmps }
    ensures rest { B.rest bank.new ≡ B.rest bank.old }
{
    if x.is_audio() {
        write_row(bank, area, regs.row(x));
    } else {
        regs.frames(x, row);
        write_row(bank, area, row);
    }
}
