// Units of a note, run for a control cycle.
ghost use Rattle.std.specs.Prelude.{◌≡◌, ◌<◌, length, map, slice_index_or, true, Some, None};
ghost use Rattle.std.specs.List.{list_all};
ghost use Rattle.cs_voice.specs.Units.{DoesUnit, MayPlay, cycled};
ghost use Rattle.cs_cells.specs.Cells.{cell};
ghost use Rattle.cs_ir.specs.{Placed.regs_read, Registers.rate_at, Validity.has_register};
ghost use Rattle.cs_meaning.specs.Pieces.{step_at};
ghost use Rattle.cs_machine.specs.{Players.CanRead, Players.PlayerData, States.HasRoom};
ghost use Rattle.cs_machine.specs.Registers.{IsWritten, values};
ghost use Rattle.cs_signal.specs.Operands.{argument};
ghost use Rattle.cs_ugen.specs.Units.{IsUnitOpcode, moving_count, opcode_of};

use cs_base::Num;
use cs_cells::Bank;
use cs_ir::{Reach, Reads, Reg};
use cs_machine::{Player, Registers, State, block, step};

/// Runs the unit with a number for a cycle: the act `Unit`. Its result goes into a register, whose rate
/// decides how many steps it makes: one for each frame, or one for the complete cycle. If there is no such
/// unit, or its table is out of reach, the register becomes 0 and the unit stays as it is.
#[inline(always)]
pub(crate) fn run_unit<B: Bank>(
    state: &mut State<'_>,
    number: usize,
    reach: Reach,
    into: Reg,
    from: Reads<'_>,
    bank: &mut B,
)
    requires into { has_register state.old.regs.counts into ≡ true }
    requires from { list_all (has_register state.old.regs.counts) (regs_read from) ≡ true }
    requires number { number < length state.old.players.items }
    requires room { HasRoom state.old }
    requires unit { (p : PlayerData) → slice_index_or state.old.players.items number None ≡ Some p
        → MayPlay (B.access (B.rest bank.old)) reach (regs_read from) p }
    ensures does { DoesUnit number reach into (regs_read from.entry) state.old (cell (B.cells bank.old)) state.new
        (cell (B.cells bank.new)) }
    ensures same { B.cells bank.new ≡ B.cells bank.old }
    ensures rest { B.rest bank.new ≡ B.rest bank.old }
{
    match &mut state.players[number] {
        Some(player) => {
            if player.may_touch(reach) {
                play(player, &mut state.regs, &mut state.row, into, from, bank);
            } else {
                state.regs.hold(into, Num::exact(0), &mut state.row);
            }
        }
        None => state.regs.hold(into, Num::exact(0), &mut state.row),
    }
}

// Makes the steps of a unit in a cycle.
#[inline(always)]
fn play<B: Bank>(
    player: &mut Player<'_>,
    regs: &mut Registers,
    row: &mut Vec<Num>,
    into: Reg,
    from: Reads<'_>,
    bank: &mut B,
)
    requires into { has_register regs.old.counts into ≡ true }
    requires from { list_all (has_register regs.old.counts) (regs_read from) ≡ true }
    requires row { length row.old.items ≡ regs.old.ksmps }
    requires unit { IsUnitOpcode (opcode_of player.old.state) }
    requires count { length (regs_read from) ≡ moving_count (opcode_of player.old.state) }
    requires read { CanRead (B.access (B.rest bank.old)) player.old }
    ensures unit { player.new ≡ record player.old {
      state = (cycled regs.old.ksmps (rate_at into) (map (values regs.old) (regs_read from.entry))
          (cell (B.cells bank.old)) player.old).0;
    } }
    ensures values { IsWritten regs.old into (λ j. argument (cycled regs.old.ksmps (rate_at into)
        (map (values regs.old) (regs_read from.entry))
        (cell (B.cells bank.old)) player.old).1 (step_at (rate_at into) j)) regs.new }
    ensures row { length row.new.items ≡ regs.old.ksmps }
    ensures same { B.cells bank.new ≡ B.cells bank.old }
    ensures rest { B.rest bank.new ≡ B.rest bank.old }
{
    if into.is_audio() {
        block(player, regs, from, bank, row);
        regs.swap(into, row);
    } else {
        let value = step(player, regs, from, bank);
        regs.set(into, value);
    }
}
