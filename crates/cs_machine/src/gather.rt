// A player on registers: the arguments of its unit are in the registers that the op names.
ghost use Rattle.std.specs.Prelude.{◌≡◌, ◌<◌, ◌≤◌, ℕ, [], ◌∷◌, length, map, slice_index_or, true};
ghost use Rattle.std.specs.List.{All, list_all};
ghost use Rattle.cs_cells.specs.Cells.{cell};
ghost use Rattle.cs_ir.specs.{Placed.regs_read, Validity.has_register};
ghost use Rattle.cs_machine.specs.{Players.CanRead, Players.SamePlayer, Players.stepped, Registers.values};
ghost use Rattle.cs_machine.specs.inner.Gathered.{IsFirstAt, StandsAt, HoldsOperand, no_register};
ghost use Rattle.cs_signal.specs.Operands.{Lasts};
ghost use Rattle.cs_ugen.specs.Units.{IsUnitOpcode, moving_count, opcode_of};

use crate::Registers;
use crate::player::Player;
use cs_base::Num;
use cs_cells::Bank;
use cs_ir::Reads;
use cs_signal::Operand;

// The highest number of arguments that a unit takes at a step, and the highest number for all units except
// one.
const MOST_INPUTS: usize = 7;

const FEW_INPUTS: usize = 3;

/// Makes a step for each frame of `row`.
#[inline(always)]
pub fn block<B: Bank>(
    player: &mut Player,
    regs: &Registers,
    from: Reads<'_>,
    bank: &mut B,
    row: &mut [Num],
)
    requires there { list_all (has_register regs.now.counts) (regs_read from) ≡ true }
    requires row { length row.old ≡ regs.now.ksmps }
    requires unit { IsUnitOpcode (opcode_of player.old.state) }
    requires count { length (regs_read from) ≡ moving_count (opcode_of player.old.state) }
    requires read { CanRead (B.access (B.rest bank.old)) player.old }
    ensures value { (player.new.state, row.new)
        ≡ stepped player.old (map (values regs.now) (regs_read from.entry)) (cell (B.cells bank.old)) (length row.old) }
    ensures player { SamePlayer player.old player.new }
    ensures same { B.cells bank.new ≡ B.cells bank.old }
    ensures rest { B.rest bank.new ≡ B.rest bank.old }
{
    if from.len() <= FEW_INPUTS {
        let inputs = [
            operand_at(regs, from, 0),
            operand_at(regs, from, 1),
            operand_at(regs, from, 2),
        ];
        player.block(&inputs[..from.len()], bank, row);
    } else {
        block_on_many(player, regs, from, bank, row);
    }
}

// Makes a step for each frame of `row`, for a unit with more than `FEW_INPUTS` arguments.
#[inline(never)]
fn block_on_many<B: Bank>(
    player: &mut Player,
    regs: &Registers,
    from: Reads<'_>,
    bank: &mut B,
    row: &mut [Num],
)
    requires there { list_all (has_register regs.now.counts) (regs_read from) ≡ true }
    requires row { length row.old ≡ regs.now.ksmps }
    requires unit { IsUnitOpcode (opcode_of player.old.state) }
    requires count { length (regs_read from) ≡ moving_count (opcode_of player.old.state) }
    requires read { CanRead (B.access (B.rest bank.old)) player.old }
    ensures value { (player.new.state, row.new)
        ≡ stepped player.old (map (values regs.now) (regs_read from.entry)) (cell (B.cells bank.old)) (length row.old) }
    ensures player { SamePlayer player.old player.new }
    ensures same { B.cells bank.new ≡ B.cells bank.old }
    ensures rest { B.rest bank.new ≡ B.rest bank.old }
{
    let inputs = operands(regs, from);
    player.block(&inputs[..from.len()], bank, row);
}

// Returns the registers as operands of a unit over a cycle, with 0 after the last one.
fn operands<'r>(regs: &'r Registers, from: Reads<'_>) -> [Operand<'r>; MOST_INPUTS]
    requires there { list_all (has_register regs.now.counts) (regs_read from) ≡ true }
    requires few { length (regs_read from) ≤ 7 }
    ensures stand { (j : ℕ) → j < length (regs_read from.entry)
        → StandsAt (values regs.now) result (regs_read from.entry) j }
    ensures last { All (Lasts regs.now.ksmps) result }
    ensures long { length result ≡ 7 }
{
    [
        operand_at(regs, from, 0),
        operand_at(regs, from, 1),
        operand_at(regs, from, 2),
        operand_at(regs, from, 3),
        operand_at(regs, from, 4),
        operand_at(regs, from, 5),
        operand_at(regs, from, 6),
    ]
}

#[inline(always)]
fn operand_at<'r>(regs: &'r Registers, from: Reads<'_>, place: usize) -> Operand<'r>
    requires { list_all (has_register regs.now.counts) (regs_read from) ≡ true }
    ensures stands { place < length (regs_read from.entry) → HoldsOperand (values regs.now) result
        (slice_index_or (regs_read from.entry) place no_register) }
    ensures lasts { Lasts regs.now.ksmps result }
{
    match from.get(place) {
        Some(register) => regs.operand(register),
        None => Operand::Held(Num::exact(0)),
    }
}

/// Makes one step, on the values of the registers at the first frame.
#[inline(always)]
pub fn step<B: Bank>(player: &mut Player, regs: &Registers, from: Reads<'_>, bank: &mut B) -> Num
    requires there { list_all (has_register regs.now.counts) (regs_read from) ≡ true }
    requires unit { IsUnitOpcode (opcode_of player.old.state) }
    requires count { length (regs_read from) ≡ moving_count (opcode_of player.old.state) }
    requires read { CanRead (B.access (B.rest bank.old)) player.old }
    ensures value { (player.new.state, result ∷ [])
        ≡ stepped player.old (map (values regs.now) (regs_read from.entry)) (cell (B.cells bank.old)) 1 }
    ensures player { SamePlayer player.old player.new }
    ensures same { B.cells bank.new ≡ B.cells bank.old }
    ensures rest { B.rest bank.new ≡ B.rest bank.old }
{
    if from.len() <= FEW_INPUTS {
        let inputs = [
            first_at(regs, from, 0),
            first_at(regs, from, 1),
            first_at(regs, from, 2),
        ];
        player.step(&inputs[..from.len()], bank)
    } else {
        step_on_many(player, regs, from, bank)
    }
}

// Makes one step of a unit with more than `FEW_INPUTS` arguments.
#[inline(never)]
fn step_on_many<B: Bank>(
    player: &mut Player,
    regs: &Registers,
    from: Reads<'_>,
    bank: &mut B,
) -> Num
    requires there { list_all (has_register regs.now.counts) (regs_read from) ≡ true }
    requires unit { IsUnitOpcode (opcode_of player.old.state) }
    requires count { length (regs_read from) ≡ moving_count (opcode_of player.old.state) }
    requires read { CanRead (B.access (B.rest bank.old)) player.old }
    ensures value { (player.new.state, result ∷ [])
        ≡ stepped player.old (map (values regs.now) (regs_read from.entry)) (cell (B.cells bank.old)) 1 }
    ensures player { SamePlayer player.old player.new }
    ensures same { B.cells bank.new ≡ B.cells bank.old }
    ensures rest { B.rest bank.new ≡ B.rest bank.old }
{
    let inputs = firsts(regs, from);
    player.step(&inputs[..from.len()], bank)
}

#[inline(always)]
fn first_at(regs: &Registers, from: Reads<'_>, place: usize) -> Num
    requires { list_all (has_register regs.now.counts) (regs_read from) ≡ true }
    ensures { place < length (regs_read from.entry)
        → result ≡ values regs.now (slice_index_or (regs_read from.entry) place no_register) 0 }
{
    match from.get(place) {
        Some(register) => regs.first(register),
        None => Num::exact(0),
    }
}

// Returns the values of registers at the first frame, with 0 after the last one.
fn firsts(regs: &Registers, from: Reads<'_>) -> [Num; MOST_INPUTS]
    requires there { list_all (has_register regs.now.counts) (regs_read from) ≡ true }
    requires few { length (regs_read from) ≤ 7 }
    ensures first { (j : ℕ) → j < length (regs_read from.entry)
        → IsFirstAt (values regs.now) result (regs_read from.entry) j }
    ensures long { length result ≡ 7 }
{
    let mut inputs = [Num::exact(0); MOST_INPUTS];
    for j in 0..from.len() {
        inputs[j] = first_at(regs, from, j);
    }
    inputs
}
