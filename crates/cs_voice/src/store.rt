// Stores into live tables.
ghost use Rattle.std.specs.{List.list_all, Prelude.IfSome};
ghost use Rattle.std.specs.Prelude.{◌≡◌, ◌+◌, ◌≤◌, [], ◌∷◌, length, true};
ghost use Rattle.cs_voice.specs.Cells.{DoesOver, MayStore, stored_area};
ghost use Rattle.cs_cells.specs.Cells.{cell};
ghost use Rattle.cs_ir.specs.{Flat.is_small, Placed.there, Registers.rate_at, Validity.has_register};
ghost use Rattle.cs_ir.specs.declared.op.Act.TheVariants as act;
ghost use Rattle.cs_ir.specs.declared.register.Reg.{Reg};
ghost use Rattle.cs_meaning.specs.Pieces.{index, steps_of};
ghost use Rattle.cs_machine.specs.States.{HasRoom};

use cs_base::{Num, Rate, Res};
use cs_cells::{Area, Bank};
use cs_ir::{OpAt, Reach, Reg};
use cs_machine::{NoteSetting, State, area_of, index, store};

/// What to store: a register, at the indexes that another one names, into the table whose number a third one
/// holds; and the rate, which decides how often: once in each frame, or once in a cycle.
#[derive(Clone, Copy)]
pub(crate) struct Storing {
    pub signal: Reg,
    pub index: Reg,
    pub table: Reg,
    pub rate: Rate,
}

/// Returns what an op of a store says to store.
#[inline(never)]
pub(crate) fn storing_of(op: OpAt<'_>) -> Storing
    requires three { length (there op).from ≡ 3 }
    requires small { list_all is_small (there op).from ≡ true }
    ensures registers { (there op.entry).from ≡ result.signal ∷ result.index ∷ result.table ∷ [] }
    ensures rate { result.rate ≡ rate_at (there op.entry).into }
{
    let (signal, index, table) = op.triple();
    Storing {
        signal,
        index,
        table,
        rate: op.op.into.rate(),
    }
}

/// Stores a register into a live table: the act `Store`. Does nothing if the table is frozen, doesn't exist
/// or is out of reach.
#[inline(never)]
pub(crate) fn store_points<B: Bank>(
    state: &State<'_>,
    at: &NoteSetting<'_>,
    storing: Storing,
    reach: Reach,
    bank: &mut B,
)
    requires signal { has_register state.now.regs.counts storing.signal ≡ true }
    requires index { has_register state.now.regs.counts storing.index ≡ true }
    requires table { has_register state.now.regs.counts storing.table ≡ true }
    requires room { HasRoom state.now }
    requires write { MayStore (B.access (B.rest bank.old)) at.now.layout.now reach }
    ensures does { (into : Reg) → rate_at into ≡ storing.rate
        → DoesOver at.now (act.Store reach) into (storing.signal ∷ storing.index ∷ storing.table ∷ []) state.now
        (cell (B.cells bank.old)) state.now (cell (B.cells bank.new)) }
    ensures rest { B.rest bank.new ≡ B.rest bank.old }
{
    let steps = steps(storing.rate, state.row.len());
    let signal = state.regs.operand(storing.signal);
    let index = state.regs.operand(storing.index);
    if let Some(area) = stored_area(at, reach, state.regs.first(storing.table)) {
        store(bank, area, steps, &signal, &index);
    }
}

// Returns the area of the live table that a value names, or None if it isn't within reach.
fn stored_area(at: &NoteSetting<'_>, reach: Reach, value: Num) -> Option<Area>
    ensures value { result ≡ stored_area at.now.layout.now reach (index value) }
    ensures small { IfSome result (λ area. area.first + area.length ≤ 65536) }
{
    match index(value) {
        Some(n) if reach.contains(n) => area_of(at.layout, Res::Table(n)),
        _ => None,
    }
}

// Returns the number of steps that a cycle of `frames` frames has at a rate.
fn steps(rate: Rate, frames: usize) -> usize
    ensures { result ≡ steps_of frames rate }
{
    match rate {
        Rate::Audio => frames,
        _ => 1,
    }
}
