// A control cycle: the second code of a note.
ghost use Rattle.std.specs.Prelude.{◌≡◌};
ghost use Rattle.cs_cells.specs.Cells.{cell};
ghost use Rattle.cs_voice.specs.Cycles.{CanRun, Context, HasRun};

use crate::run::run;
use cs_cells::Bank;
use cs_ir::Ops;
use cs_machine::{NoteSetting, State};

/// Runs a code for a cycle.
pub(crate) fn perform<B: Bank>(state: &mut State<'_>, at: &NoteSetting<'_>, ops: &Ops, bank: &mut B)
    requires { (c : Context) × CanRun (B.access (B.rest bank.old)) at.now c ops.now state.old }
    ensures run { (c : Context) → CanRun (B.access (B.rest bank.old)) at.now c ops.now state.old
        → HasRun at.now.layout.now c ops.now state.old (cell (B.cells bank.old)) state.new (cell (B.cells bank.new)) }
    ensures rest { B.rest bank.new ≡ B.rest bank.old }
{
    match run(state, at, ops, &mut None, bank) {
        Ok(_) => {}
        Err(_) => unreachable!(),
    }
}
