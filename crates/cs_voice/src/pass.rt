// The code that a note begins with.
ghost use Rattle.std.specs.Prelude.{◌≡◌, ℤ, List, IfOk};
ghost use Rattle.cs_cells.specs.Cells.{cell};
ghost use Rattle.cs_voice.specs.{Passing.CanInitialise, Passing.Passes, Starts.sheet_for};

use crate::NewNote;
use crate::begin::StartRefusal;
use crate::run::run;
use crate::starter::{Starter, give_asks};
use crate::tables::Finds;
use cs_base::OutOfMemory;
use cs_cells::Bank;
use cs_ir::Ask;
use cs_machine::State;
use std::alloc::Global;
use std::mem;

/// Does the code that begins a note, to its end or up to a refusal. Everything written and scheduled before a
/// refusal stays.
pub(crate) fn pass<'s, 'p, B: Bank>(
    alloc: Global,
    state: &mut State<'p>,
    finds: &Finds<'s, 'p>,
    note: &NewNote<'_, 'p>,
    asks: &mut Vec<Ask>,
    bank: &mut B,
) -> Result<Option<StartRefusal>, OutOfMemory>
    requires { CanInitialise (B.access (B.rest bank.old)) finds.now note.now finds.now.at.fields.now state.old }
    ensures passes { IfOk result (λ refused. (fields : List ℤ) → finds.now.at.fields.now ≡ fields
        → Passes (sheet_for note.now fields) state.old (cell (B.cells bank.old)) asks.old.items state.new
        (cell (B.cells bank.new)) asks.new.items refused) }
    ensures rest { B.rest bank.new ≡ B.rest bank.old }
{
    let code = note.instrument.init();
    let mut starter = Starter {
        alloc,
        finds,
        made: note.made,
        settled: Vec::new(alloc),
        asks: Vec::new(alloc),
    };
    mem::swap(asks, &mut starter.asks);
    let mut starter = Some(starter);
    let passed = run(state, &finds.at, &code.ops, &mut starter, bank);
    give_asks(&mut starter, asks);
    passed
}
