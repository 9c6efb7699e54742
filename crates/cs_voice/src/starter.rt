// What only the code that begins a note has: it starts units, looks for tables and schedules notes.
ghost use Rattle.std.specs.Prelude.{◌≡◌, [], true, IfOk, Some};
ghost use Rattle.cs_ir.specs.{Flat.leaves_room, Placed.there};
ghost use Rattle.cs_voice.specs.{Codes.CanStart, Codes.HasStarted, inner.Jumps.is_start};
ghost use Rattle.cs_voice.specs.inner.Starters.{asked, finding};

use crate::asks::{ask, gather};
use crate::begin::{StartRefusal, UnitStart, begin, seek};
use crate::tables::Finds;
use cs_base::{Num, OutOfMemory};
use cs_ir::{Act, Ask, OpAt};
use cs_machine::State;
use std::alloc::Global;
use std::mem;

/// What a note begins with. A control cycle has no starter, and starts nothing.
#[derive(Drop)]
pub(crate) struct Starter<'f, 's, 'm, 'p> {
    pub alloc: Global,
    pub finds: &'f Finds<'s, 'p>,
    /// For each of the tables in `finds`, whether it has been made by now.
    pub made: &'m [bool],
    /// The values of the registers that a start, a look for a table or the scheduling of a note reads.
    pub settled: Vec<Num>,
    /// The notes that have been scheduled.
    pub asks: Vec<Ask>,
}

impl<'p> Starter<'_, '_, '_, 'p> {
    fn start(
        &mut self,
        state: &mut State<'p>,
        op: OpAt<'_>,
    ) -> Result<Option<StartRefusal>, OutOfMemory>
        requires here { is_start (there op).act ≡ true }
        requires room { leaves_room op.window.now ≡ true }
        requires able { CanStart (finding (Some self.old)) (there op) state.old }
        ensures does { IfOk result (λ refused. HasStarted (finding (Some self.old)) (there op.entry) state.old
            (asked (Some self.old)) state.new (asked (Some self.new)) refused) }
        ensures same { finding (Some self.new) ≡ finding (Some self.old) }
    {
        gather(&state.regs, op.reads(), &mut self.settled)?;
        match op.op.act {
            Act::Start(opcode, unit) => {
                let start = UnitStart {
                    opcode,
                    rate: op.op.into.rate(),
                    unit: op.window.unit(unit),
                };
                begin(
                    self.alloc,
                    state,
                    self.finds,
                    self.made,
                    start,
                    &self.settled,
                )
            }
            Act::Seek => {
                let refused = seek(self.finds.tables, self.made, &self.settled);
                Ok(refused)
            }
            Act::Ask => {
                ask(self.alloc, &mut self.asks, &self.settled)?;
                Ok(None)
            }
            _ => unreachable!(),
        }
    }
}

/// Moves the notes that have been scheduled to `asks`.
pub(crate) fn give_asks(starter: &mut Option<Starter<'_, '_, '_, '_>>, asks: &mut Vec<Ask>)
    requires { asks.old.items ≡ [] }
    ensures { asks.new.items ≡ asked starter.old }
{
    if let Some(starter) = starter {
        mem::swap(asks, &mut starter.asks);
    }
}

/// Does a start, a look for a table or the scheduling of a note.
#[inline(never)]
pub(crate) fn start<'p>(
    starter: &mut Option<Starter<'_, '_, '_, 'p>>,
    state: &mut State<'p>,
    op: OpAt<'_>,
) -> Result<Option<StartRefusal>, OutOfMemory>
    requires here { is_start (there op).act ≡ true }
    requires room { leaves_room op.window.now ≡ true }
    requires able { CanStart (finding starter.old) (there op) state.old }
    ensures does { IfOk result (λ refused. HasStarted (finding starter.old) (there op.entry) state.old
        (asked starter.old) state.new (asked starter.new) refused) }
    ensures same { finding starter.new ≡ finding starter.old }
{
    match starter {
        Some(starter) => starter.start(state, op),
        None => Ok(None),
    }
}
