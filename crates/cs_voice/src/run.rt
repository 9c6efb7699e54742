// A code from step to step, in a control cycle or as a note begins.
ghost use Rattle.std.specs.Prelude.{◌≡◌, ◌<◌, Bool, true, length, map, slice_get, List, Some, None, IfOk, IsErr};
ghost use Rattle.std.specs.List.{list_all};
ghost use Rattle.cs_cells.specs.Cells.{cell};
ghost use Rattle.cs_ir.specs.Flat.{IsLow, flat, further, moved_op, ops_at, window_of};
ghost use Rattle.cs_ir.specs.{Placed.there, Routines.library_in, Validity.has_register, Values.holds, Waves.operand};
ghost use Rattle.cs_ir.specs.declared.op.Code.{Code};
ghost use Rattle.cs_machine.specs.Registers.{values};
ghost use Rattle.cs_voice_meaning.specs.Voices.{Sheet};
ghost use Rattle.cs_voice.specs.Cycles.{CanRun, Context, HasRun};
ghost use Rattle.cs_voice.specs.{Passing.CanPass, Passing.Passes, Codes.CanGo, declared.tables.Finds.Finds};
ghost use Rattle.cs_voice.specs.inner.Coming.{AreOfNoCycle, CanDoOps, DoesOps};
ghost use Rattle.cs_voice.specs.inner.Starters.{asked, finding};

use crate::any::act;
use crate::begin::StartRefusal;
use crate::starter::{Starter, start};
use cs_base::OutOfMemory;
use cs_cells::Bank;
use cs_ir::{Act, Call, Op, OpAt, Ops, Routine, Step, Window, holds};
use cs_machine::{NoteSetting, Registers, State};

/// Does a code from its start to its end, or up to a refusal of the starter. Ops that a jump skips cost
/// nothing.
pub(crate) fn run<'p, B: Bank>(
    state: &mut State<'p>,
    at: &NoteSetting<'_>,
    ops: &Ops,
    starter: &mut Option<Starter<'_, '_, '_, 'p>>,
    bank: &mut B,
) -> Result<Option<StartRefusal>, OutOfMemory>
    requires { CanGo (B.access (B.rest bank.old)) at.now (finding starter.old) ops.now state.old }
    ensures cycle { IfOk result (λ refused. (c : Context)
        → CanRun (B.access (B.rest bank.old)) at.now c ops.now state.old → (refused ≡ None)
        × HasRun at.now.layout.now c ops.now state.old (cell (B.cells bank.old)) state.new (cell (B.cells bank.new))) }
    ensures passes { IfOk result (λ refused. (f : Finds) (ms : List Bool) (code : Code) (s : Sheet)
        → finding starter.old ≡ Some (f, ms) → f.at ≡ at.now → code.ops ≡ ops.now
        → CanPass (B.access (B.rest bank.old)) f ms code s state.old
        → Passes s state.old (cell (B.cells bank.old)) (asked starter.old) state.new (cell (B.cells bank.new))
        (asked starter.new) refused) }
    ensures memory { IsErr result → (c : Context) → CanRun (B.access (B.rest bank.old)) at.now c ops.now state.old → ⊥ }
    ensures rest { B.rest bank.new ≡ B.rest bank.old }
{
    let (routines, steps) = ops.parts();
    let code = Invoked {
        routines,
        steps,
        window: Window::whole(),
    };
    steps_in(state, at, &code, starter, bank)
}

// Steps that run in a window of registers and units, and the routines that they may invoke.
#[derive(Clone, Copy)]
struct Invoked<'c> {
    routines: &'c [Routine],
    steps: &'c [Step],
    window: Window,
}

impl<'c> Invoked<'c> {
    // Returns an op of the steps, moved into their window.
    #[inline(always)]
    fn op<'o>(&'o self, op: &'o Op) -> OpAt<'o>
        ensures op { there result ≡ moved_op self.now.window 0 op.now }
        ensures window { result.window.now ≡ self.now.window }
    {
        OpAt {
            op,
            window: &self.window,
        }
    }
}

// Does steps, to their end or up to a refusal of the starter.
#[cycle(run)]
fn steps_in<'p, B: Bank>(
    state: &mut State<'p>,
    at: &NoteSetting<'_>,
    code: &Invoked<'_>,
    starter: &mut Option<Starter<'_, '_, '_, 'p>>,
    bank: &mut B,
) -> Result<Option<StartRefusal>, OutOfMemory>
    requires low { IsLow (length code.now.routines.now) code.now.window }
    requires able { CanDoOps (B.access (B.rest bank.old)) at.now (finding starter.old) code.now.window
        (flat (library_in code.now.routines.now) code.now.steps.now) state.old (cell (B.cells bank.old))
        (asked starter.old) }
    ensures does { IfOk result (λ refused. DoesOps (B.access (B.rest bank.old)) at.now (finding starter.old)
        code.now.window (flat (library_in code.now.routines.now) code.now.steps.now) state.old
        (cell (B.cells bank.old)) (asked starter.old) state.new (cell (B.cells bank.new)) (asked starter.new) refused) }
    ensures memory { IsErr result → AreOfNoCycle (B.access (B.rest bank.old)) at.now (finding starter.old)
        code.now.window (flat (library_in code.now.routines.now) code.now.steps.now) state.old
        (cell (B.cells bank.old)) (asked starter.old) }
    ensures same { finding starter.new ≡ finding starter.old }
    ensures rest { B.rest bank.new ≡ B.rest bank.old }
{
    let steps = code.steps;
    let mut place: usize = 0;
    while place < steps.len() {
        match step_at(steps, place) {
            Step::Do(op) => match op.act {
                Act::Jump(to) => place = to,
                Act::Unless(to) => {
                    if condition(&state.regs, code.op(op)) {
                        place += 1;
                    } else {
                        place = to;
                    }
                }
                Act::Start(_, _) | Act::Seek | Act::Ask => {
                    let refused = start(starter, state, code.op(op))?;
                    if let Some(refused) = refused {
                        return Ok(Some(refused));
                    }
                    place += 1;
                }
                _ => {
                    act(state, at, code.op(op), bank);
                    place += 1;
                }
            },
            Step::Invoke(call) => {
                let refused = invoke(state, at, code, call, starter, bank)?;
                if let Some(refused) = refused {
                    return Ok(Some(refused));
                }
                place += 1;
            }
        }
    }
    Ok(None)
}

// Does the steps of the routine that is called, or nothing if there is no such routine.
#[cycle(run)]
fn invoke<'p, B: Bank>(
    state: &mut State<'p>,
    at: &NoteSetting<'_>,
    code: &Invoked<'_>,
    call: &Call,
    starter: &mut Option<Starter<'_, '_, '_, 'p>>,
    bank: &mut B,
) -> Result<Option<StartRefusal>, OutOfMemory>
    requires low { IsLow (length code.now.routines.now) code.now.window }
    requires able { CanDoOps (B.access (B.rest bank.old)) at.now (finding starter.old)
        (further code.now.window (window_of call.now)) (ops_at (library_in code.now.routines.now) call.now.routine)
        state.old (cell (B.cells bank.old)) (asked starter.old) }
    ensures does { IfOk result (λ refused. DoesOps (B.access (B.rest bank.old)) at.now (finding starter.old)
        (further code.now.window (window_of call.now)) (ops_at (library_in code.now.routines.now) call.now.routine)
        state.old (cell (B.cells bank.old)) (asked starter.old) state.new (cell (B.cells bank.new))
        (asked starter.new) refused) }
    ensures memory { IsErr result → AreOfNoCycle (B.access (B.rest bank.old)) at.now (finding starter.old)
        (further code.now.window (window_of call.now)) (ops_at (library_in code.now.routines.now) call.now.routine)
        state.old (cell (B.cells bank.old)) (asked starter.old) }
    ensures same { finding starter.new ≡ finding starter.old }
    ensures rest { B.rest bank.new ≡ B.rest bank.old }
{
    let number = call.routine as usize;
    match code.routines.get(number) {
        Some(routine) => {
            let inner = Invoked {
                routines: &code.routines[..number],
                steps: routine.steps(),
                window: code.window.further(call),
            };
            steps_in(state, at, &inner, starter, bank)
        }
        None => Ok(None),
    }
}

// Returns the step at an index of a list.
#[inline(always)]
fn step_at(steps: &[Step], place: usize) -> &Step
    requires { place < length steps.now }
    ensures { slice_get steps.now place ≡ Some result.now }
{
    &steps[place]
}

// Returns whether the condition of an op holds.
#[inline(always)]
fn condition(regs: &Registers, op: OpAt<'_>) -> bool
    requires one { length (there op).from ≡ 1 }
    requires there { list_all (has_register regs.now.counts) (there op).from ≡ true }
    ensures { result ≡ holds (operand 0 (map (values regs.now) (there op.entry).from) 0) }
{
    holds(regs.first(op.only()))
}
