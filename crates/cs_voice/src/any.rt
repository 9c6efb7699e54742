// Any act except jumps, starts of units and the scheduling of notes.
ghost use Rattle.std.specs.Prelude.{◌≡◌, true};
ghost use Rattle.cs_voice.specs.Ready.{CanBeDone, DoesOp, IsFit, is_here, is_plain};
ghost use Rattle.cs_cells.specs.Cells.{cell};
ghost use Rattle.cs_ir.specs.{Flat.leaves_room, Placed.there};
ghost use Rattle.cs_machine.specs.States.{DoesAt};

use crate::shared::{load, save};
use crate::store::{store_points, storing_of};
use crate::unit::run_unit;
use crate::zak::zak;
use cs_cells::Bank;
use cs_ir::{Act, OpAt};
use cs_machine::{NoteSetting, State, field_of, head_value};

/// Does an op of a valid code on a state and the cells of a bank: any op except a jump, the start of a unit
/// and the scheduling of a note.
#[inline(always)]
pub(crate) fn act<B: Bank>(state: &mut State<'_>, at: &NoteSetting<'_>, op: OpAt<'_>, bank: &mut B)
    requires here { is_here (there op).act ≡ true }
    requires room { leaves_room op.window.now ≡ true }
    requires ready { CanBeDone (B.access (B.rest bank.old)) at.now (there op) state.old }
    ensures does { DoesOp (B.access (B.rest bank.old)) at.now (there op.entry) state.old
        (cell (B.cells bank.old)) state.new (cell (B.cells bank.new)) }
    ensures rest { B.rest bank.new ≡ B.rest bank.old }
{
    match op.op.act {
        Act::Load(res) => load(state, at, op.writes(), res, bank),
        Act::Save(res) => save(state, at, res, op.only(), bank),
        Act::Unit(opcode, number, reach) => {
            run_unit(
                state,
                op.window.unit(number),
                reach,
                op.writes(),
                op.reads(),
                bank,
            );
        }
        Act::Zak(_, _) => zak(state, at, op, bank),
        Act::Store(reach) => store_points(state, at, storing_of(op), reach, bank),
        _ => plain(state, at, op),
    }
}

// Does an op that touches only registers and output channels.
#[inline(always)]
fn plain(state: &mut State<'_>, at: &NoteSetting<'_>, op: OpAt<'_>)
    requires plain { is_plain (there op).act ≡ true }
    requires fit { IsFit (there op) state.old }
    ensures { DoesAt at.now (there op.entry).act (there op.entry).into (there op.entry).from state.old state.new }
{
    match op.op.act {
        Act::Const(value) => state.regs.hold(op.writes(), value, &mut state.row),
        Act::Field(field) => state
            .regs
            .hold(op.writes(), field_of(at.fields, field), &mut state.row),
        Act::Head(name) => state
            .regs
            .hold(op.writes(), head_value(at.head, name), &mut state.row),
        Act::Copy => state.regs.copy(op.writes(), op.only(), &mut state.row),
        Act::Neg => state.regs.negate(op.writes(), op.only(), &mut state.row),
        Act::Call(function) => state
            .regs
            .apply(function, op.writes(), op.only(), &mut state.row),
        Act::Pair(operator) => {
            let (x, y) = op.pair();
            state
                .regs
                .combine(operator, op.writes(), x, y, &mut state.row);
        }
        Act::Pick => {
            let (condition, x, y) = op.triple();
            state
                .regs
                .pick(op.writes(), condition, x, y, &mut state.row);
        }
        Act::Out(channel) => state.send(channel, op.only()),
        Act::OutAt => {
            let (number, x) = op.pair();
            state.send_at(number, x);
        }
        Act::Turnoff => state.turn_off(),
        _ => unreachable!(),
    }
}
