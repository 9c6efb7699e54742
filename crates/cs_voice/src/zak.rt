// Zak places, read, written, mixed into and cleared by the numbers that values name.
ghost use Rattle.std.specs.Prelude.{◌≡◌, [], ◌∷◌, true};
ghost use Rattle.cs_voice.specs.Cells.{CanMix, DoesOver, DoesZak};
ghost use Rattle.cs_voice.specs.{Ready.CanBeDone, inner.Zak.reached};
ghost use Rattle.cs_base.specs.Rates.{is_audio};
ghost use Rattle.cs_cells.specs.Cells.{cell};
ghost use Rattle.cs_ir.specs.{Placed.there, Registers.rate_at, Resources.places_of, Validity.has_register};
ghost use Rattle.cs_ir.specs.declared.op.Act.TheVariants as acts;
ghost use Rattle.cs_ir.specs.declared.op.Reach.{Reach};
ghost use Rattle.cs_ir.specs.declared.register.Reg.{Reg};
ghost use Rattle.cs_meaning.specs.Pieces.{index};
ghost use Rattle.cs_words.specs.{declared.catalogue.Opcode.Opcode, Catalogue.row_of};
ghost use Rattle.cs_words.specs.declared.catalogue.Shape.TheVariants as shape;

use crate::shared::{load, save};
use cs_base::{Num, Res};
use cs_cells::Bank;
use cs_ir::{Act, OpAt, Reach, Reg, places_of, zak_place};
use cs_machine::{NoteSetting, State, area_in, clear_places, index, mix_row};
use cs_words::{Opcode, Shape, Space, signature_of};

/// Does an op on zak places, by the shape of its opcode: the act `Zak`. If no place within reach has the
/// number that a value names, 0 is read, and nothing is written.
#[inline(never)]
pub(crate) fn zak<B: Bank>(state: &mut State<'_>, at: &NoteSetting<'_>, op: OpAt<'_>, bank: &mut B)
    requires act { (opcode : Opcode) × (reach : Reach) × ((there op).act ≡ acts.Zak opcode reach) }
    requires ready { CanBeDone (B.access (B.rest bank.old)) at.now (there op) state.old }
    ensures does { DoesOver at.now (there op.entry).act (there op.entry).into (there op.entry).from state.old
        (cell (B.cells bank.old)) state.new (cell (B.cells bank.new)) }
    ensures rest { B.rest bank.new ≡ B.rest bank.old }
{
    let Act::Zak(opcode, reach) = op.op.act else {
        unreachable!()
    };
    match shape_of(opcode) {
        Shape::ZakGet(space) => {
            let into = op.writes();
            match place(at, space, reach, state.regs.first(op.only())) {
                Some(res) => load(state, at, into, res, bank),
                None => state.regs.hold(into, Num::exact(0), &mut state.row),
            }
        }
        Shape::ZakPut(space) => {
            let (x, number) = op.pair();
            if let Some(res) = place(at, space, reach, state.regs.first(number)) {
                save(state, at, res, x, bank);
            }
        }
        Shape::ZakMix => {
            let (x, number) = op.pair();
            mix(state, at, reach, x, number, bank);
        }
        Shape::ZakClear(space) => {
            let (first, last) = op.pair();
            let first = state.regs.first(first);
            let last = state.regs.first(last);
            clear_places(bank, at, space, reach, first, last);
        }
        _ => unreachable!(),
    }
}

fn shape_of(opcode: Opcode) -> Shape
    ensures { result ≡ (row_of opcode).shape }
{
    signature_of(opcode).shape()
}

// Adds an audio register to the zak place that a value names, if it is within reach.
fn mix<B: Bank>(
    state: &mut State<'_>,
    at: &NoteSetting<'_>,
    reach: Reach,
    x: Reg,
    number: Reg,
    bank: &mut B,
)
    requires x { has_register state.old.regs.counts x ≡ true }
    requires sound { is_audio (rate_at x) ≡ true }
    requires able { CanMix (B.access (B.rest bank.old)) at.now reach number state.old }
    ensures does { (into : Reg) → DoesZak at.now shape.ZakMix reach into (x ∷ number ∷ [])
        state.old (cell (B.cells bank.old)) state.new (cell (B.cells bank.new)) }
    ensures rest { B.rest bank.new ≡ B.rest bank.old }
{
    if let Some(res) = place(at, Space::Audio, reach, state.regs.first(number)) {
        let area = area_in(at.layout, res);
        mix_row(bank, area, state.regs.row(x), &mut state.row);
    }
}

// Returns the zak place that a value names, or None if its space doesn't have it or it is out of reach.
fn place(at: &NoteSetting<'_>, space: Space, reach: Reach, value: Num) -> Option<Res>
    ensures { result ≡ reached at.now space reach (index value) }
{
    match index(value) {
        Some(n) if n < places_of(at.spaces, space) as usize && reach.contains(n) => Some(zak_place(
            space, n,
        )),
        _ => None,
    }
}
