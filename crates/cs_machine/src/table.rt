// Stores into live tables.
ghost use Rattle.std.specs.Prelude.{◌≡◌, ◌+◌, ◌≤◌, true, Some};
ghost use Rattle.cs_machine.specs.Access.{CanSet};
ghost use Rattle.cs_base.specs.declared.resource.Rate.TheVariants as rate;
ghost use Rattle.cs_cells.specs.Cells.{cell};
ghost use Rattle.cs_gen.specs.Points.{len_of};
ghost use Rattle.cs_meaning.specs.Pieces.{Table, places_of_indices, stored};
ghost use Rattle.cs_ugen.specs.Points.{is_len};
ghost use Rattle.cs_signal.specs.Operands.{operand_at};
ghost use Rattle.cs_voice_meaning.specs.Placing.{wave_in, with_wave};

use crate::area_rows::set_frame;
use cs_base::Num;
use cs_cells::{Area, Bank};
use cs_gen::{len_of, place_of_index};
use cs_signal::Operand;

/// Stores into a live table: at each step one value, at an index that is clipped to the table.
pub fn store<B: Bank>(bank: &mut B, area: Area, steps: usize, sig: &Operand, ndx: &Operand)
    requires power { is_len (len_of area.length) ≡ true }
    requires write { CanSet (B.access (B.rest bank.old)) area }
    requires small { area.first + area.length ≤ 65536 }
    ensures cells { (t : Table) → t.size ≡ area.length → cell (B.cells bank.new) ≡ with_wave (Some area)
        (stored (places_of_indices t (operand_at ndx.now)) (operand_at sig.now) steps
        (wave_in rate.Audio area (cell (B.cells bank.old)))) (cell (B.cells bank.old)) }
    ensures rest { B.rest bank.new ≡ B.rest bank.old }
{
    let len = len_of(area.length);
    for j in 0..steps {
        let place = place_of_index(ndx.at(j), len);
        set_frame(bank, area, place as usize, sig.at(j));
    }
}
