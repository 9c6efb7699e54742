// A live table as a curve.
ghost use Rattle.std.specs.Prelude.{◌≡◌, ◌+◌, ◌-◌, ◌<◌, ◌≤◌, ◌%◌, true};
ghost use Rattle.cs_machine.specs.Access.{CanGet};
ghost use Rattle.cs_gen.specs.Points.{guard_place, len_of};
ghost use Rattle.cs_ugen.specs.Points.{is_len};

use crate::area_rows::get_frame;
use cs_base::Num;
use cs_cells::{Area, Bank};
use cs_gen::len_of;
use cs_ugen::Curve;
use std::marker::Model;

/// A live table as a curve over the cells of a bank: its points as they are now, and the guard point. The
/// guard point is the last point if the size is one more than a power of two, and otherwise a copy of the
/// first. Contracts see the bank, the loan's name and the area.
#[derive(Drop)]
pub(crate) struct LiveTable<'b, B: Bank> {
    bank: &'b mut B,
    area: Area,
    len: u32,
    guard: u32,
}

impl<'b, B: Bank> Model for LiveTable<'b, B> {
    ghost use Rattle.cs_machine.specs.Live.{IsLive, LiveOver};

    ghost Value = { LiveOver B };

    ghost view = { λ t. record { name = t.bank.ghost_name; bank = t.bank.now; area = t.area } };

    ghost invariant = { λ t. IsLive (B.access (B.rest t.bank.now)) t.area t.len t.guard };
}

impl<'b, B: Bank> LiveTable<'b, B> {
    /// Makes the curve of the table whose points are in `area`; the length of the area is the table's size.
    pub(crate) fn new(bank: &'b mut B, area: Area) -> LiveTable<'b, B>
        requires power { is_len (len_of area.length) ≡ true }
        requires read { CanGet (B.access (B.rest bank.old)) area }
        requires small { area.first + area.length ≤ 65536 }
        ensures name { result.name ≡ bank.entry.ghost_name }
        ensures bank { result.bank ≡ bank.old }
        ensures area { result.area ≡ area }
    {
        let len = len_of(area.length);
        let guard = guard_of(area.length);
        LiveTable {
            bank,
            area,
            len,
            guard,
        }
    }

    /// Returns the bank, after the table has been read.
    pub(crate) fn into_bank(self) -> &'b mut B
        ensures name { result.ghost_name ≡ self.entry.name }
        ensures bank { result.now ≡ self.entry.bank }
    {
        self.bank
    }
}

// The index of the guard point.
fn guard_of(size: u32) -> u32
    ensures { result ≡ guard_place size }
{
    if size % 2 == 1 { size - 1 } else { 0 }
}

impl<'b, B: Bank> Curve for LiveTable<'b, B> {
    ghost use Rattle.std.specs.Prelude.{◌≡◌, refl};
    ghost use Rattle.std.proofs.Common.{◌∙◌};
    ghost use Rattle.cs_machine.specs.Access.{live_points};
    ghost use Rattle.cs_cells.specs.Cells.{cell};
    ghost use Rattle.cs_gen.specs.Tables.{curve_of};

    ghost points = { λ t. curve_of (live_points t.area (cell (B.cells t.bank))) };

    ghost kept = { λ before after. (after.name ≡ before.name) × (after.area ≡ before.area)
        × (B.cells after.bank ≡ B.cells before.bank) × (B.rest after.bank ≡ B.rest before.bank) };

    #[inline(always)]
    fn len(&self) -> usize {
        self.len as usize
    }

    #[inline(always)]
    fn at(&mut self, place: usize) -> Num {
        if place < self.len as usize {
            get_frame(self.bank, self.area, place)
        } else {
            get_frame(self.bank, self.area, self.guard as usize)
        }
    }

    ghost stays = { λ x. (refl, refl, refl, refl) };

    ghost chain = { λ x y z p q. (q.0 ∙ p.0, q.1 ∙ p.1, q.2 ∙ p.2, q.3 ∙ p.3) };
}
