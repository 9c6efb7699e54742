// Seats: beginning and ending a call, splitting a seat off and joining one.
ghost use Rattle.std.specs.Prelude.{◌≡◌, ◌<◌, ℕ, [], Some, true, false};
ghost use Rattle.cs_board.specs.Board.{plan, name, view, IsSeatOf, IsIdle, HasRoom};
ghost use Rattle.cs_board.specs.{inner.Sittings.IsSittingOf, declared.view.Doing.Doing};
ghost use Rattle.cs_board.specs.Views.{kept_view, given_view, joined};

use crate::board::{Board, BoardSeat, Sitting};
use crate::{Gather, Split};
use atomic_table::Badge;
use cs_cells::Job;
use std::mem;

impl<J: Job> Board<J> {
    /// Begins a call with this seat.
    pub(crate) fn sit(&self, seat: &mut BoardSeat<J>) -> Sitting<J>
        requires { IsSeatOf J.means (plan self.now) (name self.now) seat.old }
        ensures sitting { IsSittingOf J.means self.now result }
        ensures me { result.me ≡ (view seat.old, []) }
        ensures room { HasRoom (plan self.now) (view seat.old) seat.new }
        ensures note { seat.new.note ≡ seat.old.note }
    {
        mem::replace(&mut seat.badge, Badge::blank()).into_seat()
    }

    /// Ends a call with this seat.
    pub(crate) fn rise(&self, seat: &mut BoardSeat<J>, sitting: Sitting<J>)
        requires sitting { IsSittingOf J.means self.now sitting }
        requires carries { sitting.me.1 ≡ [] }
        requires note { (d : Doing) → sitting.me.0.doing ≡ Some d → (d.note ≡ seat.old.note)
            × (d.note < (plan self.now).notes) }
        requires room { HasRoom (plan self.now) sitting.me.0 seat.old }
        ensures seat { IsSeatOf J.means (plan self.now) (name self.now) seat.new }
        ensures view { view seat.new ≡ sitting.me.0 }
        ensures same { (seat.new.note ≡ seat.old.note) × (seat.new.room ≡ seat.old.room) }
    {
        seat.badge = sitting.into_badge();
    }

    /// Splits a new seat of the board off the first one.
    pub fn split(&self, seat: &mut BoardSeat<J>) -> BoardSeat<J>
        requires seat { IsSeatOf J.means (plan self.now) (name self.now) seat.old }
        requires first { (view seat.old).first ≡ true }
        ensures seat { IsSeatOf J.means (plan self.now) (name self.now) seat.new }
        ensures view { view seat.new ≡ kept_view (view seat.old) }
        ensures other { IsSeatOf J.means (plan self.now) (name self.now) result }
        ensures new { view result ≡ given_view (view seat.old) }
    {
        let mut sitting = self.sit(seat);
        let other = self.frame.table.shared.split_seat::<Split>(&mut sitting);
        self.rise(seat, sitting);
        seat.splits = seat.splits.saturating_add(1);
        BoardSeat {
            badge: other.into_badge(),
            note: 0,
            opened: None,
            next: spread(seat.splits, self.notes),
            splits: 0,
            room: None,
        }
    }

    /// Joins another seat into the first one. The other seat runs nothing and owes nothing, as after a claim
    /// that returned None.
    pub fn join(&self, seat: &mut BoardSeat<J>, other: BoardSeat<J>)
        requires seat { IsSeatOf J.means (plan self.now) (name self.now) seat.old }
        requires first { (view seat.old).first ≡ true }
        requires other { IsSeatOf J.means (plan self.now) (name self.now) other }
        requires later { (view other).first ≡ false }
        requires idle { IsIdle (view other) }
        requires owes { (view other).owes ≡ [] }
        ensures seat { IsSeatOf J.means (plan self.now) (name self.now) seat.new }
        ensures view { view seat.new ≡ joined (view seat.old) (view other) }
    {
        let mut sitting = self.sit(seat);
        let BoardSeat { badge, room, .. } = other;
        let None = room else { unreachable!() };
        self.frame
            .table
            .shared
            .join_seat::<Gather>(&mut sitting, badge.into_seat());
        self.rise(seat, sitting);
    }
}

// Returns the note at which the rounds of split number `split` begin: a half, then the quarters, then the
// eighths of all notes, so that seats begin far from each other.
fn spread(split: u32, notes: u32) -> u32 {
    notes.saturating_mul(split.reverse_bits() >> 27) / 32
}
