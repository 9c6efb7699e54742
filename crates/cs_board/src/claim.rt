// Claiming a note.
ghost use Rattle.std.specs.Prelude.{◌≡◌, ◌+◌, ◌-◌, ◌<◌, ◌≤◌, ◌^◌, ℕ, [], IfSome, IfNone};
ghost use Rattle.cs_board.specs.Board.{plan, name, view, IsSeatOf, IsIdle, IsClaimed, SameSeat, FoundSince, note_of};
ghost use Rattle.cs_board.specs.inner.Sittings.{IsSittingOf, HasClaimed, Tries, AllTried};

use crate::board::{Board, BoardSeat, Sitting};
use cs_base::Steps;
use cs_cells::Job;
use std::cmp::min;

impl<J: Job> Board<J> {
    // Tries the notes from `from` up to and without `to`.
    fn try_range(
        &self,
        sitting: &mut Sitting<J>,
        from: u32,
        to: u32,
        steps: &mut Steps,
    ) -> Option<u32>
        requires sitting { IsSittingOf J.means self.now sitting.old }
        requires idle { IsIdle sitting.old.me.0 }
        requires range { (from ≤ to) × (to ≤ (plan self.now).notes) }
        requires steps { steps.old.count + to ≤ 2 ^ 64 - 1 }
        ensures sitting { IsSittingOf J.means self.now sitting.new }
        ensures carries { sitting.new.me.1 ≡ sitting.old.me.1 }
        ensures some { IfSome result (HasClaimed J.means (plan self.now) sitting.new.me.0) }
        ensures none { IfNone result (IsIdle sitting.new.me.0 × AllTried sitting.old.me.0 sitting.new.me.0 from to) }
        ensures tries { Tries sitting.old.me.0 sitting.new.me.0 }
        ensures steps { steps.new.count + sitting.old.me.0.tries ≡ steps.old.count + sitting.new.me.0.tries }
        ensures few { steps.new.count ≤ steps.old.count + (to - from) }
    {
        for note in from..to {
            steps.tick();
            if self.try_note(sitting, note) {
                return Some(note);
            }
        }
        None
    }

    // Tries all notes once: the notes from `from` on, and then those before it.
    fn try_round(&self, sitting: &mut Sitting<J>, from: u32, steps: &mut Steps) -> Option<u32>
        requires sitting { IsSittingOf J.means self.now sitting.old }
        requires idle { IsIdle sitting.old.me.0 }
        requires from { from ≤ (plan self.now).notes }
        requires steps { steps.old.count ≤ 2 ^ 63 }
        ensures sitting { IsSittingOf J.means self.now sitting.new }
        ensures carries { sitting.new.me.1 ≡ sitting.old.me.1 }
        ensures some { IfSome result (HasClaimed J.means (plan self.now) sitting.new.me.0) }
        ensures none { IfNone result (IsIdle sitting.new.me.0
            × AllTried sitting.old.me.0 sitting.new.me.0 0 (plan self.now).notes) }
        ensures tries { Tries sitting.old.me.0 sitting.new.me.0 }
        ensures steps { steps.new.count + sitting.old.me.0.tries ≡ steps.old.count + sitting.new.me.0.tries }
        ensures few { steps.new.count ≤ steps.old.count + (plan self.now).notes }
    {
        let won = self.try_range(sitting, from, self.notes, steps);
        if won.is_some() {
            return won;
        }
        self.try_range(sitting, 0, from, steps)
    }

    /// Claims a note that is Available, or returns None if each note was tried and found otherwise. It tries
    /// each note at most once: the round begins at a note that the seat itself has opened, or otherwise at
    /// the point that the last claim reached. `steps` counts each try.
    pub fn claim(&self, seat: &mut BoardSeat<J>, steps: &mut Steps) -> Option<u32>
        requires seat { IsSeatOf J.means (plan self.now) (name self.now) seat.old }
        requires idle { IsIdle (view seat.old) }
        requires steps { steps.old.count ≤ 2 ^ 63 }
        ensures seat { IsSeatOf J.means (plan self.now) (name self.now) seat.new }
        // The claimed note belongs to this seat; its cells are the ones that the serial run has before it.
        ensures some { IfSome result (λ t. IsClaimed J.means (view seat.new)
            × (note_of (view seat.new) ≡ t) × (t < (plan self.now).notes)) }
        ensures none { IfNone result (IsIdle (view seat.new) × ((view seat.new).owes ≡ [])
            × ((t : ℕ) → t < (plan self.now).notes
            → FoundSince (view seat.old).tries (view seat.new) t)) }
        ensures tries { steps.new.count + (view seat.old).tries ≡ steps.old.count + (view seat.new).tries }
        ensures few { steps.new.count ≤ steps.old.count + (plan self.now).notes }
        ensures mine { (view seat.new).mine ≡ (view seat.old).mine }
        ensures same { SameSeat (view seat.old) (view seat.new) }
    {
        let mut sitting = self.sit(seat);
        let from = min(seat.opened.unwrap_or(seat.next), self.notes);
        let won = self.try_round(&mut sitting, from, steps);
        seat.remember(won);
        self.rise(seat, sitting);
        won
    }
}

impl<J> BoardSeat<J> {
    // Remembers the note that was claimed. The next round begins after that note, unless the seat had opened
    // the note itself.
    fn remember(&mut self, won: Option<u32>)
        ensures note { IfSome won (λ t. self.new.note ≡ t) }
        ensures room { self.new.room ≡ self.old.room }
    {
        let opened = self.opened.take();
        if let Some(note) = won {
            self.note = note;
            if opened != won {
                self.next = note.wrapping_add(1);
            }
        }
    }
}
