// Claiming a note, with a wait if no note is Available yet.
ghost use Rattle.std.specs.Prelude.{◌≡◌, ◌<◌, ℕ, [], IfSome, IfNone};
ghost use Rattle.cs_board.specs.Board.{plan, name, view, IsSeatOf, IsIdle, IsClaimed, SameSeat, FoundSince, note_of};
ghost use Rattle.cs_board.specs.{inner.Sittings.HasTried, declared.view.View.View};

use crate::board::{Board, BoardSeat};
use crate::{AVAILABLE, WAITING};
use cs_base::Steps;
use cs_cells::Job;
use std::{hint, thread};

/// How long a seat that finds no note to claim goes on looking, while notes wait. It looks over all notes
/// `looks` times; the first `brisk` looks follow each other immediately, and before each later one it lets
/// other threads run.
#[derive(Clone, Copy, Debug, PartialEq, Eq)]
pub struct Patience {
    pub looks: u32,
    pub brisk: u32,
}

// What a look over all notes found: a note that can be claimed; no such note, and the first note that waits;
// or no waiting note either, so that there will be nothing to claim. This may have changed since, but a note
// that doesn't wait never waits again.
#[derive(Clone, Copy, PartialEq, Eq)]
enum Outlook {
    Available,
    Waiting(u32),
    Begun,
}

impl<J: Job> Board<J> {
    /// Claims a note that is Available, as `claim` does, or looks for one until all notes have begun or its
    /// patience has run out. It returns None only after a claim that tried each note and found it otherwise.
    pub fn await_claim(&self, seat: &mut BoardSeat<J>, patience: Patience) -> Option<u32>
        requires seat { IsSeatOf J.means (plan self.now) (name self.now) seat.old }
        requires idle { IsIdle (view seat.old) }
        ensures seat { IsSeatOf J.means (plan self.now) (name self.now) seat.new }
        // The claimed note belongs to this seat; its cells are the ones that the serial run has before it.
        ensures some { IfSome result (λ t. IsClaimed J.means (view seat.new)
            × (note_of (view seat.new) ≡ t) × (t < (plan self.now).notes)) }
        ensures none { IfNone result (IsIdle (view seat.new) × ((view seat.new).owes ≡ [])
            × ((t : ℕ) → t < (plan self.now).notes
            → FoundSince (view seat.old).tries (view seat.new) t)) }
        ensures mine { (view seat.new).mine ≡ (view seat.old).mine }
        ensures same { SameSeat (view seat.old) (view seat.new) }
    {
        let won = self.claim(seat, &mut Steps::new());
        if won.is_some() {
            return won;
        }
        let mut from = 0;
        for look in 0..patience.looks {
            let seen = self.outlook(from);
            if seen == Outlook::Begun {
                return None;
            }
            if let Outlook::Waiting(note) = seen {
                from = note;
            }
            let won = self.claim_seen(seat, seen);
            if won.is_some() {
                return won;
            }
            patience.pause(look);
        }
        None
    }

    // Claims again if a look found a note that is Available.
    fn claim_seen(&self, seat: &mut BoardSeat<J>, seen: Outlook) -> Option<u32>
        requires seat { IsSeatOf J.means (plan self.now) (name self.now) seat.old }
        requires idle { IsIdle (view seat.old) }
        ensures seat { IsSeatOf J.means (plan self.now) (name self.now) seat.new }
        ensures some { IfSome result (λ t. IsClaimed J.means (view seat.new)
            × (note_of (view seat.new) ≡ t) × (t < (plan self.now).notes)) }
        ensures none { IfNone result ((v : View J.row.Denot) → HasTried (plan self.now) v (view seat.old)
            → HasTried (plan self.now) v (view seat.new)) }
        ensures mine { (view seat.new).mine ≡ (view seat.old).mine }
        ensures same { SameSeat (view seat.old) (view seat.new) }
    {
        if seen == Outlook::Available {
            return self.claim(seat, &mut Steps::new());
        }
        None
    }

    // Looks at the status of each note from `from` on, without a step on any word. No note before it waits.
    fn outlook(&self, from: u32) -> Outlook {
        let mut outlook = Outlook::Begun;
        for note in from..self.notes {
            let status = self.frame.table.shared.peek(self.status_word(note));
            if status == AVAILABLE {
                return Outlook::Available;
            }
            if status == WAITING && outlook == Outlook::Begun {
                outlook = Outlook::Waiting(note);
            }
        }
        outlook
    }
}

impl Patience {
    // Pauses between look number `look` and the next one.
    fn pause(self, look: u32) {
        if look < self.brisk {
            hint::spin_loop();
        } else {
            thread::yield_now();
        }
    }
}
