// Finishing a note: it is Done, its edges are closed, and its watchers move on.
ghost use Rattle.std.specs.Prelude.{◌≡◌, ◌+◌, ◌<◌, ℕ, ◌∷◌, [], ◌++◌, Some, None};
ghost use Rattle.cs_board.specs.Board.{plan, name, view, IsSeatOf, IsIdle, HasRun, SameSeat, note_of};
ghost use Rattle.cs_board.specs.inner.Sittings.{IsSittingOf, Beside, ClosesAt};
ghost use Rattle.cs_graph.specs.Graph.{Edge};
ghost use Rattle.cs_board.specs.Views.{closing_from};

use crate::WATCHED;
use crate::board::{Board, BoardSeat, Sitting};
use cs_cells::Job;

impl<J: Job> Board<J> {
    // Moves a note that was watching this edge on to its next edge that isn't closed, or opens the note if
    // there is no such edge. Returns whether it was opened.
    fn move_on(&self, sitting: &mut Sitting<J>, edge: u32, note: u32) -> bool
        requires sitting { IsSittingOf J.means self.now sitting.old }
        requires edge { (p : ℕ) × Edge (plan self.now).edges edge p note }
        requires moving { sitting.old.me.0.moving ≡ Some (record { note = note; from = edge + 1 }) }
        ensures sitting { IsSittingOf J.means self.now sitting.new }
        ensures carries { sitting.new.me.1 ≡ sitting.old.me.1 }
        ensures moving { sitting.new.me.0.moving ≡ None }
        ensures closing { sitting.new.me.0.closing ≡ sitting.old.me.0.closing }
        ensures beside { Beside sitting.old.me.0 sitting.new.me.0 }
    {
        let mut last = edge;
        while let Some(next) = self.graph().next_in(last, note) {
            if self.watch_edge(sitting, next, note) {
                return false;
            }
            last = next;
        }
        self.open_note(sitting, note);
        true
    }

    // Closes an edge from the note, and moves its watcher on. Returns the watcher if that was opened.
    fn close_one(&self, sitting: &mut Sitting<J>, edge: u32, note: u32) -> Option<u32>
        requires sitting { IsSittingOf J.means self.now sitting.old }
        requires closing { ClosesAt (plan self.now) sitting.old.me.0 note edge }
        requires moving { sitting.old.me.0.moving ≡ None }
        ensures sitting { IsSittingOf J.means self.now sitting.new }
        ensures carries { sitting.new.me.1 ≡ sitting.old.me.1 }
        ensures moving { sitting.new.me.0.moving ≡ None }
        ensures closing { sitting.new.me.0.closing ≡ closing_from (plan self.now).edges note (edge + 1) }
        ensures beside { Beside sitting.old.me.0 sitting.new.me.0 }
    {
        let (_, watcher) = self.graph().ends(edge);
        if self.close_edge(sitting, edge, note, watcher) == WATCHED
            && self.move_on(sitting, edge, watcher)
        {
            Some(watcher)
        } else {
            None
        }
    }

    // Closes all edges from the note. Returns the first watcher that was opened.
    fn close_all(&self, sitting: &mut Sitting<J>, note: u32) -> Option<u32>
        requires sitting { IsSittingOf J.means self.now sitting.old }
        requires note { note < (plan self.now).notes }
        requires closing { sitting.old.me.0.closing ≡ closing_from (plan self.now).edges note 0 }
        requires moving { sitting.old.me.0.moving ≡ None }
        ensures sitting { IsSittingOf J.means self.now sitting.new }
        ensures carries { sitting.new.me.1 ≡ sitting.old.me.1 }
        ensures moving { sitting.new.me.0.moving ≡ None }
        ensures closing { sitting.new.me.0.closing ≡ None }
        ensures beside { Beside sitting.old.me.0 sitting.new.me.0 }
    {
        let mut opened = None;
        let mut next = self.graph().first_out(note);
        while let Some(edge) = next {
            let watcher = self.close_one(sitting, edge, note);
            opened = opened.or(watcher);
            next = self.graph().next_out(edge, note);
        }
        opened
    }

    /// Makes the note that has run Done. Each note that waited only for it becomes Available, and this seat
    /// owes a try for it.
    pub fn finish(&self, seat: &mut BoardSeat<J>)
        requires seat { IsSeatOf J.means (plan self.now) (name self.now) seat.old }
        requires ran { HasRun J.means (view seat.old) }
        ensures seat { IsSeatOf J.means (plan self.now) (name self.now) seat.new }
        ensures idle { IsIdle (view seat.new) }
        ensures mine { (view seat.new).mine ≡ (view seat.old).mine ++ note_of (view seat.old) ∷ [] }
        ensures tries { ((view seat.new).tries ≡ (view seat.old).tries)
            × ((view seat.new).found ≡ (view seat.old).found) }
        ensures same { SameSeat (view seat.old) (view seat.new) }
    {
        let note = seat.note;
        let mut sitting = self.sit(seat);
        self.store_done(&mut sitting, note);
        let opened = self.close_all(&mut sitting, note);
        seat.opened = opened;
        self.rise(seat, sitting);
    }
}
