// The steps on the board's words, one function for each.
ghost use Rattle.std.specs.Prelude.{◌≡◌, ◌+◌, ◌-◌, ◌<◌, ◌≤◌, ℕ, [], ◌∷◌, Some, None, true, false, slice_get};
ghost use Rattle.cs_board.specs.{Board.plan, Board.IsIdle, Board.run_through, inner.Sittings.stopped};
ghost use Rattle.cs_board.specs.{inner.Sittings.ran_out, Counts.listed, Facts.turned_in, Words.watch_at, Words.own_at};
ghost use Rattle.cs_board.specs.{Words.status_at, Words.turn_at, Words.cell_at, declared.view.Berth.TheVariants.Full};
ghost use Rattle.cs_board.specs.inner.Sittings.{IsSittingOf, ClosesAt, MovesAt, MovesOut, deed, job_out, seen, tried};
ghost use Rattle.cs_graph.specs.Graph.{Edge};
ghost use Rattle.cs_board.specs.Plans.{area_count, places_used, places_written, before_at, writers_before};
ghost use Rattle.cs_board.specs.Views.{fresh, does, next_phase, ended, shut, opened};

use crate::board::{Board, Sitting};
use crate::{
    AVAILABLE, CLOSED, Claim, Close, DONE, Finish, Give, IDLE, IN_PROGRESS, LookStatus, LookTurn,
    Open, Take, Turn, WATCHED, Watch,
};
use cs_cells::Job;

impl<J: Job> Board<J> {
    fn watch_word(&self, edge: u32) -> usize
        ensures { result ≡ watch_at (plan self.now) edge }
    {
        1 + self.cells as usize + self.areas as usize + 2 * self.notes as usize + edge as usize
    }

    fn own_word(&self, note: u32) -> usize
        ensures { result ≡ own_at (plan self.now) note }
    {
        1 + self.cells as usize + self.areas as usize + self.notes as usize + note as usize
    }

    /// Returns the number of the note's status word.
    pub(crate) fn status_word(&self, note: u32) -> usize
        ensures { result ≡ status_at (plan self.now) note }
    {
        1 + self.cells as usize + self.areas as usize + note as usize
    }

    /// Returns the number of the word that counts the turns on the resource with index `area`.
    pub fn turn_word(&self, area: u32) -> usize
        ensures { result ≡ turn_at (plan self.now) area }
    {
        1 + self.cells as usize + area as usize
    }

    /// Returns the number of the word that holds the cell at `addr`.
    pub(crate) fn cell_word(&self, addr: u32) -> usize
        ensures { result ≡ cell_at addr }
    {
        1 + addr as usize
    }

    /// Tries once to claim a note. It looks first, and exchanges only a status that it found Available: a
    /// failed exchange would take the word's cache line from the worker that writes it.
    pub(crate) fn try_note(&self, sitting: &mut Sitting<J>, note: u32) -> bool
        requires sitting { IsSittingOf J.means self.now sitting.old }
        requires idle { IsIdle sitting.old.me.0 }
        requires note { note < (plan self.now).notes }
        ensures sitting { IsSittingOf J.means self.now sitting.new }
        ensures me { sitting.new.me ≡ (tried J.means result sitting.old.me.0 note, sitting.old.me.1) }
    {
        if !self.look_status(sitting, note) {
            return false;
        }
        self.claim_note(sitting, note)
    }

    // Returns whether the note is found Available; if it isn't, this was a failed try.
    fn look_status(&self, sitting: &mut Sitting<J>, note: u32) -> bool
        requires sitting { IsSittingOf J.means self.now sitting.old }
        requires note { note < (plan self.now).notes }
        ensures sitting { IsSittingOf J.means self.now sitting.new }
        ensures me { sitting.new.me ≡ (seen result sitting.old.me.0 note, sitting.old.me.1) }
    {
        let word = self.status_word(note);
        self.frame.table.shared.load::<LookStatus>(sitting, word) == AVAILABLE
    }

    // Claims a note, or records a failed try if another seat was faster.
    fn claim_note(&self, sitting: &mut Sitting<J>, note: u32) -> bool
        requires sitting { IsSittingOf J.means self.now sitting.old }
        requires idle { IsIdle sitting.old.me.0 }
        requires note { note < (plan self.now).notes }
        ensures sitting { IsSittingOf J.means self.now sitting.new }
        ensures me { sitting.new.me ≡ (tried J.means result sitting.old.me.0 note, sitting.old.me.1) }
    {
        let word = self.status_word(note);
        self.frame
            .table
            .shared
            .compare_exchange::<Claim>(sitting, word, AVAILABLE, IN_PROGRESS)
            == AVAILABLE
    }

    /// Takes the job of the claimed note out of its slot.
    pub(crate) fn reach_job(&self, sitting: &mut Sitting<J>, note: u32)
        requires sitting { IsSittingOf J.means self.now sitting.old }
        requires note { note < (plan self.now).notes }
        requires doing { sitting.old.me.0.doing ≡ Some (fresh J.means (plan self.now) note) }
        ensures sitting { IsSittingOf J.means self.now sitting.new }
        ensures me { (j : J) × (slice_get (plan self.now).jobs note ≡ Some j)
            × (sitting.new.me ≡ (
              does sitting.old.me.0 (job_out (fresh J.means
                  (plan self.now) note)),
              (note, Full j) ∷ sitting.old.me.1,
            )) }
    {
        self.frame.table.shared.load::<Take>(sitting, 0);
    }

    /// Reads a turn word.
    pub(crate) fn look_turn(&self, sitting: &mut Sitting<J>, area: u32) -> u64
        requires sitting { IsSittingOf J.means self.now sitting.old }
        requires area { area < area_count (plan self.now) }
        requires doing { sitting.old.me.0.doing ≡ Some (deed sitting.old.me.0) }
        requires used { listed (places_used J.means (plan self.now) (deed sitting.old.me.0).note) area ≡ true }
        ensures sitting { IsSittingOf J.means self.now sitting.new }
        ensures me { sitting.new.me ≡ sitting.old.me }
        ensures value { result
            ≡ writers_before J.means (plan self.now) (deed sitting.old.me.0).note area
            + turned_in J.means (plan self.now) area sitting.old.me.0.doing }
    {
        let word = self.turn_word(area);
        self.frame.table.shared.load::<LookTurn>(sitting, word)
    }

    /// Counts the own turn of a note that has run.
    pub(crate) fn turn_own(&self, sitting: &mut Sitting<J>, note: u32)
        requires sitting { IsSittingOf J.means self.now sitting.old }
        requires note { note < (plan self.now).notes }
        requires doing { sitting.old.me.0.doing ≡ Some (ran_out J.means (plan self.now) note 0) }
        ensures sitting { IsSittingOf J.means self.now sitting.new }
        ensures me { sitting.new.me
            ≡ (does sitting.old.me.0 (ran_out J.means (plan self.now) note 1), sitting.old.me.1) }
    {
        let word = self.own_word(note);
        self.frame.table.shared.store::<Turn>(sitting, word, 1);
    }

    /// Counts the note's next turn, on a resource that it writes; `value` is the turn word's value after it.
    pub(crate) fn turn_to(&self, sitting: &mut Sitting<J>, area: u32, value: u64)
        requires sitting { IsSittingOf J.means self.now sitting.old }
        requires area { area < area_count (plan self.now) }
        requires doing { sitting.old.me.0.doing ≡ Some (deed sitting.old.me.0) }
        requires held { (deed sitting.old.me.0).held ≡ true }
        requires begun { 1 ≤ (deed sitting.old.me.0).phase }
        requires next { slice_get (places_written J.means (plan self.now)
            (deed sitting.old.me.0).note) ((deed sitting.old.me.0).phase - 1) ≡ Some area }
        requires value { value ≡ writers_before J.means (plan self.now) (deed sitting.old.me.0).note area + 1 }
        ensures sitting { IsSittingOf J.means self.now sitting.new }
        ensures me { sitting.new.me ≡ (does sitting.old.me.0 (next_phase (deed sitting.old.me.0)), sitting.old.me.1) }
    {
        let word = self.turn_word(area);
        self.frame.table.shared.store::<Turn>(sitting, word, value);
    }

    /// Puts the job of a note that has run and made its turns back into its slot.
    pub(crate) fn leave_job(&self, sitting: &mut Sitting<J>, note: u32)
        requires sitting { IsSittingOf J.means self.now sitting.old }
        requires phase { 1 ≤ (deed sitting.old.me.0).phase }
        requires doing { sitting.old.me.0.doing
            ≡ Some (ran_out J.means (plan self.now) note (deed sitting.old.me.0).phase) }
        requires job { (j : J) × (slice_get (plan self.now).jobs note ≡ Some j)
            × (sitting.old.me.1 ≡ (
              note,
              Full (J.means.after j (before_at J.means
                  (plan self.now) note)),
            ) ∷ []) }
        ensures sitting { IsSittingOf J.means self.now sitting.new }
        ensures me { sitting.new.me ≡ (does sitting.old.me.0 (record (deed sitting.old.me.0) { held = false }), []) }
    {
        self.frame.table.shared.load::<Give>(sitting, 0);
    }

    /// Makes the note Done.
    pub(crate) fn store_done(&self, sitting: &mut Sitting<J>, note: u32)
        requires sitting { IsSittingOf J.means self.now sitting.old }
        requires note { note < (plan self.now).notes }
        requires doing { sitting.old.me.0.doing ≡ Some (run_through J.means (plan self.now) note) }
        ensures sitting { IsSittingOf J.means self.now sitting.new }
        ensures me { sitting.new.me ≡ (ended sitting.old.me.0 note, sitting.old.me.1) }
    {
        let word = self.status_word(note);
        self.frame.table.shared.store::<Finish>(sitting, word, DONE);
    }

    /// Closes an edge from the note. Returns the watch word before it.
    pub(crate) fn close_edge(
        &self,
        sitting: &mut Sitting<J>,
        edge: u32,
        note: u32,
        watcher: u32,
    ) -> u64
        requires sitting { IsSittingOf J.means self.now sitting.old }
        requires edge { Edge (plan self.now).edges edge note watcher }
        requires closing { ClosesAt (plan self.now) sitting.old.me.0 note edge }
        requires moving { sitting.old.me.0.moving ≡ None }
        ensures sitting { IsSittingOf J.means self.now sitting.new }
        ensures me { sitting.new.me ≡ (shut sitting.old.me.0 edge note watcher result, sitting.old.me.1) }
    {
        let word = self.watch_word(edge);
        self.frame.table.shared.swap::<Close>(sitting, word, CLOSED)
    }

    /// Lets a waiting note watch its next edge, unless that edge is closed. Returns whether it watches it.
    pub(crate) fn watch_edge(&self, sitting: &mut Sitting<J>, edge: u32, note: u32) -> bool
        requires sitting { IsSittingOf J.means self.now sitting.old }
        requires moving { MovesAt (plan self.now) sitting.old.me.0 note edge }
        ensures sitting { IsSittingOf J.means self.now sitting.new }
        ensures me { sitting.new.me ≡ (stopped result sitting.old.me.0 note edge, sitting.old.me.1) }
    {
        let word = self.watch_word(edge);
        self.frame
            .table
            .shared
            .compare_exchange::<Watch>(sitting, word, IDLE, WATCHED)
            == IDLE
    }

    /// Makes a waiting note that has passed all edges into it Available.
    pub(crate) fn open_note(&self, sitting: &mut Sitting<J>, note: u32)
        requires sitting { IsSittingOf J.means self.now sitting.old }
        requires note { note < (plan self.now).notes }
        requires moving { MovesOut (plan self.now) sitting.old.me.0 note }
        ensures sitting { IsSittingOf J.means self.now sitting.new }
        ensures me { sitting.new.me ≡ (opened sitting.old.me.0 note, sitting.old.me.1) }
    {
        let word = self.status_word(note);
        self.frame
            .table
            .shared
            .store::<Open>(sitting, word, AVAILABLE);
    }
}
