// Running a note that was claimed.
ghost use Rattle.std.specs.Prelude.{◌≡◌, ◌+◌, ◌-◌, ◌<◌, ◌≤◌, [], ◌∷◌, Some, None, true, false, length, slice_get};
ghost use Rattle.cs_board.specs.Board.{plan, name, view, IsSeatOf, IsClaimed, HasRun, SameSeat, note_of, turns_before};
ghost use Rattle.cs_board.specs.inner.Sittings.{IsSittingOf, deed, job_out, ran_out};
ghost use Rattle.cs_board.specs.Plans.{places_used, places_written, before_at};
ghost use Rattle.cs_board.specs.{Views.does, Views.fresh, Views.next_phase, declared.view.Berth.TheVariants.Vacant};

use crate::Berth;
use crate::board::{Board, BoardSeat, Sitting};
use cs_cells::Job;

impl<J: Job> Board<J> {
    // Takes the job of the note that was claimed out of its slot.
    fn take_job(&self, sitting: &mut Sitting<J>, note: u32) -> J
        requires sitting { IsSittingOf J.means self.now sitting.old }
        requires note { note < (plan self.now).notes }
        requires doing { sitting.old.me.0.doing ≡ Some (fresh J.means (plan self.now) note) }
        requires carries { sitting.old.me.1 ≡ [] }
        ensures sitting { IsSittingOf J.means self.now sitting.new }
        ensures job { slice_get (plan self.now).jobs note ≡ Some result }
        ensures me { sitting.new.me
            ≡ (
              does sitting.old.me.0 (job_out (fresh J.means (plan self.now) note)),
              (note, Vacant) ∷ [],
            ) }
    {
        self.reach_job(sitting, note);
        let held = self
            .frame
            .table
            .shared
            .exchange(sitting, note as usize, Berth::Vacant);
        let Berth::Full(job) = held else {
            unreachable!()
        };
        job
    }

    // Puts the job of a note that has run back into its slot.
    fn put_job(&self, sitting: &mut Sitting<J>, note: u32, job: J)
        requires sitting { IsSittingOf J.means self.now sitting.old }
        requires phase { 1 ≤ (deed sitting.old.me.0).phase }
        requires doing { sitting.old.me.0.doing
            ≡ Some (ran_out J.means (plan self.now) note (deed sitting.old.me.0).phase) }
        requires carries { sitting.old.me.1 ≡ (note, Vacant) ∷ [] }
        requires job { (j : J) × (slice_get (plan self.now).jobs note ≡ Some j)
            × (job ≡ J.means.after j (before_at J.means (plan self.now) note)) }
        ensures sitting { IsSittingOf J.means self.now sitting.new }
        ensures me { sitting.new.me ≡ (does sitting.old.me.0 (record (deed sitting.old.me.0) { held = false }), []) }
    {
        let held = self
            .frame
            .table
            .shared
            .exchange(sitting, note as usize, Berth::Full(job));
        let Berth::Vacant = held else { unreachable!() };
        self.leave_job(sitting, note);
    }

    // Reads the turn word of each resource that the note uses, and returns their sum.
    fn look_turns(&self, sitting: &mut Sitting<J>, job: &J, note: u32) -> u64
        requires sitting { IsSittingOf J.means self.now sitting.old }
        requires foot { (J.means.foot job.now).uses ≡ places_used J.means (plan self.now) note }
        requires doing { sitting.old.me.0.doing ≡ Some (ran_out J.means (plan self.now) note 0) }
        ensures sitting { IsSittingOf J.means self.now sitting.new }
        ensures me { sitting.new.me ≡ sitting.old.me }
        ensures turns { result ≡ turns_before J.means (plan self.now) note }
    {
        let mut turns = 0;
        for area in job.footprint().uses.as_slice() {
            turns += self.look_turn(sitting, *area);
        }
        turns
    }

    // Counts the note's next turn, on a resource that it writes.
    fn turn_on(&self, sitting: &mut Sitting<J>, area: u32, note: u32)
        requires sitting { IsSittingOf J.means self.now sitting.old }
        requires note { (deed sitting.old.me.0).note ≡ note }
        requires doing { sitting.old.me.0.doing ≡ Some (deed sitting.old.me.0) }
        requires held { (deed sitting.old.me.0).held ≡ true }
        requires begun { 1 ≤ (deed sitting.old.me.0).phase }
        requires next { slice_get (places_written J.means (plan self.now)
            (deed sitting.old.me.0).note) ((deed sitting.old.me.0).phase - 1) ≡ Some area }
        ensures sitting { IsSittingOf J.means self.now sitting.new }
        ensures me { sitting.new.me ≡ (does sitting.old.me.0 (next_phase (deed sitting.old.me.0)), sitting.old.me.1) }
    {
        let found = self.look_turn(sitting, area);
        self.turn_to(sitting, area, found + 1);
    }

    // Counts the note's turns on all resources that it writes.
    fn turn_all(&self, sitting: &mut Sitting<J>, job: &J, note: u32)
        requires sitting { IsSittingOf J.means self.now sitting.old }
        requires foot { (J.means.foot job.now).writes ≡ places_written J.means (plan self.now) note }
        requires doing { sitting.old.me.0.doing ≡ Some (ran_out J.means (plan self.now) note 1) }
        ensures sitting { IsSittingOf J.means self.now sitting.new }
        ensures me { sitting.new.me ≡ (
          does sitting.old.me.0 (ran_out J.means (plan self.now) note (1
              + length (places_written J.means (plan self.now) note))),
          sitting.old.me.1,
        ) }
    {
        for area in job.footprint().writes.as_slice() {
            self.turn_on(sitting, *area, note);
        }
    }

    /// Runs the note that was claimed, on the cells of the serial run. Returns how many earlier notes write
    /// each resource that the note uses, added up over these resources.
    pub fn run(&self, seat: &mut BoardSeat<J>) -> u64
        requires seat { IsSeatOf J.means (plan self.now) (name self.now) seat.old }
        requires claimed { IsClaimed J.means (view seat.old) }
        ensures seat { IsSeatOf J.means (plan self.now) (name self.now) seat.new }
        ensures ran { HasRun J.means (view seat.new) }
        ensures note { note_of (view seat.new) ≡ note_of (view seat.old) }
        ensures turns { result ≡ turns_before J.means (plan self.now) (note_of (view seat.old)) }
        ensures tries { ((view seat.new).tries ≡ (view seat.old).tries)
            × ((view seat.new).found ≡ (view seat.old).found) }
        ensures owes { ((view seat.new).owes ≡ (view seat.old).owes) × ((view seat.new).mine ≡ (view seat.old).mine) }
        ensures same { SameSeat (view seat.old) (view seat.new) }
    {
        let note = seat.note;
        let mut sitting = self.sit(seat);
        let mut job = self.take_job(&mut sitting, note);
        self.perform(&mut sitting, &mut job, note);
        let turns = self.look_turns(&mut sitting, &job, note);
        self.turn_own(&mut sitting, note);
        self.turn_all(&mut sitting, &job, note);
        self.put_job(&mut sitting, note, job);
        self.rise(seat, sitting);
        turns
    }
}
