// The cells of the board as the bank that a job runs on.
ghost use Rattle.std.specs.Prelude.{◌≡◌, ◌+◌, Some, true, slice_get};
ghost use Rattle.cs_board.specs.{inner.Banks.imageless, Board.plan, Views.does, Views.set_image, Views.fresh};
ghost use Rattle.cs_board.specs.inner.Sittings.{IsSittingOf, deed, ran_out};
ghost use Rattle.cs_cells.specs.Cells.{cell};
ghost use Rattle.cs_board.specs.Plans.{uses_at, writes_at, before_at};

use crate::board::{Board, Sitting};
use crate::{Look, Set};
use cs_base::Num;
use cs_cells::{Bank, Job};

impl<J: Job> Board<J> {
    // Reads a cell that the note uses.
    fn look_cell(&self, sitting: &mut Sitting<J>, addr: u32) -> Num
        requires sitting { IsSittingOf J.means self.now sitting.old }
        requires doing { sitting.old.me.0.doing ≡ Some (deed sitting.old.me.0) }
        requires used { uses_at J.means (plan self.now) (deed sitting.old.me.0).note addr ≡ true }
        ensures value { result ≡ cell (deed sitting.old.me.0).image addr }
        ensures me { sitting.new.me ≡ sitting.old.me }
        ensures seat { (sitting.new.table_id ≡ sitting.old.table_id) × (sitting.new.id ≡ sitting.old.id) }
    {
        let word = self.cell_word(addr);
        let found = self.frame.table.shared.load::<Look>(sitting, word);
        Num::of_raw(found.cast_signed())
    }

    // Sets a cell that the note writes; the note hasn't run yet.
    fn set_cell(&self, sitting: &mut Sitting<J>, addr: u32, value: Num)
        requires sitting { IsSittingOf J.means self.now sitting.old }
        requires doing { sitting.old.me.0.doing ≡ Some (deed sitting.old.me.0) }
        requires held { (deed sitting.old.me.0).held ≡ true }
        requires phase { (deed sitting.old.me.0).phase ≡ 0 }
        requires writes { writes_at J.means (plan self.now) (deed sitting.old.me.0).note addr ≡ true }
        ensures me { sitting.new.me
            ≡ (
              does sitting.old.me.0 (set_image
                  (deed sitting.old.me.0) addr value),
              sitting.old.me.1,
            ) }
        ensures seat { (sitting.new.table_id ≡ sitting.old.table_id) × (sitting.new.id ≡ sitting.old.id) }
    {
        let word = self.cell_word(addr);
        self.frame
            .table
            .shared
            .store::<Set>(sitting, word, value.raw().cast_unsigned());
    }
}

// The board's cells, accessed through a seat that is running a note. Each read and each write is one step on
// one word.
#[derive(Drop)]
struct BoardBank<'b, J: Job> {
    board: &'b Board<J>,
    sitting: &'b mut Sitting<J>,
}

impl<J: Job> Bank for BoardBank<'_, J> {
    ghost use Rattle.std.specs.Prelude.{refl};
    ghost use Rattle.cs_board.specs.inner.{Banks.Frame, Banks.frame_of, Banks.access_at, Sittings.deed};

    ghost Rest = { Frame J.row.Denot };

    ghost rest = { λ b. frame_of b.board.now b.sitting.now b.sitting.ghost_name };

    ghost access = { access_at J.means };

    ghost cells = { λ b. (deed b.sitting.now.me.0).image };

    fn get(&mut self, addr: u32) -> Num {
        self.board.look_cell(self.sitting, addr)
    }

    fn set(&mut self, addr: u32, value: Num) {
        self.board.set_cell(self.sitting, addr, value);
    }

    ghost counted = { λ b. refl };
}

impl<J: Job> Board<J> {
    // Runs a job on the board's cells.
    fn run_job(&self, sitting: &mut Sitting<J>, job: &mut J, note: u32)
        requires sitting { IsSittingOf J.means self.now sitting.old }
        requires job { slice_get (plan self.now).jobs note ≡ Some job.old }
        requires doing { sitting.old.me.0.doing ≡ Some (record (fresh J.means (plan self.now) note) { held = true }) }
        ensures job { job.new ≡ J.means.after job.old (deed sitting.old.me.0).image }
        ensures image { (deed sitting.new.me.0).image ≡ J.means.leaves job.old (deed sitting.old.me.0).image }
        ensures view { imageless sitting.new.me.0 ≡ imageless sitting.old.me.0 }
        ensures seat { (sitting.new.me.1 ≡ sitting.old.me.1) × (sitting.new.table_id
            ≡ sitting.old.table_id)
            × (sitting.new.id ≡ sitting.old.id) }
    {
        let mut bank = BoardBank {
            board: self,
            sitting,
        };
        job.run(&mut bank);
    }

    /// Runs the note's job. Afterwards the job and the note's cells are the ones after this note in the
    /// serial run.
    pub(crate) fn perform(&self, sitting: &mut Sitting<J>, job: &mut J, note: u32)
        requires sitting { IsSittingOf J.means self.now sitting.old }
        requires job { slice_get (plan self.now).jobs note ≡ Some job.old }
        requires doing { sitting.old.me.0.doing ≡ Some (record (fresh J.means (plan self.now) note) { held = true }) }
        ensures sitting { IsSittingOf J.means self.now sitting.new }
        ensures job { job.new ≡ J.means.after job.old (before_at J.means (plan self.now) note) }
        ensures me { sitting.new.me
            ≡ (does sitting.old.me.0 (ran_out J.means (plan self.now) note 0), sitting.old.me.1) }
    {
        self.run_job(sitting, job, note);
    }
}
