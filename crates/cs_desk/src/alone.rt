// A cycle that the caller runs without a crew.
ghost use Rattle.std.specs.Prelude.{◌≡◌, ◌<◌, length};

use crate::desk::Desk;
use crate::plain::numbers_of;
use crate::receipt::Receipt;
use cs_cells::Job;
use cs_edge::Gate;
use cs_row::run_in_order;
use std::alloc::Global;

// The number of cells that may be moved into plain memory for each note that the caller ran without a board
// since the last one: each cell has to go back with an atomic store before the next board.
const CELLS_A_NOTE: u32 = 16;

impl<J: Job> Desk<J> {
    ghost use Rattle.cs_desk.specs.Cycles.{AreOver, WasPlayed};
    ghost use Rattle.cs_desk.specs.Desk.{areas, cells, note_room, word_room};

    /// Runs the `notes` notes of a control cycle one by one in serial order on the desk's cells, which no
    /// other thread can reach, and returns a receipt with their jobs. There is no board: nothing is claimed,
    /// laid or cleared, and the caller waits for no other thread. After enough such cycles in succession the
    /// cells move into plain memory, or stay in the words if memory runs out. `gate` is called with `cycle`
    /// and the note's index before each note is run.
    pub fn run_alone<K: Job, G: Gate>(
        &mut self,
        cycle: u32,
        notes: u32,
        jobs: Vec<K>,
        gate: &G,
    ) -> Receipt<K>
        requires notes { notes ≡ length jobs.items }
        requires over { AreOver K.means self.old jobs.items }
        ensures { WasPlayed K.means self.old jobs.items result self.new }
    {
        self.loosen(*jobs.allocator(), notes);
        let mut jobs = jobs;
        run_in_order(&mut jobs, self, gate, cycle, 0);
        Receipt { notes, jobs }
    }

    // Counts `notes` more notes that the caller runs without a board in succession; after enough of them,
    // compared with the number of cells, the cells are moved into plain memory.
    fn loosen(&mut self, alloc: Global, notes: u32)
        ensures cells { cells self.new ≡ cells self.old }
        ensures areas { areas self.new ≡ areas self.old }
        ensures room { (note_room self.new ≡ note_room self.old) × (word_room self.new ≡ word_room self.old) }
    {
        if self.plain.is_some() {
            return;
        }
        self.alone = self.alone.saturating_add(notes);
        let count = self.resting.cells;
        if self.alone < count / CELLS_A_NOTE {
            return;
        }
        if let Ok(numbers) = numbers_of(alloc, &mut self.resting, count) {
            self.plain = Some(numbers);
        }
    }
}
