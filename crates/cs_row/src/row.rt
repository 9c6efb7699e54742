// Consecutive notes that touch the same resources, as one job.
ghost use Rattle.std.specs.Prelude.{◌≡◌, ◌+◌, ◌<◌, ◌≤◌, ◌*◌, ◌^◌, ◌++◌, ℕ, [], length, All, IfOk};
ghost use Rattle.std.specs.Vec.{vec_len, vec_capacity};
ghost use Rattle.cs_base.specs.Limits.{most_notes};
ghost use Rattle.cs_cells.specs.{Access.Allows, Meaning.Uses, Meaning.Writes};
ghost use Rattle.cs_cells.specs.Serial.{serial_cells, serial_jobs};
ghost use Rattle.cs_row.specs.Heard.{AreSumsOf, IsHeardRow, sums};
ghost use Rattle.cs_row.specs.{Rooms.IsEmptied, Rows.IsRow, Rows.row_job};

use crate::heard::Heard;
use crate::order::run_in_order;
use cs_cells::{Bank, Footprint, Job};
use cs_edge::Gate;
use std::alloc::{AllocError, Global};
use std::marker::Model;

/// The memory of a row: its notes, and the block for the sum of what they produce, with a number for each
/// channel of each frame.
#[derive(Drop)]
pub struct RowRoom<J> {
    pub notes: Vec<J>,
    pub sum: Vec<i64>,
}

impl<J: Drop> RowRoom<J> {
    /// Allocates memory for `notes` notes, with a block of `block` zeros.
    pub(crate) fn new(alloc: Global, notes: usize, block: usize) -> Result<RowRoom<J>, AllocError>
        ensures { IfOk result (λ room. IsEmptied block room × (notes ≤ vec_capacity room.notes)) }
    {
        let notes = Vec::with_capacity(alloc, notes)?;
        let sum = vec![in alloc; 0i64; block]?;
        Ok(RowRoom { notes, sum })
    }
}

/// A row of notes: a job that runs them in their order, calls the gate before each, and adds up what they
/// produce. Contracts see the notes and the sum.
#[derive(Drop)]
pub struct Row<'g, J: Heard, G> {
    room: RowRoom<J>,
    gate: &'g G,
    cycle: u32,
    first: u32,
}

impl<'g, J: Heard, G> Model for Row<'g, J, G> {
    ghost use Rattle.std.specs.Prelude.{◌+◌, ◌<◌, ◌^◌, length};
    ghost use Rattle.cs_row.specs.Heard.{AreSumsOf, HeardRow, IsHeardRow};

    ghost Value = { HeardRow J };

    ghost view = { λ r. record { jobs = r.room.notes.items; sum = r.room.sum.items } };

    ghost invariant = { λ r. IsHeardRow J.Job.means J.shape record { jobs = r.room.notes.items; sum = r.room.sum.items }
        × AreSumsOf (length r.room.notes.items) r.room.sum.items × (r.first + length r.room.notes.items < 2 ^ 32) };
}

impl<'g, J: Heard, G> Row<'g, J, G> {
    /// Makes a row of the notes in `room`; the index of the first one in the serial order of the cycle is
    /// `first`. The earlier contents of the block don't matter: it becomes zeros.
    pub fn new(mut room: RowRoom<J>, gate: &'g G, cycle: u32, first: u32) -> Row<'g, J, G>
        requires row { IsRow J.Job.means room.notes.items }
        requires few { (length room.notes.items ≤ most_notes) × (first + length room.notes.items < 2 ^ 32) }
        requires long { (frames : ℕ) × (channels : ℕ) × All (λ j. J.shape j ≡ (frames, channels)) room.notes.items
            × (length room.sum.items ≡ frames * channels) }
        ensures { (result.jobs ≡ room.notes.items) × (length result.sum ≡ length room.sum.items) }
    {
        room.sum.fill(0);
        Row {
            room,
            gate,
            cycle,
            first,
        }
    }

    /// Returns the sum of what its notes produce, after they have run.
    pub fn sum(&self) -> &[i64]
        ensures sum { result.now ≡ self.now.sum }
        ensures small { AreSumsOf (length self.now.jobs) result.now }
    {
        &self.room.sum
    }

    /// Returns the number of its notes.
    pub fn len(&self) -> usize
        ensures { result ≡ length self.now.jobs }
    {
        self.room.notes.len()
    }

    /// Appends its notes to `notes`, which has room for them. Returns the memory of the row, without notes.
    pub fn empty_into(self, notes: &mut Vec<J>) -> RowRoom<J>
        requires room { vec_len notes.old + length self.jobs ≤ vec_capacity notes.old }
        ensures notes { notes.new.items ≡ notes.old.items ++ self.entry.jobs }
        ensures capacity { vec_capacity notes.old ≤ vec_capacity notes.new }
        ensures room { (result.notes.items ≡ []) × (result.sum.items ≡ self.entry.sum) }
    {
        let Row { mut room, .. } = self;
        let Ok(()) = notes.append(&mut room.notes) else {
            unreachable!()
        };
        room
    }
}

impl<'g, J: Heard, G: Gate> Job for Row<'g, J, G> {
    ghost use Rattle.cs_row.specs.{Heard.heard_job, HeardFrames.heard_frames};

    ghost means = { heard_job J.Job.means J.shape J.gives };

    fn footprint(&self) -> &Footprint {
        self.room.notes[0].footprint()
    }

    fn run<B: Bank>(&mut self, bank: &mut B) {
        let RowRoom { notes, sum } = &mut self.room;
        run_and_sum(notes, sum, bank, self.gate, self.cycle, self.first);
    }

    ghost frames = { heard_frames J.Job.means J.shape J.gives J.Job.frames J.keeps };
}

// Runs notes that touch the same resources in their order, and writes the sum of what they produce into the
// block.
fn run_and_sum<J: Heard, B: Bank, G: Gate>(
    notes: &mut [J],
    sum: &mut [i64],
    bank: &mut B,
    gate: &G,
    cycle: u32,
    first: u32,
)
    requires row { IsHeardRow J.Job.means J.shape record { jobs = notes.old; sum = sum.old } }
    requires places { first + length notes.old < 2 ^ 32 }
    requires allowed { let row = row_job J.Job.means in
        Allows (B.access (B.rest bank.old)) (Uses row notes.old) (Writes row notes.old) }
    ensures notes { notes.new ≡ serial_jobs J.Job.means notes.old (B.cells bank.old) }
    ensures sum { sum.new ≡ sums J.gives (length sum.old) notes.new }
    ensures small { AreSumsOf (length notes.old) sum.new }
    ensures long { (length notes.new ≡ length notes.old) × (length sum.new ≡ length sum.old) }
    ensures cells { B.cells bank.new ≡ serial_cells J.Job.means notes.old (B.cells bank.old) }
    ensures rest { B.rest bank.new ≡ B.rest bank.old }
{
    run_in_order(notes, bank, gate, cycle, first);
    J::sum(notes, sum);
}
