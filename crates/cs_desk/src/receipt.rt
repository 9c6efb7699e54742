// The result of a cycle, and the totals of cycles and notes.
ghost use Rattle.std.specs.Prelude.{◌≡◌, ◌+◌, ◌≤◌, ◌<◌, ◌^◌, [], length, All};
ghost use Rattle.std.specs.Vec.{vec_capacity};
ghost use Rattle.cs_row.specs.{Kept.CutAlike, Laws.all_notes};

use cs_cells::Job;
use cs_row::{Heard, Row, Rows};
use std::marker::Model;

/// The jobs of a cycle after all its notes have run, in serial order. Only `Desk::rest` and `Desk::run_alone`
/// make one. Contracts see the list of the jobs.
pub struct Receipt<J> {
    pub(crate) notes: u32,
    pub(crate) jobs: Vec<J>,
}

impl<J> Model for Receipt<J> {
    ghost use Rattle.std.specs.Prelude.{◌≡◌, List, length};

    ghost Value = { List J };

    ghost view = { λ r. r.jobs.items };

    ghost invariant = { λ r. r.notes ≡ length r.jobs.items };
}

impl<J> Receipt<J> {
    /// Returns the number of notes.
    pub fn notes(&self) -> u32
        ensures { result ≡ length self.now }
    {
        self.notes
    }

    /// Returns the jobs, in serial order.
    pub fn jobs(&self) -> &[J]
        ensures { result.now ≡ self.now }
    {
        &self.jobs
    }
}

impl<'g, J: Heard + Drop, G> Receipt<Row<'g, J, G>> {
    /// Returns the receipt of the notes in these rows. The notes move into `notes`, which has room for them,
    /// and the memory of the rows into `kept`.
    pub fn unrow(self, mut notes: Vec<J>, kept: &mut Rows<'g, J, G>) -> Receipt<J>
        requires empty { notes.items ≡ [] }
        requires room { length (all_notes self) ≤ vec_capacity notes }
        requires few { length (all_notes self) < 2 ^ 32 }
        requires sums { All (λ r. length r.sum ≡ kept.old.block) self }
        ensures notes { result ≡ all_notes self.entry }
        ensures same { CutAlike kept.new kept.old }
    {
        let Receipt {
            notes: _,
            jobs: rows,
        } = self;
        kept.empty(rows, &mut notes);
        Receipt {
            notes: notes.len() as u32,
            jobs: notes,
        }
    }
}

/// The number of cycles that were played to their end, and the number of their notes. Only `add` changes one.
#[derive(Debug, Drop)]
pub struct Tally {
    cycles: u64,
    notes: u64,
}

impl Tally {
    /// Makes a tally of no cycles and no notes.
    pub fn new() -> Tally
        ensures { (result.cycles ≡ 0) × (result.notes ≡ 0) }
    {
        Tally {
            cycles: 0,
            notes: 0,
        }
    }

    /// Counts the cycle and its notes, and returns its jobs.
    pub fn add<J: Job>(&mut self, receipt: Receipt<J>) -> Vec<J>
        requires room { (self.old.cycles ≤ 2 ^ 63) × (self.old.notes ≤ 2 ^ 63) }
        ensures jobs { result.items ≡ receipt }
        ensures cycles { self.new.cycles ≡ self.old.cycles + 1 }
        ensures notes { self.new.notes ≡ self.old.notes + length receipt }
    {
        let Receipt { notes, jobs } = receipt;
        self.cycles += 1;
        self.notes += u64::from(notes);
        jobs
    }

    /// Returns the number of cycles.
    pub fn cycles(&self) -> u64
        ensures { result ≡ self.now.cycles }
    {
        self.cycles
    }

    /// Returns the number of notes of all cycles.
    pub fn notes(&self) -> u64
        ensures { result ≡ self.now.notes }
    {
        self.notes
    }
}
