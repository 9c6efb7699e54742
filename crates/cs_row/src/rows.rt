// The rows in which the notes of a cycle run.
ghost use Rattle.std.specs.Prelude.{◌≡◌, ◌≤◌, ◌*◌, ◌/◌, List, [], length, map, max, All, IfOk, OnOk};
ghost use Rattle.cs_base.specs.Limits.{most_notes};
ghost use Rattle.cs_cells.specs.declared.footprint.Area.{Area};
ghost use Rattle.cs_row.specs.{Cuts.AreRowsOf, Cuts.IsCut, Rooms.IsEmptied, Rows.row_foot};

use crate::cut::cut_notes;
use crate::heard::Heard;
use crate::row::{Row, RowRoom};
use cs_base::OutOfMemory;
use cs_cells::Footprint;
use std::alloc::{AllocError, Global};

// The lowest number of rows for each worker, if the notes may run in any order and there are enough of them:
// a worker that finishes early finds another row.
const ROWS_A_WORKER: usize = 4;

/// How the notes of a cycle are cut into rows, and the memory of the rows, which is reused from cycle to
/// cycle.
#[derive(Drop)]
pub struct Rows<'g, J: Heard, G> {
    /// The number of values in the sum of a row.
    pub(crate) block: usize,
    /// The highest number of notes in a row.
    pub(crate) most: usize,
    /// The number of notes of each row, in serial order.
    pub(crate) cuts: Vec<usize>,
    /// Memory for rows, without notes.
    pub(crate) rooms: Vec<RowRoom<J>>,
    /// An empty vector with room for rows.
    pub(crate) rows: Vec<Row<'g, J, G>>,
    ghost empty: { All (λ room. IsEmptied block room) rooms.items × (rows.items ≡ []) },
}

impl<'g, J: Heard + Drop, G> Rows<'g, J, G> {
    /// Makes an empty `Rows`; allocates nothing. `block` is the number of values in the sum of a row.
    pub fn new(alloc: Global, block: usize) -> Rows<'g, J, G>
        ensures { (result.block ≡ block) × (result.cuts.items ≡ []) }
    {
        Rows {
            block,
            most: 1,
            cuts: Vec::new(alloc),
            rooms: Vec::new(alloc),
            rows: Vec::new(alloc),
        }
    }

    /// Cuts notes into rows for `workers` workers. The notes of a row with several notes follow each other,
    /// touch the same resources and write none; there are at most a fourth of a worker's share of all notes.
    pub fn cut(&mut self, notes: &[J], workers: u32) -> Result<(), OutOfMemory>
        requires workers { 1 ≤ workers }
        requires few { length notes.now ≤ most_notes }
        requires over { (areas : List Area) × All (λ j. J.Job.means.areas j ≡ areas) notes.now }
        ensures most { self.new.most ≡ max 1 (length notes.now / (4 * workers)) }
        ensures cut { OnOk result (IsCut J.Job.means self.new.most notes.now self.new.cuts.items) }
        ensures block { self.new.block ≡ self.old.block }
    {
        self.most = (notes.len() / (ROWS_A_WORKER * workers as usize)).max(1);
        self.cuts.clear();
        self.cuts.reserve(notes.len())?;
        cut_notes(notes, self.most, &mut self.cuts);
        Ok(())
    }

    /// Returns copies of the footprints of the rows that were cut from these notes.
    pub fn feet(&self, alloc: Global, notes: &[J]) -> Result<Vec<Footprint>, AllocError>
        requires few { length notes.now ≤ most_notes }
        requires cut { IsCut J.Job.means self.now.most notes.now self.now.cuts.items }
        ensures { IfOk result (λ feet. (rows : List (List J)) → AreRowsOf J.Job.means self.now.most notes.now rows
            → map length rows ≡ self.now.cuts.items → feet.items ≡ map (row_foot J.Job.means) rows) }
    {
        let mut feet = Vec::with_capacity(alloc, self.cuts.len())?;
        let mut first = 0;
        for at in 0..self.cuts.len() {
            feet.push_reserved(notes[first].footprint().copy(alloc)?);
            first += self.cuts[at];
        }
        Ok(feet)
    }
}
