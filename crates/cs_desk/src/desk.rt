// The state between two cycles.
ghost use Rattle.std.specs.Prelude.{◌≡◌, ◌≤◌, ◌<◌, ◌+◌, ℕ, length, map, IfOk};
ghost use Rattle.std.specs.{List.range_with_len, Option.ForSome};
ghost use Rattle.cs_cells.specs.{Areas.word_count, Cells.cell, Cells.values, Cells.with_row};
ghost use Rattle.cs_desk.specs.inner.Tables.{layout_of};

use crate::plain::numbers_in;
use crate::resting::RestingTable;
use cs_base::{Num, OutOfMemory};
use cs_cells::{Bank, Job, Layout};
use std::alloc::Global;

/// The words and slots of a performance, with the cells of the piece, while no board is played. While the
/// caller runs cycles without a crew the cells are in plain memory, where reading or setting one is no atomic
/// step; the cells in the table's words don't count then.
#[derive(Drop)]
pub struct Desk<J: Job> {
    pub(crate) resting: RestingTable<J>,
    pub(crate) plain: Option<Vec<Num>>,
    /// The number of notes in succession that the caller ran without a board while the cells were in the
    /// table's words.
    pub(crate) alone: u32,
    ghost long: { ForSome plain (λ numbers. length numbers.items ≡ word_count (layout_of resting)) },
}

impl<J: Job> Desk<J> {
    ghost use Rattle.cs_board.specs.Resting.{wide};
    ghost use Rattle.cs_desk.specs.Desk.{areas, cells, note_room, word_room};

    /// Makes a desk for this layout, with one word for each cell, and with room for cycles of `notes` notes
    /// and `edges` edges.
    pub fn new(
        alloc: Global,
        layout: &Layout,
        words: &[u64],
        notes: u32,
        edges: u32,
    ) -> Result<Desk<J>, OutOfMemory>
        requires words { length words.now ≡ word_count layout.now }
        ensures areas { IfOk result (λ d. areas d ≡ layout.now) }
        ensures cells { IfOk result (λ d. cells d ≡ values words.now) }
        ensures notes { IfOk result (λ d. note_room d ≡ notes) }
        ensures room { IfOk result (λ d. word_room d ≡ wide layout.now notes edges) }
    {
        Desk::over(alloc, layout, numbers_in(alloc, words)?, notes, edges)
    }

    /// Makes a desk for this layout, with these cells, and with room for cycles of `notes` notes and `edges`
    /// edges.
    pub(crate) fn over(
        alloc: Global,
        layout: &Layout,
        numbers: Vec<Num>,
        notes: u32,
        edges: u32,
    ) -> Result<Desk<J>, OutOfMemory>
        requires numbers { length numbers.items ≡ word_count layout.now }
        ensures areas { IfOk result (λ d. areas d ≡ layout.now) }
        ensures cells { IfOk result (λ d. cells d ≡ numbers.items) }
        ensures notes { IfOk result (λ d. note_room d ≡ notes) }
        ensures room { IfOk result (λ d. word_room d ≡ wide layout.now notes edges) }
    {
        let resting = RestingTable::new(alloc, layout, notes, edges)?;
        Ok(Desk {
            resting,
            plain: Some(numbers),
            alone: 0,
        })
    }
}

/// The cells are read and set between two cycles, when a note begins or a table is made, and by the notes of
/// a cycle that runs without a board.
impl<J: Job> Bank for Desk<J> {
    ghost use Rattle.cs_desk.specs.Desk.{Standing, standing, access_of, cells};
    ghost use Rattle.cs_desk.specs.inner.Counted.{count_is};

    // The table with its sizes, and the layout.
    ghost Rest = { Standing };

    ghost rest = { standing };

    ghost access = { access_of };

    ghost cells = { cells };

    fn get(&mut self, addr: u32) -> Num {
        match &self.plain {
            Some(numbers) => numbers[addr as usize],
            None => self.resting.get(addr),
        }
    }

    fn set(&mut self, addr: u32, value: Num) {
        match &mut self.plain {
            Some(numbers) => numbers[addr as usize] = value,
            None => self.resting.set(addr, value),
        }
    }

    fn get_row(&mut self, first: u32, row: &mut [Num]) {
        match &self.plain {
            Some(numbers) => copy_from(numbers, first as usize, row),
            None => self.resting.get_row(first, row),
        }
    }

    fn set_row(&mut self, first: u32, row: &[Num]) {
        match &mut self.plain {
            Some(numbers) => copy_into(numbers, first as usize, row),
            None => self.resting.set_row(first, row),
        }
    }

    ghost counted = { count_is };
}

// Copies the numbers from index `first` on into a row.
#[inline(never)]
fn copy_from(numbers: &[Num], first: usize, row: &mut [Num])
    requires there { (j : ℕ) → j < length row.old → first + j < length numbers.now }
    requires small { first + length row.old ≤ 65536 }
    ensures { row.new ≡ map (cell numbers.now) (range_with_len first (length row.old)) }
{
    // No clause bounds where an empty row begins.
    if row.is_empty() {
        return;
    }
    row.copy_from_slice(&numbers[first..first + row.len()]);
}

// Copies a row over the numbers from index `first` on.
#[inline(never)]
fn copy_into(numbers: &mut [Num], first: usize, row: &[Num])
    requires there { (j : ℕ) → j < length row.now → first + j < length numbers.old }
    requires small { first + length row.now ≤ 65536 }
    ensures cells { cell numbers.new ≡ with_row first (length row.now) (cell row.now) (cell numbers.old) }
    ensures long { length numbers.new ≡ length numbers.old }
{
    // No clause bounds where an empty row begins.
    if row.is_empty() {
        return;
    }
    numbers[first..first + row.len()].copy_from_slice(row);
}
