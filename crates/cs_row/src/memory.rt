// The memory of rows; filling and emptying them.
ghost use Rattle.std.specs.Prelude.{◌≡◌, ◌≤◌, ◌<◌, ◌+◌, ◌-◌, ◌++◌, ℕ, [], length, take, map, reverse, All, OnOk};
ghost use Rattle.std.specs.Vec.{vec_len, vec_capacity};
ghost use Rattle.cs_row.specs.{Cuts.AreFilling, Cuts.AreRowsOf, Cuts.IsCut, Kept.CutAlike, Kept.HasMemory};
ghost use Rattle.cs_row.specs.{Kept.IsFillable, Kept.cuts, Laws.all_notes, Laws.jobs_of, Rooms.IsEmptied, Rooms.IsWide};

use crate::heard::Heard;
use crate::row::{Row, RowRoom};
use crate::rows::Rows;
use cs_base::OutOfMemory;
use std::alloc::{AllocError, Global};
use std::mem;

impl<'g, J: Heard + Drop, G> Rows<'g, J, G> {
    /// Allocates the memory that the cut rows still lack.
    pub fn take_memory(&mut self, alloc: Global) -> Result<(), OutOfMemory>
        ensures memory { OnOk result (HasMemory self.new) }
        ensures same { CutAlike self.new self.old }
    {
        let count = self.cuts.len();
        self.rows.reserve(count)?;
        widen(&mut self.rooms, self.most)?;
        add_rooms(alloc, &mut self.rooms, count, self.most, self.block)?;
        Ok(())
    }

    /// Returns the notes in rows, the way they were cut; `notes` is emptied. The gate is called before each
    /// note with the cycle and the note's index.
    pub fn fill(&mut self, notes: &mut Vec<J>, gate: &'g G, cycle: u32) -> Vec<Row<'g, J, G>>
        requires notes { IsFillable J.Job.means J.shape self.old notes.old.items }
        requires memory { HasMemory self.old }
        ensures rows { AreRowsOf J.Job.means self.old.most notes.old.items (jobs_of result.items) }
        ensures lengths { map length (jobs_of result.items) ≡ cuts self.old }
        ensures sums { All (λ r. length r.sum ≡ self.old.block) result.items }
        ensures empty { (notes.new.items ≡ []) × (vec_capacity notes.new ≡ vec_capacity notes.old) }
        ensures same { CutAlike self.new self.old }
    {
        let alloc = *notes.allocator();
        let mut rows = mem::replace(&mut self.rows, Vec::new(alloc));
        fill_rows(&mut self.rooms, &self.cuts, notes, gate, cycle, &mut rows);
        rows
    }

    /// Appends the notes of rows to `notes`, which has room for them. The memory of the rows is stored again,
    /// unless memory for storing it runs out.
    pub fn empty(&mut self, mut rows: Vec<Row<'g, J, G>>, notes: &mut Vec<J>)
        requires sums { All (λ r. length r.sum ≡ self.old.block) rows.items }
        requires room { length notes.old.items + length (all_notes rows.items) ≤ vec_capacity notes.old }
        ensures notes { notes.new.items ≡ notes.old.items ++ all_notes rows.entry.items }
        ensures same { CutAlike self.new self.old }
    {
        empty_rows(&mut rows, &mut self.rooms, notes);
        self.rows = rows;
    }
}

// Reserves memory for `most` notes in each of these rooms.
fn widen<J: Drop>(rooms: &mut [RowRoom<J>], most: usize) -> Result<(), AllocError>
    requires empty { All (λ room. room.notes.items ≡ []) rooms.old }
    ensures wide { OnOk result (All (IsWide most) rooms.new) }
    ensures empty { (block : ℕ) → All (IsEmptied block) rooms.old → All (IsEmptied block) rooms.new }
    ensures long { length rooms.new ≡ length rooms.old }
{
    for at in 0..rooms.len() {
        rooms[at].notes.reserve(most)?;
    }
    Ok(())
}

// Appends rooms until there are `count`, each with memory for `most` notes.
fn add_rooms<J: Drop>(
    alloc: Global,
    rooms: &mut Vec<RowRoom<J>>,
    count: usize,
    most: usize,
    block: usize,
) -> Result<(), OutOfMemory>
    requires empty { All (IsEmptied block) rooms.old.items }
    requires wide { All (IsWide most) rooms.old.items }
    ensures enough { OnOk result (count ≤ length rooms.new.items) }
    ensures wide { All (IsWide most) rooms.new.items }
    ensures empty { All (IsEmptied block) rooms.new.items }
{
    for _ in rooms.len()..count {
        rooms.push(RowRoom::new(alloc, most, block)?)?;
    }
    Ok(())
}

// Fills rows with the notes; `cuts` has the number of notes of each row.
fn fill_rows<'g, J: Heard, G>(
    rooms: &mut Vec<RowRoom<J>>,
    cuts: &[usize],
    notes: &mut Vec<J>,
    gate: &'g G,
    cycle: u32,
    rows: &mut Vec<Row<'g, J, G>>,
)
    requires fill { (most : ℕ) × (block : ℕ) × AreFilling J.Job.means most J.shape block cuts.now notes.old.items
        × All (IsEmptied block) rooms.old.items × All (IsWide most) rooms.old.items }
    requires enough { length cuts.now ≤ length rooms.old.items }
    requires places { (rows.old.items ≡ []) × (length cuts.now ≤ vec_capacity rows.old) }
    ensures rows { (most : ℕ) (cut : IsCut J.Job.means most notes.old.items cuts.now)
        → jobs_of rows.new.items ≡ cut.rows }
    ensures sums { (block : ℕ) → All (IsEmptied block) rooms.old.items
        → All (λ r. length r.sum ≡ block) rows.new.items }
    ensures rooms { (block : ℕ) → All (IsEmptied block) rooms.old.items → All (IsEmptied block) rooms.new.items }
    ensures notes { notes.new.items ≡ [] }
    ensures capacity { vec_capacity notes.new ≡ vec_capacity notes.old }
{
    notes.reverse();
    let mut first = 0;
    for at in 0..cuts.len() {
        let room = take_room(rooms, notes, cuts[at]);
        rows.push_reserved(Row::new(room, gate, cycle, first));
        first += cuts[at] as u32;
    }
}

// Returns the last room, filled with the last `count` notes, the last one first.
fn take_room<J>(rooms: &mut Vec<RowRoom<J>>, notes: &mut Vec<J>, count: usize) -> RowRoom<J>
    requires some { 0 < length rooms.old.items }
    requires empty { All (λ room. (room.notes.items ≡ []) × (count ≤ vec_capacity room.notes)) rooms.old.items }
    requires there { count ≤ vec_len notes.old }
    ensures left { rooms.new.items ≡ take (length rooms.old.items - 1) rooms.old.items }
    ensures sum { (block : ℕ) → All (IsEmptied block) rooms.old.items → length result.sum.items ≡ block }
    ensures moved { result.notes.items ++ reverse notes.new.items ≡ reverse notes.old.items }
    ensures count { length result.notes.items ≡ count }
    ensures capacity { vec_capacity notes.new ≡ vec_capacity notes.old }
{
    let Some(mut room) = rooms.pop() else {
        unreachable!()
    };
    for _ in 0..count {
        let Some(note) = notes.pop() else {
            unreachable!()
        };
        room.notes.push_reserved(note);
    }
    room
}

// Appends the notes of rows to `notes`, and their memory to `rooms`, unless memory for storing it runs out.
fn empty_rows<'g, J: Heard + Drop, G>(
    rows: &mut Vec<Row<'g, J, G>>,
    rooms: &mut Vec<RowRoom<J>>,
    notes: &mut Vec<J>,
)
    requires room { vec_len notes.old + length (all_notes rows.old.items) ≤ vec_capacity notes.old }
    ensures notes { notes.new.items ≡ notes.old.items ++ all_notes rows.old.items }
    ensures rooms { (block : ℕ) → All (λ r. length r.sum ≡ block) rows.old.items → All (IsEmptied block) rooms.old.items
        → All (IsEmptied block) rooms.new.items }
    ensures rows { rows.new.items ≡ [] }
{
    rows.reverse();
    for _ in 0..rows.len() {
        let Some(row) = rows.pop() else {
            unreachable!()
        };
        let _ = rooms.push(row.empty_into(notes));
    }
}
