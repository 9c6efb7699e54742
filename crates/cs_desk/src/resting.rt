// The table of a performance at rest, with its one seat.
ghost use Rattle.std.specs.Prelude.{◌≡◌, ◌+◌, ◌<◌, ◌++◌, ◌∷◌, [], length, replicate, slice_index, Some, IfOk, OnOk};
ghost use Rattle.std.specs.Prelude.{slice_get};
ghost use Rattle.cs_board.specs.Resting.{IsSole, known_in, areas_in};
ghost use Rattle.cs_desk.specs.inner.Resting.{IsResting};
ghost use Rattle.cs_cells.specs.Areas.{word_count};
ghost use Rattle.cs_board.specs.Views.{laid, with_home, with_word};
ghost use Rattle.cs_board.specs.{declared.view.Berth.Berth, declared.view.Berth.TheVariants.Vacant, Opening.each_below};

use atomic_table::{Refused, Table};
use cs_base::{Num, OutOfMemory};
use cs_board::{Berth, Berths, Key, Lay, Leave, Reach, Read, Sitting};
use cs_cells::{Bank, Job, Layout};
use std::alloc::Global;
use std::snapshot::Snapshot;

/// The words and slots of a performance, with the cells of the piece in words, while no board is played.
#[derive(Drop)]
pub(crate) struct RestingTable<J: Job> {
    pub(crate) table: Berths<J>,
    pub(crate) seat: Sitting<J>,
    pub(crate) areas: u32,
    pub(crate) cells: u32,
    ghost rests: { IsResting areas cells table.shared.table_id seat },
}

impl<J: Job> RestingTable<J> {
    ghost use Rattle.cs_desk.specs.inner.Tables.{layout_of, cells_in, slots_in, words_in};
    ghost use Rattle.cs_board.specs.Resting.{wide};

    /// Makes a table for this layout, with one word for each cell, and with room for cycles of `notes` notes
    /// and `edges` edges. All cells are 0.
    pub(crate) fn new(
        alloc: Global,
        layout: &Layout,
        notes: u32,
        edges: u32,
    ) -> Result<RestingTable<J>, OutOfMemory>
        ensures areas { IfOk result (λ t. layout_of t ≡ layout.now) }
        ensures notes { IfOk result (λ t. slots_in t ≡ notes) }
        ensures room { IfOk result (λ t. words_in t ≡ wide layout.now notes edges) }
    {
        let row = row_of(alloc, layout, notes, edges)?;
        let slots = vacant_slots(alloc, notes)?;
        let key = Key {
            layout: Snapshot::of(layout),
            words: Snapshot::of(&row),
            slots: Snapshot::of(&notes),
        };
        match Table::new(alloc, &row, slots, &key) {
            Ok((table, seat)) => Ok(RestingTable {
                table,
                seat,
                areas: layout.len(),
                cells: layout.words(),
            }),
            Err(Refused { slots }) => {
                discard(slots);
                Err(OutOfMemory)
            }
        }
    }
}

// Returns the words of a table: word 0, the cells, and all words that a cycle needs, each 0.
fn row_of(alloc: Global, layout: &Layout, notes: u32, edges: u32) -> Result<Vec<u64>, OutOfMemory>
    ensures { IfOk result (λ row. row.items ≡ 0 ∷ each_below (λ a. 0) (word_count layout.now)
        ++ (each_below (λ r. 0) (length layout.now) ++ each_below (λ r. 0) (notes + (notes + edges)))) }
{
    let others = 2 * u64::from(notes) + u64::from(edges);
    let mut row = Vec::new(alloc);
    row.push(0)?;
    push_zeros(&mut row, u64::from(layout.words()))?;
    push_zeros(&mut row, u64::from(layout.len()))?;
    push_zeros(&mut row, others)?;
    Ok(row)
}

fn push_zeros(words: &mut Vec<u64>, count: u64) -> Result<(), OutOfMemory>
    ensures { OnOk result (words.new.items ≡ words.old.items ++ each_below (λ t. 0) count) }
{
    for _ in 0..count {
        words.push(0)?;
    }
    Ok(())
}

// Returns `count` vacant slots.
fn vacant_slots<J>(alloc: Global, count: u32) -> Result<Vec<Berth<J>>, OutOfMemory>
    ensures { IfOk result (λ slots. slots.items ≡ replicate count Vacant) }
{
    let mut slots = Vec::with_capacity(alloc, count as usize)?;
    for _ in 0..count {
        slots.push_reserved(Berth::Vacant);
    }
    Ok(slots)
}

// Frees vacant slots.
fn discard<J>(mut slots: Vec<Berth<J>>)
    requires { slots.items ≡ replicate (length slots.items) Vacant }
{
    while let Some(slot) = slots.pop() {
        let Berth::Vacant = slot else { unreachable!() };
    }
    slots.destroy_empty();
}

/// Sets a word while the board rests.
pub(crate) fn lay<J: Job>(table: &Berths<J>, seat: &mut Sitting<J>, word: usize, value: u64)
    requires sole { IsSole table.now.shared.table_id seat.old }
    requires word { word < table.now.shared.table_id.words }
    ensures me { seat.new.me ≡ (laid seat.old.me.0 (with_word (known_in seat.old) word value), []) }
    ensures sole { IsSole table.now.shared.table_id seat.new }
    ensures areas { areas_in seat.new ≡ areas_in seat.old }
    ensures known { known_in seat.new ≡ with_word (known_in seat.old) word value }
{
    table.shared.store::<Lay>(seat, word, value);
}

// Reads a word while the board rests.
fn read<J: Job>(table: &Berths<J>, seat: &mut Sitting<J>, word: usize) -> u64
    requires sole { IsSole table.now.shared.table_id seat.old }
    requires word { word < table.now.shared.table_id.words }
    ensures me { seat.new.me ≡ seat.old.me }
    ensures sole { IsSole table.now.shared.table_id seat.new }
    ensures value { result ≡ slice_index (known_in seat.old).words word }
{
    table.shared.load::<Read>(seat, word)
}

/// The cells in the words of the table.
impl<J: Job> Bank for RestingTable<J> {
    ghost use Rattle.cs_desk.specs.Kept.{Standing, access_of};
    ghost use Rattle.cs_desk.specs.inner.Tables.{standing_of, cells_in};
    ghost use Rattle.cs_desk.specs.inner.Counted.{cells_counted};

    // The table with its sizes, and the layout.
    ghost Rest = { Standing };

    ghost rest = { standing_of };

    ghost access = { access_of };

    ghost cells = { cells_in };

    fn get(&mut self, addr: u32) -> Num {
        let word = read(&self.table, &mut self.seat, 1 + addr as usize);
        Num::of_raw(word.cast_signed())
    }

    fn set(&mut self, addr: u32, value: Num) {
        lay(
            &self.table,
            &mut self.seat,
            1 + addr as usize,
            value.raw().cast_unsigned(),
        );
    }

    ghost counted = { cells_counted };
}

/// Exchanges the content of a slot for `berth` while the board rests, and returns the earlier content.
pub(crate) fn swap<J: Job>(
    table: &Berths<J>,
    seat: &mut Sitting<J>,
    note: u32,
    berth: Berth<J>,
) -> Berth<J>
    requires sole { IsSole table.now.shared.table_id seat.old }
    requires lies { (b : Berth J) × (slice_get (known_in seat.old).homes note ≡ Some (Some b)) }
    requires word { note < table.now.shared.table_id.words }
    ensures was { slice_get (known_in seat.old).homes note ≡ Some (Some result) }
    ensures sole { IsSole table.now.shared.table_id seat.new }
    ensures areas { areas_in seat.new ≡ areas_in seat.old }
    ensures known { known_in seat.new ≡ with_home (known_in seat.old) note (Some berth) }
{
    table.shared.load::<Reach>(seat, note as usize);
    let held = table.shared.exchange(seat, note as usize, berth);
    table.shared.load::<Leave>(seat, 0);
    held
}
