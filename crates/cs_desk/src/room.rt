// How large a cycle may be; a desk that is too small is replaced by a larger one with the same cells.
ghost use Rattle.std.specs.Prelude.{◌≡◌, ◌<◌, ◌≤◌, ◌*◌, ◌^◌, length, true, IfOk, OnOk};
ghost use Rattle.cs_cells.specs.Areas.{word_count};
ghost use Rattle.cs_desk.specs.Desk.{HasRoom, areas, cells};

use crate::desk::Desk;
use crate::plain::numbers_of;
use cs_base::OutOfMemory;
use cs_cells::{Job, Layout};
use std::alloc::Global;

impl<J: Job> Desk<J> {
    /// Returns whether there is room for a cycle of `notes` notes and `edges` edges.
    pub fn has_room(&self, notes: u32, edges: u32) -> bool
        ensures room { result ≡ true → HasRoom self.now notes edges }
        ensures only { HasRoom self.now notes edges → result ≡ true }
    {
        let words = 1
            + self.resting.cells as usize
            + self.resting.areas as usize
            + 2 * notes as usize
            + edges as usize;
        let table = &self.resting.table;
        notes as usize <= table.slot_count() && words <= table.word_count()
    }
}

/// Makes room in the desk for cycles of `notes` notes and `edges` edges, with the same layout and cells.
pub fn make_room<J: Job + Drop>(
    alloc: Global,
    layout: &Layout,
    desk: &mut Desk<J>,
    notes: u32,
    edges: u32,
) -> Result<(), OutOfMemory>
    requires areas { areas desk.old ≡ layout.now }
    requires cells { length (cells desk.old) ≡ word_count layout.now }
    requires few { (notes < 2 ^ 31) × (edges < 2 ^ 31) }
    ensures room { OnOk result (HasRoom desk.new notes edges) }
    ensures cells { cells desk.new ≡ cells desk.old }
    ensures areas { areas desk.new ≡ areas desk.old }
{
    if !desk.has_room(notes, edges) {
        *desk = larger(alloc, layout, desk, notes, edges)?;
    }
    Ok(())
}

// Makes a desk with the layout and the cells of another one, and with room for cycles of twice as many notes
// and edges.
fn larger<J: Job>(
    alloc: Global,
    layout: &Layout,
    desk: &mut Desk<J>,
    notes: u32,
    edges: u32,
) -> Result<Desk<J>, OutOfMemory>
    requires areas { areas desk.old ≡ layout.now }
    requires cells { length (cells desk.old) ≡ word_count layout.now }
    requires few { (notes < 2 ^ 31) × (edges < 2 ^ 31) }
    ensures areas { IfOk result (λ d. areas d ≡ layout.now) }
    ensures cells { IfOk result (λ d. cells d ≡ cells desk.old) }
    ensures room { IfOk result (λ d. HasRoom d notes edges) }
    ensures same { (cells desk.new ≡ cells desk.old) × (areas desk.new ≡ areas desk.old) }
{
    let numbers = numbers_of(alloc, desk, layout.words())?;
    Desk::over(alloc, layout, numbers, 2 * notes, 2 * edges)
}
