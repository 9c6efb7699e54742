// The state of a performance without its cells and the voices of its notes.
ghost use Rattle.std.specs.Prelude.{◌≡◌, [], false, pos, replicate, IfOk, OnOk};
ghost use Rattle.cs_cells.specs.{Access.AllowsBelow, Areas.word_count, Cells.cell};
ghost use Rattle.cs_piece_meaning.specs.Course.{opening, outside_done};
ghost use Rattle.cs_life.specs.Standing.{StandsFor, flags_of};
ghost use Rattle.cs_piece.specs.{VoicesOfNotes.Hold, Ready.IsStageOf, Setups.composition_of};

use cs_base::OutOfMemory;
use cs_cells::{Bank, Layout};
use cs_piece::{Playable, Setup};
use cs_sched::Pending;
use cs_voice::{NewNote, Stage, start};
use std::alloc::Global;

/// The state of a performance. `StandsFor` (specs/Standing) says which moments of the performance it
/// represents.
#[derive(Drop)]
pub struct Life<'t> {
    pub(crate) setup: &'t Setup,
    pub(crate) stage: Stage<'t>,
    /// For each table, whether it has been made.
    pub(crate) made: Vec<bool>,
    pub(crate) pending: Pending,
    pub(crate) started: u64,
    pub(crate) not_started: u64,
}

impl<'t> Life<'t> {
    /// Opens a performance of `setup`: the code outside of instruments runs once on the cells of `bank`, all
    /// of which are 0.
    pub fn new<B: Bank>(
        alloc: Global,
        setup: &'t Setup,
        bank: &mut B,
    ) -> Result<Life<'t>, OutOfMemory>
        requires cells { B.cells bank.old ≡ replicate (word_count setup.now.layout) (pos 0) }
        requires access { AllowsBelow (B.access (B.rest bank.old)) (word_count setup.now.layout) }
        ensures stands { IfOk result (λ life. StandsFor (composition_of setup.now) life [] (B.cells bank.new)
            (opening (composition_of setup.now))) }
        ensures setup { IfOk result (λ life. life.setup.now ≡ setup.now) }
        ensures rest { B.rest bank.new ≡ B.rest bank.old }
    {
        let stage = setup.stage();
        let made = none_made(alloc, stage.tables.len())?;
        begin_outside(alloc, setup, stage, &made, bank)?;
        Ok(Life {
            setup,
            stage,
            made,
            pending: Pending::new(alloc),
            started: 0,
            not_started: 0,
        })
    }

    /// Returns the layout whose areas the notes' footprints name.
    pub fn zones(&self) -> &'t Layout
        ensures { result.now ≡ self.now.stage.zones.now }
    {
        self.stage.zones
    }

    /// Returns the number of starts that started a note, including notes that last no cycle.
    pub fn started(&self) -> u64
        ensures { result ≡ self.now.started }
    {
        self.started
    }

    /// Returns the number of starts that started nothing.
    pub fn not_started(&self) -> u64
        ensures { result ≡ self.now.not_started }
    {
        self.not_started
    }
}

// Returns flags for `count` tables, none of which has been made yet.
fn none_made(alloc: Global, count: usize) -> Result<Vec<bool>, OutOfMemory>
    ensures { IfOk result (λ v. v.items ≡ replicate count false) }
{
    Ok(vec![in alloc; false; count]?)
}

// Runs the code outside of instruments once. The voice that it makes, the reason for a refusal and the notes
// that it schedules are dropped: only what notes share stays.
fn begin_outside<'t, B: Bank>(
    alloc: Global,
    setup: &'t Setup,
    stage: Stage<'t>,
    made: &[bool],
    bank: &mut B,
) -> Result<(), OutOfMemory>
    requires stage { IsStageOf (composition_of setup.now) stage }
    requires layout { stage.layout.now ≡ setup.now.layout }
    requires zones { stage.zones.now ≡ setup.now.zones }
    requires made { made.now ≡ flags_of (composition_of setup.now).tables [] }
    requires cells { B.cells bank.old ≡ replicate (word_count setup.now.layout) (pos 0) }
    requires access { AllowsBelow (B.access (B.rest bank.old)) (word_count setup.now.layout) }
    ensures hold { OnOk result (Hold setup.now.layout (cell (B.cells bank.new))
        (outside_done (composition_of setup.now)).world.shared) }
    ensures rest { B.rest bank.new ≡ B.rest bank.old }
{
    let Playable { instrument, foot } = setup.outside();
    let mut asks = Vec::new(alloc);
    let fields = Vec::new(alloc);
    let note = NewNote {
        instrument,
        foot,
        stage,
        made,
        age: 0,
        until: 0,
    };
    start(alloc, &note, fields, &mut asks, bank)?;
    Ok(())
}
