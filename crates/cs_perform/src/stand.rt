// The state of a performance from cycle to cycle.
ghost use Rattle.std.specs.Prelude.{◌≡◌, ◌+◌, ◌*◌, ◌≤◌, ◌<◌, ℕ, [], ◌∷◌, length, pos, replicate, true, false, All};
ghost use Rattle.std.specs.Prelude.{IfOk, OnOk};
ghost use Rattle.cs_base.specs.Limits.{most_notes};
ghost use Rattle.cs_cells.specs.Areas.{word_count};
ghost use Rattle.cs_piece_meaning.specs.Course.{begins, moment_at, opening, performed, turned_off};
ghost use Rattle.cs_piece_meaning.specs.{Heard.mix_in, Moments.Moment};
ghost use Rattle.cs_desk.specs.{Cycles.IsCycle, Cycles.WasPlayed, Desk.areas, Desk.cells};
ghost use Rattle.cs_life.specs.Standing.{StandsFor};
ghost use Rattle.cs_pool.specs.Pools.{ended, next_cycle};
ghost use Rattle.cs_perform.specs.{Counted.CountsOn, inner.Stands.InRows, inner.Stands.IsAt, inner.Stands.IsReady};
ghost use Rattle.cs_piece.specs.Setups.{SetupData, composition_of};
ghost use Rattle.cs_row.specs.Heard.{sums};
ghost use Rattle.cs_voice.specs.{Mixing.gives, Mixing.shape, VoiceData.VoiceData};

use crate::counter::Counter;
use cs_base::OutOfMemory;
use cs_cells::{Job, Layout};
use cs_desk::{Course, Desk, Receipt, make_room};
use cs_edge::{Gate, OpenGate};
use cs_graph::{Graph, is_one_chain};
use cs_life::{Life, serial_runs_perform, voices_are_heard};
use cs_piece::Setup;
use cs_pool::Pool;
use cs_row::{Heard, Row, Rows, row_laws, sum_rows};
use cs_voice::Voice;
use std::alloc::Global;
use std::mem;
use std::sync::{Arc, Wait};

/// The number of notes for which a desk has room at first.
const FIRST_NOTES: u32 = 16;
/// The number of edges for which a desk has room at first.
const FIRST_EDGES: u32 = 32;

/// Notes that run as one job.
pub(crate) type NoteRow<'t, G> = Row<'t, Voice<'t>, G>;

/// The state of a performance: its life, the notes that play, in performing order, the cells that they share,
/// and the course of their cycle.
#[derive(Drop)]
pub(crate) struct Stand<'t, G: Gate> {
    pub life: Life<'t>,
    /// The gate that is called before each note.
    pub gate: &'t G,
    pub voices: Vec<Voice<'t>>,
    pub desk: Desk<NoteRow<'t, G>>,
    /// The course of the rows.
    pub course: Course,
    pub rows: Rows<'t, Voice<'t>, G>,
    /// Whether no note has begun or left since the rows were cut and the course was built from them.
    pub current: bool,
    /// The course of the notes, if turns are asked for.
    pub turns: Course,
}

/// The numbers of starts: those that started a note, and those that started nothing.
#[derive(Clone, Copy)]
pub(crate) struct Starts {
    pub started: u64,
    pub not_started: u64,
}

impl<'t, G: Gate> Stand<'t, G> {
    /// Opens a performance.
    pub fn new(alloc: Global, setup: &'t Setup, gate: &'t G) -> Result<Stand<'t, G>, OutOfMemory>
        ensures { IfOk result (λ stand. IsAt setup.now stand (opening (composition_of setup.now))) }
    {
        let course = Course::of_feet(alloc, Vec::new(alloc))?;
        let turns = Course::of_feet(alloc, Vec::new(alloc))?;
        let head = setup.head();
        let block = head.ksmps as usize * head.nchnls as usize;
        let (life, desk) = open_desk(alloc, setup)?;
        Ok(Stand {
            life,
            gate,
            voices: Vec::new(alloc),
            desk,
            course,
            rows: Rows::new(alloc, block),
            current: false,
            turns,
        })
    }

    /// Begins the notes of a cycle.
    pub fn begin(&mut self, alloc: Global, cycle: u32) -> Result<(), OutOfMemory>
        requires at { (s : SetupData) × (m : Moment) × IsAt s self.old m }
        ensures begun { OnOk result ((s : SetupData) (m : Moment) → IsAt s self.old m
            → IsAt s self.new (begins (composition_of s) cycle m)) }
    {
        let same = begin_notes(
            &mut self.life,
            alloc,
            cycle,
            &mut self.voices,
            &mut self.desk,
        )?;
        self.current = is_still_so(self.current, same);
        Ok(())
    }

    /// Cuts the notes into rows for `workers` workers, and builds the course of the rows, unless both are
    /// still current.
    fn cut_rows(&mut self, alloc: Global, workers: u32) -> Result<(), OutOfMemory>
        requires at { (s : SetupData) × (m : Moment) × IsAt s self.old m }
        requires workers { 1 ≤ workers }
        ensures at { (s : SetupData) (m : Moment) → IsAt s self.old m → IsAt s self.new m }
        ensures rows { OnOk result (InRows self.new) }
    {
        if self.current {
            return Ok(());
        }
        serial_runs_perform();
        self.rows.cut(&self.voices, workers)?;
        let feet = self.rows.feet(alloc, &self.voices)?;
        self.course.follow(alloc, feet)?;
        self.current = true;
        Ok(())
    }

    // Makes everything ready for `workers` workers: the rows and their course, memory for them, and room for
    // their cycle.
    fn make_ready(&mut self, alloc: Global, workers: u32) -> Result<(), OutOfMemory>
        requires at { (s : SetupData) × (m : Moment) × IsAt s self.old m }
        requires workers { 1 ≤ workers }
        ensures at { (s : SetupData) (m : Moment) → IsAt s self.old m → IsAt s self.new m }
        ensures ready { OnOk result (IsReady self.new) }
    {
        self.cut_rows(alloc, workers)?;
        self.rows.take_memory(alloc)?;
        let (rows, edges) = (self.course.graph.len(), self.course.graph.edge_count());
        make_room(alloc, self.life.zones(), &mut self.desk, rows, edges)
    }

    /// Returns whether the crew is to run the cycle: it is offered, several of its notes may run at the same
    /// time, and there is memory to share it. If so, everything is ready, and the crew is unchanged.
    /// Otherwise the caller runs the cycle without the crew, which has counted it. `block` has the length of
    /// the notes' sum.
    pub fn is_shared<R: Wait>(
        &mut self,
        pool: &mut Pool<'_, NoteRow<'t, G>, R, OpenGate>,
        block: &[i64],
    ) -> bool
        requires at { (s : SetupData) × (m : Moment) × IsAt s self.old m }
        ensures at { (s : SetupData) (m : Moment) → IsAt s self.old m → IsAt s self.new m }
        ensures ready { result ≡ true → IsReady self.new }
        ensures offered { result ≡ true → pool.new ≡ pool.old }
        ensures told { result ≡ false → ended pool.new ≡ next_cycle (ended pool.old) }
    {
        let notes = self.voices.len();
        if notes < 2 || !pool.offers(notes.saturating_mul(block.len())) {
            pass(pool);
            return false;
        }
        if self.is_one_chain() {
            miss(pool);
            return false;
        }
        let alloc = *self.voices.allocator();
        match self.make_ready(alloc, pool.workers()) {
            Ok(()) => true,
            Err(OutOfMemory) => {
                miss(pool);
                false
            }
        }
    }

    // Returns whether each note except the first waits for the one before it.
    fn is_one_chain(&self) -> bool
        requires { (s : SetupData) × (m : Moment) × IsAt s self.now m }
    {
        serial_runs_perform();
        is_one_chain(&self.voices)
    }

    /// Runs the notes of the cycle one by one, without the crew, and `tally` counts the cycle by their
    /// receipt. `block` becomes the sum of the notes.
    pub fn run_alone<C: Counter>(&mut self, cycle: u32, tally: &mut C, block: &mut [i64])
        requires at { (s : SetupData) × (m : Moment) × IsAt s self.old m }
        requires block { length block.old ≡ self.old.rows.block }
        requires room { most_notes < C.room tally.old }
        ensures performed { (s : SetupData) (m : Moment) → IsAt s self.old m
            → IsAt s self.new (performed (composition_of s) m) }
        ensures heard { (s : SetupData) (n : ℕ)
            → IsAt s self.old (begins (composition_of s) n (moment_at (composition_of s) n))
            → block.new ≡ mix_in (composition_of s) n }
        ensures counted { CountsOn C.has_counted tally.old tally.new (self.new.voices.items ∷ []) }
        ensures room { C.room tally.old ≤ C.room tally.new + (most_notes + 1) }
    {
        serial_runs_perform();
        voices_are_heard();
        let notes = self.voices.len() as u32;
        let alloc = *self.voices.allocator();
        let voices = mem::replace(&mut self.voices, Vec::new(alloc));
        let receipt = self.desk.run_alone(cycle, notes, voices, self.gate);
        self.voices = tally.count(receipt);
        sum_notes(&self.voices, block);
    }

    /// Runs the notes of the cycle in rows, with the crew, and `tally` counts the cycle by their receipt.
    /// `block` becomes the sum of the notes.
    pub fn run_shared<R: Wait, C: Counter>(
        self,
        pool: &mut Pool<'_, NoteRow<'t, G>, R, OpenGate>,
        cycle: u32,
        tally: &mut C,
        block: &mut [i64],
    ) -> Stand<'t, G>
        requires at { (s : SetupData) × (m : Moment) × IsAt s self m }
        requires ready { IsReady self }
        requires block { length block.old ≡ self.rows.block }
        requires room { most_notes < C.room tally.old }
        ensures performed { (s : SetupData) (m : Moment) → IsAt s self.entry m
            → IsAt s result (performed (composition_of s) m) }
        ensures heard { (s : SetupData) (n : ℕ)
            → IsAt s self.entry (begins (composition_of s) n (moment_at (composition_of s) n))
            → block.new ≡ mix_in (composition_of s) n }
        ensures counted { CountsOn C.has_counted tally.old tally.new (result.voices.items ∷ []) }
        ensures room { C.room tally.old ≤ C.room tally.new + (most_notes + 1) }
    {
        serial_runs_perform();
        voices_are_heard();
        row_laws::<Voice<'t>>();
        let mut stand = self;
        let mut voices = stand.voices;
        let mut rows = stand.rows;
        let Course { graph, feet } = stand.course;
        let filled = rows.fill(&mut voices, stand.gate, cycle);
        let (receipt, desk, graph) = by_crew(pool, cycle, graph, stand.desk, filled);
        sum_rows(receipt.jobs(), block);
        stand.voices = tally.count(receipt.unrow(voices, &mut rows));
        stand.rows = rows;
        stand.desk = desk;
        stand.course = Course { graph, feet };
        stand
    }

    /// Removes the notes that were turned off.
    pub fn end(&mut self)
        requires at { (s : SetupData) × (m : Moment) × IsAt s self.old m }
        ensures ended { (s : SetupData) (m : Moment) → IsAt s self.old m → IsAt s self.new (turned_off m) }
    {
        let playing = self.voices.len();
        self.life.end_cycle(&mut self.voices);
        let stayed = self.voices.len();
        self.current = is_still_so(self.current, stayed == playing);
    }
}

// Reports to the crew that the caller ran one more cycle without it. A performance relies only on the count.
fn pass<J: Job + Drop, R: Wait, G: Gate>(pool: &mut Pool<'_, J, R, G>)
    ensures { ended pool.new ≡ next_cycle (ended pool.old) }
{
    pool.pass();
}

// Reports to the crew that the caller ran a cycle without it that was offered.
fn miss<J: Job + Drop, R: Wait, G: Gate>(pool: &mut Pool<'_, J, R, G>)
    ensures { ended pool.new ≡ next_cycle (ended pool.old) }
{
    pool.miss();
}

// Runs the jobs of a cycle with the crew: `Pool::cycle`, as far as a performance relies on its contract.
fn by_crew<J: Job + Drop, R: Wait, G: Gate>(
    pool: &mut Pool<'_, J, R, G>,
    cycle: u32,
    graph: Arc<Graph, Global>,
    desk: Desk<J>,
    jobs: Vec<J>,
) -> (Receipt<J>, Desk<J>, Arc<Graph, Global>)
    requires { IsCycle J.means graph.value desk jobs.items }
    ensures played { WasPlayed J.means desk jobs.items result.0 result.1 }
    ensures graph { result.2.value ≡ graph.value }
{
    pool.cycle(cycle, graph, desk, jobs)
}

/// Returns whether something that was true before is still true.
fn is_still_so(before: bool, now: bool) -> bool
    ensures { result ≡ true → (before ≡ true) × (now ≡ true) }
{
    before && now
}

/// Writes the sum of notes of one shape into the block.
fn sum_notes(voices: &[Voice<'_>], block: &mut [i64])
    requires few { length voices.now ≤ most_notes }
    requires long { (frames : ℕ) × (channels : ℕ) × All (λ (v : VoiceData). shape v ≡ (frames, channels)) voices.now
        × (length block.old ≡ frames * channels) }
    ensures { block.new ≡ sums gives (length block.old) voices.now }
{
    if voices.is_empty() {
        block.fill(0);
        return;
    }
    Voice::sum(voices, block);
}

/// Opens a performance: makes its life on the cells of a desk for any kind of job.
fn open_desk<'t, J: Job + Drop>(
    alloc: Global,
    setup: &'t Setup,
) -> Result<(Life<'t>, Desk<J>), OutOfMemory>
    ensures stands { IfOk result (λ o. StandsFor (composition_of setup.now) o.0 [] (cells o.1)
        (opening (composition_of setup.now))) }
    ensures setup { IfOk result (λ o. o.0.setup.now ≡ setup.now) }
    ensures areas { IfOk result (λ o. areas o.1 ≡ setup.now.zones) }
{
    // The zones have as many cells as the layout.
    setup.facts();
    let mut desk = first_desk(alloc, setup.zones())?;
    let life = Life::new(alloc, setup, &mut desk)?;
    Ok((life, desk))
}

/// Begins the notes of a cycle on the cells of a desk. Returns whether the same notes play as before.
fn begin_notes<'t, J: Job>(
    life: &mut Life<'t>,
    alloc: Global,
    cycle: u32,
    voices: &mut Vec<Voice<'t>>,
    desk: &mut Desk<J>,
) -> Result<bool, OutOfMemory>
    requires stands { (m : Moment) × StandsFor (composition_of life.old.setup.now) life.old voices.old.items
        (cells desk.old) m }
    requires words { word_count life.old.setup.now.layout ≡ word_count (areas desk.old) }
    ensures begun { OnOk result ((m : Moment) → StandsFor
        (composition_of life.old.setup.now) life.old voices.old.items (cells desk.old) m
        → StandsFor (composition_of life.old.setup.now) life.new voices.new.items (cells desk.new)
        (begins (composition_of life.old.setup.now) cycle m)) }
    ensures same { IfOk result (λ stay. stay ≡ true → voices.new.items ≡ voices.old.items) }
    ensures setup { life.new.setup.now ≡ life.old.setup.now }
    ensures areas { areas desk.new ≡ areas desk.old }
{
    life.begin_cycle(alloc, cycle, voices, desk)
}

/// Returns a desk whose cells are all 0.
fn first_desk<J: Job>(alloc: Global, layout: &Layout) -> Result<Desk<J>, OutOfMemory>
    ensures areas { IfOk result (λ d. areas d ≡ layout.now) }
    ensures cells { IfOk result (λ d. cells d ≡ replicate (word_count layout.now) (pos 0)) }
{
    let words = vec![in alloc; 0u64; layout.words() as usize]?;
    Desk::new(alloc, layout, &words, FIRST_NOTES, FIRST_EDGES)
}
