// The start of a cycle.
ghost use Rattle.std.specs.{Option.ForSome, Vec.vec_capacity};
ghost use Rattle.std.specs.Prelude.{◌≡◌, ◌+◌, ◌*◌, ◌<◌, ◌≤◌, ◌^◌, [], Some, length, slice_get};
ghost use Rattle.cs_board.specs.Resting.{IsSole, IsLaying, areas_in, known_in};
ghost use Rattle.cs_desk.specs.{Kept.cells_now, inner.Resting.plan_over};
ghost use Rattle.cs_desk.specs.inner.Tables.{layout_of, cells_in, slots_in, words_in, HasSpace, plan_at};
ghost use Rattle.cs_cells.specs.{Areas.word_count, Serial.AllValid};
ghost use Rattle.cs_board.specs.{Plans.IsPlan, Opening.first_status, Opening.first_watch};
ghost use Rattle.cs_board.specs.Views.{with_word, with_home, opening_view};
ghost use Rattle.cs_board.specs.declared.view.Berth.TheVariants.{Vacant, Full};

use crate::desk::Desk;
use crate::plain::fill;
use crate::resting::{RestingTable, lay, swap};
use cs_base::Num;
use cs_board::{AVAILABLE, Berth, Berths, Board, BoardSeat, IDLE, Sitting, WAITING, WATCHED};
use cs_cells::Job;
use cs_graph::Graph;
use std::alloc::Global;
use std::sync::Arc;

impl<J: Job> Desk<J> {
    ghost use Rattle.cs_board.specs.Board.{plan, name, view, graph_of, IsSeatOf};
    ghost use Rattle.cs_desk.specs.{Cycles.IsCycle, Desk.note_room, Desk.word_room, Desk.plan_from};

    /// Returns the board of a cycle and its first seat. The cost is proportional to the cycle's notes and
    /// edges, plus the cells if they were in plain memory. `graph` is the graph of the jobs' footprints, and
    /// each job has the desk's layout. It allocates nothing, so it can't fail.
    pub fn open(self, graph: Arc<Graph, Global>, jobs: Vec<J>) -> (Board<J>, BoardSeat<J>)
        requires { IsCycle J.means graph.value self jobs.items }
        ensures plan { plan result.0 ≡ plan_from self graph.value jobs.items }
        ensures seat { IsSeatOf J.means (plan result.0) (name result.0) result.1 }
        ensures view { view result.1 ≡ opening_view (plan result.0) }
        ensures graph { graph_of result.0 ≡ graph.value }
        ensures room { ((name result.0).slots ≡ note_room self) × ((name result.0).words ≡ word_room self) }
    {
        hear(&jobs);
        let _ = graph.edges();
        let Desk {
            resting,
            plain,
            alone: _,
        } = self;
        let resting = settled(resting, plain);
        resting.begin(graph, jobs)
    }
}

// Returns the table with the cells in its words, after copying them from plain memory if they are there.
fn settled<J: Job>(resting: RestingTable<J>, plain: Option<Vec<Num>>) -> RestingTable<J>
    requires { ForSome plain (λ numbers. length numbers.items ≡ word_count (layout_of resting)) }
    ensures cells { cells_in result ≡ cells_now plain (cells_in resting) }
    ensures areas { layout_of result ≡ layout_of resting }
    ensures room { (slots_in result ≡ slots_in resting) × (words_in result ≡ words_in resting) }
{
    let mut resting = resting;
    if let Some(numbers) = plain {
        let count = resting.cells;
        fill(&mut resting, &numbers, count);
    }
    resting
}

impl<J: Job> RestingTable<J> {
    ghost use Rattle.cs_board.specs.Board.{plan, name, view, graph_of, IsSeatOf};

    // Returns the board of a cycle whose plan fits, and its first seat.
    fn begin(self, graph: Arc<Graph, Global>, jobs: Vec<J>) -> (Board<J>, BoardSeat<J>)
        requires notes { length graph.value.levels ≡ length jobs.items }
        requires whole { IsPlan J.means (plan_at self graph.value jobs.items) }
        requires room { HasSpace self (length jobs.items) (length graph.value.edges) }
        ensures plan { plan result.0 ≡ plan_at self graph.value jobs.items }
        ensures seat { IsSeatOf J.means (plan result.0) (name result.0) result.1 }
        ensures view { view result.1 ≡ opening_view (plan result.0) }
        ensures graph { graph_of result.0 ≡ graph.value }
        ensures room { ((name result.0).slots ≡ slots_in self) × ((name result.0).words ≡ words_in self) }
    {
        let RestingTable {
            table,
            mut seat,
            areas,
            cells,
        } = self;
        let first = 1 + cells as usize + areas as usize;
        let room = lay_cycle(&table, &mut seat, first, &graph, jobs);
        Board::begin(table, seat, graph, areas, cells, room)
    }
}

// Lays the words of the cycle, and the jobs into their slots; the word of the first status has number
// `first`. Returns the emptied vector of the jobs.
fn lay_cycle<J: Job>(
    table: &Berths<J>,
    seat: &mut Sitting<J>,
    first: usize,
    graph: &Graph,
    mut jobs: Vec<J>,
) -> Vec<J>
    requires sole { IsSole table.now.shared.table_id seat.old }
    requires notes { length graph.now.levels ≡ length jobs.items }
    requires laying { IsLaying (plan_over (areas_in seat.old) (known_in seat.old) graph.now jobs.items)
        (length jobs.items) 0 (known_in seat.old) }
    requires first { first ≡ 1 + (word_count (areas_in seat.old) + length (areas_in seat.old)) }
    requires small { first ≤ 2 ^ 40 }
    requires words { first + (2 * length jobs.items + length graph.now.edges) ≤ table.now.shared.table_id.words }
    requires slots { length jobs.items ≤ table.now.shared.table_id.words }
    requires cells { word_count (areas_in seat.old)
        ≡ length (plan_over (areas_in seat.old) (known_in seat.old) graph.now jobs.items).cells }
    ensures room { (result.items ≡ []) × (length jobs.items ≤ vec_capacity result) }
    ensures sole { IsSole table.now.shared.table_id seat.new }
    ensures areas { areas_in seat.new ≡ areas_in seat.old }
    ensures laid { IsLaying (plan_over (areas_in seat.old) (known_in seat.old) graph.now jobs.items)
        0 (length graph.now.edges) (known_in seat.new) }
{
    let notes = graph.len();
    for edge in 0..graph.edge_count() {
        let word = first + 2 * notes as usize + edge as usize;
        lay(table, seat, word, opening_watch(graph, edge));
    }
    while let Some(job) = jobs.pop() {
        let note = jobs.len() as u32;
        lay_note(table, seat, first, graph, note, job);
    }
    jobs
}

// Lays a note's first status and its own turn word, and its job into its slot.
fn lay_note<J: Job>(
    table: &Berths<J>,
    seat: &mut Sitting<J>,
    first: usize,
    graph: &Graph,
    note: u32,
    job: J,
)
    requires sole { IsSole table.now.shared.table_id seat.old }
    requires vacant { slice_get (known_in seat.old).homes note ≡ Some (Some Vacant) }
    requires words { first + (2 * length graph.now.levels) ≤ table.now.shared.table_id.words }
    requires small { first ≤ 2 ^ 40 }
    requires note { note < length graph.now.levels }
    ensures sole { IsSole table.now.shared.table_id seat.new }
    ensures areas { areas_in seat.new ≡ areas_in seat.old }
    ensures known { known_in seat.new
        ≡ with_word (with_word (with_home (known_in seat.old) note (Some (Full job))) (first + note)
        (first_status graph.now.edges note)) (first + (length graph.now.levels + note)) 0 }
{
    put_job(table, seat, note, job);
    lay(
        table,
        seat,
        first + note as usize,
        opening_status(graph, note),
    );
    lay(table, seat, first + graph.len() as usize + note as usize, 0);
}

// Puts a job into its slot while the board rests.
fn put_job<J: Job>(table: &Berths<J>, seat: &mut Sitting<J>, note: u32, job: J)
    requires sole { IsSole table.now.shared.table_id seat.old }
    requires vacant { slice_get (known_in seat.old).homes note ≡ Some (Some Vacant) }
    requires word { note < table.now.shared.table_id.words }
    ensures sole { IsSole table.now.shared.table_id seat.new }
    ensures areas { areas_in seat.new ≡ areas_in seat.old }
    ensures known { known_in seat.new ≡ with_home (known_in seat.old) note (Some (Full job)) }
{
    let held = swap(table, seat, note, Berth::Full(job));
    let Berth::Vacant = held else { unreachable!() };
}

// Returns Available for a note that waits for none, and otherwise Waiting.
fn opening_status(graph: &Graph, note: u32) -> u64
    requires { note < length graph.now.levels }
    ensures { result ≡ first_status graph.now.edges note }
{
    let into = graph.in_edges(note);
    if into.start < into.end {
        WAITING
    } else {
        AVAILABLE
    }
}

// Returns Watched for the first edge into a note, and otherwise Idle.
fn opening_watch(graph: &Graph, edge: u32) -> u64
    requires { edge < length graph.now.edges }
    ensures { result ≡ first_watch graph.now.edges edge }
{
    let (_, note) = graph.ends(edge);
    let into = graph.in_edges(note);
    if into.start == edge { WATCHED } else { IDLE }
}

// For the prover: it does nothing as it runs. Each job that code holds is valid.
fn hear<J: Job>(jobs: &[J])
    ensures { AllValid J.means jobs.now }
{
    for job in jobs {
        let _ = job.footprint();
    }
}
