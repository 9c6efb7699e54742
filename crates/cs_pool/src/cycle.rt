// One control cycle.
ghost use Rattle.std.specs.Prelude.{◌≡◌, ◌<◌, ◌≤◌, ◌+◌, ◌-◌, ◌⊎◌, ◌↔◌, ℕ, suc, length, min, All, true, false};
ghost use Rattle.std.specs.{Arc.arc_value, Int.from_bool};
ghost use Rattle.cs_board.specs.{Board.plan, Board.name, Board.view, Board.IsSeatOf, Views.opening_view};
ghost use Rattle.cs_desk.specs.Cycles.{IsCycle, WasPlayed};
ghost use Rattle.cs_pool.specs.{Working.IsReady, Working.IsDone, Numbered.IsFirst};
ghost use Rattle.cs_pool.specs.inner.{Lines.IsIdle, Lines.IsAway, Lines.Lends, Parts.AreLent};
ghost use Rattle.cs_pool.specs.Mailboxes.{given, served};
ghost use Rattle.cs_graph.specs.Cover.{HasCover};
ghost use Rattle.cs_pool.specs.Alone.{few_values};
ghost use Rattle.cs_pool.specs.Pools.{helpers, ended, next_cycle, cycles_alone, has_shared, tasks_served, served_by};
ghost use Rattle.cs_pool.specs.Pools.{tasks_given, given_to, GivesParts, IsShared, HasMissed, Learns};

use crate::letter::Task;
use crate::line::Line;
use crate::mailbox::Returned;
use crate::pool::Pool;
use crate::worker::work;
use cs_board::{Board, BoardSeat, Patience};
use cs_cells::{Job, serial_laws};
use cs_desk::{Desk, Receipt};
use cs_edge::Gate;
use cs_graph::Graph;
use std::alloc::Global;
use std::sync::{Arc, Wait};
use std::thread;

/// How long the caller looks for a note if it finds none to claim and notes wait, before it asks for the
/// seats that are out.
const PATIENCE: Patience = Patience {
    looks: 1_000,
    brisk: 100,
};

/// The lowest number of times that a helper which finds a task looks whether the task is still there before
/// it takes it; a few tens of microseconds in total. If the caller has played the cycle by then, it isn't
/// shared at all: moving notes and cells between processors would cost more than such a cycle takes.
const HESITATION: u32 = 32_000;

/// The number of looks for each note of the cycle, about 0.9 microseconds in total: the cost of sharing is
/// proportional to the number of notes.
const LOOKS_A_NOTE: u32 = 800;

/// The number of looks for each edge, about 3.5 microseconds in total: a note that waits for another finds
/// its words, and the cells that it wrote, in the cache of another processor.
const LOOKS_AN_EDGE: u32 = 3_200;

// The number of values, one for each note, channel and frame, below which the caller runs a cycle without
// helpers once a cycle was shared. For example, no helper comes in time for a cycle of 16 light stereo voices
// and 10 frames.
const FEW_VALUES: usize = 512;

impl<'e, J: Job + Drop, R: Wait, G: Gate> Pool<'e, J, R, G> {
    /// Runs the notes of one control cycle, and returns a receipt with their jobs, the desk, and the graph,
    /// as if the notes had run one by one in serial order on the desk's cells.
    ///
    /// `graph` is the graph of the jobs, which are in serial order. It can be reused for each cycle until the
    /// set of active notes changes. Each job has the desk's layout, and the desk has room for the cycle. The
    /// caller works too, so as many helpers get a part as further notes can run at the same time, or all
    /// helpers; if none is to get one the caller runs the notes without a board. The gate is called with
    /// `cycle` and the note's index before each note is run. The call can't fail: if there is no memory for
    /// the parts of further helpers, the caller and the helpers with a part run all notes.
    pub fn cycle(
        &mut self,
        cycle: u32,
        graph: Arc<Graph, Global>,
        desk: Desk<J>,
        jobs: Vec<J>,
    ) -> (Receipt<J>, Desk<J>, Arc<Graph, Global>)
        requires { IsCycle J.means graph.value desk jobs.items }
        ensures played { WasPlayed J.means desk jobs.items result.0 result.1 }
        ensures graph { result.2.value ≡ graph.value }
        ensures ended { ended self.new ≡ next_cycle (ended self.old) }
        ensures helpers { helpers self.new ≡ helpers self.old }
        ensures shared { IsShared graph.value.edges (length graph.value.levels) self.old self.new }
        // Which of the next cycles are offered.
        ensures learned { Learns self.old self.new }
    {
        let others = self.wanted(&graph);
        serial_laws::<J>();
        self.ended = self.ended.saturating_add(1);
        if others == 0 {
            self.starved = false;
            self.sparing.learn(false);
            let mut desk = desk;
            let receipt = desk.run_alone(cycle, graph.len(), jobs, self.gate);
            return (receipt, desk, graph);
        }
        self.has_shared = true;
        let hesitation = hesitation_of(&graph);
        let (board, first) = desk.open(graph, jobs);
        let (board, first) = self.play(board, first, others, cycle, hesitation);
        Desk::rest(board, first)
    }

    /// Returns whether the next cycle is offered to the helpers. There must be a helper, and the caller must
    /// not be running cycles without helpers: after each offered cycle that no helper began before the caller
    /// was done, it runs the next 1, 2, 4 and so on up to 128 cycles without offering them, and none after a
    /// cycle that a helper began (`cycle`). Once the crew has played a cycle in which two workers were
    /// useful, the notes must also produce at least 512 `values`, one for each note, channel and frame;
    /// before that a cycle of any size is offered. A cycle that isn't offered needs no graph of its notes:
    /// the caller runs them (`Desk::run_alone`) and calls `pass`.
    pub fn offers(&self, values: usize) -> bool
        ensures { (result ≡ true)
            ↔ (((few_values ≤ values) ⊎ (has_shared self.now ≡ false)) × (0 < helpers self.now)
            × (cycles_alone self.now ≡ 0)) }
    {
        let is_large = values >= FEW_VALUES || !self.has_shared;
        is_large && !self.lines.is_empty() && self.sparing.alone == 0
    }

    /// Returns the number of its workers, including the caller.
    pub fn workers(&self) -> u32
        ensures { result ≡ helpers self.now + 1 }
    {
        self.lines.len() as u32 + 1
    }

    /// Records that the caller ran an offered cycle without helpers, because its notes wait for one another
    /// or memory for sharing it ran out. It counts as a cycle that no helper began.
    pub fn miss(&mut self)
        ensures ended { ended self.new ≡ next_cycle (ended self.old) }
        ensures helpers { helpers self.new ≡ helpers self.old }
        ensures shared { has_shared self.new ≡ has_shared self.old }
        ensures given { tasks_given self.new ≡ tasks_given self.old }
        ensures served { tasks_served self.new ≡ tasks_served self.old }
        ensures learned { Learns self.old self.new }
    {
        self.ended = self.ended.saturating_add(1);
        self.sparing.learn(false);
    }

    /// Records that the caller ran one more cycle without helpers.
    pub fn pass(&mut self)
        ensures ended { ended self.new ≡ next_cycle (ended self.old) }
        ensures helpers { helpers self.new ≡ helpers self.old }
        ensures shared { has_shared self.new ≡ has_shared self.old }
        ensures given { tasks_given self.new ≡ tasks_given self.old }
        ensures served { tasks_served self.new ≡ tasks_served self.old }
        ensures alone { cycles_alone self.new ≡ cycles_alone self.old - 1 }
        ensures missed { (misses : ℕ) → HasMissed misses self.old → HasMissed misses self.new }
    {
        self.ended = self.ended.saturating_add(1);
        self.sparing.pass();
    }

    /// Returns how many helpers are to get a part in a cycle with this graph.
    fn wanted(&self, graph: &Graph) -> usize
        ensures { (chains : ℕ) × HasCover graph.now.edges (length graph.now.levels) chains
            × (result ≡ min (chains - 1) (helpers self.now)) }
    {
        let chains = graph.useful_workers();
        parts_of(chains, self.lines.len())
    }

    /// Plays the cycle on its board, with the caller and `others` helpers, each of which looks `hesitation`
    /// times before it begins. Returns the board, of which no other thread has a share any more, and the
    /// first seat.
    fn play(
        &mut self,
        board: Board<J>,
        mut first: BoardSeat<J>,
        others: usize,
        cycle: u32,
        hesitation: u32,
    ) -> (Board<J>, BoardSeat<J>)
        requires few { others ≤ helpers self.old }
        requires first { IsSeatOf J.means (plan board) (name board) first }
        requires opening { view first ≡ opening_view (plan board) }
        ensures board { result.0 ≡ board }
        ensures done { IsDone J.means board result.1 }
        ensures alone { IsFirst 0 (view result.1) }
        ensures ended { ended self.new ≡ ended self.old }
        ensures helpers { helpers self.new ≡ helpers self.old }
        ensures shared { has_shared self.new ≡ has_shared self.old }
        ensures parts { GivesParts others self.old self.new }
        ensures learned { Learns self.old self.new }
    {
        match Arc::new(self.alloc, board) {
            Ok(board) => {
                let shift = Shift {
                    rt: self.rt,
                    gate: self.gate,
                    alloc: self.alloc,
                    cycle,
                    hesitation,
                };
                let lines = self.lines.as_mut_slice();
                let shared = share(&shift, lines, others, &board, &mut first);
                self.starved = shared.refused;
                self.sparing.learn(shared.begun);
                (sole(self.rt, board), first)
            }
            Err(refused) => {
                let board = refused.value;
                work(self.rt, &board, &mut first, cycle, self.gate, PATIENCE);
                self.starved = true;
                self.sparing.learn(false);
                (board, first)
            }
        }
    }
}

/// Returns how many of `helpers` helpers are useful in addition to the caller, if at most `chains` notes can
/// run at the same time.
fn parts_of(chains: u32, helpers: usize) -> usize
    ensures { result ≡ min (chains - 1) helpers }
{
    (chains.saturating_sub(1) as usize).min(helpers)
}

/// Returns how often a helper looks before it takes part in a cycle with this graph.
fn hesitation_of(graph: &Graph) -> u32 {
    let notes = graph.len().saturating_mul(LOOKS_A_NOTE);
    let edges = graph.edge_count().saturating_mul(LOOKS_AN_EDGE);
    notes.saturating_add(edges).max(HESITATION)
}

/// What each worker of a cycle works with, the allocator for helpers' parts, and how often a helper looks
/// before it begins.
#[derive(Drop)]
struct Shift<'a, R, G> {
    rt: &'a R,
    gate: &'a G,
    alloc: Global,
    cycle: u32,
    hesitation: u32,
}

/// The outcome of the helpers' parts in a cycle.
#[derive(Clone, Copy)]
struct Shared {
    /// Whether a helper had begun its part before the caller asked for it back.
    begun: bool,
    /// Whether memory for a part ran out.
    refused: bool,
}

/// Lets the caller and `others` helpers work at the board; each helper gets a seat and gives it back. If
/// memory for a part runs out, no further helper gets one.
fn share<J: Job + Drop, R: Wait, G: Gate>(
    shift: &Shift<'_, R, G>,
    lines: &mut [Line<J>],
    others: usize,
    board: &Arc<Board<J>, Global>,
    first: &mut BoardSeat<J>,
) -> Shared
    requires idle { All (λ line. IsIdle line) lines.old }
    requires ready { IsReady J.means (arc_value board.now) first.old }
    requires leads { IsFirst (view first.old).made (view first.old) }
    requires few { others ≤ length lines.old }
    ensures idle { All (λ line. IsIdle line) lines.new }
    ensures done { IsDone J.means (arc_value board.now) first.new }
    ensures leads { IsFirst (view first.old).made (view first.new) }
    ensures begun { result.begun ≡ true → served_by lines.old < served_by lines.new }
    ensures missed { result.begun ≡ false → served_by lines.new ≡ served_by lines.old }
    ensures most { given_to lines.new ≤ given_to lines.old + others }
    ensures all { result.refused ≡ false → given_to lines.new ≡ given_to lines.old + others }
{
    let parts = lend_parts(shift, lines, others, board, first);
    work(shift.rt, board, first, shift.cycle, shift.gate, PATIENCE);
    let mut begun = false;
    let mut left = parts;
    while left > 0 {
        left -= 1;
        let one_began = take_in(shift.rt, &mut lines[left], board, first);
        begun = begun | one_began;
    }
    Shared {
        begun,
        refused: parts < others,
    }
}

/// Gives up to `others` helpers, one after another, a part in the cycle, as long as there is memory for their
/// parts. Returns how many got one.
fn lend_parts<J: Job + Drop, R: Wait, G: Gate>(
    shift: &Shift<'_, R, G>,
    lines: &mut [Line<J>],
    others: usize,
    board: &Arc<Board<J>, Global>,
    first: &mut BoardSeat<J>,
) -> usize
    requires idle { All (λ line. IsIdle line) lines.old }
    requires ready { IsReady J.means (arc_value board.now) first.old }
    requires leads { IsFirst (view first.old).made (view first.old) }
    requires few { others ≤ length lines.old }
    ensures few { result ≤ others }
    ensures lent { AreLent J.means (arc_value board.now) result lines.old lines.new first.old first.new }
{
    for part in 0..others {
        if !lend(shift, &mut lines[part], board, first) {
            return part;
        }
    }
    others
}

/// Gives the helper a part in the cycle: a share of the board, and a seat that is split off `first`. Returns
/// whether it got one; it doesn't if memory for it runs out.
fn lend<J: Job + Drop, R: Wait, G: Gate>(
    shift: &Shift<'_, R, G>,
    line: &mut Line<J>,
    board: &Arc<Board<J>, Global>,
    first: &mut BoardSeat<J>,
) -> bool
    requires idle { IsIdle line.old }
    requires ready { IsReady J.means (arc_value board.now) first.old }
    requires leads { IsFirst (view first.old).made (view first.old) }
    ensures { Lends J.means (arc_value board.now) (from_bool result) line.old line.new first.old first.new }
{
    let Ok((part, member)) = line.part_in(shift.alloc, board) else {
        return false;
    };
    let seat = board.split(first);
    let task = Task {
        board: part,
        seat,
        cycle: shift.cycle,
        member,
    };
    line.give(task, shift.hesitation);
    true
}

/// Joins the helper's seat into `first`, after the helper's work. Returns whether the helper had begun.
fn take_in<J: Job + Drop, R: Wait>(
    rt: &R,
    line: &mut Line<J>,
    board: &Arc<Board<J>, Global>,
    first: &mut BoardSeat<J>,
) -> bool
    requires away { (n : ℕ) × IsAway (arc_value board.now) line.old n }
    requires done { IsDone J.means (arc_value board.now) first.old }
    requires first { (view first.old).first ≡ true }
    ensures idle { IsIdle line.new }
    ensures done { IsDone J.means (arc_value board.now) first.new }
    ensures leads { (n : ℕ) → IsAway (arc_value board.now) line.old n → IsFirst (suc n) (view first.old)
        → IsFirst n (view first.new) }
    ensures served { served line.new.end ≡ served line.old.end + from_bool result }
    ensures given { given line.new.end ≡ given line.old.end }
{
    let Returned { seat, begun } = line.await_seat(rt);
    board.join(first, seat);
    begun
}

/// Returns the board once no other thread has a share of it. Each helper drops its share before it gives its
/// seat back, so there is nothing to wait for.
fn sole<J: Job, R: Wait>(rt: &R, board: Arc<Board<J>, Global>) -> Board<J>
    ensures { result ≡ arc_value board }
{
    let mut shared = board;
    for _ in rt.forever() {
        match Arc::try_unwrap(shared) {
            Ok(board) => return board,
            Err(board) => shared = board,
        }
        thread::yield_now();
    }
    unreachable!()
}
