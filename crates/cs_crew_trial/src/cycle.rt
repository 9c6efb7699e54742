// A desk with the graph of marked jobs, and a cycle of them with a separate crew.
ghost use Rattle.std.specs.Prelude.{◌≡◌, ◌≤◌, length, map, All, IfSome};
ghost use Rattle.cs_base.specs.Limits.{most_notes};
ghost use Rattle.cs_board.specs.{Board.IsSeatOf, Board.name, Board.plan, Board.view, Views.opening_view};
ghost use Rattle.cs_cells.specs.Areas.{IsFootprint};
ghost use Rattle.cs_desk.specs.{Cycles.AreOver, Desk.HasRoom, Desk.areas};
ghost use Rattle.cs_graph.specs.Graph.{IsFit};
ghost use Rattle.cs_crew_trial.specs.Marks.{IsOver};

use crate::marked::{areas, jobs_of};
use crate::watch::{Seen, Watch};
use cs_base::{MOST_NOTES, Num};
use cs_board::{Board, BoardSeat};
use cs_cells::{Bank, Job, Layout, PlainBank};
use cs_desk::{Desk, Tally, feet_of};
use cs_edge::Gate;
use cs_graph::Graph;
use cs_pool::{Crew, run_cycle};
use std::alloc::{AllocError, Global};
use std::sync::atomic::AtomicU64;
use std::sync::{Arc, Wait};
use std::thread::Threads;

/// Returns a mark for each of `notes` notes, none of them set.
pub fn marks_of(alloc: Global, notes: usize) -> Result<Vec<AtomicU64>, AllocError> {
    let mut marks = Vec::new(alloc);
    for _ in 0..notes {
        marks.push(AtomicU64::new(0))?;
    }
    Ok(marks)
}

/// Returns the layout of marked jobs, or None if memory runs out.
pub fn layout(alloc: Global) -> Option<Layout>
    ensures { IfSome result (λ layout. length layout ≡ 6) }
{
    let Ok(areas) = areas(alloc) else {
        return None;
    };
    let Ok(layout) = Layout::build(alloc, areas.as_slice()) else {
        return None;
    };
    Some(layout)
}

// Returns the graph of these jobs, or None if memory runs out.
fn graph_of<J: Job>(alloc: Global, jobs: &[J]) -> Option<Graph>
    requires { length jobs.now ≤ most_notes }
    ensures notes { IfSome result (λ g. length g.levels ≡ length jobs.now) }
    ensures fit { IfSome result (λ g. IsFit (map J.means.foot jobs.now) g.edges) }
{
    let Ok(feet) = feet_of(alloc, jobs) else {
        return None;
    };
    match Graph::of_feet(alloc, &feet) {
        Ok(graph) => Some(graph),
        Err(_) => None,
    }
}

// Returns a desk with the layout of these jobs, where each cell has this number, and their graph, or None if
// memory runs out.
fn desk_for<J: Job + Drop>(
    alloc: Global,
    layout: &Layout,
    number: u64,
    jobs: &[J],
) -> Option<(Desk<J>, Arc<Graph, Global>)>
    requires few { length jobs.now ≤ most_notes }
    requires over { All (IsOver J.means layout.now) jobs.now }
    ensures notes { IfSome result (λ d. length d.1.value.levels ≡ length jobs.now) }
    ensures fit { IfSome result (λ d. IsFit (map J.means.foot jobs.now) d.1.value.edges) }
    ensures areas { IfSome result (λ d. areas d.0 ≡ layout.now) }
    ensures over { IfSome result (λ d. AreOver J.means d.0 jobs.now) }
    ensures footprints { IfSome result (λ d. All (λ j. IsFootprint (length (areas d.0)) (J.means.foot j)) jobs.now) }
    ensures room { IfSome result (λ d. HasRoom d.0 (length jobs.now) (length d.1.value.edges)) }
{
    let Ok(words) = vec![in alloc; number; layout.words() as usize] else {
        return None;
    };
    let Some(graph) = graph_of(alloc, jobs) else {
        return None;
    };
    let (notes, edges) = (graph.len(), graph.edge_count());
    let Ok(graph) = Arc::new(alloc, graph) else {
        return None;
    };
    match Desk::new(alloc, layout, &words, notes, edges) {
        Ok(desk) => Some((desk, graph)),
        Err(_) => None,
    }
}

/// Returns a board of these jobs, where each cell has this number, and its first seat, or None if memory runs out.
pub fn opened<J: Job + Drop>(
    alloc: Global,
    layout: &Layout,
    number: u64,
    jobs: Vec<J>,
) -> Option<(Board<J>, BoardSeat<J>)>
    requires few { length jobs.items ≤ most_notes }
    requires over { All (IsOver J.means layout.now) jobs.items }
    ensures seat { IfSome result (λ b. IsSeatOf J.means (plan b.0) (name b.0) b.1) }
    ensures view { IfSome result (λ b. view b.1 ≡ opening_view (plan b.0)) }
    ensures areas { IfSome result (λ b. (plan b.0).areas ≡ layout.now) }
{
    let Some((desk, graph)) = desk_for(alloc, layout, number, &jobs) else {
        return None;
    };
    Some(desk.open(graph, jobs))
}

// Runs one cycle of these jobs, and returns the number of jobs in its receipt, or None if memory runs out.
fn run_once<J: Job + Send + Drop, R: Threads + Wait + Sync, G: Gate + Sync>(
    alloc: Global,
    crew: &Crew<'_, R, G>,
    layout: &Layout,
    jobs: Vec<J>,
) -> Option<u64>
    requires few { length jobs.items ≤ most_notes }
    requires over { All (IsOver J.means layout.now) jobs.items }
{
    let Some((desk, graph)) = desk_for(alloc, layout, 0, &jobs) else {
        return None;
    };
    let (receipt, _, _) = run_cycle(crew, alloc, 0, graph, desk, jobs);
    let mut tally = Tally::new();
    tally.add(receipt);
    Some(tally.notes())
}

/// Returns whether a number that was stored in plain memory is there, or None if memory runs out.
pub fn in_plain_memory(alloc: Global) -> Option<bool> {
    let Ok(mut words) = vec![in alloc; 0u64; 1] else {
        return None;
    };
    let mut bank = PlainBank::new(&mut words);
    bank.set(0, Num::of_raw(7));
    Some(bank.get(0).raw() == 7)
}

// Runs one cycle of a job for each of `marks`, which share no resource, and returns the number of jobs in
// its receipt. Returns None if memory runs out, or if there are more jobs than notes may be active.
fn run_marked<R: Threads + Wait + Sync, G: Gate + Sync>(
    alloc: Global,
    crew: &Crew<'_, R, G>,
    marks: &[AtomicU64],
) -> Option<u64> {
    if marks.len() > MOST_NOTES {
        return None;
    }
    let Some(layout) = layout(alloc) else {
        return None;
    };
    run_over(alloc, crew, &layout, marks)
}

// Does the same with this layout.
fn run_over<R: Threads + Wait + Sync, G: Gate + Sync>(
    alloc: Global,
    crew: &Crew<'_, R, G>,
    layout: &Layout,
    marks: &[AtomicU64],
) -> Option<u64>
    requires laid { length layout.now ≡ 6 }
    requires few { length marks.now ≤ most_notes }
{
    let clock = AtomicU64::new(0);
    let Ok(jobs) = jobs_of(alloc, layout, &[], marks, &clock) else {
        return None;
    };
    run_once(alloc, crew, layout, jobs)
}

/// Returns what is seen of one cycle of `jobs` jobs with `workers` workers, at a gate that holds each job
/// until `held` jobs have come. The crew isn't limited to the number of processors, so the result is the same
/// on any machine. Returns None if memory runs out, or if there are more jobs than notes may be active.
pub fn by_a_crew<R: Threads + Wait + Sync>(
    rt: &R,
    alloc: Global,
    workers: u32,
    jobs: u32,
    held: u64,
) -> Option<Seen>
    requires { (1 ≤ workers) × (workers ≤ 32) }
{
    let Ok(marks) = marks_of(alloc, jobs as usize) else {
        return None;
    };
    let watch = Watch::new(&marks, held);
    let crew = Crew::new(rt, workers, &watch);
    match run_marked(alloc, &crew, &marks) {
        Some(jobs) => Some(watch.seen(jobs)),
        None => None,
    }
}
