//! Trials of boards, and of one cycle with its own crew, with jobs that only leave a mark or add to a cell. They
//! show what no clause states: that a board hands out notes until none is left, in every order of the calls of
//! two seats; what each call returns on boards of a few notes; that the gate is called once for each job, before
//! the job runs; and that the workers of a crew run at the same time. No crate of the product depends on this
//! one, and it proves nothing about the others. The expected output is in `stdout`.
//!
//! In reading order: `marked`, `adding` and `three` (the jobs), `watch` (the gate), `cycle` (one cycle with a crew),
//! `player` (a seat that is played call by call), `orders` (boards that two seats play), `rows` (boards of a few
//! notes), `graphs` (notes on one resource).
#![tactic(auto)]

ghost use Rattle.std.specs.Prelude.{◌≤◌};

mod adding;
mod cycle;
mod graphs;
mod marked;
mod orders;
mod player;
mod rows;
mod three;
mod watch;

use crate::cycle::{by_a_crew, in_plain_memory};
use crate::graphs::{Note, four_levels, graph_on_one};
use crate::orders::{SMALL, Small, most_notes, serial_graphs};
use crate::rows::{no_notes, one_before_one, one_before_two, one_seat, three_on_one_cell};
use cs_base::MOST_NOTES;
use std::io;
use std::sync::Wait;
use std::thread::Threads;

fn main(rt: HostRuntime) -> io::Result<()> {
    show_boards(&rt)?;
    show_rows(&rt)?;
    show_graphs(&rt)?;
    let plain = in_plain_memory(rt.alloc());
    println!(rt; "a number in plain memory: {plain:?}")?;
    show_crews(&rt)
}

fn show_boards<R: Print + AllocGlobal>(rt: &R) -> io::Result<()> {
    for small in &SMALL {
        show_small(rt, small)?;
    }
    let (own, row) = (most_notes(rt.alloc(), 0), most_notes(rt.alloc(), 1));
    println!(rt; "512 notes on their own: {own:?}, in a row: {row:?} (in order, few tries)")
}

// Prints how many graphs of a few notes are serial.
fn show_small<R: Print + AllocGlobal>(rt: &R, small: &Small) -> io::Result<()> {
    let Small {
        notes,
        graphs,
        orders,
    } = small;
    let serial = serial_graphs(rt.alloc(), small);
    println!(rt;
        "{notes} notes: {serial:?} of {graphs} graphs are serial by each of {orders} orders"
    )
}

// Shows what the calls of seats return, and what few notes leave.
fn show_rows<R: Print + AllocGlobal>(rt: &R) -> io::Result<()> {
    let alloc = rt.alloc();
    println!(rt; "no notes: {:?}", no_notes(alloc))?;
    println!(rt;
        "0 before 1, and 2, one seat: {:?}",
        one_seat(alloc, &[1, 1, 2])
    )?;
    println!(rt; "0 before 1, two seats: {:?}", one_before_one(alloc))?;
    println!(rt; "0 before 1 and 2, two seats: {:?}", one_before_two(alloc))?;
    println!(rt;
        "three that add 1 to a cell of 5: {:?}",
        three_on_one_cell(alloc)
    )
}

// Shows the edges and levels of notes on one resource.
fn show_graphs<R: Print + AllocGlobal>(rt: &R) -> io::Result<()> {
    show_graph(rt, "four writers", &[Note::Writer; 4])?;
    let mixed = [Note::Writer, Note::Reader, Note::Reader, Note::Writer];
    show_graph(rt, "writer, reader, reader, writer", &mixed)?;
    match graph_on_one(rt.alloc(), &[Note::Writer; MOST_NOTES]) {
        Some(graph) => println!(rt; "512 writers: {} edges", graph.edge_count()),
        None => println!(rt; "512 writers: out of memory"),
    }
}

fn show_graph<R: Print + AllocGlobal>(rt: &R, what: &str, notes: &[Note]) -> io::Result<()> {
    match graph_on_one(rt.alloc(), notes) {
        Some(graph) => println!(rt;
            "{what}: edges {:?}, levels {:?}",
            graph.edges(),
            four_levels(&graph)
        ),
        None => println!(rt; "{what}: out of memory"),
    }
}

fn show_crews<R: Print + AllocGlobal + Threads + Wait + Sync>(rt: &R) -> io::Result<()> {
    show(rt, 1, 2, 1)?;
    show(rt, 2, 2, 1)?;
    show(rt, 4, 4, 4)?;
    show(rt, 1, 512, 1)?;
    show(rt, 4, 512, 1)?;
    show(rt, 32, 512, 1)
}

// Prints one cycle of `jobs` jobs with `workers` workers, at a gate that holds each job until `held` jobs
// have come.
fn show<R: Print + AllocGlobal + Threads + Wait + Sync>(
    rt: &R,
    workers: u32,
    jobs: u32,
    held: u64,
) -> io::Result<()>
    requires { (1 ≤ workers) × (workers ≤ 32) }
{
    let seen = by_a_crew(rt, rt.alloc(), workers, jobs, held);
    println!(rt; "{jobs} jobs by {workers}, held until {held} have come: {seen:?}")
}
