// Boards played call by call: all small graphs with every order of two seats' calls, and a board with the
// highest number of notes.
ghost use Rattle.std.specs.Prelude.{◌≡◌, length};

use crate::cycle::{layout, marks_of};
use crate::marked::{PLACES, jobs_of};
use crate::player::tries_of;
use cs_base::MOST_NOTES;
use cs_cells::Layout;
use std::alloc::Global;
use std::sync::atomic::{AtomicU64, Ordering};

// The pairs of four notes. Each pair has its own resource, because of which the second note waits for the
// first.
const PAIRS: [(usize, usize); PLACES as usize] = [(0, 1), (0, 2), (1, 2), (0, 3), (1, 3), (2, 3)];

// The time of each note's run, and the number of the first seat's tries to claim a note.
#[derive(Drop)]
struct Played {
    times: Vec<u64>,
    tries: u64,
}

impl Played {
    fn time(&self, note: usize) -> u64 {
        self.times.get(note).copied().unwrap_or(0)
    }
}

// Plays notes with these resources in one order of calls. Returns None if not all have run within three
// calls for each, if there are more notes than may be active, or if memory runs out.
fn play(alloc: Global, layout: &Layout, bits: &[u32], order: u32) -> Option<Played>
    requires { length layout.now ≡ 6 }
{
    let Ok(marks) = marks_of(alloc, bits.len()) else {
        return None;
    };
    let Some(tries) = tries_to_mark(alloc, layout, bits, &marks, order) else {
        return None;
    };
    match times_of(alloc, &marks) {
        Some(times) => Some(Played { times, tries }),
        None => None,
    }
}

// Plays notes that leave these marks. Returns the number of the first seat's tries to claim a note.
fn tries_to_mark(
    alloc: Global,
    layout: &Layout,
    bits: &[u32],
    marks: &[AtomicU64],
    order: u32,
) -> Option<u64>
    requires { length layout.now ≡ 6 }
{
    if marks.len() > MOST_NOTES {
        return None;
    }
    let clock = AtomicU64::new(0);
    let Ok(jobs) = jobs_of(alloc, layout, bits, marks, &clock) else {
        return None;
    };
    tries_of(alloc, layout, jobs, order)
}

fn times_of(alloc: Global, marks: &[AtomicU64]) -> Option<Vec<u64>> {
    let mut times = Vec::new(alloc);
    for mark in marks {
        if times.push(mark.load(Ordering::SeqCst)).is_err() {
            return None;
        }
    }
    Some(times)
}

// Returns whether `notes` notes, played in one order of calls, each run after the notes that they wait for
// by `pairs`.
fn is_serial(alloc: Global, layout: &Layout, notes: usize, pairs: u32, order: u32) -> bool
    requires { length layout.now ≡ 6 }
{
    // The resources of the pairs that contain each note.
    let bits = [
        pairs & 0b00_1011,
        pairs & 0b01_0101,
        pairs & 0b10_0110,
        pairs & 0b11_1000,
    ];
    match play(alloc, layout, bits.get(..notes).unwrap_or(&[]), order) {
        Some(played) => is_after(&played, pairs) && !played.times.contains(&0),
        None => false,
    }
}

fn is_after(played: &Played, pairs: u32) -> bool {
    let mut left = pairs;
    for (one, later) in &PAIRS {
        if left % 2 == 1 && played.time(*one) >= played.time(*later) {
            return false;
        }
        left /= 2;
    }
    true
}

/// A number of notes, the number of their graphs, and the number of orders of the claims, runs and finishes
/// that they need.
pub struct Small {
    pub notes: usize,
    pub graphs: u32,
    pub orders: u32,
}

/// All graphs of two, three and four notes.
pub const SMALL: [Small; 3] = [
    Small {
        notes: 2,
        graphs: 2,
        orders: 64,
    },
    Small {
        notes: 3,
        graphs: 8,
        orders: 512,
    },
    Small {
        notes: 4,
        graphs: 64,
        orders: 4_096,
    },
];

/// Returns how many of the graphs of this number of notes are serial in each order, or None if memory runs
/// out.
pub fn serial_graphs(alloc: Global, small: &Small) -> Option<u32> {
    let Some(layout) = layout(alloc) else {
        return None;
    };
    let mut count = 0u32;
    for pairs in 0..small.graphs {
        if is_always_serial(alloc, &layout, small, pairs) {
            count = count.saturating_add(1);
        }
    }
    drop(layout);
    Some(count)
}

fn is_always_serial(alloc: Global, layout: &Layout, small: &Small, pairs: u32) -> bool
    requires { length layout.now ≡ 6 }
{
    for order in 0..small.orders {
        if !is_serial(alloc, layout, small.notes, pairs, order) {
            return false;
        }
    }
    true
}

/// Plays the highest number of notes that may be active, all with these resources, only with the first seat.
/// Returns whether they run in serial order, and whether the seat tries at most twice for each. Returns None
/// if not all run, or if memory runs out.
pub fn most_notes(alloc: Global, bits: u32) -> Option<(bool, bool)> {
    let Some(layout) = layout(alloc) else {
        return None;
    };
    let played = play(alloc, &layout, &[bits; MOST_NOTES], 0);
    drop(layout);
    match played {
        Some(played) => Some((is_in_order(&played), played.tries <= 1_024)),
        None => None,
    }
}

fn is_in_order(played: &Played) -> bool {
    for note in 1..MOST_NOTES {
        if played.time(note - 1) >= played.time(note) {
            return false;
        }
    }
    true
}
