// The gate of a case: it lets notes through immediately, or shows what workers do.
use cs_edge::Gate;
use std::sync::atomic::{AtomicU64, Ordering};

// The highest number of iterations for which a note is held; fewer if many cycles are tried.
const LONG: u64 = 1_000_000_000;

const BRIEF: u64 = 4_000_000;

// The number of cycles in which the later notes are held longer.
const HELD: u64 = 10;

/// What the gate does.
#[derive(Clone, Copy)]
pub enum Task {
    Meeting(Meeting),
    /// It sums the squares of the numbers of its calls, counted from 1 through all notes of all cycles; each
    /// cycle has this number of notes. So each number must occur once, in any order.
    Summing(u32),
    /// It records a call that isn't the next one: each cycle has this number of notes, which must come one by
    /// one.
    Counting(u32),
}

/// Holds each note from number `note` on, in the cycles from `cycle` on, until `notes` of them have come in
/// its cycle, or for a while. So notes that run one after another never meet. Once the first note of a cycle
/// has seen the others come in `cycles` cycles, no note is held. In the first ten such cycles the later notes
/// are held longer, so that the worker of the first one has nothing to do meanwhile.
#[derive(Clone, Copy)]
pub struct Meeting {
    pub note: u32,
    pub cycle: u32,
    pub notes: u32,
    pub cycles: u32,
}

/// The gate of a case.
#[derive(Drop)]
pub struct CaseGate {
    task: Option<Task>,
    calls: AtomicU64,
    // 2^32 times the number of a cycle, plus the number of notes that have come in it.
    come: AtomicU64,
    met: AtomicU64,
    squares: AtomicU64,
    astray: AtomicU64,
}

impl CaseGate {
    /// Makes a gate with this task, or one that lets all notes through.
    pub fn new(task: Option<Task>) -> CaseGate {
        CaseGate {
            task,
            calls: AtomicU64::new(0),
            come: AtomicU64::new(0),
            met: AtomicU64::new(0),
            squares: AtomicU64::new(0),
            astray: AtomicU64::new(0),
        }
    }

    /// Returns the number of calls.
    pub fn calls(&self) -> u64 {
        self.calls.load(Ordering::SeqCst)
    }

    /// Returns the number of cycles in which notes met.
    pub fn met(&self) -> u64 {
        self.met.load(Ordering::SeqCst)
    }

    /// Returns the sum of the squares.
    pub fn summed(&self) -> u64 {
        self.squares.load(Ordering::SeqCst)
    }

    /// Returns whether each call was the next one.
    pub fn is_in_order(&self) -> bool {
        self.astray.load(Ordering::SeqCst) == 0
    }

    fn hold(&self, meeting: Meeting, cycle: u32) {
        let none = u64::from(cycle).wrapping_mul(1 << 32);
        self.come.fetch_max(none, Ordering::SeqCst);
        let place = self.come.fetch_add(1, Ordering::SeqCst).wrapping_sub(none);
        let all = none.wrapping_add(u64::from(meeting.notes));
        let is_tried_often = meeting.note > 0 || meeting.cycle > 0;
        if !self.sees(all, if is_tried_often { BRIEF } else { LONG }) {
            return;
        }
        if place == 0 {
            self.met.fetch_add(1, Ordering::SeqCst);
        } else if self.met() < HELD {
            self.sees(u64::MAX, BRIEF);
        }
    }

    // Returns whether `all` notes have come within `turns` iterations.
    fn sees(&self, all: u64, turns: u64) -> bool {
        for _ in 0..turns {
            if self.come.load(Ordering::SeqCst) >= all {
                return true;
            }
            std::hint::spin_loop();
        }
        false
    }
}

impl Gate for CaseGate {
    fn before(&self, cycle: u32, note: u32) {
        let calls = self.calls.fetch_add(1, Ordering::SeqCst);
        match self.task {
            Some(Task::Meeting(meeting)) => {
                let is_held = note >= meeting.note && cycle >= meeting.cycle;
                if is_held && self.met() < u64::from(meeting.cycles) {
                    self.hold(meeting, cycle);
                }
            }
            Some(Task::Summing(notes)) => {
                let number = place_of(cycle, note, notes).saturating_add(1);
                self.squares
                    .fetch_add(number.saturating_mul(number), Ordering::SeqCst);
            }
            Some(Task::Counting(notes)) => {
                if calls != place_of(cycle, note, notes) {
                    self.astray.store(1, Ordering::SeqCst);
                }
            }
            None => {}
        }
    }
}

// Returns the index of a note among the notes of all cycles, each with `notes` notes.
fn place_of(cycle: u32, note: u32, notes: u32) -> u64 {
    u64::from(cycle)
        .saturating_mul(u64::from(notes))
        .saturating_add(u64::from(note))
}
