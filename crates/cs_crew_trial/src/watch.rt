// A gate that observes the workers.
use cs_edge::Gate;
use std::sync::atomic::{AtomicU64, Ordering};
use std::thread;

// The number of times that a job which is held looks for the others; a few seconds.
const LOOKS: u64 = 10_000_000;

/// What was observed of a cycle.
#[derive(Clone, Copy, Debug)]
pub struct Seen {
    /// The number of calls of the gate, and the number of calls that came after the job had run.
    pub calls: u64,
    pub late: u64,
    /// Whether the first job saw all the jobs come that it waited for, so that each was held by a different
    /// worker.
    pub met: bool,
    /// The number of jobs in the receipt, and the number of jobs that ran.
    pub jobs: u64,
    pub ran: u64,
}

/// A gate that counts its calls, and holds each job until `held` jobs have come, or for a while.
#[derive(Drop)]
pub struct Watch<'t> {
    // A number for each job, which is other than 0 once the job has run.
    marks: &'t [AtomicU64],
    held: u64,
    calls: AtomicU64,
    late: AtomicU64,
    met: AtomicU64,
}

impl<'t> Watch<'t> {
    /// Makes a gate that holds each job until `held` jobs have come.
    pub fn new(marks: &'t [AtomicU64], held: u64) -> Watch<'t> {
        Watch {
            marks,
            held,
            calls: AtomicU64::new(0),
            late: AtomicU64::new(0),
            met: AtomicU64::new(0),
        }
    }

    /// Returns what was observed of a cycle whose receipt has `jobs` jobs.
    pub fn seen(&self, jobs: u64) -> Seen {
        let mut ran = 0u64;
        for mark in self.marks {
            if mark.load(Ordering::SeqCst) != 0 {
                ran = ran.saturating_add(1);
            }
        }
        Seen {
            calls: self.calls.load(Ordering::SeqCst),
            late: self.late.load(Ordering::SeqCst),
            met: self.met.load(Ordering::SeqCst) == 1,
            jobs,
            ran,
        }
    }
}

impl Gate for Watch<'_> {
    fn before(&self, _cycle: u32, note: u32) {
        let place = self.calls.fetch_add(1, Ordering::SeqCst);
        if let Some(mark) = self.marks.get(note as usize) {
            self.late
                .fetch_add(mark.load(Ordering::SeqCst), Ordering::SeqCst);
        }
        for _ in 0..LOOKS {
            if self.calls.load(Ordering::SeqCst) >= self.held {
                if place == 0 {
                    self.met.store(1, Ordering::SeqCst);
                }
                return;
            }
            thread::yield_now();
        }
    }
}
