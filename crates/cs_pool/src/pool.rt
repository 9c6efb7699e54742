// The standing crew: its helpers, and how many cycles it has played.
ghost use Rattle.std.specs.Prelude.{◌≡◌, ◌<◌, ◌≤◌, All, length};
ghost use Rattle.cs_pool.specs.inner.Lines.{IsIdle};

use crate::line::Line;
use crate::sparing::Sparing;
use cs_cells::Job;
use cs_edge::Gate;
use std::alloc::Global;
use std::sync::Wait;
use std::thread::{Scope, Threads};

/// The crew of a complete performance: helpers that were started once, and the caller. Between two cycles no
/// helper has anything of the caller's: no seat of a cycle's board, and no share of it. The crew is closed at
/// the end, and can't be dropped otherwise, since its helpers wait for it.
pub struct Pool<'e, J: Job, R, G> {
    pub(crate) rt: &'e R,
    pub(crate) gate: &'e G,
    pub(crate) alloc: Global,
    pub(crate) lines: Vec<Line<J>>,
    pub(crate) ended: u64,
    pub(crate) sparing: Sparing,
    /// Whether it has played a cycle in which a helper was useful.
    pub(crate) has_shared: bool,
    /// Whether memory for a helper's part in the last cycle ran out.
    pub(crate) starved: bool,
    ghost idle: { All (λ line. IsIdle line) lines.items },
    ghost few: { length lines.items < 32 },
}

impl<'e, J: Job + Send + Drop, R: Threads + Wait + Sync, G: Gate + Sync> Pool<'e, J, R, G> {
    ghost use Rattle.std.specs.Prelude.{false};
    ghost use Rattle.cs_pool.specs.Pools.{helpers, ended, has_shared, cycles_alone, HasMissed};

    /// Makes a crew of `workers` workers, 1 to 32, one of which is the caller, so a crew of one starts no
    /// thread and allocates nothing. The call can't fail: if there is no memory or no thread for a helper,
    /// the others have more to do. The helpers are threads of `scope`, and each worker calls `gate` before it
    /// runs a note. The first cycle is offered to the helpers, whatever its size (`offers`).
    pub fn new<'s>(
        rt: &'e R,
        scope: &'s Scope<'s, &'e ()>,
        alloc: Global,
        workers: u32,
        gate: &'e G,
    ) -> Pool<'e, J, R, G>
    where
        J: 's,
        requires workers { (1 ≤ workers) × (workers ≤ 32) }
        ensures few { helpers result < workers }
        ensures ended { ended result ≡ 0 }
        ensures offered { (cycles_alone result ≡ 0) × HasMissed 0 result × (has_shared result ≡ false) }
    {
        Pool {
            rt,
            gate,
            alloc,
            lines: start_all(rt, scope, alloc, workers - 1, gate),
            ended: 0,
            sparing: Sparing::new(),
            has_shared: false,
            starved: false,
        }
    }

    /// Ends the helpers and joins their threads. Returns the number of cycles played, at most 2^64 - 1.
    pub fn close(self) -> u64
        ensures { result ≡ ended self.entry }
    {
        let Pool {
            rt,
            gate: _,
            alloc: _,
            lines,
            ended,
            sparing: _,
            has_shared: _,
            starved: _,
        } = self;
        close_all(rt, lines);
        ended
    }
}

// Starts `helpers` helpers, or as many as there is memory and threads for.
fn start_all<'s, 'e, J: Job + Send + Drop + 's, R: Threads + Wait + Sync, G: Gate + Sync>(
    rt: &'e R,
    scope: &'s Scope<'s, &'e ()>,
    alloc: Global,
    helpers: u32,
    gate: &'e G,
) -> Vec<Line<J>>
    ensures idle { All (λ line. IsIdle line) result.items }
    ensures few { length result.items ≤ helpers }
{
    let Ok(mut lines) = Vec::with_capacity(alloc, helpers as usize) else {
        return Vec::new(alloc);
    };
    for _ in 0..helpers {
        let Ok(line) = Line::start(rt, scope, alloc, gate) else {
            return lines;
        };
        lines.push_reserved(line);
    }
    lines
}

// Ends all helpers and joins their threads.
fn close_all<J: Job + Drop, R: Threads>(rt: &R, mut lines: Vec<Line<J>>)
    requires { All (λ line. IsIdle line) lines.items }
{
    while let Some(line) = lines.pop() {
        line.close(rt);
    }
    lines.destroy_empty();
}
