// How many workers are useful.
ghost use Rattle.std.specs.Prelude.{◌≡◌, ◌≤◌, min, IfOk, OnErr};
ghost use Rattle.std.specs.NonZero.{non_zero_usize_get};

use std::num::NonZeroUsize;
use std::thread::Threads;
use std::{io, thread};

/// Returns the number of workers to use: `asked` (1 or more), but at most the number of processors; `asked`
/// if the system doesn't report that number. It should be called once for a performance, since it reads a
/// file of the system. A worker in excess of the processors only costs the start of its thread.
pub fn crew_size<R: Threads>(rt: &R, asked: u32) -> u32
    requires { 1 ≤ asked }
    ensures { (1 ≤ result) × (result ≤ asked) }
{
    within(asked, thread::available_parallelism(rt))
}

// Returns the lower one of `asked` and the number of processors, or `asked` if that number isn't known.
fn within(asked: u32, processors: io::Result<NonZeroUsize>) -> u32
    requires { 1 ≤ asked }
    ensures few { IfOk processors (λ count. result ≡ min (non_zero_usize_get count) asked) }
    ensures unknown { OnErr processors (result ≡ asked) }
    ensures some { (1 ≤ result) × (result ≤ asked) }
{
    match processors {
        Ok(count) => lower(asked, count.get()),
        Err(_) => asked,
    }
}

fn lower(asked: u32, count: usize) -> u32
    ensures { result ≡ min count asked }
{
    if count < asked as usize {
        count as u32
    } else {
        asked
    }
}
