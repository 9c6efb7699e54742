// A control cycle with a crew that exists only for this cycle.
ghost use Rattle.std.specs.Prelude.{◌≡◌};
ghost use Rattle.cs_desk.specs.Cycles.{IsCycle, WasPlayed};

use crate::crew::Crew;
use crate::pool::Pool;
use cs_cells::Job;
use cs_desk::{Desk, Receipt};
use cs_edge::Gate;
use cs_graph::Graph;
use std::alloc::Global;
use std::sync::{Arc, Wait};
use std::thread;
use std::thread::Threads;

/// Runs the notes of one control cycle, and returns a receipt with their jobs, the desk, and the graph, as if
/// the notes had run one by one in serial order on the desk's cells.
///
/// `graph` is the graph of the jobs, which are in serial order. Each job has the desk's layout, and the desk
/// has room for the cycle. The crew's workers except the caller are threads that are started here and have
/// ended when the call returns, so a crew of one starts none. The crew's gate is called with `cycle` and the
/// note's index before each note is run. The call can't fail: a worker for which there is no memory or no
/// thread leaves its notes to the others.
pub fn run_cycle<J: Job + Send + Drop, R: Threads + Wait + Sync, G: Gate + Sync>(
    crew: &Crew<'_, R, G>,
    alloc: Global,
    cycle: u32,
    graph: Arc<Graph, Global>,
    desk: Desk<J>,
    jobs: Vec<J>,
) -> (Receipt<J>, Desk<J>, Arc<Graph, Global>)
    requires cycle { IsCycle J.means graph.value desk jobs.items }
    ensures played { WasPlayed J.means desk jobs.items result.0 result.1 }
    ensures graph { result.2.value ≡ graph.value }
{
    thread::scope(
        thread::scope_env(),
        crew.rt,
        move |scope|
            requires { IsCycle J.means graph.value desk jobs.items }
            ensures played { WasPlayed J.means desk jobs.items result.0 result.1 }
            ensures graph { result.2.value ≡ graph.value }
        {
            let mut pool = Pool::new(crew.rt, scope, alloc, crew.workers, crew.gate);
            let played = pool.cycle(cycle, graph, desk, jobs);
            pool.close();
            played
        },
    )
}
