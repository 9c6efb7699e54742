// Whether the jobs of a cycle wait for one another in succession, determined without a graph.
ghost use Rattle.std.specs.Prelude.{◌≡◌, ◌↔◌, ◌+◌, ◌<◌, ℕ, length, map, true, All};
ghost use Rattle.std.specs.{List.Contains, List.Sorted.IsStrictlyIncreasing};
ghost use Rattle.cs_cells.specs.Areas.{IsFootprint};
ghost use Rattle.cs_graph.specs.Conflict.{Clash, Conflict};

use cs_cells::{Footprint, Job};

/// Returns whether each job except the first conflicts with the one just before it. If so, no two of them
/// ever run at the same time, and one worker is as good as several. `jobs` are the jobs of a cycle, in serial
/// order. It allocates nothing, and compares only neighbours.
pub fn is_one_chain<J: Job>(jobs: &[J]) -> bool
    requires { (areas : ℕ) × All (λ j. IsFootprint areas (J.means.foot j)) jobs.now }
    ensures { (result ≡ true) ↔ ((t : ℕ) → t + 1 < length jobs.now
        → Conflict (map J.means.foot jobs.now) t (t + 1)) }
{
    for later in 1..jobs.len() {
        if !do_clash(jobs[later - 1].footprint(), jobs[later].footprint()) {
            return false;
        }
    }
    true
}

// Returns whether one of two jobs writes a resource that the other uses.
fn do_clash(one: &Footprint, other: &Footprint) -> bool
    requires { (areas : ℕ) × IsFootprint areas one.now × IsFootprint areas other.now }
    ensures { (result ≡ true) ↔ Clash one.now other.now }
{
    have_common(one.writes.as_slice(), other.uses.as_slice())
        || have_common(one.uses.as_slice(), other.writes.as_slice())
}

// Returns whether two ascending lists have a number in common.
fn have_common(one: &[u32], other: &[u32]) -> bool
    requires ascending { IsStrictlyIncreasing one.now × IsStrictlyIncreasing other.now }
    ensures { (result ≡ true) ↔ ((r : ℕ) × Contains one.now r × Contains other.now r) }
{
    let mut here = 0;
    let mut there = 0;
    while here < one.len() && there < other.len() {
        if one[here] == other[there] {
            return true;
        }
        if one[here] < other[there] {
            here += 1;
        } else {
            there += 1;
        }
    }
    false
}
