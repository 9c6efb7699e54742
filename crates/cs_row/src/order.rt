// Jobs that run one after another.
ghost use Rattle.std.specs.Prelude.{◌≡◌, ◌+◌, ◌<◌, ◌^◌, length, All};
ghost use Rattle.cs_cells.specs.{Access.Allows, Meaning.Uses, Meaning.Writes};
ghost use Rattle.cs_cells.specs.Serial.{serial_cells, serial_jobs};

use cs_cells::{Bank, Job};
use cs_edge::Gate;

/// Runs jobs one by one in their order on the cells of a bank. `gate` is called before each one with `cycle`
/// and the job's index in the cycle; `first` is the index of the first job.
pub fn run_in_order<J: Job, B: Bank, G: Gate>(
    jobs: &mut [J],
    bank: &mut B,
    gate: &G,
    cycle: u32,
    first: u32,
)
    requires few { first + length jobs.old < 2 ^ 32 }
    requires allowed { All (λ j. Allows (B.access (B.rest bank.old)) (Uses J.means j) (Writes J.means j)) jobs.old }
    ensures jobs { jobs.new ≡ serial_jobs J.means jobs.old (B.cells bank.old) }
    ensures cells { B.cells bank.new ≡ serial_cells J.means jobs.old (B.cells bank.old) }
    ensures rest { B.rest bank.new ≡ B.rest bank.old }
{
    let mut note = first;
    for at in 0..jobs.len() {
        gate.before(cycle, note);
        jobs[at].run(bank);
        note += 1;
    }
}
