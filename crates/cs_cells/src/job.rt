// The unit of work in a control cycle, such as the performance of one note.
ghost use Rattle.std.specs.Prelude.{◌≡◌};
ghost use Rattle.cs_cells.specs.{Access.Allows, Meaning.Meaning, Meaning.Frames, Meaning.Uses, Meaning.Writes};

use crate::{Bank, Footprint};

/// A unit of work that runs once in a control cycle, on the cells of a bank.
pub trait Job {
    // The layout and the footprint of a job, the job and the cells after its run, and the property that every
    // job in the code has.
    ghost means: { Meaning Self };

    /// Returns the indices, in the job's layout, of the resources that it may use and write.
    fn footprint(&self) -> &Footprint
        ensures foot { result.now ≡ means.foot self.now }
        ensures valid { means.valid self.now };

    /// Runs once. The bank must contain every cell that the job uses, and must let the job set every cell
    /// that it writes.
    fn run<B: Bank>(&mut self, bank: &mut B)
        requires { Allows (B.access (B.rest bank.old)) (Uses means self.old) (Writes means self.old) }
        ensures job { self.new ≡ means.after self.old (B.cells bank.old) }
        ensures cells { B.cells bank.new ≡ means.leaves self.old (B.cells bank.old) }
        ensures rest { B.rest bank.new ≡ B.rest bank.old };

    // The frame law. This clause is below the last method, so each kind of job has to prove it.
    ghost frames: { Frames means };
}
