// Consequences of the frame law for jobs that run one after another.
ghost use Rattle.std.specs.Prelude.{◌≡◌, ℕ, List, map, length, slice_get, Some};
ghost use Rattle.cs_cells.specs.{Cells.Cells, Cells.Agree, Meaning.Uses};
ghost use Rattle.cs_cells.specs.Serial.{serial_cells, serial_jobs, before, AllValid, LastWriter, AsSerial};

use crate::Job;

/// The laws of the serial run, for any jobs and any cells: each job runs once, the two laws on which every
/// order of running depends, and the facts that no run changes. It does nothing: its clauses are the laws.
pub fn serial_laws<J: Job>()
    // The final state of each job results from one run, on the cells that all earlier jobs left.
    ensures once { (js : List J) (c : Cells) (t : ℕ) (j : J) → slice_get js t ≡ Some j
        → slice_get (serial_jobs J.means js c) t ≡ Some (J.means.after j (before J.means js c t)) }
    ensures last_writer { (js : List J) (c : Cells) → AllValid J.means js → LastWriter J.means js c }
    ensures as_serial { (js : List J) (c : Cells) (t : ℕ) (j : J) (d : Cells)
        → AllValid J.means js → slice_get js t ≡ Some j
        → Agree (Uses J.means j) d (before J.means js c t) → AsSerial J.means js c t j d }
    ensures footprints { (js : List J) (c : Cells) → map J.means.foot (serial_jobs J.means js c) ≡ map J.means.foot js }
    ensures areas { (js : List J) (c : Cells) → map J.means.areas (serial_jobs J.means js c) ≡ map J.means.areas js }
    ensures count { (js : List J) (c : Cells) → length (serial_cells J.means js c) ≡ length c }
{}
