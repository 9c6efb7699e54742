// What the run of rows means for their notes.
ghost use Rattle.std.specs.Prelude.{◌≡◌, ◌<◌, ℕ, List, map, All};
ghost use Rattle.cs_base.specs.Numbers.{total};
ghost use Rattle.cs_cells.specs.Cells.{Cells};
ghost use Rattle.cs_row.specs.{Heard.HeardRow, Heard.sum_at, Laws.ConflictByRow, Laws.RunsAsNotes};
ghost use Rattle.cs_row.specs.Rows.{IsFree, IsRow, notes_in};

use crate::heard::Heard;

/// The laws of rows: their serial run is the run of their notes, two notes conflict if and only if their rows
/// do, and the sums of rows are the sums of what their notes produce. For the prover: it does nothing as it
/// runs; its clauses are the laws.
pub fn row_laws<J: Heard>()
    ensures run { (rows : List (HeardRow J)) (c : Cells) → RunsAsNotes J.Job.means J.shape J.gives rows c }
    ensures conflicts { (rows : List (List J)) (p t : ℕ) → All (IsRow J.Job.means) rows
        → All (IsFree J.Job.means) rows → p < t → ConflictByRow J.Job.means rows p t }
    ensures sums { (rows : List (List J)) (at : ℕ)
        → sum_at J.gives (notes_in rows) at ≡ total (map (λ row. sum_at J.gives row at) rows) }
{}
