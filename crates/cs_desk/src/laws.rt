// What the rule of a board of rows says about their notes.
ghost use Rattle.std.specs.Prelude.{ℕ, List};
ghost use Rattle.atomic_table.specs.Table.{State};
ghost use Rattle.cs_board.specs.Rule.{Holds};
ghost use Rattle.cs_board.specs.declared.view.Berth.{Berth};
ghost use Rattle.cs_board.specs.declared.view.Plan.{Plan};
ghost use Rattle.cs_board.specs.declared.view.View.{View};
ghost use Rattle.cs_desk.specs.Laws.{RunInTurn};
ghost use Rattle.cs_row.specs.{Cuts.AreRowsOf, Heard.HeardRow, Heard.heard_job, Laws.jobs_of};

use cs_row::{Heard, row_laws};

/// For the prover: the law of notes on a board of rows. In any state between two steps, whatever the
/// interleaving, each note is run once, after every earlier note with which it conflicts and before every
/// later one. It does nothing as it runs; its clause is the law.
pub fn notes_run_in_turn<J: Heard>()
    ensures { (most : ℕ) (notes : List J) (k : Plan (HeardRow J)) (s : State (Berth (HeardRow J)) (View (HeardRow J)))
        → AreRowsOf J.Job.means most notes (jobs_of k.jobs)
        → Holds (heard_job J.Job.means J.shape J.gives) k s → RunInTurn J.Job.means notes k s }
{
    row_laws::<J>();
}
