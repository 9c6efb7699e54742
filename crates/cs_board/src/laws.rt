// Consequences of the rule in any state.
ghost use Rattle.std.specs.Prelude.{◌≡◌, ℕ};
ghost use mathlib.Core.Option.{some};
ghost use lib.ListN.{get_elem?};
ghost use Rattle.atomic_table.specs.Table.{State};
ghost use Rattle.cs_board.specs.Ending.{HasLast, IsLast, AllDone, AllMine, IsSerial};
ghost use Rattle.cs_board.specs.{Laws.DoneOnce, Laws.EarlierDone, Laws.SeenBefore, Rule.Holds};

use crate::view::{Berth, Plan, View};
use cs_cells::Job;

/// The laws of the rule, for any plan and any state. For the prover: it does nothing as it runs; its clauses
/// are the laws.
pub fn rule_laws<J: Job>()
    ensures earlier_done { (k : Plan J) (s : State (Berth J) (View J)) → Holds J.means k s → EarlierDone k s J.means }
    ensures seen_before { (k : Plan J) (s : State (Berth J) (View J)) → Holds J.means k s → SeenBefore k s J.means }
    ensures done_once { (k : Plan J) (s : State (Berth J) (View J)) → Holds J.means k s → DoneOnce k s }
    ensures nothing_lost { (k : Plan J) (s : State (Berth J) (View J)) → Holds J.means k s → HasLast s → AllDone k s }
    ensures mine { (k : Plan J) (s : State (Berth J) (View J)) (id : ℕ) (v : View J) → Holds J.means k s
        → get_elem? s.views id ≡ some v → IsLast v → AllMine k v }
    ensures serial { (k : Plan J) (s : State (Berth J) (View J)) → Holds J.means k s → HasLast s
        → IsSerial k J.means s }
{}
