// Facts about the definitions that hold for every score. These functions do nothing; their contracts state
// the facts.
ghost use Rattle.std.specs.Prelude.{false, ◌≡◌, ◌≤◌, ◌+◌, ◌^◌, List, [], ◌∷◌, Some, None, pos, negsuc};
ghost use Rattle.std.specs.List.{All, AllPairs, filter};
ghost use Rattle.std.specs.{Ordering.is_eq, Ordering.is_lt, List.Sorted.IsNonDecreasingBy};
ghost use Rattle.cs_base.specs.declared.head.Head.{Head};
ghost use Rattle.cs_score.specs.{Ranges.IsInRange, declared.statement.ScoreStmt.ScoreStmt};
ghost use Rattle.cs_score.specs.declared.statement.ScoreWhat.TheVariants as ScoreWhat;
ghost use Rattle.cs_tempo.specs.{Pairing.ending_stop, Order.has_turn, Order.in_order, Order.order_of, Plot.plot_of};
ghost use Rattle.cs_score.specs.Worked.{at_line, held_note, note, stop, table, whole};
ghost use Rattle.cs_tempo.specs.Worked.{held_at, stop_at, two_sections};
ghost use Rattle.cs_tempo.specs.declared.plot.EventAct.TheVariants as act;
ghost use Rattle.cs_tempo.specs.{Limits.cycles_in, Limits.limit_of, Performable.IsPerformable};

/// The order of a section follows its rule: no statement comes before one with an earlier beat, p1 and p3.
/// Statements that are equal in all three keep the order of the text, and all statements with a turn are
/// present.
pub fn turns_are_in_order()
    ensures rising { (section : List ScoreStmt)
        → AllPairs (λ s u. is_lt (order_of u.what s.what) ≡ false) (in_order section) }
    ensures equal { (section : List ScoreStmt) (s : ScoreStmt)
        → filter (λ u. is_eq (order_of s.what u.what)) (in_order section)
        ≡ filter (λ u. is_eq (order_of s.what u.what)) (filter (λ u. has_turn u.what) section) }
{}

/// The events of a plot are in the order of their cycles, and each note ends within the plot. The plot of a
/// score within all limits has at most 2^30 cycles.
pub fn plots_are_in_order()
    ensures order { (head : Head) (score : List ScoreStmt) → All IsInRange score
        → IsNonDecreasingBy (λ e. e.cycle) (plot_of head score).events }
    ensures within { (head : Head) (score : List ScoreStmt) → All IsInRange score
        → All (λ e. e.cycle + cycles_in e.act ≤ (plot_of head score).cycles)
        (plot_of head score).events }
    ensures short { (head : Head) (score : List ScoreStmt) → limit_of head score ≡ None
        → (plot_of head score).cycles ≤ 2 ^ 30 }
{}

/// The plot of a score within all limits can be performed.
pub fn scores_within_limits_are_performable()
    ensures { (head : Head) (score : List ScoreStmt) → All IsInRange score
        → limit_of head score ≡ None → IsPerformable head (plot_of head score) }
{}

/// Worked example of docs/MEANING.md: pairing. With held notes at beats 0, 1 and 2 and stops at beats 2, 3, 4
/// and 5, the first stop ends the first note, the second the second, and the third the third.
pub fn pairings_worked_by_hand()
    ensures first { ending_stop 1 0 (held_at 0 ∷ [])
        (held_at 1 ∷ stop_at 2 ∷ held_at 2 ∷ stop_at 3 ∷ stop_at 4 ∷ stop_at 5 ∷ []) ≡ Some 2 }
    ensures second { ending_stop 1 1 (held_at 1 ∷ held_at 0 ∷ [])
        (stop_at 2 ∷ held_at 2 ∷ stop_at 3 ∷ stop_at 4 ∷ stop_at 5 ∷ []) ≡ Some 3 }
    ensures third { ending_stop 1 3 (held_at 2 ∷ stop_at 2 ∷ held_at 1 ∷ held_at 0 ∷ [])
        (stop_at 3 ∷ stop_at 4 ∷ stop_at 5 ∷ []) ≡ Some 4 }
{}

/// Worked example of docs/LANGUAGE.md: order. At one beat tables come first; then p1 decides (a stop's is
/// negative), then p3 (a held note's is the number as written). An earlier beat comes first, and equal
/// statements keep the order of the text.
pub fn orders_worked_by_hand()
    ensures at_one_beat { in_order (note 1 0 5 ∷ held_note 2 0 5 ∷ stop 3 0 ∷ table 4 (negsuc 1) [] ∷ [])
        ≡ table 4 (negsuc 1) [] ∷ stop 3 0 ∷ held_note 2 0 5 ∷ note 1 0 5 ∷ [] }
    ensures by_beat { in_order (note 1 1 5 ∷ note 2 0 5 ∷ []) ≡ note 2 0 5 ∷ note 1 1 5 ∷ [] }
    ensures equal { in_order (note 1 0 6 ∷ note 2 0 5 ∷ []) ≡ note 1 0 6 ∷ note 2 0 5 ∷ [] }
    ensures without_turn { in_order (at_line 1 (ScoreWhat.Extend 0) ∷ note 2 0 5 ∷ []) ≡ note 2 0 5 ∷ [] }
{}

/// Worked example: the plot of a score with two sections, at 8 frames a second and 4 frames a cycle, so that
/// a beat lasts two cycles.
/// The first section has table 1, a note of one beat, a held note that a stop ends after two beats, and a
/// note without a length.
/// The second section begins at the cycle of that stop. It has a note of a quarter of a beat, which lasts one
/// cycle.
pub fn plot_worked_by_hand()
    ensures { (head : Head) → head.sr ≡ 8 → head.ksmps ≡ 4 → plot_of head two_sections ≡ record {
      events =
          record { cycle = 0; line = 1; act = act.Table 1 (pos 4) (negsuc 1) [] }
          ∷ record { cycle = 0; line = 3; act = act.Start 1 4 (whole 1 ∷ pos 0 ∷ negsuc 65535 ∷ whole 9 ∷ []) }
          ∷ record { cycle = 0; line = 2; act = act.Start 1 2 (whole 1 ∷ pos 0 ∷ whole 1 ∷ whole 5 ∷ []) }
          ∷ record { cycle = 2; line = 4; act = act.Start 1 0 (whole 1 ∷ whole 1 ∷ pos 0 ∷ []) }
          ∷ record { cycle = 4; line = 7; act = act.Start 1 1 (whole 1 ∷ pos 0 ∷ pos 16384 ∷ []) }
          ∷ [];
      cycles = 5;
    } }
{}
