// Facts about the notes of each cycle. These functions do nothing; their contracts state the facts.
ghost use Rattle.std.specs.Prelude.{ℕ, suc, Bool, false, ◌≡◌, ◌≢◌, ◌<◌, ◌≤◌, ◌⊎◌, Contains, length, ◌++◌, ◌+◌, ◌*◌};
ghost use Rattle.std.specs.{Prelude.pos, Prelude.flat_map, Prelude.replicate, Prelude.[], List.AllZip};
ghost use Rattle.cs_piece_meaning.specs.{Counting.starts_before, Heard.frames_of, Bounded.IsBounded, Moments.Active};
ghost use Rattle.cs_piece_meaning.specs.{Moments.Composition, Moments.Moment, Started.AreStarted};
ghost use Rattle.cs_piece_meaning.specs.Course.{begins, closing, events_in, moment_at, played_in, still};
ghost use Rattle.cs_base.specs.Limits.{most_asks, most_events, most_notes, most_statements};
ghost use Rattle.cs_piece_meaning.specs.Starts.{Start, all_done, in_vain, start_in};
ghost use Rattle.cs_meaning.specs.Examples.{each, whole};
ghost use Rattle.cs_piece_meaning.specs.OrderExamples.{asked_in_its_cycle, refused_late, table_made_twice};
ghost use Rattle.cs_piece_meaning.specs.OrderExamples.{table_stored_to, two_of_one};
ghost use Rattle.cs_piece_meaning.specs.Orders.{AreInOrder, IsSameNote, notes_in};

/// The notes that are performed in a cycle are ordered by instrument number and, within one instrument, by
/// age. No two have the same age; each has the statements of its instrument, ends after the cycle and wasn't
/// turned off; and there are at most 512. After the cycle they are the same notes in the same order.
pub fn notes_of_a_cycle_are_in_order()
    ensures before { (c : Composition) (n : ℕ) → AreInOrder c n (begins c n (moment_at c n)) }
    ensures after { (c : Composition) (n : ℕ) → AllZip IsSameNote (notes_in c n) (played_in c n) }
{}

/// From one cycle to the next a note stays until it ends or is turned off. A note that was performed in a
/// cycle, wasn't turned off and hasn't ended plays in the next cycle, with its state. A note of the next
/// cycle was performed in this one, or was started after all notes that had started by its end.
pub fn notes_play_until_their_end()
    ensures stay { (c : Composition) (n : ℕ) (a : Active) → Contains (played_in c n) a → a.note.world.ended ≡ false
        → suc n < a.ends → Contains (notes_in c (suc n)) a }
    ensures come { (c : Composition) (n : ℕ) (a : Active) → Contains (notes_in c (suc n)) a
        → (Contains (played_in c n) a) ⊎ ((moment_at c (suc n)).started ≤ a.age) }
{}

/// A note plays in one stretch of cycles. If it plays in a cycle and in a later one, it plays in all cycles
/// between them, as one note with the same instrument, end, p-fields and statements. So a note that has left
/// never comes back.
pub fn notes_play_in_one_stretch()
    ensures { (c : Composition) (i j k : ℕ) (a b : Active) → i ≤ j → j ≤ k → Contains (notes_in c i) a
        → Contains (notes_in c k) b → b.age ≡ a.age → (d : Active) × Contains (notes_in c j) d × IsSameNote d b }
{}

/// If as many notes play as allowed, a further note that lasts at least one cycle isn't even initialised: its
/// start is only counted.
pub fn full_cycles_start_none()
    ensures { (c : Composition) (now : ℕ) (s : Start) (m : Moment) → length m.active ≡ most_notes → s.cycles ≢ 0
        → start_in c now s m ≡ in_vain m }
{}

/// Notes that wait for a cycle start after its events, in the order in which they were added, including notes
/// that are added meanwhile, until none waits for it (`AreStarted`). This rule leads from a moment to exactly
/// one moment.
pub fn waiting_notes_start_in_order()
    ensures rule { (c : Composition) (n : ℕ)
        → AreStarted c n (all_done c (events_in c n) (still n (moment_at c n))) (begins c n (moment_at c n)) }
    ensures one { (c : Composition) (now : ℕ) (m a b : Moment) → AreStarted c now m a → AreStarted c now m b → a ≡ b }
{}

/// No note waits beyond its cycle: after all notes that begin with a cycle have begun, none waits for this
/// cycle or an earlier one.
pub fn none_waits_beyond_its_cycle()
    ensures { (c : Composition) (n k : ℕ) → k ≤ n → (begins c n (moment_at c n)).waiting.due k ≡ [] }
{}

/// No start is lost. Starts that started a note and starts that didn't are counted separately. At the end of
/// the performance their sum is the number of events that start a note plus the number of scheduled notes.
pub fn no_start_is_lost()
    ensures { (c : Composition) → (closing c).started + (closing c).not_started ≡ starts_before c (c.cycles + 1) }
{}

/// A piece whose instruments schedule few notes has few starts. There is at most one for each event and each
/// note that can be added, and one for each note that these schedule.
pub fn starts_are_few()
    ensures { (c : Composition) → IsBounded c
        → (closing c).started + (closing c).not_started ≤ (most_events + most_asks) * (most_statements + 1) }
{}

/// Worked examples of small performances: eight frames a second, four frames a control cycle.
pub fn orders_worked_by_hand()
    // Of two notes of one instrument, the one that started first is performed first: it counts, and the other
    // plays the count.
    ensures older_counts { frames_of (two_of_one 1 0) ≡ each (whole 1) ++ each (whole 2) }
    ensures younger_counts { frames_of (two_of_one 0 1) ≡ each (whole 0) ++ each (whole 1) }
    // If a table is made again in a cycle, the notes of this cycle read its new points.
    ensures made_again { frames_of table_made_twice ≡ each (whole 5) ++ each (whole 9) }
    // A note plays a value that it stored into a table as it began.
    ensures stored { frames_of table_stored_to ≡ each (whole 9) ++ each (whole 9) }
    // A note that is scheduled for the present cycle starts in this cycle.
    ensures asked { frames_of asked_in_its_cycle ≡ each (whole 0) ++ each (whole 7) ++ each (whole 0) }
    // Values that a refused note wrote remain, and the note that it scheduled starts.
    ensures refused { frames_of refused_late ≡ each (whole 9) ++ each (whole 0) }
    ensures refused_started { (closing refused_late).started ≡ 1 }
    ensures refused_counted { (closing refused_late).not_started ≡ 1 }
    // One event starts a note, and one note was scheduled.
    ensures refused_starts { starts_before refused_late 3 ≡ 2 }
{}
