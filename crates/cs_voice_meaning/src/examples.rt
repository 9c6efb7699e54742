// Worked examples of small codes. The function does nothing; its contract states their results.
ghost use Rattle.std.specs.Prelude.{◌≡◌, ◌∷◌, [], pos, true, None, Some};
ghost use Rattle.cs_meaning.specs.{Examples.whole, Model.no_table, Model.delay_too_long};
ghost use Rattle.cs_voice_meaning.specs.Examples.{begun, cells_of, counting, ending, heard, missing_table, reading};
ghost use Rattle.cs_voice_meaning.specs.Examples.{seeking, start, storing, two_delays, writing};
ghost use Rattle.cs_voice_meaning.specs.Voices.{performed, left_by};

/// Worked examples: codes that voices play.
pub fn voices_worked_by_hand()
    // gk1 is increased, and no other cell changes.
    ensures counted { left_by (begun counting) (cells_of (whole 3) (whole 8) (whole 9))
        ≡ cells_of (whole 4) (whole 8) (whole 9) }
    // One voice writes a zak place, and the next voice reads it in the same cycle.
    ensures written { left_by (begun writing) (cells_of (whole 3) (whole 8) (whole 9))
        ≡ cells_of (whole 3) (whole 70) (whole 9) }
    ensures read { heard (begun (reading (1 ∷ []))) (left_by (begun writing) (cells_of (whole 3) (whole 8) (whole 9)))
        ≡ whole 70 ∷ whole 70 ∷ whole 70 ∷ whole 70 ∷ [] }
    // A point of a table is assigned a value. If a table doesn't exist, the op that looks it up is refused.
    ensures stored { left_by (begun storing) (whole 0 ∷ whole 0 ∷ whole 0 ∷ whole 0 ∷ [])
        ≡ whole 0 ∷ whole 0 ∷ whole 7 ∷ whole 0 ∷ [] }
    ensures sought { (start seeking).world.cause ≡ Some (no_table (pos 9)) }
    // A place that isn't in the footprint reads as 0.
    ensures unseen { heard (begun (reading [])) (cells_of (whole 3) (whole 8) (whole 9))
        ≡ whole 0 ∷ whole 0 ∷ whole 0 ∷ whole 0 ∷ [] }
    // A note that is turned off sounds to the end of its cycle. Values that are output to a channel are
    // added.
    ensures ends { (performed (begun ending) (cells_of (whole 3) (whole 8) (whole 9))).ended ≡ true }
    ensures goes_out { heard (begun ending) (cells_of (whole 3) (whole 8) (whole 9))
        ≡ whole 4 ∷ whole 4 ∷ whole 4 ∷ whole 4 ∷ [] }
    // A start that is refused keeps what it has written and scheduled before, and does nothing after.
    ensures refused { (start missing_table).world.cause ≡ Some (no_table (pos 9)) }
    ensures kept { (start missing_table).world.shared 0 ≡ whole 5 }
    ensures asked { (start missing_table).world.asks ≡ (whole 5 ∷ whole 0 ∷ whole 0 ∷ []) ∷ [] }
    // Delays of 2^18 samples together, and delays of one sample more.
    ensures delays { (start (two_delays (whole 16384) (whole 16384))).world.cause ≡ None }
    ensures long_delays { (start (two_delays (whole 16384) (pos 1073750016))).world.cause
        ≡ Some (delay_too_long 262145) }
{}
