// Worked examples of small pieces. The function does nothing; its contract is the examples.
ghost use Rattle.std.specs.Prelude.{◌≡◌, ◌∷◌, [], ℕ, ℤ, pos, true, false, Some};
ghost use Rattle.cs_base.specs.declared.resource.Res.TheVariants as res;
ghost use Rattle.cs_meaning.specs.Examples.{small_piece, heard, endings, cause_of, asked_by, each, whole, no_code};
ghost use Rattle.cs_meaning.specs.Examples.{zeros, counting, telling, ending, writing_place, reading_places, five};
ghost use Rattle.cs_meaning.specs.Examples.{sounding_gi, setting_nine, deciding, two_outside, followed};
ghost use Rattle.cs_meaning.specs.Examples.{followed_places, kept_by, missing_table, long_delay, asking, setting_one};
ghost use Rattle.cs_meaning.specs.Examples.{reading, writing_first, reading_first, reading_any, uses_of, writes_of};
ghost use Rattle.cs_meaning.specs.Model.{no_table, delay_too_long};

/// Worked examples of small pieces: eight frames a second, four frames a control cycle, two cycles.
pub fn notes_worked_by_hand()
    // gk1 is increased before another note plays its value, and after.
    ensures counted_first { heard (small_piece 0 0) zeros (counting ∷ telling ∷ [])
        ≡ each (whole 1) ∷ each (whole 2) ∷ [] }
    ensures told_first { heard (small_piece 0 0) zeros (telling ∷ counting ∷ [])
        ≡ each (whole 0) ∷ each (whole 1) ∷ [] }
    // After `turnoff` in the second cycle, the rest of that cycle still sounds.
    ensures sounds { heard (small_piece 0 0) no_code (ending ∷ []) ≡ each (whole 1) ∷ each (whole 2) ∷ [] }
    ensures ends { endings (small_piece 0 0) no_code (ending ∷ []) ≡ (false ∷ []) ∷ (true ∷ []) ∷ [] }
    // One note writes zak place 1. The next note reads places 1 and 5; place 5 doesn't exist.
    ensures places { heard (small_piece 2 2) no_code (writing_place ∷ reading_places ∷ [])
        ≡ each (whole 70) ∷ each (whole 70) ∷ [] }
    // An i-rate value is kept as the note begins: when a later note sets `gi`, nothing changes.
    ensures kept { heard (small_piece 0 0) five (sounding_gi ∷ setting_nine ∷ [])
        ≡ each (whole 5) ∷ each (whole 5) ∷ [] }
    // An `if` at i-rate decides once.
    ensures decided { heard (small_piece 0 0) no_code (deciding ∷ []) ≡ each (whole 4) ∷ each (whole 4) ∷ [] }
    // The note that docs/MEANING.md follows: the values that it keeps, the sound, and that its second cycle
    // is its last.
    ensures followed_keeps { kept_by (small_piece 0 0) two_outside followed followed_places ≡ whole 70 ∷ whole 4 ∷ [] }
    ensures followed_sounds { heard (small_piece 0 0) two_outside (followed ∷ [])
        ≡ each (whole 72) ∷ each (whole 74) ∷ [] }
    ensures followed_ends { endings (small_piece 0 0) two_outside (followed ∷ []) ≡ (false ∷ []) ∷ (true ∷ []) ∷ [] }
    // A table that doesn't exist, and a delay of 320,000 samples.
    ensures no_table { cause_of (small_piece 0 0) missing_table ≡ Some (no_table (pos 9)) }
    ensures long_delay { cause_of (small_piece 0 0) long_delay ≡ Some (delay_too_long 320000) }
    // A note schedules another one.
    ensures asks { asked_by (small_piece 0 0) asking ≡ (whole 2 ∷ whole 0 ∷ whole 1 ∷ whole 7 ∷ []) ∷ [] }
    // Conflicts: one note writes gk1, another reads gk1, the third reads gk2.
    ensures writes { writes_of 0 setting_one ≡ res.Gk 0 ∷ [] }
    ensures uses { uses_of 0 (reading 0) ≡ res.Gk 0 ∷ [] }
    ensures uses_other { uses_of 0 (reading 1) ≡ res.Gk 1 ∷ [] }
    // A literal index names its zak place; any other index may name all places.
    ensures first_place { writes_of 4 writing_first ≡ res.ZakK 0 ∷ [] }
    ensures same_place { uses_of 4 reading_first ≡ res.ZakK 0 ∷ [] }
    ensures all_places { uses_of 4 reading_any ≡ res.ZakK 0 ∷ res.ZakK 1 ∷ res.ZakK 2 ∷ res.ZakK 3 ∷ [] }
{}
