// Worked examples of small performances. The function does nothing; its contract is the examples.
ghost use Rattle.std.specs.Prelude.{◌≡◌, ◌∷◌, ◌++◌, [], pos, ◌*◌, flat_map, replicate};
ghost use Rattle.cs_meaning.specs.Examples.{counting, each, ending, missing_table, no_code, telling, whole, zeros};
ghost use Rattle.cs_piece_meaning.specs.{Course.closing, Heard.frames_of};
ghost use Rattle.cs_piece_meaning.specs.Examples.{asking_for_two, note, piece_of_two, sounding_p4};

/// Worked examples of small performances: eight frames a second, four frames a control cycle.
pub fn performances_worked_by_hand()
    // Instrument 1 plays a value that instrument 2 counts, and is performed before it although it started
    // later.
    ensures by_number { frames_of (piece_of_two zeros telling counting (note 2 0 3 (pos 0) ∷ note 1 1 2 (pos 0) ∷ []) 3)
        ≡ each (whole 0) ++ each (whole 1) ++ each (whole 2) }
    // A note that is turned off leaves after that cycle.
    ensures turned_off { frames_of (piece_of_two no_code ending no_code (note 1 0 3 (pos 0) ∷ []) 3)
        ≡ each (whole 1) ++ each (whole 2) ++ each (whole 0) }
    // Two notes of the greatest integer: their sum isn't clamped.
    ensures plain_sum { frames_of (piece_of_two no_code sounding_p4 no_code
        (note 1 0 1 (whole 2147483647) ∷ note 1 0 1 (whole 2147483647) ∷ []) 1) ≡ each (whole 4294967294) }
    // A note of no cycle schedules another that begins half a second later and lasts one second.
    ensures asked { frames_of (piece_of_two no_code asking_for_two sounding_p4 (note 1 0 0 (whole 7) ∷ []) 4)
        ≡ each (whole 0) ++ each (whole 7) ++ each (whole 7) ++ each (whole 0) }
    ensures both_started { (closing (piece_of_two no_code asking_for_two sounding_p4
        (note 1 0 0 (whole 7) ∷ []) 4)).started ≡ 2 }
    // A note of an instrument that doesn't exist, and a note that needs a table that doesn't exist, in the
    // cycle after the last.
    ensures not_started { (closing (piece_of_two no_code missing_table no_code
        (note 3 0 1 (pos 0) ∷ note 1 1 0 (pos 0) ∷ []) 1)).not_started ≡ 2 }
{}
