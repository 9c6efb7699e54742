// Worked examples of each kind of statement, each operator and each function. These functions do nothing;
// their contracts are the examples.
ghost use Rattle.std.specs.Prelude.{◌≡◌, ◌∷◌, [], pos, negsuc, Some};
ghost use Rattle.cs_base.specs.declared.resource.Rate.TheVariants as rate;
ghost use Rattle.cs_words.specs.declared.sign.BinOp.TheVariants as sign;
ghost use Rattle.cs_words.specs.declared.word.Func.TheVariants as func;
ghost use Rattle.cs_words.specs.declared.word.HeadName.TheVariants as name;
ghost use Rattle.cs_typed.specs.TypedTree.{head, neg};
ghost use Rattle.cs_meaning.specs.Examples.{small_piece, heard, cause_of, each, whole, no_code, lit};
ghost use Rattle.cs_meaning.specs.Kinds.{initialising_both, deciding_inside, reading_once, storing, mixing_places};
ghost use Rattle.cs_meaning.specs.Kinds.{writing_sounds, mixing_channel, clearing_channel, setting_channel};
ghost use Rattle.cs_meaning.specs.Kinds.{sending_to_numbers, choosing, sizing, worth, made_of, of_number, points_after};
ghost use Rattle.cs_meaning.specs.Model.{no_table};

/// Worked examples: one kind of statement per note, and what is heard in two cycles of four frames.
pub fn kinds_worked_by_hand()
    // An `if` that may choose anew in each cycle initialises all its arms, and also an `if` inside one of
    // them.
    ensures both_arms { heard (small_piece 0 0) no_code (initialising_both ∷ [])
        ≡ each (whole 4) ∷ each (whole 4) ∷ [] }
    ensures inside { heard (small_piece 0 0) no_code (deciding_inside ∷ []) ≡ each (whole 3) ∷ each (whole 3) ∷ [] }
    // `i` of a variable is the value that the variable had as the note began.
    ensures read_once { heard (small_piece 0 0) no_code (reading_once ∷ []) ≡ each (whole 56) ∷ each (whole 57) ∷ [] }
    // A conditional expression, and a `zakinit`, which does nothing here.
    ensures chosen { heard (small_piece 0 0) no_code (choosing ∷ []) ≡ each (whole 2) ∷ each (whole 2) ∷ [] }
    ensures sized { heard (small_piece 3 3) no_code (sizing ∷ []) ≡ each (whole 1) ∷ each (whole 1) ∷ [] }
    // `tablew` stores at its index. A note whose table doesn't exist is refused.
    ensures stored { points_after storing ≡ whole 0 ∷ whole 0 ∷ whole 9 ∷ whole 0 ∷ [] }
    ensures refused { cause_of (small_piece 0 0) storing ≡ Some (no_table (pos 1)) }
    // `zawm` adds and `zaw` stores; `zacl` sets places to 0.
    ensures mixed_places { heard (small_piece 3 3) no_code (mixing_places ∷ [])
        ≡ each (whole 60) ∷ each (whole 60) ∷ [] }
    ensures written_places { heard (small_piece 3 3) no_code (writing_sounds ∷ [])
        ≡ each (whole 3) ∷ each (whole 3) ∷ [] }
    // `chnmix` adds to the value left by the previous cycle, `chnclear` sets to 0, `chnset` stores.
    ensures mixed_channel { heard (small_piece 0 0) no_code (mixing_channel ∷ [])
        ≡ each (whole 3) ∷ each (whole 6) ∷ [] }
    ensures cleared_channel { heard (small_piece 0 0) no_code (clearing_channel ∷ [])
        ≡ each (whole 3) ∷ each (whole 3) ∷ [] }
    ensures set_channel { heard (small_piece 0 0) no_code (setting_channel ∷ [])
        ≡ each (whole 7) ∷ each (whole 7) ∷ [] }
    // With one channel, the numbers 2, 0 and -1 name no channel, and 1.9 names channel 1.
    ensures numbered { heard (small_piece 0 0) no_code (sending_to_numbers ∷ [])
        ≡ each (whole 3) ∷ each (whole 3) ∷ [] }
{}

/// Worked examples: the values of each operator, each function and the header's names.
pub fn values_worked_by_hand()
    ensures sum { made_of sign.Add 7 2 ≡ whole 9 }
    ensures difference { made_of sign.Sub 2 7 ≡ negsuc 327679 }
    ensures product { made_of sign.Mul 7 2 ≡ whole 14 }
    ensures quotient { made_of sign.Div 7 2 ≡ pos 229376 }
    ensures remainder { made_of sign.Rem 7 4 ≡ whole 3 }
    // A truth value is 1 or 0.
    ensures less { made_of sign.Less 2 7 ≡ whole 1 }
    ensures not_less { made_of sign.Less 7 7 ≡ whole 0 }
    ensures greater { made_of sign.Greater 2 7 ≡ whole 0 }
    ensures less_or_equal { made_of sign.LessEqual 7 7 ≡ whole 1 }
    ensures greater_or_equal { made_of sign.GreaterEqual 2 7 ≡ whole 0 }
    ensures equal { made_of sign.Equal 7 7 ≡ whole 1 }
    ensures different { made_of sign.NotEqual 7 7 ≡ whole 0 }
    ensures both { made_of sign.And 7 0 ≡ whole 0 }
    ensures either { made_of sign.Or 7 0 ≡ whole 1 }
    ensures negated { worth (neg rate.Init (lit 1)) ≡ negsuc 65535 }
    // 2.5, and -0.5: `int` rounds towards 0, `floor` down.
    ensures whole_part { of_number func.Int (pos 163840) ≡ whole 2 }
    ensures whole_part_below { of_number func.Int (negsuc 32767) ≡ whole 0 }
    ensures fraction { of_number func.Frac (pos 163840) ≡ pos 32768 }
    ensures distance { of_number func.Abs (negsuc 32767) ≡ pos 32768 }
    ensures floor { of_number func.Floor (negsuc 32767) ≡ negsuc 65535 }
    // 8.09 is an A of 440 hertz.
    ensures pitch { of_number func.Cpspch (pos 530186) ≡ whole 440 }
    // Eight frames a second, four frames a cycle, one channel.
    ensures frames { worth (head rate.Init name.Sr) ≡ whole 8 }
    ensures cycles { worth (head rate.Init name.Kr) ≡ whole 2 }
    ensures cycle { worth (head rate.Init name.Ksmps) ≡ whole 4 }
    ensures channels { worth (head rate.Init name.Nchnls) ≡ whole 1 }
    ensures full_scale { worth (head rate.Init name.Dbfs) ≡ whole 32768 }
{}
