// Properties of expanded orchestras: functions that do nothing, and whose contracts are the laws.
ghost use Rattle.std.specs.Prelude.{◌≡◌, ◌-◌, [], ◌∷◌, Ok, Err, Some, None, codes};
ghost use Rattle.cs_base.specs.Limits.{most_instruments};
ghost use Rattle.cs_base.specs.declared.fault.OrcKind.TheVariants as orc;
ghost use Rattle.cs_base.specs.declared.refusal.Refusal.TheVariants as refusal;
ghost use Rattle.cs_base.specs.declared.limit.Limit.TheVariants as limit;
ghost use Rattle.cs_grammar.specs.Tree.{field, set, choose, no_stmt, otherwise, arm};
ghost use Rattle.cs_udo.specs.{Counted.counts_in, Counted.line_passing, Counted.numbers_hit, Expanded.opcodes_before};
ghost use Rattle.cs_udo.specs.{Expanding.expanding, Worked.text_call, Worked.uncalled, Worked.called_outside};
ghost use Rattle.cs_udo.specs.Worked.{literal, statements, instrument_1, twice, one_call, calls_twice, twice_expanded};
ghost use Rattle.cs_udo.specs.Worked.{four, calls_four, four_expanded, count, calls_count, count_expanded, wrong_call};

/// Expansions worked out by hand: an opcode that doubles, called on its own result; an opcode that calls it
/// twice; an opcode that counts, called in two places; an orchestra without definitions, which is unchanged;
/// and refused calls: the number of arguments is checked before their kind, also in a definition that is
/// never called, and outside instruments.
pub fn opcodes_worked_by_hand()
    ensures twice { expanding (instrument_1 (twice ∷ []) calls_twice) ≡ Ok (instrument_1 [] twice_expanded) }
    ensures nested { expanding (instrument_1 (twice ∷ four ∷ []) calls_four) ≡ Ok (instrument_1 [] four_expanded) }
    ensures plain { expanding (instrument_1 [] twice_expanded) ≡ Ok (instrument_1 [] twice_expanded) }
    ensures count { expanding (instrument_1 (count ∷ []) calls_count) ≡ Ok (instrument_1 [] count_expanded) }
    ensures number { expanding (instrument_1 (twice ∷ []) (wrong_call ∷ []))
        ≡ Err (refusal.Orc (record { line = 9; kind = orc.ArgCount })) }
    ensures kind { expanding (instrument_1 (twice ∷ []) (text_call ∷ []))
        ≡ Err (refusal.Orc (record { line = 9; kind = orc.RateMismatch })) }
    ensures uncalled { expanding (instrument_1 (twice ∷ uncalled ∷ []) (wrong_call ∷ []))
        ≡ Err (refusal.Orc (record { line = 7; kind = orc.ArgCount })) }
    ensures outside { expanding (called_outside (twice ∷ []))
        ≡ Err (refusal.Orc (record { line = 7; kind = orc.RateMismatch })) }
{}

/// Statement counts and limits worked out by hand.
pub fn counts_worked_by_hand()
    // `k1 Twice p4`: one input, two assignments for its result, and one for the call.
    ensures call { counts_in (opcodes_before 9 (twice ∷ [])) (statements (one_call ∷ [])) ≡ (9, 4) ∷ [] }
    // `k1 Four p4`: one input, three assignments for each of the two calls in it, two for its result, and
    // three for the calls.
    ensures nested { counts_in (opcodes_before 9 (twice ∷ four ∷ [])) (statements calls_four) ≡ (9, 12) ∷ [] }
    // An `if` counts as one, followed by the statements in it.
    ensures choice { counts_in (opcodes_before 9 (twice ∷ []))
        (statements (choose 9 (arm (field 5) (statements (one_call ∷ []))
        (otherwise (statements (set 13 (codes "k1") (literal 0) ∷ [])))) ∷ [])) ≡ (9, 1) ∷ (9, 4) ∷ (13, 1) ∷ [] }
    // 3 and 2 are 5, which doesn't exceed 5; the 1 on line 4 exceeds it.
    ensures passed { line_passing 5 0 ((1, 3) ∷ (2, 2) ∷ (4, 1) ∷ (5, 9) ∷ []) ≡ Some 4 }
    ensures within { line_passing 6 0 ((1, 3) ∷ (2, 2) ∷ (4, 1) ∷ []) ≡ None }
    // An instrument with one number is the last that may follow `most_instruments` - 1 numbers.
    ensures last { numbers_hit (most_instruments - 1) (record { line = 8; numbers = 1 ∷ []; body = no_stmt }) ≡ None }
    ensures one_more { numbers_hit most_instruments (record { line = 8; numbers = 1 ∷ []; body = no_stmt })
        ≡ Some (record { limit = limit.Instruments; line = 8 }) }
{}
