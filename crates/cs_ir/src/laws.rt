// Facts about code. These functions do nothing; their contracts state the facts.
ghost use Rattle.std.specs.Prelude.{◌≡◌, ℕ, ℤ, pos, negsuc, [], ◌∷◌, length, true, map, slice_get, Some, neg_ℤ};
ghost use Rattle.cs_base.specs.Numbers.{one};
ghost use Rattle.cs_ir.specs.{Asks.ask_of, Validity.is_fine, Validity.valid, declared.op.Code.Code, declared.op.Op.Op};
ghost use Rattle.cs_ir.specs.Values.{combined, cpspch_of};
ghost use Rattle.cs_words.specs.declared.sign.BinOp.TheVariants as op;

/// A code is valid if and only if each of its ops is fine at its place.
pub fn valid_code_is_fine()
    ensures each { (c : Code) (n : ℕ) (o : Op)
        → valid c ≡ true → slice_get c.ops n ≡ Some o → is_fine c.counts (length c.ops) n o ≡ true }
    ensures all { (c : Code)
        → ((n : ℕ) (o : Op) → slice_get c.ops n ≡ Some o → is_fine c.counts (length c.ops) n o ≡ true)
        → valid c ≡ true }
{}

/// Worked examples by the definitions: results of operators and functions, and scheduled notes.
pub fn worked_examples()
    // the pitches 8.09, 8.00, 9.00, 8.12, 7.11 and -5
    ensures pitches { map cpspch_of
        (pos 530186 ∷ pos 524288 ∷ pos 589824 ∷ pos 532152 ∷ pos 465960 ∷ negsuc 327679 ∷ [])
        ≡ pos 28835840 ∷ pos 17145921 ∷ pos 34291843 ∷ pos 34291843 ∷ pos 16183558 ∷ pos 66976 ∷ [] }
    ensures truths { combined op.Less (pos 1) (pos 2) ∷ combined op.Less (pos 2) (pos 2)
        ∷ combined op.And (pos 1) (neg_ℤ one) ∷ combined op.Or (pos 0) (pos 0) ∷ [] ≡ one ∷ pos 0 ∷ one ∷ pos 0 ∷ [] }
    ensures asked { ask_of (pos 163840 ∷ one ∷ pos 131072 ∷ pos 7 ∷ [])
        ≡ record { number = pos 2; when = one; dur = pos 131072; more = pos 7 ∷ [] } }
    ensures below_zero { (ask_of (negsuc 0 ∷ [])).number ≡ negsuc 0 }
{}
