// Properties of tokens and first faults that hold for every text: functions that do nothing, and whose
// contracts are the laws.
ghost use Rattle.std.specs.Prelude.{◌≡◌, ◌≢◌, ◌⊎◌, ◌≤◌, ◌++◌, ◌∷◌, [], ℕ, pos, List, length, codes};
ghost use Rattle.std.specs.List.{All, AllPairs};
ghost use Rattle.cs_base.specs.{Lines.Excerpt, Lines.excerpt, Lines.whole_file, declared.fault.OrcKind.OrcKind};
ghost use Rattle.cs_base.specs.declared.fault.OrcKind.TheVariants as orc;
ghost use Rattle.cs_lex.specs.declared.token.Mark.TheVariants as mark;
ghost use Rattle.cs_lex.specs.declared.token.Token.{Token};
ghost use Rattle.cs_lex.specs.Lexed.{Lexed, LexFault, end_of, token_at, Precedes, IsEndedBy};

/// Every text has either exactly one list of tokens or exactly one first fault.
pub fn one_reading()
    ensures some { (text : Excerpt) → ((tokens : List Token) × Lexed text tokens)
        ⊎ ((line : ℕ) × (kind : OrcKind) × LexFault text line kind) }
    ensures one_list { (text : Excerpt) (ts us : List Token) → Lexed text ts → Lexed text us → ts ≡ us }
    ensures one_fault { (text : Excerpt) (l m : ℕ) (j k : OrcKind)
        → LexFault text l j → LexFault text m k → (l ≡ m) × (j ≡ k) }
    ensures not_both { (text : Excerpt) (ts : List Token) (l : ℕ) (k : OrcKind)
        → Lexed text ts → LexFault text l k → ⊥ }
{}

/// Every token's span is within the text; tokens follow one another, and their line numbers never decrease;
/// `End` is the last token and appears only there.
pub fn tokens_stand_in_the_text()
    ensures within { (text : Excerpt) (ts : List Token) → Lexed text ts
        → All (λ t. (t.from ≤ t.to) × (t.to ≤ length text.bytes)) ts }
    ensures last { (text : Excerpt) (ts : List Token) → Lexed text ts
        → (front : List Token) × (ts ≡ front ++ end_of text ∷ []) × All (λ t. t.mark ≢ mark.End) front }
    ensures ascending { (text : Excerpt) (ts : List Token) → Lexed text ts → AllPairs Precedes ts }
    ensures new_lines { (text : Excerpt) (ts : List Token) → Lexed text ts → AllPairs IsEndedBy ts }
{}

/// The examples of docs/LANGUAGE.md, computed: each token with its mark, the text before it and its bytes.
/// The last two texts are parts of files, and don't begin on line 1.
pub fn worked_examples()
    ensures longest_sign { Lexed (whole_file (codes "<==")) (token_at 1 mark.Sign [] (codes "<=")
        ∷ token_at 1 mark.Sign (codes "<=") (codes "=") ∷ end_of (whole_file (codes "<==")) ∷ []) }
    ensures longest_number { Lexed (whole_file (codes "1.2.3")) (token_at 1 (mark.Number (pos 78643)) [] (codes "1.2")
        ∷ token_at 1 (mark.Number (pos 19660)) (codes "1.2") (codes ".3") ∷ end_of (whole_file (codes "1.2.3")) ∷ []) }
    ensures comment_of_two_lines { Lexed (whole_file (codes "a/*\n*/b")) (token_at 1 mark.Word [] (codes "a")
        ∷ token_at 1 mark.Word (codes "a/*\n*/") (codes "b") ∷ end_of (whole_file (codes "a/*\n*/b")) ∷ []) }
    ensures one_new_line { Lexed (whole_file (codes "\na\n;x\nb")) (token_at 1 mark.Word (codes "\n") (codes "a")
        ∷ token_at 1 mark.NewLine (codes "\na") (codes "\n")
        ∷ token_at 1 mark.Word (codes "\na\n;x\n") (codes "b") ∷ end_of (whole_file (codes "\na\n;x\nb")) ∷ []) }
    ensures open_comment { LexFault (whole_file (codes "a\n/*/")) 2 orc.OpenComment }
    ensures exponent { LexFault (whole_file (codes "1e3")) 1 orc.BadNumber }
    ensures stray { LexFault (whole_file (codes "a1 = @x")) 1 orc.BadToken }
    ensures part_of_a_file { Lexed (excerpt 4 (codes "a\n")) (record { mark = mark.Word; from = 0; to = 1; line = 4 }
        ∷ record { mark = mark.NewLine; from = 1; to = 2; line = 4 }
        ∷ record { mark = mark.End; from = 2; to = 2; line = 4 } ∷ []) }
    ensures fault_in_a_part { LexFault (excerpt 4 (codes "a\n@")) 5 orc.BadToken }
{}
