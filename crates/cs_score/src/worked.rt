// Worked examples: the scores of docs/LANGUAGE.md, read by the definitions. These functions do nothing; their
// contracts are the examples.
ghost use Rattle.std.specs.Prelude.{◌≡◌, ◌∷◌, [], Ok, negsuc, codes};
ghost use Rattle.cs_base.specs.declared.fault.ScoreKind.TheVariants as kind;
ghost use Rattle.cs_base.specs.Lines.{excerpt};
ghost use Rattle.cs_score.specs.Statements.{score_of};
ghost use Rattle.cs_score.specs.Worked.{AllRefused, bare_note, held_note, meant, note, refused, section_end, stop};
ghost use Rattle.cs_score.specs.Worked.{table, whole};

/// The scores of docs/LANGUAGE.md's table of starts, and its rules for carried fields. An `i` continues a
/// statement whose p1 has the same value and sign, but never one before a `b`. Comments and blank lines may
/// come between, and each section begins with base 0.
pub fn starts_worked_by_hand()
    ensures plus { meant (codes "i1 0 1 5\ni1 + . .\ni1 ^+2 . 6") ≡ Ok (note 1 0 5 ∷ note 2 1 5 ∷ note 3 3 6 ∷ []) }
    ensures left_off { meant (codes "i1 0 1 5\ni . +\ni") ≡ Ok (note 1 0 5 ∷ note 2 1 5 ∷ note 3 2 5 ∷ []) }
    ensures base { meant (codes "b 2\ni1 0 1 5\ni1 + . .") ≡ Ok (note 2 2 5 ∷ note 3 3 5 ∷ []) }
    ensures held { meant (codes "i1 0 -1 9\ni1 + 1 5") ≡ Ok (held_note 1 0 9 ∷ note 2 1 5 ∷ []) }
    ensures stops { meant (codes "i-1 1\ni-1 +") ≡ Ok (stop 1 1 ∷ stop 2 1 ∷ []) }
    ensures same_value { meant (codes "i1 0 1 5\ni01. + . .") ≡ Ok (note 1 0 5 ∷ note 2 1 5 ∷ []) }
    ensures other_sign { meant (codes "i1 0 1 5\ni-1 +") ≡ refused 2 kind.NothingToCarry }
    ensures past_base { meant (codes "i1 0 1 5\nb 1\ni1 + . .") ≡ refused 3 kind.NothingToCarry }
    ensures comments_between { meant (codes "i1 0 1 5 ; a\n\n/* b */ i1 + . .") ≡ Ok (note 1 0 5 ∷ note 3 1 5 ∷ []) }
    ensures next_section { meant (codes "b 2\ni1 0 1\ns\ni1 0 1")
        ≡ Ok (bare_note 2 2 ∷ section_end 3 ∷ bare_note 4 0 ∷ []) }
{}

/// The way docs/LANGUAGE.md reads fields. Times have six decimal digits, and integers are recognised by nine.
/// A comment is a blank even within a word, and text after an `e` is ignored.
pub fn fields_worked_by_hand()
    ensures tiny { meant (codes "i1 -0.0000001 1") ≡ Ok (bare_note 1 0 ∷ []) }
    ensures whole_by_nine { (meant (codes "i1.0000000001 0 1") ≡ Ok (bare_note 1 0 ∷ []))
        × (meant (codes "i1.000001 0 1") ≡ refused 1 kind.NotInProfile) }
    ensures within_word { meant (codes "i1 0 1/* a */5") ≡ Ok (note 1 0 5 ∷ []) }
    ensures at_once { meant (codes "i 1 0 1") ≡ Ok (bare_note 1 0 ∷ []) }
    ensures ended { meant (codes "i1 0 1\ne\nq 1") ≡ Ok (bare_note 1 0 ∷ []) }
    ensures table { meant (codes "f1 0 4 -2 5 6") ≡ Ok (table 1 (negsuc 1) (whole 5 ∷ whole 6 ∷ []) ∷ []) }
{}

/// The examples of docs/LANGUAGE.md's table of refusals: each is refused for the kind stated there.
pub fn refusals_worked_by_hand()
    ensures bad_statement { AllRefused kind.BadStatement (codes "1 2" ∷ codes "{" ∷ []) }
    ensures bad_number { AllRefused kind.BadNumber (codes "i1 0 1e3" ∷ codes "i1 0 +" ∷ codes "i0 0 1"
        ∷ codes "i1 9999999 1" ∷ codes "f1 . 2 2" ∷ codes "t 0 60 10000000 60" ∷ []) }
    ensures missing_field { AllRefused kind.MissingField
        (codes "i1 0" ∷ codes "i-1" ∷ codes "f 0" ∷ codes "t 0" ∷ codes "b" ∷ []) }
    ensures nothing_to_carry { meant (codes "i1 0 1 5\ni2 . 1") ≡ refused 2 kind.NothingToCarry }
    ensures bad_tempo { AllRefused kind.BadTempo (codes "t 1 60" ∷ codes "t 0 60001" ∷ []) }
    ensures bad_gen { meant (codes "f1 0 4 3") ≡ refused 1 kind.BadGen }
    ensures bad_size { meant (codes "f1 0 6 2") ≡ refused 1 kind.BadTableSize }
    ensures resized { meant (codes "f1 0 4 2\nf1 0 8 2") ≡ refused 2 kind.TableResized }
    ensures negative_time { AllRefused kind.NegativeTime (codes "i1 -1 1" ∷ codes "b -1" ∷ []) }
    ensures not_in_profile { AllRefused kind.NotInProfile (codes "q 1" ∷ codes "e 1" ∷ codes "i1 0 <"
        ∷ codes "i1 ^1 1" ∷ codes "i0.5 0 1" ∷ codes "f-1 0 2 2" ∷ []) }
{}

/// The order of refusals, with the numbers of faults. Statements come in order; in a statement the letter,
/// then the fields from left to right, then their number. Of a table, its size comes first (7), then the
/// first size of its number (8), then its GEN (6). The reported line is the line of the letter.
pub fn order_of_refusals_worked_by_hand()
    ensures statements { meant (codes "i1 0\n1 2") ≡ refused 1 kind.MissingField }
    ensures letter { meant (codes "q 1e3") ≡ refused 1 kind.NotInProfile }
    ensures fields_before_count { (meant (codes "i1 -1") ≡ refused 1 kind.NegativeTime)
        × (meant (codes "f1 0 1e3") ≡ refused 1 kind.BadNumber)
        × (meant (codes "t 1") ≡ refused 1 kind.BadTempo) }
    ensures count_before_size { meant (codes "f1 0 6") ≡ refused 1 kind.MissingField }
    ensures size_before_gen { meant (codes "f1 0 6 3") ≡ refused 1 kind.BadTableSize }
    ensures size_before_resized { meant (codes "f1 0 4 2\nf1 0 6 2") ≡ refused 2 kind.BadTableSize }
    ensures resized_before_gen { meant (codes "f1 0 4 2\nf1 0 8 3") ≡ refused 2 kind.TableResized }
    ensures line_of_letter { meant (codes "/* a\nb */ i1 0 /*\n*/") ≡ refused 2 kind.MissingField }
    ensures line_of_the_file { score_of (excerpt 9 (codes "\n/* a\nb */ i1 0")) ≡ refused 11 kind.MissingField }
{}
