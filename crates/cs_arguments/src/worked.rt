// Worked examples: arguments whose reading is worked out by hand.
ghost use Rattle.std.specs.Prelude.{◌≡◌, ◌∷◌, [], All, None, Some, codes, true};
ghost use Rattle.cs_arguments.specs.Reading.{demo, one_file, reading, two_files};
ghost use Rattle.cs_arguments.specs.Worked.{a_and_b, a_b, empty_names, no_numbers, no_options, piece_alone, twice};
ghost use Rattle.cs_arguments.specs.Worked.{unwanted_values, without_value, wrong_names};
ghost use Rattle.cs_base.specs.declared.width.SampleWidth.TheVariants.{ThreeBytes};

/// For the prover: arguments that ask for something: only names, flags that share a dash with an option, the
/// forms of a value, and arguments after `--`.
pub fn words_with_a_reading()
    ensures names { reading a_b ≡ Some (piece_alone a_and_b) }
    ensures csd { reading (codes "x.csd" ∷ codes "--pool" ∷ [])
        ≡ Some (record (piece_alone (one_file (codes "x.csd"))) { pool = true }) }
    ensures flags { reading (codes "-n3o" ∷ codes "x.wav" ∷ a_b)
        ≡ Some (record (piece_alone a_and_b) { silent = true; width = ThreeBytes; sound_file = codes "x.wav" }) }
    ensures idle { reading (codes "-nWj4" ∷ codes "a" ∷ codes "-s" ∷ codes "b" ∷ codes "-d" ∷ [])
        ≡ Some (record (piece_alone a_and_b) { silent = true; workers = 4 }) }
    ensures one_equals { reading (codes "-o==x" ∷ a_b)
        ≡ Some (record (piece_alone a_and_b) { sound_file = codes "=x" }) }
    ensures number { reading (codes "-j=+04" ∷ codes "--turns" ∷ a_b)
        ≡ Some (record (piece_alone a_and_b) { workers = 4; turns = true }) }
    ensures most { reading (codes "-j" ∷ codes "32" ∷ codes "--demo=10000" ∷ [])
        ≡ Some (record (piece_alone (demo 10000)) { workers = 32 }) }
    ensures demo { reading (codes "--demo" ∷ codes "5" ∷ []) ≡ Some (piece_alone (demo 5)) }
    ensures only_names { reading (codes "--" ∷ a_b) ≡ Some (piece_alone a_and_b) }
    ensures dashed_names { reading (codes "--" ∷ codes "-n" ∷ codes "--" ∷ [])
        ≡ Some (piece_alone (two_files (codes "-n") (codes "--"))) }
    ensures one_dash { reading (codes "-" ∷ codes "b" ∷ []) ≡ Some (piece_alone (two_files (codes "-") (codes "b"))) }
{}

/// For the prover: arguments that have no reading, by the rule that they break.
pub fn words_without_a_reading()
    ensures numbers { All (λ words. reading words ≡ None) no_numbers }
    ensures twice { All (λ words. reading words ≡ None) twice }
    ensures values { All (λ words. reading words ≡ None) without_value }
    ensures empty { All (λ words. reading words ≡ None) empty_names }
    ensures names { All (λ words. reading words ≡ None) wrong_names }
    ensures unwanted { All (λ words. reading words ≡ None) unwanted_values }
    ensures options { All (λ words. reading words ≡ None) no_options }
{}
