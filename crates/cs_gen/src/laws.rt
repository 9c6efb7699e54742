// Facts about every accepted table. These functions do nothing; their contracts state the facts.
ghost use Rattle.std.specs.Prelude.{◌≡◌, ◌∷◌, [], List, Some, None, ℤ, pos, negsuc, ◌≤ℤ◌};
ghost use Rattle.cs_gen.specs.{Faults.table_fault, Places.place_of_index};
ghost use Rattle.cs_gen.specs.declared.check.GenFault.TheVariants as fault;
ghost use Rattle.cs_gen.specs.{Points.points_of, Tables.IsMade, Tables.curve_of};

/// An accepted size is from 2 to 65,537, and the points of an accepted table form a made table (`IsMade`).
pub fn accepted_tables_are_made()
    ensures size { (size gen : ℤ) (args : List ℤ) → table_fault size gen args ≡ None
        → (pos 2 ≤ℤ size) × (size ≤ℤ pos 65537) }
    ensures made { (size gen : ℤ) (args : List ℤ) → table_fault size gen args ≡ None
        → IsMade size gen args (points_of size gen args) }
{}

/// Worked examples: the tables of docs/LANGUAGE.md. They are a sine in 8 places, segments, arguments with
/// their guard point, and normalised arguments.
pub fn tables_worked_by_hand()
    ensures sine { points_of (pos 8) (negsuc 9) (pos 65536 ∷ [])
        ≡ pos 0 ∷ pos 46341 ∷ pos 65536 ∷ pos 46341
        ∷ pos 0 ∷ negsuc 46341 ∷ negsuc 65535 ∷ negsuc 46341 ∷ [] }
    ensures thirds { points_of (pos 4) (negsuc 6) (pos 0 ∷ pos 196608 ∷ negsuc 0 ∷ [])
        ≡ pos 0 ∷ negsuc 0 ∷ negsuc 0 ∷ negsuc 0 ∷ [] }
    ensures jump { points_of (pos 4) (negsuc 6)
        (pos 65536 ∷ pos 131072 ∷ pos 65536 ∷ pos 0 ∷ pos 327680 ∷ pos 65536 ∷ pos 458752 ∷ [])
        ≡ pos 65536 ∷ pos 65536 ∷ pos 327680 ∷ pos 458752 ∷ [] }
    ensures normalised { points_of (pos 4) (pos 2) (pos 65536 ∷ pos 131072 ∷ pos 262144 ∷ [])
        ≡ pos 16384 ∷ pos 32768 ∷ pos 65536 ∷ pos 0 ∷ [] }
    ensures guard { curve_of (points_of (pos 3) (negsuc 1) (pos 5 ∷ pos 6 ∷ pos 7 ∷ [])) ≡ pos 5 ∷ pos 6 ∷ pos 7 ∷ [] }
    ensures turn { curve_of (points_of (pos 4) (pos 10) (pos 65536 ∷ []))
        ≡ pos 0 ∷ pos 65536 ∷ pos 0 ∷ negsuc 65535 ∷ pos 0 ∷ [] }
{}

/// Worked examples of docs/LANGUAGE.md: which tables are refused, and the place of an index. The size is
/// checked before the GEN, and the GEN before the lengths of segments. A length with no value after it isn't
/// checked.
pub fn faults_worked_by_hand()
    ensures three_points { table_fault (pos 3) (pos 2) [] ≡ None }
    ensures no_size { (table_fault (pos 1) (pos 2) [] ≡ Some fault.Size)
        × (table_fault (pos 6) (pos 2) [] ≡ Some fault.Size)
        × (table_fault (pos 65538) (pos 2) [] ≡ Some fault.Size)
        × (table_fault (negsuc 7) (pos 2) [] ≡ Some fault.Size) }
    ensures unknown { (table_fault (pos 4) (pos 3) [] ≡ Some fault.Unknown)
        × (table_fault (pos 4) (pos 0) [] ≡ Some fault.Unknown) }
    ensures negative { table_fault (pos 4) (negsuc 6) (pos 0 ∷ negsuc 16383 ∷ pos 65536 ∷ [])
        ≡ Some fault.NegativeLength }
    ensures unfinished { table_fault (pos 4) (negsuc 6) (pos 458752 ∷ negsuc 65535 ∷ []) ≡ None }
    ensures size_first { table_fault (pos 6) (pos 3) (pos 0 ∷ negsuc 65535 ∷ pos 65536 ∷ []) ≡ Some fault.Size }
    ensures size_before_length { table_fault (pos 6) (pos 7) (pos 0 ∷ negsuc 65535 ∷ pos 65536 ∷ []) ≡ Some fault.Size }
    ensures unknown_before_length { table_fault (pos 4) (pos 3) (pos 0 ∷ negsuc 65535 ∷ pos 65536 ∷ [])
        ≡ Some fault.Unknown }
    ensures index { (place_of_index 4 (negsuc 65535) ≡ 0) × (place_of_index 4 (pos 65470) ≡ 0)
        × (place_of_index 4 (pos 131072) ≡ 2) × (place_of_index 4 (pos 589824) ≡ 3) }
{}
