// Properties of the tables: functions that do nothing, and whose contracts are the laws.
ghost use Rattle.std.specs.Prelude.{◌≡◌, ◌≤◌, ℕ, List, [], ◌∷◌, filter, length, true, false, slice_get, Some};
ghost use Rattle.std.specs.List.{All};
ghost use Rattle.cs_base.specs.Limits.{greatest_field};
ghost use Rattle.cs_words.specs.Catalogue.{row_of, catalogued, opcodes, settled_letters, moving_letters, takes_table};
ghost use Rattle.cs_words.specs.{Catalogue.unit_takes, NameSets.has, NameSets.place_of, NameSets.seen, Names.is_name};
ghost use Rattle.cs_words.specs.{Signs.signs, Signs.sign_of, Words.words, Words.foreign_words, Words.word_of};
ghost use Rattle.cs_words.specs.declared.catalogue.Letter.TheVariants as letter;
ghost use Rattle.cs_words.specs.declared.catalogue.Opcode.{Opcode};
ghost use Rattle.cs_words.specs.declared.catalogue.Opcode.TheVariants as op;
ghost use Rattle.cs_words.specs.declared.word.Word.TheVariants as word;

/// Looking up the word of each row finds that row, so no word is in two tables, or twice in one.
pub fn words_are_apart()
    ensures opcodes { (o : Opcode) → word_of (row_of o).name ≡ word.Opcode o }
    ensures catalogue { (o : Opcode) → catalogued (row_of o).name ≡ Some o }
    ensures names { (o p : Opcode) → (row_of o).name ≡ (row_of p).name → o ≡ p }
    ensures found { (name : List ℕ) (o : Opcode) → catalogued name ≡ Some o → (row_of o).name ≡ name }
    ensures words { All (λ r. word_of r.0 ≡ r.1) words }
    ensures foreign { All (λ w. word_of w ≡ word.Foreign) foreign_words }
    ensures signs { All (λ r. sign_of r.0 ≡ r.1) signs }
{}

/// Every word that is read as a name begins like a variable, and the number of a field is from 1 to 100.
pub fn names_are_letters_of_rates()
    ensures name { (w : List ℕ) → word_of w ≡ word.Name → is_name w ≡ true }
    ensures field { (w : List ℕ) (k : ℕ) → word_of w ≡ word.Field k → (1 ≤ k) × (k ≤ greatest_field) }
{}

/// The index of a name leads back to the name, no two names have the same index, and adding a name changes no
/// earlier index.
pub fn names_have_places()
    ensures found { (names : List (List ℕ)) (n : List ℕ)
        → has names n ≡ true → slice_get names (place_of names n) ≡ Some n }
    ensures apart { (names : List (List ℕ)) (m n : List ℕ)
        → has names m ≡ true → has names n ≡ true → place_of names m ≡ place_of names n → m ≡ n }
    ensures unseen { (names : List (List ℕ)) (n : List ℕ) → has names n ≡ false → place_of names n ≡ length names }
    ensures new { (names : List (List ℕ)) (n : List ℕ)
        → has names n ≡ false → place_of (seen names n) n ≡ length names }
    ensures there { (names : List (List ℕ)) (n : List ℕ) → has (seen names n) n ≡ true }
    ensures stays { (names : List (List ℕ)) (m n : List ℕ) → has names m ≡ true → has (seen names n) m ≡ true }
    ensures kept { (names : List (List ℕ)) (m n : List ℕ)
        → has names m ≡ true → place_of (seen names n) m ≡ place_of names m }
{}

/// The numbers of settled arguments that some opcodes accept, computed with the definitions: `oscil` a table
/// and an optional phase, `linseg` three numbers and any number of pairs, `linen` its three durations, `out`
/// none.
pub fn settled_arguments()
    ensures oscil { (unit_takes (row_of op.Oscil) 0 ≡ false) × (unit_takes (row_of op.Oscil) 1 ≡ true)
        × (unit_takes (row_of op.Oscil) 2 ≡ true) × (unit_takes (row_of op.Oscil) 3 ≡ false) }
    ensures linseg { (unit_takes (row_of op.Linseg) 4 ≡ false) × (unit_takes (row_of op.Linseg) 5 ≡ true) }
    ensures linen { settled_letters (row_of op.Linen) ≡ letter.Init ∷ letter.Init ∷ letter.Init ∷ [] }
    ensures amplitude { moving_letters (row_of op.Linen) ≡ letter.Held ∷ [] }
    ensures out { (unit_takes (row_of op.Out) 0 ≡ true) × (unit_takes (row_of op.Out) 1 ≡ false) }
{}

/// The opcodes that require a table, computed with the definitions: `oscil`, `oscili`, `table`, `tablei` and
/// `tablew`.
pub fn opcodes_with_tables()
    ensures { filter takes_table opcodes ≡ op.Oscil ∷ op.Oscili ∷ op.Table ∷ op.Tablei ∷ op.Tablew ∷ [] }
{}
