// Properties of typed orchestras: functions that do nothing, and whose contracts are the laws.
ghost use Rattle.std.specs.List.{All, IsDistinct, flat_map};
ghost use Rattle.std.specs.Prelude.{ℕ, ◌≡◌, List, None, eqb};
ghost use Rattle.cs_grammar.specs.{Tree.Orchestra, Tree.Statement, Tree.Block, WellFormed.IsWellFormed};
ghost use Rattle.cs_typed.specs.declared.setting.Setting.{Setting};
ghost use Rattle.cs_typing.specs.{Known.KnownHere, Typing.type_fault, Typing.typed_of};
ghost use Rattle.cs_typing.specs.Renaming.{IsRenaming, renamed, renamed_block, renamed_known};
ghost use Rattle.cs_typing.specs.Statements.{known, known_block, fault, block_fault, typed_statement, typed_block};
ghost use Rattle.cs_typed.specs.TypedTree as typed;
ghost use Rattle.cs_typed.specs.WellRated.{IsWellRated, BlockHasNoZakinit};

/// The typed form of an orchestra without a fault agrees with the rules of rates: each part of an expression
/// changes as often as its fastest part, an `if` runs once if and only if all its conditions are known when
/// the note begins, the arguments of a call fit the letters of its opcode's row, and no more audio signals go
/// out than the piece has channels.
pub fn typing_is_well_rated()
    ensures { (o : Orchestra) → type_fault o ≡ None → IsWellRated (typed_of o) }
{}

/// There is no `zakinit` in an instrument of an orchestra that was read.
pub fn instruments_have_no_zakinit()
    ensures { (o : Orchestra) → IsWellFormed o → All (λ i. BlockHasNoZakinit i.body) (typed_of o).instrs }
{}

/// No two instruments of an orchestra that was read have the same number: in the typed form, too, each number
/// belongs to one instrument, and appears once in its line. Compiling the codes (`lower`) requires this.
pub fn numbers_stand_once()
    ensures { (o : Orchestra) → IsWellFormed o
        → IsDistinct eqb (flat_map (λ (i : typed.Instrument). i.numbers) (typed_of o).instrs) }
{}

/// The names of local variables don't matter: if they are renamed to different names of the same rates,
/// statements have the same typed form and the same fault under the renamed known names, and the names known
/// afterwards are the renamed ones.
pub fn local_names_dont_matter()
    ensures typed { (f : List ℕ → List ℕ) → IsRenaming f → (n : KnownHere) → (x : Statement) →
        typed_statement (renamed_known f n) (renamed f x) ≡ typed_statement n x }
    ensures typed_block { (f : List ℕ → List ℕ) → IsRenaming f → (n : KnownHere) → (b : Block) →
        typed_block (renamed_known f n) (renamed_block f b) ≡ typed_block n b }
    ensures known { (f : List ℕ → List ℕ) → IsRenaming f → (n : KnownHere) → (x : Statement) →
        known (renamed_known f n) (renamed f x) ≡ renamed_known f (known n x) }
    ensures known_block { (f : List ℕ → List ℕ) → IsRenaming f → (n : KnownHere) → (b : Block) →
        known_block (renamed_known f n) (renamed_block f b) ≡ renamed_known f (known_block n b) }
    ensures fault { (f : List ℕ → List ℕ) → IsRenaming f → (s : Setting) → (n : KnownHere) → (x : Statement) →
        fault s (renamed_known f n) (renamed f x) ≡ fault s n x }
    ensures block_fault { (f : List ℕ → List ℕ) → IsRenaming f → (s : Setting) → (n : KnownHere) → (b : Block) →
        block_fault s (renamed_known f n) (renamed_block f b) ≡ block_fault s n b }
{}
