// Properties of the grammar that hold for every list of tokens: functions that do nothing, and whose
// contracts are the laws.
ghost use Rattle.std.specs.Prelude.{◌≡◌, ◌⊎◌, ℕ, List};
ghost use Rattle.cs_base.specs.{Lines.Excerpt, declared.fault.OrcKind.OrcKind};
ghost use Rattle.cs_lex.specs.{declared.token.Token.Token, Lexed.Lexed};
ghost use Rattle.cs_grammar.specs.{Tree.Orchestra, Orchestra.Tree, Orchestra.ParseFault};
ghost use Rattle.cs_grammar.specs.WellFormed.{IsWellFormed, InOrder};

use cs_lex::tokens_stand_in_the_text;

/// The tokens of every text have either exactly one tree or exactly one first fault.
pub fn one_reading()
    ensures some { (source : List ℕ) (tokens : List Token)
        → ((orc : Orchestra) × Tree source tokens orc)
        ⊎ ((line : ℕ) × (kind : OrcKind) × ParseFault source tokens line kind) }
    ensures one_tree { (source : List ℕ) (tokens : List Token) (o p : Orchestra)
        → Tree source tokens o → Tree source tokens p → o ≡ p }
    ensures one_fault { (source : List ℕ) (tokens : List Token) (l m : ℕ) (j k : OrcKind)
        → ParseFault source tokens l j → ParseFault source tokens m k → (l ≡ m) × (j ≡ k) }
    ensures not_both { (source : List ℕ) (tokens : List Token) (o : Orchestra) (l : ℕ) (k : OrcKind)
        → Tree source tokens o → ParseFault source tokens l k → ⊥ }
{}

/// Properties of every tree of a text: names, fields and numbers are in their ranges, calls appear only where
/// they are allowed, an `if` is inside at most 99 others, and no instrument number and no opcode name is used
/// twice. The line numbers of its parts increase in the order of the text.
pub fn trees_are_well_formed()
    ensures well_formed { (text : Excerpt) (tokens : List Token) (orc : Orchestra)
        → Lexed text tokens → Tree text.bytes tokens orc → IsWellFormed orc }
    ensures in_order { (text : Excerpt) (tokens : List Token) (orc : Orchestra)
        → Lexed text tokens → Tree text.bytes tokens orc → InOrder orc }
{
    // For the prover: tokens follow one another, and their line numbers never decrease.
    tokens_stand_in_the_text();
}
