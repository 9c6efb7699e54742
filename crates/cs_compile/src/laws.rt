// What holds for the meaning of every two texts: calls that do nothing as they run, whose contracts are the
// laws.
ghost use Rattle.std.specs.Prelude.{◌≡◌, Result, Ok};
ghost use Rattle.cs_base.specs.{Lines.Excerpt, declared.head.Head.Head, declared.refusal.Refusal.Refusal};
ghost use Rattle.cs_base.specs.declared.width.SampleWidth.{SampleWidth};
ghost use Rattle.cs_compile.specs.{Calls.MeansCalls, Meaning.means};
ghost use Rattle.cs_piece_meaning.specs.Moments.{Composition};
ghost use Rattle.cs_typed.specs.TypedTree.{header_of_head};

use cs_grammar::{one_reading as one_tree, trees_are_well_formed};
use cs_lex::one_reading as one_list_of_tokens;
use cs_udo_meaning::expansion_means_calls;

/// For the prover: two texts always have exactly one meaning, for samples of either width: one composition,
/// whose header has its numbers in the ranges of a head, or one first refusal.
pub fn texts_have_one_meaning()
    ensures some { (width : SampleWidth) (orchestra score : Excerpt)
        → (r : Result Composition Refusal) × means width orchestra score r }
    ensures one { (width : SampleWidth) (orchestra score : Excerpt) (r s : Result Composition Refusal)
        → means width orchestra score r → means width orchestra score s → r ≡ s }
    ensures head { (width : SampleWidth) (orchestra score : Excerpt) (c : Composition)
        → means width orchestra score (Ok c) → (head : Head) × (header_of_head head ≡ c.head) }
{
    one_list_of_tokens();
    one_tree();
}

/// For the prover: if two texts mean a piece, each instrument of the piece means the one with its number in
/// the orchestra's text, where each call of a user-defined opcode has its own frame. As a note begins and in
/// every control cycle the statements of the piece do what that instrument does (`MeansFrames` of
/// cs_udo_meaning), in every world with states `W`.
pub fn pieces_mean_their_calls<W>()
    ensures { (width : SampleWidth) (orchestra score : Excerpt) (c : Composition)
        → means width orchestra score (Ok c) → MeansCalls W orchestra c }
{
    trees_are_well_formed();
    expansion_means_calls::<W>();
}
