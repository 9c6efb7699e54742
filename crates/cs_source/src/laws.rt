// What holds for the texts of every source: calls that do nothing as they run, whose contracts are the laws.
ghost use Rattle.std.specs.Prelude.{◌≡◌, ◌⊎◌, ℕ, List, Result, Ok};
ghost use Rattle.cs_base.specs.{declared.head.Head.Head, declared.refusal.Refusal.Refusal};
ghost use Rattle.cs_base.specs.declared.width.SampleWidth.{SampleWidth};
ghost use Rattle.cs_piece_meaning.specs.Moments.{Composition};
ghost use Rattle.cs_edge.specs.declared.files.NamedBytes.{NamedBytes};
ghost use Rattle.cs_arguments.specs.Reading.{AskedPiece};
ghost use Rattle.cs_source.specs.{Meaning.Mean, Texts.Have, Texts.Lack, Texts.Texts};
ghost use Rattle.cs_typed.specs.TypedTree.{header_of_head};

use cs_compile::texts_have_one_meaning;
use cs_csd::one_reading;

/// For the prover: the texts of a source have exactly one meaning: one composition, whose header has its
/// numbers in the ranges of a head, or one first refusal.
pub fn texts_of_a_source_mean_one()
    ensures some { (width : SampleWidth) (t : Texts) → (r : Result Composition Refusal) × Mean width t r }
    ensures one { (width : SampleWidth) (t : Texts) (r s : Result Composition Refusal) → Mean width t r
        → Mean width t s → r ≡ s }
    ensures head { (width : SampleWidth) (t : Texts) (c : Composition) → Mean width t (Ok c)
        → (head : Head) × (header_of_head head ≡ c.head) }
{
    texts_have_one_meaning();
    one_reading();
}

/// For the prover: files have at most one pair of texts for a source.
pub fn files_have_one_pair_of_texts()
    ensures { (files : List NamedBytes) (piece : AskedPiece) (t u : Texts) → Have files piece t → Have files piece u
        → t ≡ u }
{}

/// For the prover: either files have texts for a source, or they lack a name that is opened, but never both.
pub fn told_files_have_texts_or_lack_a_name()
    ensures some { (files : List NamedBytes) (piece : AskedPiece)
        → ((t : Texts) × Have files piece t) ⊎ ((name : List ℕ) × Lack files piece name) }
    ensures none { (files : List NamedBytes) (piece : AskedPiece) (t : Texts) (name : List ℕ) → Lack files piece name
        → Have files piece t → ⊥ }
{}
