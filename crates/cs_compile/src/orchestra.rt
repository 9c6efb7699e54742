// What an orchestra's text means by itself: its typed orchestra.
ghost use Rattle.std.specs.Prelude.{◌≡◌, ◌≤◌, length, eqb, Ok, Err, IfOk};
ghost use Rattle.std.specs.List.{IsDistinct};
ghost use Rattle.cs_base.specs.Limits.{most_orchestra_bytes};
ghost use Rattle.cs_base.specs.declared.fault.Or.TheVariants as or;
ghost use Rattle.cs_base.specs.declared.refusal.Refusal.{Refusal};
ghost use Rattle.cs_code.specs.Lowered.{all_numbers};
ghost use Rattle.cs_compile.specs.Meaning.{IsReadAs, IsTypedAs, orchestra_means};
ghost use Rattle.cs_grammar.specs.Tree as tree;
ghost use Rattle.cs_grammar.specs.WellFormed.{IsWellFormed};
ghost use Rattle.cs_name_laws.specs.Names.{NamesWhatThereIs};
ghost use Rattle.cs_piece.specs.Setups.{AskForFew};
ghost use Rattle.cs_typed.specs.TypedTree as typed;
ghost use Rattle.cs_typed.specs.WellRated.{IsWellRated};

use cs_base::{Excerpt, Or, Refusal};
use cs_grammar::{Orc, parse, trees_are_well_formed};
use cs_lex::lex;
use cs_name_laws::typed_trees_name_what_there_is;
use cs_typed::TypedOrc;
use cs_typing::{type_orc, typing_is_well_rated};
use cs_udo::Expansion;
use cs_udo_meaning::expansions_can_be_lowered;
use std::alloc::Global;

/// Returns the typed orchestra that a text of at most 1,048,576 bytes means, or its first refusal without
/// regard to a score, with its line in the file.
pub fn read_orchestra(alloc: Global, text: &Excerpt) -> Result<TypedOrc, Or<Refusal>>
    requires { length text.now.bytes ≤ most_orchestra_bytes }
    ensures orchestra { IfOk result (λ o. orchestra_means text.now (Ok (typed.orchestra o))) }
    ensures rated { IfOk result (λ o. IsWellRated (typed.orchestra o)) }
    ensures distinct { IfOk result (λ o. IsDistinct eqb (all_numbers (typed.orchestra o).instrs)) }
    ensures named { IfOk result (λ o. NamesWhatThereIs (typed.orchestra o)) }
    ensures asks { IfOk result (λ o. AskForFew (typed.orchestra o)) }
    ensures refused { (r : Refusal) → result ≡ Err (or.Fault r) → orchestra_means text.now (Err r) }
{
    let tree = read_tree(alloc, text)?;
    typed_tree(alloc, tree)
}

// Returns the tree of a text, or the refusal of its first fault.
fn read_tree(alloc: Global, text: &Excerpt) -> Result<Orc, Or<Refusal>>
    requires { length text.now.bytes ≤ most_orchestra_bytes }
    ensures tree { IfOk result (λ orc. IsReadAs text.now (Ok (tree.orchestra orc))) }
    ensures well_formed { IfOk result (λ orc. IsWellFormed (tree.orchestra orc)) }
    ensures refused { (r : Refusal) → result ≡ Err (or.Fault r) → IsReadAs text.now (Err r) }
{
    trees_are_well_formed();
    let tokens = lex(alloc, text)?;
    let tree = parse(alloc, text, &tokens)?;
    Ok(tree)
}

// Returns the typed form of a tree whose calls of user-defined opcodes are expanded, or the refusal of the
// first broken rule of rates and names.
fn typed_tree(alloc: Global, orc: Orc) -> Result<TypedOrc, Or<Refusal>>
    requires { IsWellFormed (tree.orchestra orc) }
    ensures typed { IfOk result (λ o. IsTypedAs (tree.orchestra orc) (Ok (typed.orchestra o))) }
    ensures rated { IfOk result (λ o. IsWellRated (typed.orchestra o)) }
    ensures distinct { IfOk result (λ o. IsDistinct eqb (all_numbers (typed.orchestra o).instrs)) }
    ensures named { IfOk result (λ o. NamesWhatThereIs (typed.orchestra o)) }
    ensures asks { IfOk result (λ o. AskForFew (typed.orchestra o)) }
    ensures refused { (r : Refusal) → result ≡ Err (or.Fault r) → IsTypedAs (tree.orchestra orc) (Err r) }
{
    expansions_can_be_lowered();
    typing_is_well_rated();
    typed_trees_name_what_there_is();
    let expansion = Expansion::new(alloc, &orc)?;
    let typed = type_orc(alloc, &expansion)?;
    Ok(typed)
}
