// The user-defined opcodes of an orchestra, and orchestras that can be expanded.
ghost use Rattle.std.specs.Prelude.{◌≡◌, None, map};
ghost use Rattle.cs_grammar.specs.Tree as tree;
ghost use Rattle.cs_udo.specs.{Counted.first_limit, Refused.first_fault};

use cs_grammar::{Orc, Udo};
use cs_words::NameSet;

/// The definitions of an orchestra, in the order of the text, and their names.
#[derive(Drop)]
pub struct Library<'t> {
    pub definitions: &'t [Udo],
    pub(crate) names: NameSet<'t>,
    ghost named: { names ≡ map (λ u. u.name) definitions.now },
}

/// A definition, and its index in the order of the text.
#[derive(Clone, Copy)]
pub struct FoundDefinition<'t> {
    pub place: usize,
    pub definition: &'t Udo,
}

/// An orchestra whose calls of user-defined opcodes break no rule and which exceeds no limit, with its
/// definitions.
#[derive(Drop)]
pub struct Expansion<'t> {
    pub orc: &'t Orc,
    pub library: Library<'t>,
    ghost fine: { first_fault (tree.orchestra orc.now) ≡ None },
    ghost within: { first_limit (tree.orchestra orc.now) ≡ None },
}
