// Facts about every orchestra without a fault, and about its notes. These functions do nothing; their
// contracts state the facts.
ghost use Rattle.std.specs.{Prelude.◌≡◌, Prelude.◌++◌, Prelude.None, Prelude.true, List.Contains};
ghost use Rattle.cs_base.specs.{declared.resource.Res.Res, declared.spaces.Spaces.Spaces};
ghost use Rattle.cs_grammar.specs.Tree.{Orchestra};
ghost use Rattle.cs_ir.specs.Resources.{Stock};
ghost use Rattle.cs_meaning.specs.{Core.core, Uses.block_begins, Uses.block_uses};
ghost use Rattle.cs_name_laws.specs.Names.{IsNamedBlock, NamesWhatThereIs, is_there};
ghost use Rattle.cs_typed.specs.TypedTree as typed;
ghost use Rattle.cs_typed.specs.TypedTree.{SharedNames};
ghost use Rattle.cs_typing.specs.Typing.{type_fault, typed_of};

/// The typed form of an orchestra without a fault names only global variables and channels from its lists,
/// both outside instruments and in each instrument.
pub fn typed_trees_name_what_there_is()
    ensures { (o : Orchestra) → type_fault o ≡ None → NamesWhatThereIs (typed_of o) }
{}

/// All resources that a note may read or write, as it begins and in a control cycle, exist if its statements
/// name only existing ones. Such a resource is a variable or a channel of the names, a zak place of its
/// space, or a live table.
pub fn notes_touch_what_there_is()
    ensures { (names : SharedNames) (b : typed.Block) → IsNamedBlock names b →
        (spaces : Spaces) (stock : Stock) (g : Res)
        → Contains (block_uses stock (core spaces b) ++ block_begins stock (core spaces b)) g →
        is_there names stock g ≡ true }
{}
