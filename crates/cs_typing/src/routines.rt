// The routines of an orchestra: the typed bodies of its user-defined opcodes, each typed at its first call.
ghost use Rattle.std.specs.Prelude.{◌≡◌, ◌++◌, ◌<◌, [], ◌∷◌, true, length, replicate, slice_get, slice_set, None};
ghost use Rattle.std.specs.Prelude.{IfNone, IfOk, IfSome, OnOk, Some};
ghost use Rattle.cs_typing.specs.declared.routines.TypedDefinition.{TypedDefinition};

use crate::known::KnownNames;
use cs_base::{OutOfMemory, PerRate};
use cs_typed::{Setting, TypedStmts};
use cs_udo::Library;
use std::alloc::Global;

/// A definition that has been typed.
#[derive(Drop)]
pub struct TypedDefinition {
    /// The index of its routine.
    pub routine: usize,
    /// The number of local variables of each rate, including the bodies that it calls.
    pub locals: PerRate<usize>,
    /// The numbers of the variables that hold its results.
    pub slots: Vec<usize>,
}

/// The routines so far, and the definition of each.
#[derive(Drop)]
pub struct RoutineTable {
    pub list: Vec<TypedStmts>,
    /// The data about each definition; `None` until it is typed.
    pub by_definition: Vec<Option<TypedDefinition>>,
}

/// The names known at this point of the text, and the routines so far.
#[derive(Drop)]
pub struct SoFar<'t> {
    pub names: KnownNames<'t>,
    pub routines: RoutineTable,
}

/// The context of statements: whether they are inside an instrument, the definitions, and how many of these
/// come before the statements.
#[derive(Clone, Copy)]
pub struct Site<'l, 't> {
    pub setting: Setting,
    pub library: &'l Library<'t>,
    pub visible: usize,
    ghost placed: { 0 < visible → setting.inside ≡ true },
}

impl RoutineTable {
    /// Returns a table without routines, for this number of definitions.
    pub fn new(alloc: Global, definitions: usize) -> Result<RoutineTable, OutOfMemory>
        ensures list { IfOk result (λ t. t.list.items ≡ []) }
        ensures marks { IfOk result (λ t. t.by_definition.items ≡ replicate definitions None) }
    {
        let mut by_definition = Vec::new(alloc);
        for _ in 0..definitions {
            by_definition.push(None)?;
        }
        Ok(RoutineTable {
            list: Vec::new(alloc),
            by_definition,
        })
    }

    /// Returns the data about a definition, or `None` if it hasn't been typed.
    pub fn of(&self, definition: usize) -> Option<&TypedDefinition>
        ensures found { IfSome result (λ it. slice_get self.now.by_definition.items definition ≡ Some (Some it.now)) }
        ensures none { IfNone result ((it : TypedDefinition)
            → slice_get self.now.by_definition.items definition ≡ Some (Some it) → ⊥) }
    {
        match self.by_definition.get(definition) {
            Some(Some(it)) => Some(it),
            _ => None,
        }
    }

    /// Adds the routine of a definition that hasn't been typed.
    pub fn add(
        &mut self,
        definition: usize,
        locals: PerRate<usize>,
        slots: Vec<usize>,
        body: TypedStmts,
    ) -> Result<(), OutOfMemory>
        requires { definition < length self.old.by_definition.items }
        ensures list { OnOk result (self.new.list.items ≡ self.old.list.items ++ body ∷ []) }
        ensures marks { OnOk result (self.new.by_definition.items ≡ slice_set self.old.by_definition.items definition
            (Some (record { routine = length self.old.list.items; locals = locals; slots = slots }))) }
    {
        let routine = self.list.len();
        self.list.push(body)?;
        self.by_definition[definition] = Some(TypedDefinition {
            routine,
            locals,
            slots,
        });
        Ok(())
    }
}
