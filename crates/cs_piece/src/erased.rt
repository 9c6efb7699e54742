// A typed orchestra that only contracts see.
ghost use Rattle.std.specs.{Prelude.◌≡◌, Borrow.ftrue};
ghost use Rattle.cs_typed.specs.contracts.tree.TypedOrc as row;
ghost use Rattle.cs_typed.specs.declared.tree.TypedOrc.{TypedOrc};

use cs_typed::TypedOrc;
use std::marker::Model;

/// A typed orchestra as it was when its codes were made. It occupies no memory: no program reads it, and the
/// promises of a setup tie it to the codes.
#[derive(Drop)]
pub(crate) struct ErasedOrchestra {
    pub(crate) ghost orchestra: { TypedOrc } by { row.the_row.coded },
}

impl Model for ErasedOrchestra {
    ghost also_owns = { λ _. ftrue };
}

// It owns nothing.
unsafe impl Send for ErasedOrchestra {}

unsafe impl Sync for ErasedOrchestra {}

impl ErasedOrchestra {
    /// Stores the orchestra as it is now.
    pub(crate) fn of(_orchestra: &TypedOrc) -> ErasedOrchestra
        ensures { result.orchestra ≡ _orchestra.now }
    {
        ErasedOrchestra {}
    }
}
