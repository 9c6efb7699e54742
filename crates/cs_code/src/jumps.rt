// Jumps whose target isn't known yet when they are emitted.
ghost use Rattle.std.specs.{Prelude.ℕ, Prelude.List, List.AllZip};
ghost use Rattle.cs_code.specs.inner.Branches.{AllAimed};
ghost use Rattle.cs_ir.specs.Drafts.{IsAt};

use cs_ir::{CodeDraft, Mark};

/// Sets the target of the marked jumps to the end of the ops.
pub fn aim_all(ops: &mut CodeDraft<'_>, marks: &[Mark])
    ensures { (places : List ℕ) → AllZip (IsAt ops.old) marks.now places → AllAimed ops.old ops.new places }
{
    for mark in marks {
        ops.aim(*mark);
    }
}
