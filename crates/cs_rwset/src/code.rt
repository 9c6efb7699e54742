// The areas that a code may touch, as marks.
ghost use Rattle.std.specs.Prelude.{◌≡◌, IfOk};
ghost use Rattle.cs_ir.specs.Resources.{ops_use, ops_write};
ghost use Rattle.cs_rwset.specs.{Footprints.stock_of, inner.Marks.marks_of};

use crate::marks::mark_all;
use crate::runs::Runs;
use cs_base::OutOfMemory;
use cs_cells::Layout;
use cs_ir::Ops;
use std::alloc::Global;

/// For each area, whether a code may use it, and whether the code may write it.
#[derive(Drop)]
pub(crate) struct Marks {
    pub uses: Vec<bool>,
    pub writes: Vec<bool>,
}

/// Marks the areas whose resource an op may use, and the areas whose resource an op may write.
pub(crate) fn marks_of(alloc: Global, ops: &Ops, layout: &Layout) -> Result<Marks, OutOfMemory>
    ensures uses { IfOk result (λ m. m.uses.items ≡ marks_of layout.now (ops_use (stock_of layout.now) ops.now)) }
    ensures writes { IfOk result (λ m. m.writes.items ≡ marks_of layout.now (ops_write (stock_of layout.now) ops.now)) }
{
    let runs = Runs::of(layout);
    let areas = layout.len() as usize;
    let mut marks = Marks {
        uses: vec![in alloc; false; areas]?,
        writes: vec![in alloc; false; areas]?,
    };
    // For the prover: no two areas belong to the same resource.
    let _ = layout.words();
    let touches = ops.touches();
    mark_all(&mut marks.uses, layout, &runs, &touches.used);
    mark_all(&mut marks.writes, layout, &runs, &touches.written);
    Ok(marks)
}
