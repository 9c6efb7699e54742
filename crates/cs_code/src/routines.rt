// The code of each routine, generated once, after the code of the routines that it may invoke.
ghost use Rattle.std.specs.Prelude.{◌≡◌, ◌+◌, List, length, IfOk, OnOk};
ghost use Rattle.cs_ir.specs.Routines.{AreRoutines, IsRoutineOf, library_in, ops_in};
ghost use Rattle.cs_typed.specs.TypedTree as typed;
ghost use Rattle.cs_code.specs.{inner.Code.pass_block_code, inner.Emitted.block_in, inner.Emitted.scope_of};
ghost use Rattle.cs_code.specs.{inner.Kept.past_block, inner.Kept.start, inner.Served.AreMade, inner.Served.Serve};

use crate::frame::{Context, Progress, START};
use crate::stmt::block;
use cs_base::OutOfMemory;
use cs_ir::{CodeDraft, Routine};
use cs_typed::{TypedStmt, TypedStmts};
use std::alloc::Global;
use std::sync::Arc;

/// The code of statements, with the number of values that they keep and of units in them.
#[derive(Drop)]
pub struct BlockCode {
    pub code: Routine,
    pub extent: Progress,
}

/// The routines of an orchestra in one pass, by number, with the number of values that each keeps and of
/// units in it.
#[derive(Drop)]
pub struct Routines {
    pub list: Arc<Vec<Routine>, Global>,
    pub extents: Vec<Progress>,
}

// The largest number of routines in a piece, so that their registers and units can be counted.
const MOST: usize = 1 << 31;

/// Generates the routines of an orchestra for a pass. Each is generated once, in the order of the text. More
/// routines than allowed are reported as out of memory.
pub fn routines_of(context: Context, list: &[TypedStmts]) -> Result<Routines, OutOfMemory>
    ensures { IfOk result (λ m. AreMade context.pass context.spaces (typed.routines list.now) m) }
{
    if list.len() > MOST {
        return Err(OutOfMemory);
    }
    let mut made = Vec::with_capacity(context.alloc, list.len())?;
    let mut extents = Vec::with_capacity(context.alloc, list.len())?;
    add_routines(context, &mut made, &mut extents, list)?;
    Ok(Routines {
        list: Arc::new(context.alloc, made)?,
        extents,
    })
}

// Generates further routines, after the ones that are in `made` already.
fn add_routines(
    context: Context,
    made: &mut Vec<Routine>,
    extents: &mut Vec<Progress>,
    list: &[TypedStmts],
) -> Result<(), OutOfMemory>
    requires are { AreRoutines made.old.items }
    requires serve { (rs : List typed.Block)
        × Serve context.pass context.spaces rs (library_in made.old.items) extents.old.items }
    ensures are { OnOk result (AreRoutines made.new.items) }
    ensures count { OnOk result (length made.new.items ≡ length made.old.items + length list.now) }
    ensures serve { (rs : List typed.Block)
        → Serve context.pass context.spaces rs (library_in made.old.items) extents.old.items
        → OnOk result (Serve context.pass context.spaces (typed.more_routines rs list.now)
        (library_in made.new.items) extents.new.items) }
{
    for stmts in list {
        let BlockCode { code, extent } = code_of(context, made, extents, stmts)?;
        made.push(code)?;
        extents.push(extent)?;
    }
    Ok(())
}

/// Generates the code of statements. `routines` are the routines that they may invoke, with their extents.
pub fn code_of(
    context: Context,
    routines: &[Routine],
    extents: &[Progress],
    stmts: &[TypedStmt],
) -> Result<BlockCode, OutOfMemory>
    requires are { AreRoutines routines.now }
    requires serve { (rs : List typed.Block)
        × Serve context.pass context.spaces rs (library_in routines.now) extents.now }
    ensures is { IfOk result (λ c. IsRoutineOf (library_in routines.now) c.code) }
    ensures ops { (rs : List typed.Block)
        → Serve context.pass context.spaces rs (library_in routines.now) extents.now
        → IfOk result (λ c. ops_in (library_in routines.now) c.code
        ≡ pass_block_code context.pass 0 start (block_in (scope_of context.spaces rs) stmts.now)) }
    ensures extent { (rs : List typed.Block)
        → Serve context.pass context.spaces rs (library_in routines.now) extents.now
        → IfOk result (λ c. c.extent ≡ past_block start (block_in (scope_of context.spaces rs) stmts.now)) }
{
    let mut ops = CodeDraft::new(context.alloc, routines);
    let extent = block(&mut ops, context, extents, START, stmts)?;
    Ok(BlockCode {
        code: ops.end()?,
        extent,
    })
}
