// The ops of a block in a pass, and the routines that they invoke.
ghost use Rattle.std.specs.Prelude.{◌≡◌, IfOk};
ghost use Rattle.cs_meaning.specs.Core.{core};
ghost use Rattle.cs_code.specs.{inner.Code.pass_block_code, inner.Kept.past_block, inner.Served.IsLibraryOf};
ghost use Rattle.cs_code.specs.{inner.Kept.start, inner.Served.AreMade};
ghost use Rattle.cs_typed.specs.TypedTree as typed;

use crate::frame::{Context, Pass, Progress};
use crate::routines::{Routines, code_of, routines_of};
use cs_base::OutOfMemory;
use cs_ir::Ops;
use cs_typed::{TypedOrc, TypedStmt};
use std::alloc::Global;
use std::sync::Arc;

/// The ops of a block in a pass, with the number of values that it keeps and of units in it.
#[derive(Drop)]
pub struct BlockOps {
    pub ops: Ops,
    pub extent: Progress,
}

/// The routines of an orchestra, for each pass.
#[derive(Drop)]
pub struct Library {
    pub init: Routines,
    pub perf: Routines,
}

/// The routines of an orchestra in both passes.
pub fn library_of(alloc: Global, orc: &TypedOrc) -> Result<Library, OutOfMemory>
    ensures { IfOk result (λ l. IsLibraryOf orc.now l) }
{
    let context = Context {
        alloc,
        pass: Pass::Initialisation,
        spaces: orc.spaces,
    };
    let init = routines_of(context, &orc.routines)?;
    let context = Context {
        pass: Pass::Performance,
        ..context
    };
    let perf = routines_of(context, &orc.routines)?;
    Ok(Library { init, perf })
}

/// The ops of a block in a pass.
pub fn ops_of(
    context: Context,
    orc: &TypedOrc,
    routines: &Routines,
    stmts: &[TypedStmt],
) -> Result<BlockOps, OutOfMemory>
    requires { AreMade context.pass context.spaces (typed.routines orc.now.routines.items) routines.now }
    ensures ops { IfOk result (λ b. b.ops ≡ pass_block_code context.pass 0 start
        (core context.spaces (typed.block (typed.routines orc.now.routines.items) stmts.now))) }
    ensures extent { IfOk result (λ b. b.extent ≡ past_block start
        (core context.spaces (typed.block (typed.routines orc.now.routines.items) stmts.now))) }
{
    let made = code_of(context, &routines.list, &routines.extents, stmts)?;
    let list = Arc::try_clone(&routines.list)?;
    Ok(BlockOps {
        ops: Ops::new(list, made.code),
        extent: made.extent,
    })
}
