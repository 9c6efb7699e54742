// The compiled form of an orchestra: the codes of each instrument, and of the statements outside instruments.
ghost use Rattle.std.specs.Prelude.{◌≡◌, ◌++◌, ℕ, eqb, IfOk, OnOk, List};
ghost use Rattle.std.specs.List.{AllZip, IsDistinct};
ghost use Rattle.cs_base.specs.declared.spaces.Spaces.{Spaces};
ghost use Rattle.cs_typed.specs.TypedTree as typed;
ghost use Rattle.cs_typed.specs.{Places.inside, declared.setting.Setting.Setting};
ghost use Rattle.cs_typed.specs.WellRated.{IsWellRated, IsRatedBlock};
ghost use Rattle.cs_code.specs.Lowered.{IsCodeOf, IsNumberedCode, AreInstrumentsOf, all_numbers, numbered_with, bodies};
ghost use Rattle.cs_code.specs.{inner.Rated.IsRatedSomewhere, inner.Served.AreCodes, inner.Served.IsLibraryOf};

use crate::codes::{BlockOps, Library, library_of, ops_of};
use crate::frame::{Context, Pass};
use cs_base::OutOfMemory;
use cs_ir::{Body, Counts, Instrument, Instruments};
use cs_typed::{TypedInstr, TypedOrc, TypedStmt};
use std::alloc::Global;
use std::sync::Arc;

/// The compiled form of an orchestra.
#[derive(Drop)]
pub struct Lowered {
    /// The statements outside instruments, as instrument 0.
    pub zero: Instrument,
    /// The instruments, in ascending order of their numbers.
    pub instruments: Instruments,
}

/// Compiles an orchestra. The codes mean its typed tree.
pub fn lower(alloc: Global, orc: &TypedOrc) -> Result<Lowered, OutOfMemory>
    requires rated { IsWellRated (typed.orchestra orc.now) }
    requires distinct { IsDistinct eqb (all_numbers (typed.orchestra orc.now).instrs) }
    ensures number { IfOk result (λ l. l.zero.number ≡ 0) }
    ensures zero { IfOk result (λ l. IsCodeOf (typed.orchestra orc.now).spaces orc.now.head.nchnls
        (typed.block (typed.routines orc.now.routines.items) orc.now.zero.items) l.zero.init l.zero.perf) }
    ensures instruments { IfOk result (λ l. AreInstrumentsOf (typed.orchestra orc.now) l.instruments) }
{
    let library = library_of(alloc, orc)?;
    let zero = zero_of(alloc, orc, &library)?;
    let instruments = instruments_of(alloc, orc, &library)?;
    Ok(Lowered { zero, instruments })
}

fn zero_of(alloc: Global, orc: &TypedOrc, library: &Library) -> Result<Instrument, OutOfMemory>
    requires library { IsLibraryOf orc.now library.now }
    requires rated { IsWellRated (typed.orchestra orc.now) }
    ensures number { IfOk result (λ i. i.number ≡ 0) }
    ensures code { IfOk result (λ i. IsCodeOf orc.now.spaces orc.now.head.nchnls
        (typed.block (typed.routines orc.now.routines.items) orc.now.zero.items) i.init i.perf) }
{
    let body = body_of(alloc, orc, library, &orc.zero)?;
    Instrument::new(0, &body)
}

fn instruments_of(
    alloc: Global,
    orc: &TypedOrc,
    library: &Library,
) -> Result<Instruments, OutOfMemory>
    requires library { IsLibraryOf orc.now library.now }
    requires rated { IsWellRated (typed.orchestra orc.now) }
    requires distinct { IsDistinct eqb (all_numbers (typed.orchestra orc.now).instrs) }
    ensures { IfOk result (λ l. AreInstrumentsOf (typed.orchestra orc.now) l) }
{
    let list = in_text(alloc, orc, library)?;
    Ok(Instruments::of(list))
}

fn in_text(alloc: Global, orc: &TypedOrc, library: &Library) -> Result<Vec<Instrument>, OutOfMemory>
    requires library { IsLibraryOf orc.now library.now }
    requires rated { IsWellRated (typed.orchestra orc.now) }
    ensures { IfOk result (λ v. AllZip (IsNumberedCode orc.now.spaces orc.now.head.nchnls)
        (bodies (typed.orchestra orc.now).instrs) v.items) }
{
    let mut list = Vec::new(alloc);
    for instr in &orc.instrs {
        add_instr(alloc, orc, library, instr, &mut list)?;
    }
    Ok(list)
}

// Adds one more instrument, under each of its numbers.
fn add_instr(
    alloc: Global,
    orc: &TypedOrc,
    library: &Library,
    instr: &TypedInstr,
    list: &mut Vec<Instrument>,
) -> Result<(), OutOfMemory>
    requires library { IsLibraryOf orc.now library.now }
    requires rated { IsRatedSomewhere (typed.instrument (typed.routines orc.now.routines.items) instr.now).body }
    ensures { OnOk result ((channels : ℕ) (ps : List (ℕ × typed.Block))
        → IsRatedBlock (inside channels) (typed.instrument (typed.routines orc.now.routines.items) instr.now).body
        → AllZip (IsNumberedCode orc.now.spaces channels) ps list.old.items
        → AllZip (IsNumberedCode orc.now.spaces channels)
        (ps ++ numbered_with (typed.instrument
        (typed.routines orc.now.routines.items) instr.now).body instr.now.numbers) list.new.items) }
{
    let body = body_of(alloc, orc, library, &instr.body)?;
    add_numbers(&body, instr.numbers.as_slice(), list)
}

fn add_numbers(
    body: &Arc<Body, Global>,
    numbers: &[u32],
    list: &mut Vec<Instrument>,
) -> Result<(), OutOfMemory>
    ensures { OnOk result ((spaces : Spaces) (channels : ℕ) (t : typed.Block)
        (ps : List (ℕ × typed.Block))
        → IsCodeOf spaces channels t body.now.value.init.code body.now.value.perf.code
        → AllZip (IsNumberedCode spaces channels) ps list.old.items
        → AllZip (IsNumberedCode spaces channels) (ps ++ numbered_with t numbers.now) list.new.items) }
{
    for number in numbers {
        list.push(Instrument::new(*number, body)?)?;
    }
    Ok(())
}

// Generates the codes of a block, which all numbers of an instrument share.
fn body_of(
    alloc: Global,
    orc: &TypedOrc,
    library: &Library,
    stmts: &[TypedStmt],
) -> Result<Arc<Body, Global>, OutOfMemory>
    requires library { IsLibraryOf orc.now library.now }
    requires rated { IsRatedSomewhere (typed.block (typed.routines orc.now.routines.items) stmts.now) }
    ensures { IfOk result (λ b. (s : Setting) → IsRatedBlock s (typed.block
        (typed.routines orc.now.routines.items) stmts.now)
        → IsCodeOf orc.now.spaces s.channels (typed.block
        (typed.routines orc.now.routines.items) stmts.now) b.value.init.code b.value.perf.code) }
{
    let context = Context {
        alloc,
        pass: Pass::Initialisation,
        spaces: orc.spaces,
    };
    let init = ops_of(context, orc, &library.init, stmts)?;
    let context = Context {
        pass: Pass::Performance,
        ..context
    };
    let perf = ops_of(context, orc, &library.perf, stmts)?;
    let body = joined(init, perf);
    Ok(Arc::new(alloc, body)?)
}

// Joins both codes of a block, with the numbers of the registers and units that they use.
fn joined(init: BlockOps, perf: BlockOps) -> Body
    requires { (spaces : Spaces) × (t : typed.Block) × IsRatedSomewhere t × AreCodes spaces t init perf }
    ensures { (spaces : Spaces) (s : Setting) (t : typed.Block) → IsRatedBlock s t → AreCodes spaces t init perf
        → IsCodeOf spaces s.channels t result.init.code result.perf.code }
{
    let registers = init.ops.limits().greatest(&perf.ops.limits());
    let units = init.extent.unit as usize;
    Body::new(init.ops, perf.ops, Counts { registers, units })
}
