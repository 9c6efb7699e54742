// The registers of a note's values, and functions that append ops.
ghost use Rattle.std.specs.Prelude.{◌≡◌, ◌+◌, [], ◌∷◌, length, true, IfOk, OnOk};
ghost use Rattle.cs_ir.specs.{Codes.is_unaimed, Drafts.Grew, Drafts.IsAt, Drafts.drafted, Waves.if_init};
ghost use Rattle.cs_meaning.specs.Notes.{reg};
ghost use Rattle.cs_code.specs.inner.Spots.{op_of, kept_reg, temp};

use cs_base::{OutOfMemory, Rate, Spaces};
use cs_ir::{Act, CodeDraft, Kind, Mark, Op, Operands, Reg};
use std::alloc::Global;

/// The pass of a note for which code is generated.
#[derive(Clone, Copy)]
pub enum Pass {
    Initialisation,
    Performance,
}

/// What code is generated for: which pass of a note, the allocator, and the zak spaces of the piece.
#[derive(Clone, Copy)]
pub struct Context {
    pub alloc: Global,
    pub pass: Pass,
    pub spaces: Spaces,
}

/// The progress of code generation: the number of kept values and of units in the text before a place.
#[derive(Clone, Copy)]
pub struct Progress {
    pub part: u32,
    pub unit: u32,
}

/// Where code is generated: its context, and the progress before it.
#[derive(Clone, Copy)]
pub struct Place {
    pub context: Context,
    pub before: Progress,
}

/// The progress at the beginning of a code.
pub const START: Progress = Progress { part: 0, unit: 0 };

/// The register that holds a value, and the number of the next kept value after it.
#[derive(Clone, Copy)]
pub struct ValueSpot {
    pub reg: Reg,
    pub next: u32,
}

/// `a + b`, for numbers of registers or units. A sum that doesn't fit is reported as out of memory, since the
/// registers below it would need 32 GB.
pub fn add(a: u32, b: u32) -> Result<u32, OutOfMemory>
    ensures { IfOk result (λ n. n ≡ a + b) }
{
    a.checked_add(b).ok_or(OutOfMemory)
}

/// The number of a register as ops name it. A number that doesn't fit is reported as out of memory, as in
/// `add`.
pub fn narrow(number: usize) -> Result<u32, OutOfMemory>
    ensures { IfOk result (λ n. n ≡ number) }
{
    if number <= u32::MAX as usize {
        Ok(number as u32)
    } else {
        Err(OutOfMemory)
    }
}

/// The register of a local variable.
pub fn local(rate: Rate, index: usize) -> Result<Reg, OutOfMemory>
    ensures { IfOk result (λ q. q ≡ reg rate index) }
{
    Ok(Reg {
        kind: Kind::local(rate),
        offset: narrow(index)?,
    })
}

/// The register of a kept value.
pub fn kept_reg(at: u32) -> Reg
    ensures { result ≡ kept_reg at }
{
    Reg {
        kind: Kind::Kept,
        offset: at,
    }
}

/// Temporary number `d` of a rate.
pub fn temp(rate: Rate, d: u32) -> Reg
    ensures { result ≡ temp rate d }
{
    Reg {
        kind: Kind::temporary(rate),
        offset: d,
    }
}

/// The number of the next kept value: one more at i-rate, otherwise the number after its parts.
pub fn next_of(rate: Rate, at: u32, parts: u32) -> Result<u32, OutOfMemory>
    ensures { IfOk result (λ n. n ≡ if_init rate (at + 1) parts) }
{
    match rate {
        Rate::Init => add(at, 1),
        Rate::Control | Rate::Audio => Ok(parts),
    }
}

/// Appends an op that isn't a jump.
pub fn push(ops: &mut CodeDraft<'_>, act: Act, into: Reg, from: Operands) -> Result<(), OutOfMemory>
    requires { is_unaimed act ≡ true }
    ensures { OnOk result (Grew ops.old ops.new (op_of act into from ∷ [])) }
{
    ops.push(Op { act, into, from })?;
    Ok(())
}

/// Appends a jump whose target is set later.
pub fn jump(
    ops: &mut CodeDraft<'_>,
    act: Act,
    into: Reg,
    from: Operands,
) -> Result<Mark, OutOfMemory>
    requires { is_unaimed act ≡ true }
    ensures more { IfOk result (λ _. Grew ops.old ops.new (op_of act into from ∷ [])) }
    ensures mark { IfOk result (λ m. IsAt ops.new m (length (drafted ops.old))) }
{
    ops.push(Op { act, into, from })
}
