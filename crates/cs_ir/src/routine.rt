// Routines: steps that codes and later routines invoke, with the resources that they touch; and the ops of a
// code.
ghost use Rattle.std.specs.Prelude.{◌≡◌, ◌≤◌, ◌^◌, length, max, IfOk, OnOk};
ghost use Rattle.cs_ir.specs.Flat.{begin_of, flat, window_of};
ghost use Rattle.cs_ir.specs.{Limits.ops_limit, Resources.NameTheSame, Resources.Stock, Resources.ops_use};
ghost use Rattle.cs_ir.specs.{Resources.ops_write, Touched.named, declared.register.Kind.Kind, inner.Reaching.behind};
ghost use Rattle.cs_ir.specs.{Registers.at_kind, Registers.reg_limit, Registers.regs_limit, inner.Reaching.step_limit};
ghost use Rattle.cs_ir.specs.Routines.{AreRoutines, IsRoutineOf, library_in, ops_in, steps_of};

use crate::register::NO_REGISTERS;
use crate::touches::touches_of;
use crate::{Call, Kind, Reg, RegisterCounts, Step, Touches};
use cs_base::OutOfMemory;
use std::alloc::Global;
use std::marker::Model;
use std::sync::Arc;

/// The steps of a routine. They invoke only earlier routines.
#[derive(Drop)]
pub struct Routine {
    steps: Vec<Step>,
    /// One more than the greatest register number of each kind, and the resources touched. Both include the
    /// routines that it invokes.
    limits: RegisterCounts,
    pub(crate) touches: Touches,
}

impl Routine {
    /// The routine of these steps, which may invoke the routines before it.
    pub(crate) fn of(routines: &[Routine], mut steps: Vec<Step>) -> Result<Routine, OutOfMemory>
        requires { AreRoutines routines.now }
        ensures steps { IfOk result (λ r. steps_of r ≡ steps.items) }
        ensures is { IfOk result (λ r. IsRoutineOf (library_in routines.now) r) }
    {
        steps.shrink_to_fit();
        let limits = limits_of(routines, &steps)?;
        let touches = touches_of(*steps.allocator(), routines, &steps)?;
        Ok(Routine {
            steps,
            limits,
            touches,
        })
    }

    /// The steps of the routine.
    pub fn steps(&self) -> &[Step]
        ensures { result.now ≡ steps_of self.now }
    {
        &self.steps
    }
}

fn limits_of(routines: &[Routine], steps: &[Step]) -> Result<RegisterCounts, OutOfMemory>
    requires { AreRoutines routines.now }
    ensures { IfOk result (λ l. (k : Kind) → at_kind l k ≡ ops_limit k (flat (library_in routines.now) steps.now)) }
{
    let mut limits = NO_REGISTERS;
    for step in steps {
        add_step(&mut limits, routines, step)?;
    }
    Ok(limits)
}

fn add_step(
    limits: &mut RegisterCounts,
    routines: &[Routine],
    step: &Step,
) -> Result<(), OutOfMemory>
    requires { AreRoutines routines.now }
    ensures { OnOk result ((k : Kind) → at_kind limits.new k
        ≡ max (at_kind limits.old k) (step_limit (library_in routines.now) k step.now)) }
{
    match step {
        Step::Do(op) => {
            add_register(limits, op.into)?;
            add_registers(limits, op.from.as_slice())
        }
        Step::Invoke(call) => match routines.get(call.routine as usize) {
            Some(routine) => add_reached(limits, &routine.limits, call),
            None => Ok(()),
        },
    }
}

fn add_registers(limits: &mut RegisterCounts, registers: &[Reg]) -> Result<(), OutOfMemory>
    ensures { OnOk result ((k : Kind) → at_kind limits.new k
        ≡ max (at_kind limits.old k) (regs_limit k registers.now)) }
{
    for register in registers {
        add_register(limits, *register)?;
    }
    Ok(())
}

fn add_register(limits: &mut RegisterCounts, register: Reg) -> Result<(), OutOfMemory>
    ensures { OnOk result ((k : Kind) → at_kind limits.new k ≡ max (at_kind limits.old k) (reg_limit k register)) }
{
    limits.raise(register.kind, register.offset, 1)
}

fn add_reached(
    limits: &mut RegisterCounts,
    inner: &RegisterCounts,
    call: &Call,
) -> Result<(), OutOfMemory>
    ensures { OnOk result ((k : Kind) → at_kind limits.new k
        ≡ max (at_kind limits.old k) (behind (begin_of (window_of call.now) k) (at_kind inner.now k))) }
{
    let at = call.locals;
    limits.raise(Kind::LocalInit, at.init, inner.of(Kind::LocalInit))?;
    limits.raise(Kind::LocalControl, at.control, inner.of(Kind::LocalControl))?;
    limits.raise(Kind::LocalAudio, at.audio, inner.of(Kind::LocalAudio))?;
    limits.raise(Kind::Kept, call.kept, inner.of(Kind::Kept))?;
    limits.raise(Kind::TemporaryInit, 0, inner.of(Kind::TemporaryInit))?;
    limits.raise(Kind::TemporaryControl, 0, inner.of(Kind::TemporaryControl))?;
    limits.raise(Kind::TemporaryAudio, 0, inner.of(Kind::TemporaryAudio))
}

/// The ops of a code: its steps, and the routines that they invoke, which codes share. Contracts see the flat
/// list of ops.
#[derive(Drop)]
pub struct Ops {
    routines: Arc<Vec<Routine>, Global>,
    body: Routine,
}

impl Model for Ops {
    ghost use Rattle.std.specs.Prelude.{◌≤◌, ◌^◌, List, length};
    ghost use Rattle.cs_ir.specs.Routines.{AreRoutines, IsRoutineOf, library_in, ops_in};
    ghost use Rattle.cs_ir.specs.declared.op.Op.{Op};

    ghost Value = { List Op };

    ghost view = { λ o. ops_in (library_in o.routines.value.items) o.body };

    ghost invariant = { λ o. AreRoutines o.routines.value.items
        × (length o.routines.value.items ≤ 2 ^ 31)
        × IsRoutineOf (library_in o.routines.value.items) o.body };
}

impl Ops {
    /// The ops of these steps, which invoke these routines.
    pub fn new(routines: Arc<Vec<Routine>, Global>, body: Routine) -> Ops
        requires routines { AreRoutines routines.value.items }
        requires few { length routines.value.items ≤ 2 ^ 31 }
        requires body { IsRoutineOf (library_in routines.value.items) body }
        ensures { result ≡ ops_in (library_in routines.value.items) body }
    {
        Ops { routines, body }
    }

    /// Returns the routines that the steps invoke, and the steps.
    #[inline(always)]
    pub fn parts(&self) -> (&[Routine], &[Step])
        ensures ops { flat (library_in result.0.now) result.1.now ≡ self.now }
        ensures few { length result.0.now ≤ 2 ^ 31 }
    {
        (&self.routines, self.body.steps())
    }

    /// One more than the greatest register number that the ops use, for each kind.
    pub fn limits(&self) -> RegisterCounts
        ensures { (k : Kind) → at_kind result k ≡ ops_limit k self.now }
    {
        self.body.limits
    }

    /// The shared resources that the ops touch. It takes constant time.
    pub fn touches(&self) -> &Touches
        ensures used { (stock : Stock) → NameTheSame (named stock result.now.used.items) (ops_use stock self.now) }
        ensures written { (stock : Stock) → NameTheSame (named stock result.now.written.items)
            (ops_write stock self.now) }
    {
        &self.body.touches
    }
}
