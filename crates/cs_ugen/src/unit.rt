// A unit of any opcode: its start, one step, and a vector of steps in one call.
ghost use Rattle.std.specs.Prelude.{◌≡◌, ◌++◌, IfOk, OnErr, false, length, true};
ghost use Rattle.std.specs.List.{All};
ghost use Rattle.cs_base.specs.Heads.{header_of_head};
ghost use Rattle.cs_signal.specs.{Operands.Lasts, Operands.inputs_at, Pace.pace_of, Steps.run};
ghost use Rattle.cs_ugen.specs.Units.{IsUnitOpcode, moving_count, opcode_of, reads_table, takes_memory, unit_start};
ghost use Rattle.cs_ugen.specs.{Units.unit_step, inner.Runs.state_run};

use crate::oscillator::Oscillator;
use crate::reading::{Interpolating, Truncating};
use crate::table::TableReader;
use crate::{Curve, Phasor};
use cs_base::{Head, Num, OutOfMemory, Rate};
use cs_signal::{Generator, Operand, Stepper};
use cs_words::Opcode;
use std::alloc::Global;
use std::marker::Model;

/// The state of one opcode of one note.
#[derive(Drop)]
pub struct Unit {
    kind: UnitState,
}

#[derive(Drop)]
enum UnitState {
    Oscil(Oscillator),
    Oscili(Oscillator),
    Phasor(Phasor),
    Line(cs_signal::LineUnit),
    Linseg(cs_signal::Linseg),
    Linen(cs_signal::Linen),
    Delay(cs_signal::Delay),
    Biquad(cs_signal::Biquad),
    Table(TableReader),
    Tablei(TableReader),
    Integ(cs_signal::Integ),
    Diff(cs_signal::Diff),
    Samphold(cs_signal::Samphold),
    Limit(cs_signal::LimitUnit),
    Interp(cs_signal::Interp),
    Downsamp(cs_signal::Downsamp),
}

// Calls a method of a unit that reads no table, whatever its kind.
macro_rules! generator {
    ($kind:expr, $unit:ident => $call:expr) => {
        match $kind {
            UnitState::Phasor($unit) => $call,
            UnitState::Line($unit) => $call,
            UnitState::Linseg($unit) => $call,
            UnitState::Linen($unit) => $call,
            UnitState::Delay($unit) => $call,
            UnitState::Biquad($unit) => $call,
            UnitState::Integ($unit) => $call,
            UnitState::Diff($unit) => $call,
            UnitState::Samphold($unit) => $call,
            UnitState::Limit($unit) => $call,
            UnitState::Interp($unit) => $call,
            UnitState::Downsamp($unit) => $call,
            UnitState::Oscil(_) | UnitState::Oscili(_) | UnitState::Table(_) | UnitState::Tablei(_) => unreachable!(),
        }
    };
}

impl Model for Unit {
    ghost use Rattle.cs_ugen.specs.declared.unit.UnitState.{UnitState};

    ghost Value = { UnitState };

    ghost view = { λ u. u.kind };
}

impl Unit {
    /// A unit that has performed no step. It allocates all its memory now; only `delay` and `linseg` need
    /// any.
    pub fn start(
        alloc: Global,
        opcode: Opcode,
        rate: Rate,
        head: &Head,
        settled: &[Num],
    ) -> Result<Unit, OutOfMemory>
        requires { IsUnitOpcode opcode }
        ensures unit { IfOk result (λ u. u ≡ unit_start opcode rate (pace_of (header_of_head head.now)) settled.now) }
        ensures memory { OnErr result (takes_memory opcode ≡ true) }
    {
        Ok(Unit {
            kind: kind_of(alloc, opcode, rate, head, settled)?,
        })
    }

    /// Performs one step of a unit that reads no table. The inputs are its moving arguments in the order of
    /// the text; a missing one is 0. It allocates no memory.
    #[inline(always)]
    pub fn step(&mut self, inputs: &[Num]) -> Num
        requires { reads_table (opcode_of self.old) ≡ false }
        ensures { (self.new, result) ≡ unit_step self.old inputs.now }
    {
        match &mut self.kind {
            UnitState::Integ(unit) => unit.tick(inputs),
            UnitState::Diff(unit) => unit.tick(inputs),
            UnitState::Samphold(unit) => unit.tick(inputs),
            UnitState::Limit(unit) => unit.tick(inputs),
            kind => step_apart(kind, inputs),
        }
    }

    /// Performs one step of a unit that reads a table. The inputs are its moving arguments in the order of
    /// the text. It allocates no memory.
    pub fn step_on<C: Curve>(&mut self, inputs: &[Num], curve: &mut C) -> Num
        requires reads { reads_table (opcode_of self.old) ≡ true }
        requires count { length inputs.now ≡ moving_count (opcode_of self.old) }
        ensures value { (self.new, result) ≡ unit_step self.old (inputs.now ++ C.points curve.old) }
        ensures same { C.points curve.new ≡ C.points curve.old }
        ensures kept { C.kept curve.old curve.new }
    {
        match &mut self.kind {
            UnitState::Oscil(unit) => unit.step_on::<Truncating, C>(inputs[0], inputs[1], curve),
            UnitState::Oscili(unit) => unit.step_on::<Interpolating, C>(
                inputs[0], inputs[1], curve,
            ),
            UnitState::Table(unit) => unit.step_on::<Truncating, C>(inputs[0], curve),
            UnitState::Tablei(unit) => unit.step_on::<Interpolating, C>(inputs[0], curve),
            _ => unreachable!(),
        }
    }

    /// Performs one step for each frame of `out`, for a unit that reads no table. The inputs are its moving
    /// arguments in the order of the text. It allocates no memory.
    pub fn block(&mut self, inputs: &[Operand], out: &mut [Num])
        requires reads_none { reads_table (opcode_of self.old) ≡ false }
        requires count { length inputs.now ≡ moving_count (opcode_of self.old) }
        requires last { All (Lasts (length out.old)) inputs.now }
        ensures { (self.new, out.new) ≡ run unit_step (inputs_at inputs.now) self.old 0 (length out.old) }
    {
        self.rendered(inputs, out);
    }

    // Performs the steps of `block` on the unit's state.
    #[inline(always)]
    fn rendered(&mut self, inputs: &[Operand], out: &mut [Num])
        requires reads_none { reads_table (opcode_of self.old) ≡ false }
        requires count { length inputs.now ≡ moving_count (opcode_of self.old) }
        requires last { All (Lasts (length out.old)) inputs.now }
        ensures { (self.new, out.new) ≡ state_run self.old (inputs_at inputs.now) (length out.old) }
    {
        generator!(&mut self.kind, unit => unit.render(inputs, out))
    }

    /// Performs one step for each frame of `out`, for a unit that reads a table. The inputs are its moving
    /// arguments in the order of the text. It allocates no memory.
    pub fn block_on<C: Curve>(&mut self, inputs: &[Operand], curve: &mut C, out: &mut [Num])
        requires reads { reads_table (opcode_of self.old) ≡ true }
        requires count { length inputs.now ≡ moving_count (opcode_of self.old) }
        requires last { All (Lasts (length out.old)) inputs.now }
        ensures value { (self.new, out.new) ≡ run unit_step
            (λ j. inputs_at inputs.now j ++ C.points curve.old) self.old 0 (length out.old) }
        ensures same { C.points curve.new ≡ C.points curve.old }
        ensures kept { C.kept curve.old curve.new }
    {
        if C::MAY_BE_SHORT
            && let Some(mut short) = curve.short()
        {
            // A copy, so that the compiler knows that no result overwrites it.
            self.rendered_on(inputs, &mut short, out);
        } else {
            self.rendered_on(inputs, curve, out);
        }
    }

    // Performs the steps of `block_on` on the unit's state.
    fn rendered_on<C: Curve>(&mut self, inputs: &[Operand], curve: &mut C, out: &mut [Num])
        requires reads { reads_table (opcode_of self.old) ≡ true }
        requires count { length inputs.now ≡ moving_count (opcode_of self.old) }
        requires last { All (Lasts (length out.old)) inputs.now }
        ensures value { (self.new, out.new) ≡ state_run self.old
            (λ j. inputs_at inputs.now j ++ C.points curve.old) (length out.old) }
        ensures same { C.points curve.new ≡ C.points curve.old }
        ensures kept { C.kept curve.old curve.new }
    {
        match inputs {
            [amp, cps] => match &mut self.kind {
                UnitState::Oscil(unit) => unit.block_on::<Truncating, C>(amp, cps, curve, out),
                UnitState::Oscili(unit) => unit.block_on::<Interpolating, C>(amp, cps, curve, out),
                _ => unreachable!(),
            },
            [ndx] => match &mut self.kind {
                UnitState::Table(unit) => unit.block_on::<Truncating, C>(ndx, curve, out),
                UnitState::Tablei(unit) => unit.block_on::<Interpolating, C>(ndx, curve, out),
                _ => unreachable!(),
            },
            _ => unreachable!(),
        }
    }
}

// `Unit::step` of the other kinds, as a separate function: the short steps then save no registers for the long ones.
#[inline(never)]
fn step_apart(kind: &mut UnitState, inputs: &[Num]) -> Num
    requires { reads_table (opcode_of kind.old) ≡ false }
    ensures { (kind.new, result) ≡ unit_step kind.old inputs.now }
{
    generator!(kind, unit => unit.tick(inputs))
}

fn kind_of(
    alloc: Global,
    opcode: Opcode,
    rate: Rate,
    head: &Head,
    settled: &[Num],
) -> Result<UnitState, OutOfMemory>
    requires { IsUnitOpcode opcode }
    ensures kind { IfOk result (λ k. k ≡ unit_start opcode rate (pace_of (header_of_head head.now)) settled.now) }
    ensures memory { OnErr result (takes_memory opcode ≡ true) }
{
    match opcode {
        Opcode::Oscil => Ok(UnitState::Oscil(Oscillator::start(rate, head, settled))),
        Opcode::Oscili => Ok(UnitState::Oscili(Oscillator::start(rate, head, settled))),
        Opcode::Phasor => Ok(UnitState::Phasor(Phasor::start(rate, head, settled))),
        Opcode::Line => Ok(UnitState::Line(cs_signal::LineUnit::start(rate, head, settled))),
        Opcode::Linseg => Ok(UnitState::Linseg(cs_signal::Linseg::start(
            alloc, rate, head, settled,
        )?)),
        Opcode::Linen => Ok(UnitState::Linen(cs_signal::Linen::start(rate, head, settled))),
        Opcode::Delay => Ok(UnitState::Delay(cs_signal::Delay::start(alloc, head, settled)?)),
        Opcode::Biquad => Ok(UnitState::Biquad(cs_signal::Biquad::start())),
        Opcode::Table => Ok(UnitState::Table(TableReader::start())),
        Opcode::Tablei => Ok(UnitState::Tablei(TableReader::start())),
        Opcode::Integ => Ok(UnitState::Integ(cs_signal::Integ::start())),
        Opcode::Diff => Ok(UnitState::Diff(cs_signal::Diff::start())),
        Opcode::Samphold => Ok(UnitState::Samphold(cs_signal::Samphold::start())),
        Opcode::Limit => Ok(UnitState::Limit(cs_signal::LimitUnit::start())),
        Opcode::Interp => Ok(UnitState::Interp(cs_signal::Interp::start(head))),
        Opcode::Downsamp => Ok(UnitState::Downsamp(cs_signal::Downsamp::start())),
        _ => unreachable!(),
    }
}
