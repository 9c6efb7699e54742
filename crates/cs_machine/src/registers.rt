// Registers: held values, and a row for each audio register.
ghost use Rattle.std.specs.Prelude.{◌≡◌, ◌<◌, ◌-◌, ℕ, [], length, map, replicate, slice_index_or, slice_set, pos, IfOk};
ghost use Rattle.std.specs.Prelude.{false, true};
ghost use Rattle.cs_base.specs.Rates.{is_audio};
ghost use Rattle.cs_ir.specs.Registers.{kind_number, rate_at, rate_of};
ghost use Rattle.cs_ir.specs.{Validity.has_register, Waves.Wave, Waves.constant, Waves.silence};
ghost use Rattle.cs_machine.specs.Registers.{IsWritten, filled, held_kinds, values};
ghost use Rattle.cs_machine.specs.inner.Kept.{zeros_of};
ghost use Rattle.cs_machine.specs.Rows.{HasFrames, row_wave};
ghost use Rattle.cs_signal.specs.Operands.{Lasts, operand_at};

use crate::rows::{copy, fill};
use cs_base::{Num, OutOfMemory};
use cs_ir::{Counts, HELD_KINDS, KINDS, Kind, Reg};
use cs_signal::Operand;
use std::alloc::Global;
use std::marker::Model;
use std::mem;

/// The registers of a note. An audio register is a row with a number for each frame of a control cycle; any
/// other holds one number. Contracts see the value of each register at each frame.
#[derive(Drop)]
pub struct Registers {
    // The registers that hold one number, by kind.
    held: [Vec<Num>; HELD_KINDS],
    // The audio registers, by kind; their kinds follow those that hold one number.
    sounds: [Vec<Vec<Num>>; KINDS - HELD_KINDS],
    counts: Counts,
    ksmps: usize,
}

impl Model for Registers {
    ghost use Rattle.std.specs.Prelude.{map};
    ghost use Rattle.cs_machine.specs.{Registers.RegisterFile, inner.Kept.AreKept};

    ghost Value = { RegisterFile };

    ghost view = { λ r. record {
      held = map (λ ones. ones.items) r.held;
      sounds = map (λ rows. map (λ row. row.items) rows.items) r.sounds;
      counts = r.counts;
      ksmps = r.ksmps;
    } };

    ghost invariant = { λ r. AreKept (map (λ ones. ones.items) r.held)
        (map (λ rows. map (λ row. row.items) rows.items) r.sounds) r.counts r.ksmps };
}

impl Registers {
    /// Makes registers that are 0 at each frame, and allocates all the memory that they need.
    pub fn new(alloc: Global, counts: Counts, ksmps: usize) -> Result<Registers, OutOfMemory>
        ensures values { IfOk result (λ r. values r ≡ (λ q. silence)) }
        ensures counts { IfOk result (λ r. r.counts ≡ counts) }
        ensures ksmps { IfOk result (λ r. r.ksmps ≡ ksmps) }
    {
        let registers = &counts.registers;
        Ok(Registers {
            held: held_zeros(alloc, &counts)?,
            sounds: [
                rows(alloc, registers.of(Kind::LocalAudio), ksmps)?,
                rows(alloc, registers.of(Kind::TemporaryAudio), ksmps)?,
            ],
            counts,
            ksmps,
        })
    }

    /// Returns the number of registers of each kind. For the prover: the registers are determined by their
    /// values.
    pub fn counts(&self) -> Counts
        ensures value { result ≡ self.now.counts }
        ensures whole { filled self.now (values self.now) ≡ self.now }
    {
        self.counts
    }

    // Returns the number that a register which isn't of audio rate holds.
    #[inline(always)]
    fn held(&self, register: Reg) -> Num
        requires there { has_register self.now.counts register ≡ true }
        requires held { is_audio (rate_at register) ≡ false }
        ensures { (frame : ℕ) → result ≡ values self.now register frame }
    {
        self.held[held_number(register.kind)][register.offset as usize]
    }

    /// Returns the value of a register at the first frame.
    #[inline(always)]
    pub fn first(&self, register: Reg) -> Num
        requires { has_register self.now.counts register ≡ true }
        ensures { result ≡ values self.now register 0 }
    {
        if register.is_audio() {
            first_of(self.row(register))
        } else {
            self.held(register)
        }
    }

    /// Returns a register as the operand of a unit: a value that is held, or a row with a number for each
    /// frame.
    #[inline(always)]
    pub fn operand(&self, register: Reg) -> Operand<'_>
        requires { has_register self.now.counts register ≡ true }
        ensures value { (frame : ℕ) → operand_at result frame ≡ values self.now register frame }
        ensures lasts { Lasts self.now.ksmps result }
    {
        if register.is_audio() {
            Operand::Row(self.row(register))
        } else {
            Operand::Held(self.held(register))
        }
    }

    /// Returns the row of an audio register.
    #[inline(always)]
    pub fn row(&self, register: Reg) -> &[Num]
        requires there { has_register self.now.counts register ≡ true }
        requires sound { is_audio (rate_at register) ≡ true }
        ensures value { row_wave result.now ≡ values self.now register }
        ensures long { length result.now ≡ self.now.ksmps }
    {
        &self.sounds[sound_number(register.kind)][register.offset as usize]
    }

    /// Fills a row with the value of a register at each frame.
    pub fn frames(&self, register: Reg, row: &mut [Num])
        requires there { has_register self.now.counts register ≡ true }
        requires row { length row.old ≡ self.now.ksmps }
        ensures frames { HasFrames (values self.now register) row.new }
        ensures long { length row.new ≡ length row.old }
    {
        copy(&self.operand(register), row);
    }

    /// Sets a register that isn't of audio rate to a number: the first frame of a value.
    #[inline(always)]
    pub fn set(&mut self, register: Reg, value: Num)
        requires there { has_register self.old.counts register ≡ true }
        requires held { is_audio (rate_at register) ≡ false }
        ensures { (w : Wave) → value ≡ w 0 → IsWritten self.old register w self.new }
    {
        set_in(
            &mut self.held[held_number(register.kind)],
            register.offset as usize,
            value,
        );
    }

    /// Exchanges the row of an audio register for `row`, which has a value at each frame; `row` becomes the
    /// register's earlier row.
    #[inline(always)]
    pub fn swap(&mut self, register: Reg, row: &mut Vec<Num>)
        requires there { has_register self.old.counts register ≡ true }
        requires sound { is_audio (rate_at register) ≡ true }
        requires row { length row.old.items ≡ self.old.ksmps }
        ensures values { (w : Wave) → HasFrames w row.old.items → IsWritten self.old register w self.new }
        ensures row { length row.new.items ≡ self.old.ksmps }
    {
        swap_in(
            &mut self.sounds[sound_number(register.kind)],
            register.offset as usize,
            row,
        );
    }

    /// Sets a register of any rate to one number for the complete cycle.
    #[inline(always)]
    pub fn hold(&mut self, register: Reg, value: Num, row: &mut Vec<Num>)
        requires there { has_register self.old.counts register ≡ true }
        requires row { length row.old.items ≡ self.old.ksmps }
        ensures values { IsWritten self.old register (constant value) self.new }
        ensures row { length row.new.items ≡ self.old.ksmps }
    {
        if register.is_audio() {
            fill(value, row);
            self.swap(register, row);
        } else {
            self.set(register, value);
        }
    }
}

// Returns zeros for the registers of each kind that holds one number.
fn held_zeros(alloc: Global, counts: &Counts) -> Result<[Vec<Num>; HELD_KINDS], OutOfMemory>
    ensures { IfOk result (λ held. map (λ ones. ones.items) held ≡ zeros_of counts.now held_kinds) }
{
    let registers = &counts.registers;
    Ok([
        zeros(alloc, registers.of(Kind::LocalInit))?,
        zeros(alloc, registers.of(Kind::LocalControl))?,
        zeros(alloc, registers.of(Kind::Kept))?,
        zeros(alloc, registers.of(Kind::TemporaryInit))?,
        zeros(alloc, registers.of(Kind::TemporaryControl))?,
    ])
}

// Returns the index of the vector of numbers that has the registers of a kind.
#[inline(always)]
fn held_number(kind: Kind) -> usize
    requires { is_audio (rate_of kind) ≡ false }
    ensures number { result ≡ kind_number kind }
    ensures low { result < 5 }
{
    kind as usize
}

// Returns the index of the vector of rows that has the registers of a kind.
#[inline(always)]
fn sound_number(kind: Kind) -> usize
    requires { is_audio (rate_of kind) ≡ true }
    ensures number { result ≡ kind_number kind - 5 }
    ensures low { result < 2 }
{
    kind as usize - HELD_KINDS
}

// Sets one number of a vector.
#[inline(always)]
fn set_in(ones: &mut Vec<Num>, place: usize, value: Num)
    requires { place < length ones.old.items }
    ensures { ones.new.items ≡ slice_set ones.old.items place value }
{
    ones[place] = value;
}

// Exchanges one row of a vector for another.
#[inline(always)]
fn swap_in(rows: &mut Vec<Vec<Num>>, place: usize, row: &mut Vec<Num>)
    requires { place < length rows.old.items }
    ensures rows { map (λ row. row.items) rows.new.items
        ≡ slice_set (map (λ row. row.items) rows.old.items) place row.old.items }
    ensures row { row.new.items ≡ slice_index_or (map (λ row. row.items) rows.old.items) place [] }
{
    mem::swap(&mut rows[place], row);
}

#[inline(always)]
fn first_of(row: &[Num]) -> Num
    ensures { result ≡ row_wave row.now 0 }
{
    match row.get(0) {
        Some(value) => *value,
        None => Num::exact(0),
    }
}

/// Returns `count` zeros.
pub(crate) fn zeros(alloc: Global, count: usize) -> Result<Vec<Num>, OutOfMemory>
    ensures { IfOk result (λ v. v.items ≡ replicate count (pos 0)) }
{
    let mut numbers = Vec::with_capacity(alloc, count)?;
    numbers.resize(count, Num::exact(0))?;
    Ok(numbers)
}

/// Returns `count` rows of `ksmps` zeros.
pub(crate) fn rows(alloc: Global, count: usize, ksmps: usize) -> Result<Vec<Vec<Num>>, OutOfMemory>
    ensures { IfOk result (λ v. map (λ row. row.items) v.items ≡ replicate count (replicate ksmps (pos 0))) }
{
    let mut all = Vec::with_capacity(alloc, count)?;
    for _ in 0..count {
        all.push_reserved(zeros(alloc, ksmps)?);
    }
    Ok(all)
}
