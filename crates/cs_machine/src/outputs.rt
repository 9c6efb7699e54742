// Output channels: the samples that a note writes to each of them in a cycle.
ghost use Rattle.std.specs.Prelude.{◌≡◌, ◌<◌, ℕ, [], length, replicate, pos, slice_index_or, IfOk, IfSome, IfNone};
ghost use Rattle.cs_base.specs.Numbers.{sum_of};
ghost use Rattle.cs_ir.specs.Waves.{both, silence};
ghost use Rattle.cs_machine.specs.Outputs.{IsGiven, outs, refilled};
ghost use Rattle.cs_machine.specs.{Rows.HasFrames, Rows.row_wave, inner.Kept.AreRows};
ghost use Rattle.cs_words.specs.declared.sign.BinOp.TheVariants as op;

use crate::registers::zeros;
use cs_base::{Num, OutOfMemory};
use std::alloc::Global;
use std::marker::Model;

// A channel: a row, and whether a note has written to it in this cycle. The contents of the row count only
// in that case.
#[derive(Drop)]
struct OutputChannel {
    row: Vec<Num>,
    sounding: bool,
}

impl Model for OutputChannel {
    ghost use Rattle.std.specs.Prelude.{ℤ, List};
    ghost use Rattle.cs_machine.specs.inner.Kept.{shown};

    ghost Value = { List ℤ };

    ghost view = { λ c. shown c.sounding c.row.items };
}

impl OutputChannel {
    fn new(alloc: Global, ksmps: usize) -> Result<OutputChannel, OutOfMemory>
        ensures { IfOk result (λ c. c ≡ replicate ksmps (pos 0)) }
    {
        Ok(OutputChannel {
            row: zeros(alloc, ksmps)?,
            sounding: false,
        })
    }

    fn clear(&mut self)
        ensures { self.new ≡ replicate (length self.old) (pos 0) }
    {
        self.sounding = false;
    }

    // Copies the first row of a cycle, and adds each further one.
    fn give(&mut self, row: &[Num])
        requires { length row.now ≡ length self.old }
        ensures frames { HasFrames (both op.Add (row_wave self.old) (row_wave row.now)) self.new }
        ensures long { length self.new ≡ length self.old }
    {
        if self.sounding {
            add_row(row, &mut self.row);
        } else {
            begin_row(row, &mut self.row);
            self.sounding = true;
        }
    }

    fn row(&self) -> Option<&[Num]>
        ensures some { IfSome result (λ row. row.now ≡ self.now) }
        ensures none { IfNone result (self.now ≡ replicate (length self.now) (pos 0)) }
    {
        if self.sounding { Some(&self.row) } else { None }
    }
}

/// The samples that a note writes to each channel in a control cycle: a row for each channel. Contracts see
/// the value of each channel at each frame.
#[derive(Drop)]
pub struct Outputs {
    channels: Vec<OutputChannel>,
    ksmps: usize,
}

impl Model for Outputs {
    ghost use Rattle.cs_machine.specs.{Outputs.ChannelFile, inner.Kept.AreRows};

    ghost Value = { ChannelFile };

    ghost view = { λ o. record { rows = o.channels.items; ksmps = o.ksmps } };

    ghost invariant = { λ o. AreRows o.ksmps o.channels.items };
}

impl Outputs {
    /// Makes `count` channels, all of them silent, and allocates all the memory that they need.
    pub fn new(alloc: Global, count: usize, ksmps: usize) -> Result<Outputs, OutOfMemory>
        ensures outs { IfOk result (λ o. outs o ≡ (λ n. silence)) }
        ensures channels { IfOk result (λ o. length o.rows ≡ count) }
        ensures ksmps { IfOk result (λ o. o.ksmps ≡ ksmps) }
    {
        Ok(Outputs {
            channels: channels(alloc, count, ksmps)?,
            ksmps,
        })
    }

    /// Returns the number of channels. For the prover: the channels are determined by their values.
    pub fn len(&self) -> usize
        ensures value { result ≡ length self.now.rows }
        ensures whole { refilled self.now (outs self.now) ≡ self.now }
    {
        self.channels.len()
    }

    /// Makes each channel silent.
    pub fn clear(&mut self)
        ensures outs { outs self.new ≡ (λ n. silence) }
        ensures channels { length self.new.rows ≡ length self.old.rows }
        ensures ksmps { self.new.ksmps ≡ self.old.ksmps }
    {
        clear_all(&mut self.channels);
    }

    /// Adds a row to a channel, counted from 0.
    pub fn give(&mut self, channel: usize, row: &[Num])
        requires channel { channel < length self.old.rows }
        requires row { length row.now ≡ self.old.ksmps }
        ensures { IsGiven self.old channel (row_wave row.now) self.new }
    {
        self.channels[channel].give(row);
    }

    /// Returns the samples of a channel, one for each frame, or None if it is silent.
    pub fn channel(&self, channel: usize) -> Option<&[Num]>
        ensures some { IfSome result (λ row. row_wave row.now ≡ outs self.now channel) }
        ensures long { IfSome result (λ row. length row.now ≡ self.now.ksmps) }
        ensures none { IfNone result (outs self.now channel ≡ silence) }
    {
        if channel < self.channels.len() {
            self.channels[channel].row()
        } else {
            None
        }
    }
}

fn channels(alloc: Global, count: usize, ksmps: usize) -> Result<Vec<OutputChannel>, OutOfMemory>
    ensures { IfOk result (λ v. v.items ≡ replicate count (replicate ksmps (pos 0))) }
{
    let mut all = Vec::with_capacity(alloc, count)?;
    for _ in 0..count {
        all.push_reserved(OutputChannel::new(alloc, ksmps)?);
    }
    Ok(all)
}

fn clear_all(channels: &mut [OutputChannel])
    ensures silent { (n : ℕ) → row_wave (slice_index_or channels.new n []) ≡ silence }
    ensures rows { (ksmps : ℕ) → AreRows ksmps channels.old → AreRows ksmps channels.new }
    ensures long { length channels.new ≡ length channels.old }
{
    for n in 0..channels.len() {
        channels[n].clear();
    }
}

// Writes the first row of a channel: 0 plus the row.
fn begin_row(row: &[Num], channel: &mut [Num])
    requires { length row.now ≡ length channel.old }
    ensures frames { HasFrames (both op.Add silence (row_wave row.now)) channel.new }
    ensures long { length channel.new ≡ length channel.old }
{
    for j in 0..channel.len() {
        channel[j] = first(row[j]);
    }
}

// Returns 0 plus a number.
#[inline(always)]
fn first(x: Num) -> Num
    ensures { result ≡ sum_of (pos 0) x }
{
    x
}

/// Adds a further row to a channel.
pub(crate) fn add_row(row: &[Num], channel: &mut [Num])
    requires { length row.now ≡ length channel.old }
    ensures frames { HasFrames (both op.Add (row_wave channel.old) (row_wave row.now)) channel.new }
    ensures long { length channel.new ≡ length channel.old }
{
    for j in 0..channel.len() {
        channel[j] = channel[j].add(row[j]);
    }
}
