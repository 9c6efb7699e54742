// `linseg`: straight segments from value to value. After the last segment its last value continues.
ghost use Rattle.std.specs.Prelude.{◌≡◌, ◌+◌, ◌*◌, ◌<◌, ◌≤◌, IfOk, length};
ghost use Rattle.cs_base.specs.{Heads.header_of_head, Numbers.clamp};
ghost use Rattle.cs_signal.specs.Linseg.{linseg_start, linseg_step, lengths_of, on_pieces, pieces_of, values_of};
ghost use Rattle.cs_signal.specs.{Pace.pace_of, Pace.last_number, inner.Pieces.HasPassed, inner.Pieces.IsPlace};

use crate::generator::{Generator, Stepper};
use crate::line::part_way;
use crate::operand::{Operand, argument};
use crate::pace::{next_number, steps};
use crate::ramp::ramp;
use crate::stepwise::frame_by_frame;
use cs_base::{Head, Num, Rate};
use std::alloc::{AllocError, Global};
use std::marker::Model;

/// The state of a `linseg`: the values at the ends of its segments, the length of each segment in steps, the
/// number of the next step, and the segment of this step.
#[derive(Drop)]
pub struct Linseg {
    values: Vec<Num>,
    lengths: Vec<u64>,
    number: u64,
    place: Place,
}

// The index of a segment, and the number of the step at which the segment begins. The last value continues
// after the last segment.
#[derive(Clone, Copy)]
struct Place {
    piece: usize,
    begin: u64,
}

impl Model for Linseg {
    ghost use Rattle.std.specs.Prelude.{◌≡◌, ◌+◌, ◌≤◌, length};
    ghost use Rattle.cs_signal.specs.{Linseg.LinsegState, Pace.last_number, inner.Pieces.IsPlace};

    ghost Value = { LinsegState };

    ghost view = { λ unit. record { values = unit.values.items; lengths = unit.lengths.items; number = unit.number } };

    ghost invariant = { λ unit. (length unit.values.items ≡ length unit.lengths.items + 1)
        × (unit.number ≤ last_number) × IsPlace unit.lengths.items unit.number unit.place.piece unit.place.begin };
}

impl Linseg {
    /// The initial state, from the i-rate arguments: a value, then a duration and a value for each
    /// segment.
    pub fn start(alloc: Global, rate: Rate, head: &Head, init: &[Num]) -> Result<Linseg, AllocError>
        ensures { IfOk result (λ unit. unit ≡ linseg_start rate (pace_of (header_of_head head.now)) init.now) }
    {
        let values = values_of(alloc, init)?;
        let lengths = lengths_of(alloc, rate, head, init)?;
        let place = place_of(&lengths, Place { piece: 0, begin: 0 }, 0);
        Ok(Linseg {
            values,
            lengths,
            number: 0,
            place,
        })
    }

    // The value at the next step.
    fn value(&self) -> Num
        ensures { result ≡ clamp (on_pieces self.now.values self.now.lengths self.now.number) }
    {
        let Place { piece, begin } = self.place;
        if piece < self.lengths.len() {
            part_way(
                self.values[piece],
                self.values[piece + 1],
                self.number - begin,
                self.lengths[piece],
            )
        } else {
            Num::of_raw(self.values[piece].raw())
        }
    }
}

impl Stepper for Linseg {
    ghost step = { linseg_step };

    fn tick(&mut self, _inputs: &[Num]) -> Num {
        let value = self.value();
        self.number = next_number(self.number);
        self.place = place_of(&self.lengths, self.place, self.number);
        value
    }
}

impl Generator for Linseg {
    ghost moving = { 0 };

    // Steps that are all in one segment, or after the last one, are computed together.
    fn render(&mut self, inputs: &[Operand], out: &mut [Num]) {
        let count = out.len() as u64;
        let Place { piece, begin } = self.place;
        if count > i64::MAX as u64 - self.number {
            frame_by_frame(self, inputs, out);
        } else if piece == self.lengths.len() {
            out.fill(self.value());
            self.number += count;
        } else if count <= self.lengths[piece] - (self.number - begin) {
            ramp(
                self.values[piece],
                self.values[piece + 1],
                self.number - begin,
                self.lengths[piece],
                out,
            );
            self.number += count;
            self.place = place_of(&self.lengths, self.place, self.number);
        } else {
            frame_by_frame(self, inputs, out);
        }
    }
}

// The number of segments that the arguments describe.
fn pieces_of(init: &[Num]) -> usize
    ensures value { result ≡ pieces_of init.now }
    ensures bounded { result ≤ length init.now }
{
    init.len().saturating_sub(1) / 2
}

fn values_of(alloc: Global, init: &[Num]) -> Result<Vec<Num>, AllocError>
    ensures { IfOk result (λ values. values.items ≡ values_of init.now) }
{
    let count = pieces_of(init) + 1;
    let mut values = Vec::with_capacity(alloc, count)?;
    for k in 0..count {
        values.push(argument(init, 2 * k))?;
    }
    Ok(values)
}

fn lengths_of(alloc: Global, rate: Rate, head: &Head, init: &[Num]) -> Result<Vec<u64>, AllocError>
    ensures { IfOk result (λ lengths. lengths.items ≡ lengths_of rate (pace_of (header_of_head head.now)) init.now) }
{
    let count = pieces_of(init);
    let mut lengths = Vec::with_capacity(alloc, count)?;
    for k in 0..count {
        lengths.push(steps(argument(init, 2 * k + 1), rate, head))?;
    }
    Ok(lengths)
}

// The segment that contains step `number`, searched from the segment of an earlier step.
fn place_of(lengths: &[u64], from: Place, number: u64) -> Place
    requires real { from.piece ≤ length lengths.now }
    requires passed { HasPassed lengths.now number from.piece from.begin }
    ensures { IsPlace lengths.now number result.piece result.begin }
{
    let mut begin = from.begin;
    for k in from.piece..lengths.len() {
        if number - begin < lengths[k] {
            return Place { piece: k, begin };
        }
        begin += lengths[k];
    }
    Place {
        piece: lengths.len(),
        begin,
    }
}
