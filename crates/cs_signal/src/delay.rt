// `delay`: its input from a fixed number of samples ago.
ghost use Rattle.std.specs.Prelude.{ℤ, ◌≡◌, ◌<◌, ◌≤◌, ◌+◌, ◌∷◌, ◌++◌, [], List, IfOk, length, vec_capacity, drop, map};
ghost use Rattle.std.specs.{Prelude.replicate, Prelude.take, List.range_with_len};
ghost use Rattle.cs_base.specs.{Heads.header_of_head, declared.resource.Rate.Rate};
ghost use Rattle.cs_signal.specs.{Delay.delay_start, Delay.delay_step, Pace.pace_of, Steps.run, Walk.HasRun};
ghost use Rattle.cs_signal.specs.Operands.{operand_at, Lasts};
ghost use Rattle.cs_signal.specs.inner.Ring.{IsRing, IsWrapped, in_order, line_in};

use crate::Operand;
use crate::generator::{Generator, Stepper};
use crate::operand::argument;
use crate::pace::delay_samples;
use cs_base::{Head, Num};
use std::alloc::{AllocError, Global};
use std::marker::Model;

/// The state of a `delay`: a ring of `count` values, and the place of the oldest. Memory for all of them is
/// allocated at the start, and values are written as sound arrives. A value that isn't written yet is 0.
#[derive(Drop)]
pub struct Delay {
    ring: Vec<Num>,
    count: usize,
    oldest: usize,
}

impl Model for Delay {
    ghost use Rattle.std.specs.Prelude.{ℤ, List, vec_capacity};
    ghost use Rattle.cs_signal.specs.inner.Ring.{IsRing, line_in};

    ghost Value = { List ℤ };

    ghost view = { λ unit. line_in unit.count unit.ring.items unit.oldest };

    ghost invariant = { λ unit. IsRing unit.count unit.ring.items (vec_capacity unit.ring) unit.oldest };
}

impl Delay {
    /// The initial state, from the i-rate argument, which is the delay time. It allocates memory for
    /// exactly its samples.
    #[tactic(auto, using(crate::proofs::Rings::none_yet))]
    pub fn start(alloc: Global, head: &Head, init: &[Num]) -> Result<Delay, AllocError>
        ensures { (rate : Rate)
            → IfOk result (λ unit. unit ≡ delay_start rate (pace_of (header_of_head head.now)) init.now) }
    {
        let count = delay_samples(argument(init, 0), head) as usize;
        let ring = Vec::with_capacity(alloc, count)?;
        Ok(Delay {
            ring,
            count,
            oldest: 0,
        })
    }

    // One step for each frame of `out`.
    fn block(&mut self, x: &Operand, out: &mut [Num])
        requires { Lasts (length out.old) x.now }
        ensures { (self.new, out.new) ≡ run delay_step (λ j. operand_at x.now j ∷ []) self.old 0 (length out.old) }
    {
        self.oldest = pass(&mut self.ring, self.count, self.oldest, x, out);
    }
}

impl Stepper for Delay {
    ghost step = { delay_step };

    // One step: returns the oldest value, and stores the new value in its place.
    fn tick(&mut self, inputs: &[Num]) -> Num {
        let mut out = [Num::of_raw(0)];
        self.block(&Operand::Held(argument(inputs, 0)), &mut out);
        out[0]
    }
}

impl Generator for Delay {
    ghost moving = { 1 };

    fn render(&mut self, inputs: &[Operand], out: &mut [Num]) {
        match inputs {
            [x] => self.block(x, out),
            _ => unreachable!(),
        }
    }
}

// One step for each frame of `out`. Returns the place of the oldest value.
fn pass(ring: &mut Vec<Num>, count: usize, oldest: usize, x: &Operand, out: &mut [Num]) -> usize
    requires ring { IsRing count ring.old.items (vec_capacity ring.old) oldest }
    requires last { Lasts (length out.old) x.now }
    ensures value { (line_in count ring.new.items result, out.new)
        ≡ run delay_step (λ j. operand_at x.now j ∷ []) (line_in count ring.old.items oldest) 0 (length out.old) }
    ensures kept { IsRing count ring.new.items (vec_capacity ring.new) result }
{
    if ring.len() < count {
        filled_on(ring, count, x, out)
    } else {
        turned(ring, oldest, x, 0, out)
    }
}

// One step for each frame of `out`, if the ring isn't full yet. Returns the place of the oldest value.
fn filled_on(ring: &mut Vec<Num>, count: usize, x: &Operand, out: &mut [Num]) -> usize
    requires some { length ring.old.items < count }
    requires memory { count ≤ vec_capacity ring.old }
    requires last { Lasts (length out.old) x.now }
    ensures value { (line_in count ring.new.items result, out.new)
        ≡ run delay_step (λ j. operand_at x.now j ∷ []) (line_in count ring.old.items 0) 0 (length out.old) }
    ensures kept { IsRing count ring.new.items (vec_capacity ring.new) result }
{
    let filled = fill(ring, count, x, out);
    if filled < out.len() {
        turned(ring, 0, x, filled, out)
    } else {
        0
    }
}

// The first steps, until the ring is full. Their results are 0. Returns the number of these steps.
fn fill(ring: &mut Vec<Num>, count: usize, x: &Operand, out: &mut [Num]) -> usize
    requires some { length ring.old.items < count }
    requires memory { count ≤ vec_capacity ring.old }
    ensures run { HasRun delay_step (λ j. operand_at x.now j ∷ []) (line_in count ring.old.items 0) (length out.old)
        result (line_in count ring.new.items 0) out.new }
    ensures fits { length ring.new.items ≤ count }
    ensures full { result < length out.old → count ≤ length ring.new.items }
    ensures memory { count ≤ vec_capacity ring.new }
{
    let filled = (count - ring.len()).min(out.len());
    for j in 0..filled {
        ring.push_reserved(x.at(j));
        out[j] = Num::of_raw(0);
    }
    filled
}

// The steps from frame `from` on, in a full ring whose oldest value is at place `oldest`. Whole runs up to
// the ring's end are copied. Returns the place of the oldest value after these steps.
fn turned(ring: &mut [Num], oldest: usize, x: &Operand, from: usize, out: &mut [Num]) -> usize
    requires oldest { oldest < length ring.old }
    requires last { Lasts (length out.old) x.now }
    ensures run { (first : List ℤ)
        → HasRun delay_step (λ j. operand_at x.now j ∷ []) first (length out.old) from
        (in_order ring.old oldest) out.old
        → (in_order ring.new result, out.new)
        ≡ run delay_step (λ j. operand_at x.now j ∷ []) first 0 (length out.old) }
    ensures inside { result < length ring.new }
    ensures long { length ring.new ≡ length ring.old }
{
    let mut place = oldest;
    let mut frame = from;
    while frame < out.len() {
        let count = (ring.len() - place).min(out.len() - frame);
        exchanged(ring, place, x, frame, count, out);
        frame += count;
        place = wrapped(place + count, ring.len());
    }
    place
}

// Exchanges a run of values: the values from place `place` on leave the ring, and the values from a frame on
// replace them.
fn exchanged(
    ring: &mut [Num],
    place: usize,
    x: &Operand,
    from: usize,
    count: usize,
    out: &mut [Num],
)
    requires ring { place + count ≤ length ring.old }
    requires out { from + count ≤ length out.old }
    requires last { Lasts (length out.old) x.now }
    ensures out { out.new ≡ take from out.old ++ (take count (drop place ring.old) ++ drop (from + count) out.old) }
    ensures ring { ring.new ≡ take place ring.old
        ++ (map (operand_at x.now) (range_with_len from count) ++ drop (place + count) ring.old) }
{
    out[from..from + count].copy_from_slice(&ring[place..place + count]);
    match x {
        Operand::Held(value) => hold(ring, place, count, *value),
        Operand::Row(values) => put(ring, place, count, &values[from..from + count]),
    }
}

fn hold(ring: &mut [Num], place: usize, count: usize, value: Num)
    requires { place + count ≤ length ring.old }
    ensures { ring.new ≡ take place ring.old ++ (replicate count value ++ drop (place + count) ring.old) }
{
    ring[place..place + count].fill(value);
}

fn put(ring: &mut [Num], place: usize, count: usize, values: &[Num])
    requires fits { place + count ≤ length ring.old }
    requires count { length values.now ≡ count }
    ensures { ring.new ≡ take place ring.old ++ (values.now ++ drop (place + count) ring.old) }
{
    ring[place..place + count].copy_from_slice(values);
}

// A place in a ring, in which the first place follows the last.
fn wrapped(place: usize, len: usize) -> usize
    ensures { IsWrapped place len result }
{
    if place == len { 0 } else { place }
}
