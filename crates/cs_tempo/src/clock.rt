// The clock of a section: finds the time of a beat from one ramp, the one that contains the beat.
ghost use Rattle.std.specs.Prelude.{◌≡◌, ◌≤◌, ◌<◌, ◌+◌, ◌-◌, ◌*◌, ◌^◌, length, IfOk};
ghost use Rattle.cs_score.specs.Ranges.{beats_end};
ghost use Rattle.cs_time.specs.Time.{time_along, time_of, IsTempo, Rises};
ghost use Rattle.cs_tempo.specs.{inner.Clock.point_at, inner.Clock.AreTimes, Sections.cycle_at};

use cs_base::{Head, OutOfMemory};
use cs_score::TempoPoint;
use cs_time::{beat_time, cycle_of, first_part};
use std::alloc::Global;
use std::marker::Model;

/// The points of a section's tempo, with the time of each.
#[derive(Drop)]
pub struct Clock<'s> {
    head: Head,
    points: &'s [TempoPoint],
    times: Vec<u64>,
}

impl<'s> Model for Clock<'s> {
    ghost use Rattle.cs_tempo.specs.inner.Clock.{Pace, IsTimed};

    ghost Value = { Pace };

    ghost view = { λ c. record { head = c.head; tempo = c.points.now } };

    ghost invariant = { λ c. IsTimed c.points.now c.times.items };
}

impl<'s> Clock<'s> {
    /// The clock of a section with these tempo points.
    pub fn new(
        alloc: Global,
        head: &Head,
        points: &'s [TempoPoint],
    ) -> Result<Clock<'s>, OutOfMemory>
        requires { IsTempo points.now }
        ensures head { IfOk result (λ clock. clock.head ≡ head.now) }
        ensures tempo { IfOk result (λ clock. clock.tempo ≡ points.now) }
    {
        let times = times_of(alloc, points)?;
        Ok(Clock {
            head: *head,
            points,
            times,
        })
    }

    /// The time of a beat, in nanoseconds from the start of the section.
    pub fn time(&self, beat: u64) -> u64
        requires { beat < beats_end }
        ensures time { result ≡ time_of self.now.tempo beat }
        ensures small { result ≤ 60000 * beats_end }
        ensures tempo { IsTempo self.now.tempo }
    {
        if self.points.is_empty() {
            return beat_time(self.points, beat);
        }
        let k = ramp_of(self.points, beat);
        self.times[k] + beat_time(&self.points[k..], beat)
    }

    /// The time from beat `from` to beat `to` in nanoseconds.
    pub fn span(&self, from: u64, to: u64) -> u64
        requires order { from ≤ to }
        requires to { to < beats_end }
        ensures span { result ≡ time_of self.now.tempo to - time_of self.now.tempo from }
        ensures small { result ≤ 60000 * beats_end }
    {
        self.time(to) - self.time(from)
    }

    /// The control cycle of a beat, counted from the start of the section.
    #[tactic(auto, unfolding(crate::specs::Sections::cycle_at), using(crate::proofs::Clocks::cycle_small))]
    pub fn cycle(&self, beat: u64) -> u64
        requires { beat < beats_end }
        ensures cycle { result ≡ cycle_at self.now.head self.now.tempo beat }
        ensures small { result < 2 ^ 47 }
    {
        cycle_of(self.time(beat), self.head.sr, self.head.ksmps)
    }
}

// The time of each point.
fn times_of(alloc: Global, points: &[TempoPoint]) -> Result<Vec<u64>, OutOfMemory>
    requires { Rises points.now }
    ensures { IfOk result (λ times. AreTimes points.now (length points.now) times.items) }
{
    let mut times = Vec::new(alloc);
    let mut time = 0;
    for k in 0..points.len() {
        time = time_at(points, k, time);
        times.push(time)?;
    }
    Ok(times)
}

// The time of point `k`, from the time `before` of the point before it.
fn time_at(points: &[TempoPoint], k: usize, before: u64) -> u64
    requires rising { Rises points.now }
    requires within { k < length points.now }
    requires before { before ≡ time_along points.now (point_at points.now (k - 1)).beat }
    ensures { result ≡ time_along points.now (point_at points.now k).beat }
{
    if k == 0 {
        return before;
    }
    before + first_part(&points[k - 1..], points[k].beat)
}

// The index of the last point at or before a beat. There is one, because the first point is.
fn ramp_of(points: &[TempoPoint], beat: u64) -> usize
    requires some { 0 < length points.now }
    requires first { (point_at points.now 0).beat ≤ beat }
    ensures within { result < length points.now }
    ensures before { (point_at points.now result).beat ≤ beat }
{
    let mut low = 0;
    let mut high = points.len();
    while high - low > 1 {
        let middle = low + (high - low) / 2;
        if points[middle].beat <= beat {
            low = middle;
        } else {
            high = middle;
        }
    }
    low
}
