// The time of a beat along a tempo, and the control cycle of a time.
ghost use Rattle.std.specs.Prelude.{◌≡◌, ◌≤◌, ◌<◌, ◌*◌, ◌+◌, ◌-◌, ◌^◌, ◌/◌, drop, pos};
ghost use Rattle.cs_base.specs.{Limits.greatest_ksmps, Limits.greatest_sr, Numbers.IsRaw};
ghost use Rattle.cs_score.specs.{Ranges.beats_end, declared.statement.TempoPoint.TempoPoint};
ghost use Rattle.cs_time.specs.inner.Ramps.{rounded_up};
ghost use Rattle.cs_time.specs.Time.{beat_length, ramp_time, time_along, time_of, Rises, cycle_of, seconds_of};

use cs_base::ONE;
use cs_score::TempoPoint;

/// The control cycle of a time in nanoseconds, rounded half up, at `sr` frames a second and `ksmps` frames a
/// cycle.
#[tactic(auto, unfolding(crate::specs::Time::cycle_of))]
pub fn cycle_of(ns: u64, sr: u32, ksmps: u32) -> u64
    requires sr { (1 ≤ sr) × (sr ≤ greatest_sr) }
    requires ksmps { (1 ≤ ksmps) × (ksmps ≤ greatest_ksmps) }
    ensures { result ≡ cycle_of ns sr ksmps }
{
    let cycle = u128::from(ksmps) * 1_000_000_000;
    ((2 * u128::from(ns) * u128::from(sr) + cycle) / (2 * u128::from(ksmps) * 1_000_000_000)) as u64
}

/// A time in 65,536ths of a second, rounded down. `ns` is in nanoseconds.
#[tactic(auto, unfolding(crate::specs::Time::seconds_of))]
pub fn seconds_of(ns: u64) -> i64
    requires { ns ≤ 60000 * beats_end }
    ensures value { result ≡ pos (seconds_of ns) }
    ensures range { IsRaw result }
{
    (u128::from(ns) * ONE as u128 / 1_000_000_000) as i64
}

/// The time of a beat along a tempo, in nanoseconds from the tempo's first point. The points are in ascending
/// order of beats. Without any points the tempo is 60 beats a minute.
pub fn beat_time(points: &[TempoPoint], beat: u64) -> u64
    requires rising { Rises points.now }
    requires beat { beat < beats_end }
    ensures { result ≡ time_of points.now beat }
{
    if points.is_empty() {
        steady_time(1_000_000_000, beat)
    } else {
        time_along(points, beat)
    }
}

// The time of a beat along points in ascending order.
fn time_along(points: &[TempoPoint], beat: u64) -> u64
    requires rising { Rises points.now }
    requires beat { beat < beats_end }
    ensures time { result ≡ time_along points.now beat }
{
    let mut time = 0;
    for k in 0..points.len() {
        if beat <= points[k].beat {
            return time;
        }
        time += first_part(&points[k..], beat);
    }
    time
}

/// The part of the time before a beat that is spent between the first point and the next, or after the first
/// if it is the last.
pub fn first_part(points: &[TempoPoint], beat: u64) -> u64
    requires rising { Rises points.now }
    requires beat { beat < beats_end }
    ensures { time_along points.now beat ≡ result + time_along (drop 1 points.now) beat }
{
    match points {
        [point, next, ..] => ramp_time(
            beat_length(point.tempo),
            beat_length(next.tempo),
            next.beat - point.beat,
            beat.min(next.beat).saturating_sub(point.beat),
        ),
        [last] => steady_time(beat_length(last.tempo), beat.saturating_sub(last.beat)),
        [] => 0,
    }
}

// The duration of a beat in nanoseconds.
#[tactic(auto, unfolding(crate::specs::Time::beat_length))]
fn beat_length(tempo: u64) -> u64
    requires { (1000000 ≤ tempo) × (tempo ≤ 60000000000) }
    ensures length { result ≡ beat_length tempo }
    ensures range { (1000000 ≤ result) × (result ≤ 60000000000) }
{
    60_000_000_000_000_000 / tempo
}

// The duration of `x` millionths of a beat, if a beat lasts `length` nanoseconds.
fn steady_time(length: u64, x: u64) -> u64
    requires length { length ≤ 60000000000 }
    requires x { x < beats_end }
    ensures { result ≡ length * x / 1000000 }
{
    (u128::from(length) * u128::from(x) / 1_000_000) as u64
}

// The time at `x` millionths into a ramp of `span` millionths, along which a beat's duration goes from
// `first` to `last`.
fn ramp_time(first: u64, last: u64, span: u64, x: u64) -> u64
    requires first { (1000000 ≤ first) × (first ≤ 60000000000) }
    requires last { (1000000 ≤ last) × (last ≤ 60000000000) }
    requires span { span < beats_end }
    requires x { x ≤ span }
    ensures { result ≡ ramp_time first last span x }
{
    if x == 0 {
        return 0;
    }
    let even = steady_time(first, x);
    if first <= last {
        even + longer(last - first, span, x)
    } else {
        even - shorter(first - last, span, x)
    }
}

// The time that a ramp adds at `x` millionths if its beats grow longer by `rise`, rounded down.
#[tactic(auto, using(crate::proofs::Ramps::longer_small))]
fn longer(rise: u64, span: u64, x: u64) -> u64
    requires rise { rise ≤ 60000000000 }
    requires span { span < beats_end }
    requires x { (1 ≤ x) × (x ≤ span) }
    ensures value { result ≡ rise * (x * x) / (2 * span * 1000000) }
    ensures small { 2000000 * result ≤ rise * x }
{
    (change(rise, x) / half_places(span)) as u64
}

// The time that a ramp takes away at `x` millionths if its beats grow shorter by `fall`, rounded up.
fn shorter(fall: u64, span: u64, x: u64) -> u64
    requires fall { fall ≤ 60000000000 }
    requires span { span < beats_end }
    requires x { (1 ≤ x) × (x ≤ span) }
    ensures value { result ≡ rounded_up (fall * (x * x)) (2 * span * 1000000) }
{
    ((change(fall, x) + (half_places(span) - 1)) / half_places(span)) as u64
}

fn change(by: u64, x: u64) -> u128
    requires by { by ≤ 60000000000 }
    requires x { x < beats_end }
    ensures value { result ≡ by * (x * x) }
    ensures small { result < 2 ^ 123 }
{
    u128::from(by) * square(x)
}

fn square(x: u64) -> u128
    requires { x < beats_end }
    ensures value { result ≡ x * x }
    ensures small { result < 2 ^ 87 }
{
    u128::from(x) * u128::from(x)
}

fn half_places(span: u64) -> u128
    requires { (1 ≤ span) × (span < beats_end) }
    ensures value { result ≡ 2 * span * 1000000 }
    ensures some { 0 < result }
    ensures small { result < 2 ^ 65 }
{
    2 * u128::from(span) * 1_000_000
}
