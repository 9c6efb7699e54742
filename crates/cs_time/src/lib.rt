//! Converts beats to times in nanoseconds, and times to control cycles.
//!
//! Its one contract (specs/Time.antt): `beat_time` returns the time of a beat along the points of a tempo
//! (`time_of`), and `cycle_of` the control cycle of a time. All results are integers, each rounded once. The
//! way the time along a ramp is computed without negative numbers may be changed without anyone above
//! noticing.
//!
//! In reading order: `time`, `laws` (time never falls; worked examples).
#![tactic(auto)]

mod laws;
mod time;

pub use laws::{ramps_are_rounded_down, time_never_falls, times_worked_by_hand};
pub use time::{beat_time, cycle_of, first_part, seconds_of};
