// The sections of a score: the end of each, its tempo, and its length in control cycles.
ghost use Rattle.std.specs.Prelude.{◌≡◌, ◌≤◌, ◌<◌, ◌+◌, ◌^◌, ◌∷◌, [], length, take, drop};
ghost use Rattle.std.specs.List.{All};
ghost use Rattle.cs_score.specs.Ranges.{IsInRange, HasRange, beats_end};
ghost use Rattle.cs_tempo.specs.Sections.{sections_of, own_points, or_else, tempo_of, end_of, reach_of, length_of};

use crate::clock::Clock;
use cs_score::{ScoreStmt, ScoreWhat, TempoPoint};
use std::cmp::max;

/// The statements after the one at index `end`.
pub fn behind(score: &[ScoreStmt], end: usize) -> &[ScoreStmt]
    requires { end < length score.now }
    ensures { result.now ≡ drop (end + 1) score.now }
{
    &score[end + 1..]
}

/// The number of statements before the first `s`, or of all statements if there is no `s`.
pub fn section_end(score: &[ScoreStmt]) -> usize
    ensures within { result ≤ length score.now }
    ensures ended { result < length score.now
        → sections_of score.now ≡ take result score.now ∷ sections_of (drop (result + 1) score.now) }
    ensures last { result ≡ length score.now → sections_of score.now ≡ score.now ∷ [] }
{
    for (k, statement) in score.iter().enumerate() {
        if let ScoreWhat::Section = &statement.what {
            return k;
        }
    }
    score.len()
}

/// The points of the last tempo statement of a section. Empty if the section has none.
pub fn tempo_of(section: &[ScoreStmt]) -> &[TempoPoint]
    requires { All IsInRange section.now }
    ensures { result.now ≡ tempo_of section.now }
{
    let mut tempo: &[TempoPoint] = &[];
    for statement in section {
        tempo = points_or(&statement.what, tempo);
    }
    tempo
}

// The points of a tempo statement. For any other statement, the tempo so far.
fn points_or<'s>(what: &'s ScoreWhat, tempo: &'s [TempoPoint]) -> &'s [TempoPoint]
    requires { HasRange what.now }
    ensures { result.now ≡ or_else (own_points what.now) tempo.now }
{
    match what {
        ScoreWhat::Tempo { points } => points.as_slice(),
        _ => tempo,
    }
}

/// The length of a section in control cycles.
#[tactic(auto, unfolding(crate::specs::Sections::length_of))]
pub fn length_of(clock: &Clock, section: &[ScoreStmt]) -> u64
    requires range { All IsInRange section.now }
    requires tempo { clock.now.tempo ≡ tempo_of section.now }
    ensures length { result ≡ length_of clock.now.head section.now }
    ensures small { result ≤ 2 ^ 47 }
{
    let mut length = 0;
    for statement in section {
        length = max(length, reach_of(clock, &statement.what));
    }
    length
}

// The smallest number of cycles that a section with this statement can last.
fn reach_of(clock: &Clock, what: &ScoreWhat) -> u64
    requires { HasRange what.now }
    ensures reach { result ≡ reach_of clock.now.head clock.now.tempo what.now }
    ensures small { result ≤ 2 ^ 47 }
{
    match what {
        ScoreWhat::Note { at, length, .. } => end_of(clock, *at, *length),
        ScoreWhat::Hold { at, .. } => clock.cycle(*at) + 1,
        ScoreWhat::Stop { at, .. } => clock.cycle(*at),
        ScoreWhat::Table { at, .. } => clock.cycle(*at),
        ScoreWhat::Extend { at } => clock.cycle(*at),
        ScoreWhat::Tempo { .. } | ScoreWhat::Section => 0,
    }
}

/// The cycle in which a note ends whose length is 0 or more. If its length is above 0, it lasts at least one
/// cycle.
pub fn end_of(clock: &Clock, at: u64, length: u64) -> u64
    requires { at + length < beats_end }
    ensures end { result ≡ end_of clock.now.head clock.now.tempo at length }
    ensures small { result ≤ 2 ^ 47 }
{
    let start = clock.cycle(at);
    if length == 0 {
        start
    } else {
        max(clock.cycle(at + length), start + 1)
    }
}
