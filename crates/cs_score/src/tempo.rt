// A `t` statement: pairs of a beat and a tempo.
ghost use Rattle.std.specs.Prelude.{◌≡◌, ◌<◌, None, IfOk, length};
ghost use Rattle.cs_score.specs.{Ranges.AreTempoPoints, Ranges.HasRange, inner.State.Answers};
ghost use Rattle.cs_score.specs.Statements.{follows, as_beat, as_tempo, points_of, tempo_of};

use crate::field::{Field, Signed};
use crate::note::BEATS_END;
use crate::statement_fault::StatementFault;
use crate::{ScoreWhat, TempoPoint, TempoPoints};
use cs_base::ScoreKind;
use std::alloc::Global;

// One beat per minute and 60,000 beats per minute, in millionths.
const SLOWEST: u64 = 1_000_000;

const FASTEST: u64 = 60_000_000_000;

/// Reads the tempo of a `t` statement.
pub fn tempo(alloc: Global, fields: &[Field]) -> Result<ScoreWhat, StatementFault>
    ensures value { Answers result (tempo_of fields.now) }
    ensures range { IfOk result HasRange }
{
    if fields.len() == 0 {
        return Err(ScoreKind::MissingField.into());
    }
    let points = points(alloc, fields)?;
    Ok(ScoreWhat::Tempo { points })
}

fn points(alloc: Global, fields: &[Field]) -> Result<TempoPoints, StatementFault>
    requires { 0 < length fields.now }
    ensures value { Answers result (points_of None fields.now) }
    ensures range { IfOk result AreTempoPoints }
{
    let mut points = TempoPoints::new(alloc);
    let mut last = None;
    let mut at = 0;
    while at < fields.len() {
        let beat = beat(last, fields[at].number(ScoreKind::BadNumber)?)?;
        if at + 1 == fields.len() {
            return Err(ScoreKind::MissingField.into());
        }
        let tempo = beats_a_minute(fields[at + 1].number(ScoreKind::BadNumber)?)?;
        points.push(TempoPoint { beat, tempo })?;
        last = Some(beat);
        at += 2;
    }
    Ok(points)
}

// A beat of a tempo. `last` is the beat before it.
fn beat(last: Option<u64>, n: Signed) -> Result<u64, ScoreKind>
    ensures { result ≡ as_beat last n }
{
    let beat = n.millionths();
    if n.is_negative_time() {
        return Err(ScoreKind::BadTempo);
    }
    if beat >= BEATS_END {
        return Err(ScoreKind::BadNumber);
    }
    if follows(last, beat) {
        Ok(beat)
    } else {
        Err(ScoreKind::BadTempo)
    }
}

// Whether a beat may come after `last`: the first beat is 0, and beats never fall.
fn follows(last: Option<u64>, beat: u64) -> bool
    ensures { result ≡ follows last beat }
{
    match last {
        None => beat == 0,
        Some(last) => last <= beat,
    }
}

fn beats_a_minute(n: Signed) -> Result<u64, ScoreKind>
    ensures { result ≡ as_tempo n }
{
    let tempo = n.millionths();
    if n.minus || tempo < SLOWEST || tempo > FASTEST {
        Err(ScoreKind::BadTempo)
    } else {
        Ok(tempo)
    }
}
