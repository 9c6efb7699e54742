// Reporting the result of a performance.
ghost use Rattle.std.specs.Prelude.{◌≡◌, ◌++◌, flat_map};
ghost use Rattle.cs_play.specs.inner.Sounding.{HasReported, HasSaid, counts_told};
ghost use Rattle.cs_play.specs.inner.Faulted.{fault_status};
ghost use Rattle.cs_report.specs.Report.{counts_in, line_room};

use crate::player::Played;
use cs_edge::{Sink, Tap};
use cs_perform::{Outcome, PlayFault};
use cs_report::{PerformanceCounts, Status, report, say_end};

/// Writes the report of a performance, with the lines of these meters, or the line that says why there is no
/// report; if there was no piece, the line has been written before.
pub(crate) fn say<T: Sink>(talk: &mut T, played: Played, taps: &[Box<dyn Tap>]) -> Status
    ensures { HasSaid T.tells (λ t room. text t room) played taps.now talk.old talk.new result }
{
    match played {
        Played::Piece(Ok(outcome)) => reported(talk, &outcome, taps),
        Played::Piece(Err(fault)) => say_end(talk, status_of(fault), ""),
        Played::Nothing(status) => status,
    }
}

// Writes the report of a performance.
fn reported<T: Sink>(talk: &mut T, outcome: &Outcome, taps: &[Box<dyn Tap>]) -> Status
    ensures { HasReported (T.tells talk.old) (T.tells talk.new)
        (counts_in (counts_told outcome.now) ++ flat_map
        (λ t. text t line_room) taps.now ++ outcome.now.turns) result }
{
    match report(talk, &counts_of(outcome), taps, outcome.turns.as_slice()) {
        Ok(()) => Status::Ok,
        Err(_) => Status::TalkFault,
    }
}

fn counts_of(outcome: &Outcome) -> PerformanceCounts
    ensures { result ≡ counts_told outcome.now }
{
    PerformanceCounts {
        frames: outcome.frames,
        cycles: outcome.cycles,
        started: outcome.started,
        not_started: outcome.not_started,
        out_of_range: outcome.out_of_range,
    }
}

fn status_of(fault: PlayFault) -> Status
    ensures { result ≡ fault_status fault }
{
    match fault {
        PlayFault::Sink => Status::SinkFault,
        PlayFault::OutOfMemory => Status::OutOfMemory,
    }
}
