// The report of a performance.
ghost use Rattle.std.specs.Prelude.{◌++◌, flat_map, OnErr, OnOk};
ghost use Rattle.cs_edge.specs.Moves.{WroteMore, WrotePart};
ghost use Rattle.cs_report.specs.Report.{counts_in, line_room};

use crate::talk::say;
use cs_edge::{Failed, Sink, Tap, write_all};
use itoa::Buffer;

/// The counts of a performance.
#[derive(Clone, Copy)]
pub struct PerformanceCounts {
    /// The number of frames, each with a value for each channel.
    pub frames: u32,
    /// The number of control cycles.
    pub cycles: u32,
    /// The number of starts that started a note.
    pub started: u64,
    /// The number of starts that started nothing.
    pub not_started: u64,
    /// The number of samples that were clipped.
    pub out_of_range: u64,
}

/// Writes the counts of a performance, the line of each meter, and the lines of turns, until a write to
/// `talk` fails.
pub fn report<T: Sink>(
    talk: &mut T,
    counts: &PerformanceCounts,
    taps: &[Box<dyn Tap>],
    turns: &[u8],
) -> Result<(), Failed>
    ensures whole { OnOk result (WroteMore (T.tells talk.old) (T.tells talk.new)
        (counts_in counts.now ++ flat_map (λ t. text t line_room) taps.now ++ turns.now)) }
    ensures part { OnErr result (WrotePart (T.tells talk.old) (T.tells talk.new)
        (counts_in counts.now ++ flat_map (λ t. text t line_room) taps.now ++ turns.now)) }
{
    report_counts(talk, counts)?;
    report_meters(talk, taps)?;
    write_all(talk, turns)
}

fn report_counts<T: Sink>(talk: &mut T, counts: &PerformanceCounts) -> Result<(), Failed>
    ensures whole { OnOk result (WroteMore (T.tells talk.old) (T.tells talk.new) (counts_in counts.now)) }
    ensures part { OnErr result (WrotePart (T.tells talk.old) (T.tells talk.new) (counts_in counts.now)) }
{
    say(
        talk,
        &[
            "frames ",
            Buffer::new().format(counts.frames),
            "\ncycles ",
            Buffer::new().format(counts.cycles),
            "\nnotes ",
            Buffer::new().format(counts.started),
            "\nnot started ",
            Buffer::new().format(counts.not_started),
            "\nout of range ",
            Buffer::new().format(counts.out_of_range),
            "\n",
        ],
    )
}

fn report_meters<T: Sink>(talk: &mut T, taps: &[Box<dyn Tap>]) -> Result<(), Failed>
    ensures whole { OnOk result (WroteMore (T.tells talk.old) (T.tells talk.new)
        (flat_map (λ t. text t line_room) taps.now)) }
    ensures part { OnErr result (WrotePart (T.tells talk.old) (T.tells talk.new)
        (flat_map (λ t. text t line_room) taps.now)) }
{
    for tap in taps {
        report_meter(talk, tap)?;
    }
    Ok(())
}

fn report_meter<T: Sink>(talk: &mut T, tap: &Box<dyn Tap>) -> Result<(), Failed>
    ensures whole { OnOk result (WroteMore (T.tells talk.old) (T.tells talk.new) (text tap.now line_room)) }
    ensures part { OnErr result (WrotePart (T.tells talk.old) (T.tells talk.new) (text tap.now line_room)) }
{
    let mut line = [0u8; 64];
    let used = tap.line(&mut line);
    write_all(talk, &line[..used])
}
