// The line that says how a run ended.
ghost use Rattle.std.specs.Prelude.{◌≡◌, flat_map, OnErr, OnOk};
ghost use Rattle.cs_edge.specs.Moves.{WroteMore, WrotePart};
ghost use Rattle.cs_report.specs.Talk.{Says, fault_message, limit_message, message_of};

use crate::status::Status;
use cs_arguments::usage_line;
use cs_base::{CsdFault, LimitHit, OrcFault, ScoreFault};
use cs_edge::{Failed, Sink, write_all};
use itoa::Buffer;

/// Writes the line of a status and returns the status; `name` is the name of the text that can't be read. A
/// failed write changes nothing else.
pub fn say_end<T: Sink>(talk: &mut T, status: Status, name: &str) -> Status
    ensures status { result ≡ status }
    ensures line { Says (T.tells talk.old) (T.tells talk.new) (message_of status name.now) }
{
    match status {
        Status::Ok | Status::TalkFault => {}
        Status::Usage => say_line(talk, &[usage_line(), "\n"]),
        Status::ShelfFault => say_line(talk, &["cannot read ", name, "\n"]),
        Status::OrcRefused(OrcFault { line, kind }) => {
            say_fault(talk, "orchestra", line, kind.number(), kind.name())
        }
        Status::ScoreRefused(ScoreFault { line, kind }) => {
            say_fault(talk, "score", line, kind.number(), kind.name())
        }
        Status::Limit(hit) => say_limit(talk, hit),
        Status::SinkFault => say_line(talk, &["cannot write the sound file\n"]),
        Status::OutOfMemory => say_line(talk, &["out of memory\n"]),
        Status::CsdRefused(CsdFault { line, kind }) => {
            say_fault(talk, "csd", line, kind.number(), kind.name())
        }
    }
    status
}

fn say_fault<T: Sink>(talk: &mut T, text: &str, line: u32, kind: u8, name: &str)
    ensures { Says (T.tells talk.old) (T.tells talk.new) (fault_message text.now line kind name.now) }
{
    say_line(
        talk,
        &[
            text,
            " line ",
            Buffer::new().format(line),
            ": ",
            Buffer::new().format(kind),
            " ",
            name,
            "\n",
        ],
    );
}

fn say_limit<T: Sink>(talk: &mut T, hit: LimitHit)
    ensures { Says (T.tells talk.old) (T.tells talk.new) (limit_message hit) }
{
    say_line(
        talk,
        &[
            "limit L",
            Buffer::new().format(hit.limit.number()),
            " passed at line ",
            Buffer::new().format(hit.line),
            "\n",
        ],
    );
}

// Writes a line; the write may fail.
fn say_line<T: Sink>(talk: &mut T, pieces: &[&str])
    ensures { Says (T.tells talk.old) (T.tells talk.new) (flat_map (λ piece. piece.now) pieces.now) }
{
    let _said = say(talk, pieces);
}

/// Writes pieces of text one after another, until a write fails.
pub fn say<T: Sink>(talk: &mut T, pieces: &[&str]) -> Result<(), Failed>
    ensures whole { OnOk result (WroteMore (T.tells talk.old) (T.tells talk.new)
        (flat_map (λ piece. piece.now) pieces.now)) }
    ensures part { OnErr result (WrotePart (T.tells talk.old) (T.tells talk.new)
        (flat_map (λ piece. piece.now) pieces.now)) }
{
    for piece in pieces {
        if let Err(failed) = write_all(talk, piece.as_bytes()) {
            return Err(failed);
        }
    }
    Ok(())
}
