// How a run ended.
ghost use Rattle.std.specs.Prelude.{◌≡◌};
ghost use Rattle.cs_report.specs.Status.{refusal, status_number};

use cs_base::{CsdFault, LimitHit, OrcFault, Refusal, ScoreFault};

/// How a run ended.
#[derive(Clone, Copy)]
pub enum Status {
    /// The piece was performed to its end, and its sound file and the report are complete.
    Ok,
    /// The arguments have no reading.
    Usage,
    /// A file of the piece couldn't be read.
    ShelfFault,
    /// The orchestra breaks a rule of the language.
    OrcRefused(OrcFault),
    /// The score breaks a rule of the language.
    ScoreRefused(ScoreFault),
    /// A stated limit was exceeded.
    Limit(LimitHit),
    /// The sound file couldn't be written.
    SinkFault,
    /// Memory ran out.
    OutOfMemory,
    /// The report couldn't be written. The sound file is complete.
    TalkFault,
    /// The tags of a file with both texts break a rule.
    CsdRefused(CsdFault),
}

impl Status {
    /// Returns the exit status of the program.
    pub fn number(&self) -> u8
        ensures { result ≡ status_number self.now }
    {
        match self {
            Status::Ok => 0,
            Status::Usage => 2,
            Status::ShelfFault => 3,
            Status::OrcRefused(_) => 4,
            Status::ScoreRefused(_) => 5,
            Status::Limit(_) => 6,
            Status::SinkFault => 7,
            Status::OutOfMemory => 8,
            Status::TalkFault => 9,
            Status::CsdRefused(_) => 11,
        }
    }

    /// Returns the status of a refusal.
    pub fn of_refusal(refused: Refusal) -> Status
        ensures { result ≡ refusal refused }
    {
        match refused {
            Refusal::Orc(fault) => Status::OrcRefused(fault),
            Refusal::Score(fault) => Status::ScoreRefused(fault),
            Refusal::Limit(hit) => Status::Limit(hit),
            Refusal::Csd(fault) => Status::CsdRefused(fault),
        }
    }
}
