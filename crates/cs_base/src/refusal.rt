// The refusal of a piece's texts: one type, from reading the texts to the exit status.
ghost use Rattle.std.specs.Prelude.{◌≡◌};
ghost use Rattle.cs_base.specs.Faults.{or_by, passed};
ghost use Rattle.cs_base.specs.declared.refusal.Refusal.TheVariants as refusal;

use crate::{CsdFault, Limit, LimitHit, Or, OrcFault, ScoreFault};

/// The first refusal of a piece's texts, with its line in the file, or line 0 if it has none.
#[derive(Clone, Copy, Debug, PartialEq, Eq)]
pub enum Refusal {
    /// A broken rule of the orchestra.
    Orc(OrcFault),
    /// A broken rule of the score.
    Score(ScoreFault),
    /// A limit that one of the texts exceeds, or that both exceed together; then the line is 0.
    Limit(LimitHit),
    /// A broken rule of the tags of a file that contains both texts.
    Csd(CsdFault),
}

impl Refusal {
    /// Returns the refusal for `limit` at line 0, if no line of a text exceeds it.
    pub fn passed(limit: Limit) -> Refusal
        ensures { result ≡ passed limit }
    {
        Refusal::Limit(LimitHit::at_no_line(limit))
    }
}

impl From<Or<OrcFault>> for Or<Refusal> {
    ghost from_gives = { λ or e. e ≡ or_by refusal.Orc or };

    fn from(or: Or<OrcFault>) -> Self {
        match or {
            Or::Fault(fault) => Or::Fault(Refusal::Orc(fault)),
            Or::OutOfMemory => Or::OutOfMemory,
        }
    }
}

impl From<Or<ScoreFault>> for Or<Refusal> {
    ghost from_gives = { λ or e. e ≡ or_by refusal.Score or };

    fn from(or: Or<ScoreFault>) -> Self {
        match or {
            Or::Fault(fault) => Or::Fault(Refusal::Score(fault)),
            Or::OutOfMemory => Or::OutOfMemory,
        }
    }
}

impl From<Or<LimitHit>> for Or<Refusal> {
    ghost from_gives = { λ or e. e ≡ or_by refusal.Limit or };

    fn from(or: Or<LimitHit>) -> Self {
        match or {
            Or::Fault(hit) => Or::Fault(Refusal::Limit(hit)),
            Or::OutOfMemory => Or::OutOfMemory,
        }
    }
}
