// Why a statement can't be read, before its line is known.
ghost use Rattle.std.specs.Prelude.{◌≡◌};
ghost use Rattle.cs_score.specs.declared.statement_fault.StatementFault.TheVariants as fault;

use cs_base::ScoreKind;
use std::alloc::AllocError;

/// Why a statement can't be read: the rule that it breaks, or out of memory. The caller that reads the text
/// adds the line.
#[derive(Clone, Copy)]
pub enum StatementFault {
    Kind(ScoreKind),
    OutOfMemory,
}

impl From<ScoreKind> for StatementFault {
    ghost from_gives = { λ kind e. e ≡ fault.Kind kind };

    fn from(kind: ScoreKind) -> Self {
        StatementFault::Kind(kind)
    }
}

impl From<AllocError> for StatementFault {
    ghost from_gives = { λ _ e. e ≡ fault.OutOfMemory };

    fn from(_: AllocError) -> Self {
        StatementFault::OutOfMemory
    }
}
