// The faults for which a text is refused: each has a line and a kind.
ghost use Rattle.std.specs.Prelude.{◌≡◌};
ghost use Rattle.cs_base.specs.declared.fault.Or.TheVariants as or;
ghost use Rattle.cs_base.specs.Faults.{csd_kind_number, csd_kind_name, orc_kind_number, orc_kind_name};
ghost use Rattle.cs_base.specs.Faults.{score_kind_number, score_kind_name};

use std::alloc::{AllocError, AllocFailed};
use thiserror::Error;

/// Out of memory. No clause states when a call returns it.
#[derive(Clone, Copy)]
pub struct OutOfMemory;

impl From<AllocError> for OutOfMemory {
    fn from(_: AllocError) -> Self {
        OutOfMemory
    }
}

impl<T: Drop> From<AllocFailed<T>> for OutOfMemory {
    fn from(_: AllocFailed<T>) -> Self {
        OutOfMemory
    }
}

/// A fault of a text, or out of memory.
#[derive(Clone, Copy)]
pub enum Or<F> {
    Fault(F),
    OutOfMemory,
}

impl<F> From<AllocError> for Or<F> {
    ghost from_gives = { λ _ e. e ≡ or.OutOfMemory };

    fn from(_: AllocError) -> Self {
        Or::OutOfMemory
    }
}

impl<F, T: Drop> From<AllocFailed<T>> for Or<F> {
    ghost from_gives = { λ _ e. e ≡ or.OutOfMemory };

    fn from(_: AllocFailed<T>) -> Self {
        Or::OutOfMemory
    }
}

impl<F> From<OutOfMemory> for Or<F> {
    ghost from_gives = { λ _ e. e ≡ or.OutOfMemory };

    fn from(_: OutOfMemory) -> Self {
        Or::OutOfMemory
    }
}

// The name of a variant of `$kind`, which must be one of the listed variants.
macro_rules! variant_name {
    ($value:expr, $kind:ident: $($variant:ident)*) => {
        match $value {
            $($kind::$variant => stringify!($variant),)*
        }
    };
}

/// The kinds of fault of an orchestra: the tokenizer finds 1 to 4, the grammar finds 5 to 11 and 20 to 23,
/// and the checks of rates and names find 12 to 19.
#[derive(Clone, Copy, Debug, PartialEq, Eq)]
pub enum OrcKind {
    BadByte = 1,
    BadToken = 2,
    BadNumber = 3,
    OpenComment = 4,
    Unexpected = 5,
    MissingEndin = 6,
    NestedInstr = 7,
    InstrNumber = 8,
    InstrTwice = 9,
    MissingEndif = 10,
    NotInProfile = 11,
    UnknownOpcode = 12,
    Undefined = 13,
    RateMismatch = 14,
    ArgCount = 15,
    HeaderValue = 16,
    HeaderTwice = 17,
    ChannelRate = 18,
    OutCount = 19,
    Recursion = 20,
    OpcodeTwice = 21,
    XinXout = 22,
    MissingEndop = 23,
}

impl OrcKind {
    /// Returns the kind's number, from 1 to 23, which is printed in a refusal.
    pub fn number(self) -> u8
        ensures { result ≡ orc_kind_number self }
    {
        self as u8
    }

    /// Returns the kind's name, which is printed in a refusal.
    pub fn name(self) -> &'static str
        ensures { result.now ≡ orc_kind_name self }
    {
        variant_name! {
            self, OrcKind:
            BadByte BadToken BadNumber OpenComment Unexpected MissingEndin NestedInstr InstrNumber
            InstrTwice MissingEndif NotInProfile UnknownOpcode Undefined RateMismatch ArgCount
            HeaderValue HeaderTwice ChannelRate OutCount Recursion OpcodeTwice XinXout MissingEndop
        }
    }
}

/// The kinds of fault of a score, in the order of their numbers.
#[derive(Clone, Copy, Debug, PartialEq, Eq)]
pub enum ScoreKind {
    BadStatement = 1,
    BadNumber = 2,
    MissingField = 3,
    NothingToCarry = 4,
    BadTempo = 5,
    BadGen = 6,
    BadTableSize = 7,
    TableResized = 8,
    NegativeTime = 9,
    NotInProfile = 10,
}

impl ScoreKind {
    /// Returns the kind's number, from 1 to 10, which is printed in a refusal.
    pub fn number(self) -> u8
        ensures { result ≡ score_kind_number self }
    {
        self as u8
    }

    /// Returns the kind's name, which is printed in a refusal.
    pub fn name(self) -> &'static str
        ensures { result.now ≡ score_kind_name self }
    {
        variant_name! {
            self, ScoreKind:
            BadStatement BadNumber MissingField NothingToCarry BadTempo BadGen BadTableSize
            TableResized NegativeTime NotInProfile
        }
    }
}

/// The first broken rule of an orchestra. Lines count from 1.
#[derive(Clone, Copy, Debug, PartialEq, Eq, Error)]
#[error("orchestra line {line}: {kind:?}")]
pub struct OrcFault {
    pub line: u32,
    pub kind: OrcKind,
}

/// The first broken rule of a score. Lines count from 1.
#[derive(Clone, Copy, Debug, PartialEq, Eq, Error)]
#[error("score line {line}: {kind:?}")]
pub struct ScoreFault {
    pub line: u32,
    pub kind: ScoreKind,
}

/// The kinds of fault in the tags of a file that contains both texts.
#[derive(Clone, Copy, Debug, PartialEq, Eq)]
pub enum CsdKind {
    /// The file ends before a required tag, or has no `<CsInstruments>`.
    MissingTag = 1,
    /// A section is opened a second time.
    SectionTwice = 2,
    /// A line between sections is not a tag of the profile.
    NotInProfile = 3,
}

impl CsdKind {
    /// Returns the kind's number, from 1 to 3, which is printed in a refusal.
    pub fn number(self) -> u8
        ensures { result ≡ csd_kind_number self }
    {
        self as u8
    }

    /// Returns the kind's name, which is printed in a refusal.
    pub fn name(self) -> &'static str
        ensures { result.now ≡ csd_kind_name self }
    {
        match self {
            CsdKind::MissingTag => "MissingTag",
            CsdKind::SectionTwice => "SectionTwice",
            CsdKind::NotInProfile => "NotInProfile",
        }
    }
}

/// The first broken rule of the tags of a file that contains both texts. Lines count from 1.
#[derive(Clone, Copy, Debug, PartialEq, Eq)]
pub struct CsdFault {
    pub line: u32,
    pub kind: CsdKind,
}
