// The stated limits of the profile: the number of each, and the greatest count that it allows. Also the
// bounds of the language, which are rules: a text that exceeds one has a fault.
ghost use Rattle.std.specs.Prelude.{◌≡◌};
ghost use Rattle.cs_base.specs.Limits.{limit_number, most_of};

use thiserror::Error;

/// Most bytes of an orchestra.
pub const MOST_ORCHESTRA_BYTES: usize = 1_048_576;
/// Most bytes of a score.
pub const MOST_SCORE_BYTES: usize = 4_194_304;
/// Most different instrument numbers of an orchestra.
pub const MOST_INSTRUMENTS: usize = 200;
/// Most statements of one instrument, including the statements in its `if`s.
pub const MOST_STATEMENTS: usize = 2_000;
/// Most notes that are active in one control cycle.
pub const MOST_NOTES: usize = 512;
/// Most different table numbers of a score.
pub const MOST_TABLES: usize = 300;
/// Most `i` and `f` statements of a score, including stops and `f 0`.
pub const MOST_EVENTS: usize = 100_000;
/// Most bytes of samples in a sound file.
pub const MOST_WAV_BYTES: u64 = 2_147_483_648;
/// Most words of all shared resources together: one for each point of a table and for each variable, channel
/// or zak place; an audio variable, channel or place has one word for each frame of a control cycle.
pub const MOST_WORDS: usize = 65_536;
/// Most samples of all delay lines of one note.
pub const MOST_DELAY_SAMPLES: usize = 262_144;
/// Most shared resources.
pub const MOST_RESOURCES: usize = 4_096;
/// Most notes that a performance stores after other notes scheduled them.
pub const MOST_ASKS: usize = 100_000;
/// Most bytes of one file with orchestra and score: at most the two texts' limits together.
pub const MOST_CSD_BYTES: usize = 5_242_880;

/// Most `if`s around a statement.
pub const MOST_NESTED_IFS: usize = 100;
/// Most tokens on a line of an orchestra.
pub const MOST_LINE_TOKENS: usize = 1_000;
/// The greatest instrument number.
pub const GREATEST_INSTRUMENT: u32 = 32_767;
/// The greatest p-field number in an orchestra, and the most fields of a statement in a score.
pub const GREATEST_FIELD: usize = 100;
/// The greatest size that `zakinit` accepts.
pub const GREATEST_ZAK_SIZE: u32 = 1_000;
/// The greatest number of frames per second.
pub const GREATEST_SR: u32 = 192_000;
/// The greatest number of frames per control cycle.
pub const GREATEST_KSMPS: u32 = 4_096;
/// Most channels.
pub const MOST_CHANNELS: u32 = 16;
/// The greatest table number.
pub const GREATEST_TABLE: u32 = 65_535;

/// The stated limits, in the order of their numbers. A limit is exceeded if the count is greater than `most`.
#[derive(Clone, Copy, Debug, PartialEq, Eq)]
pub enum Limit {
    OrchestraBytes = 1,
    ScoreBytes = 2,
    Instruments = 3,
    Statements = 4,
    Notes = 5,
    Tables = 6,
    Events = 7,
    WavBytes = 8,
    Words = 9,
    DelaySamples = 10,
    Resources = 11,
    Asks = 12,
    CsdBytes = 13,
}

impl Limit {
    /// Returns the limit's number, from 1 to 13, which is printed in a refusal.
    pub fn number(self) -> u8
        ensures { result ≡ limit_number self }
    {
        self as u8
    }

    /// Returns the greatest count that the limit allows.
    pub fn most(self) -> u64
        ensures { result ≡ most_of self }
    {
        match self {
            Limit::OrchestraBytes => MOST_ORCHESTRA_BYTES as u64,
            Limit::ScoreBytes => MOST_SCORE_BYTES as u64,
            Limit::Instruments => MOST_INSTRUMENTS as u64,
            Limit::Statements => MOST_STATEMENTS as u64,
            Limit::Notes => MOST_NOTES as u64,
            Limit::Tables => MOST_TABLES as u64,
            Limit::Events => MOST_EVENTS as u64,
            Limit::WavBytes => MOST_WAV_BYTES,
            Limit::Words => MOST_WORDS as u64,
            Limit::DelaySamples => MOST_DELAY_SAMPLES as u64,
            Limit::Resources => MOST_RESOURCES as u64,
            Limit::Asks => MOST_ASKS as u64,
            Limit::CsdBytes => MOST_CSD_BYTES as u64,
        }
    }
}

/// A limit that was exceeded, and the line that exceeds it, or 0 if no line of a text does.
#[derive(Clone, Copy, Debug, PartialEq, Eq, Error)]
#[error("limit {limit:?} passed at line {line}")]
pub struct LimitHit {
    pub limit: Limit,
    pub line: u32,
}

impl LimitHit {
    /// Returns `limit`, exceeded at line 0, since no line of a text exceeds it.
    pub fn at_no_line(limit: Limit) -> LimitHit
        ensures { result ≡ record { limit = limit; line = 0 } }
    {
        LimitHit { limit, line: 0 }
    }
}
