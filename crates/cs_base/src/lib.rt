//! The bottom layer: everything that all other crates share, each thing defined once for code and
//! definitions.
//!
//! Its one contract: all arithmetic of the profile is done by `Num`, and the result of each call is its
//! formula over unbounded integers, followed by `clamp`; specs/ defines limits, blanks, comments and the
//! order of rates. How `Num` computes, and how a decimal or a comment is read, may change without anyone
//! above noticing; the definitions in specs/ may not.
//!
//! In reading order: `number` (arithmetic), `divisor` (many quotients with one divisor), `laws` (properties
//! of the definitions, and worked examples), `decimal` (numbers in a text), `excerpt` (a text within a file),
//! `lines` and `comments` (what may separate words in both languages), `fault`, `limit` and `refusal` (the
//! reasons for refusing a text), `head`, `resource` (rates, and the resources that notes share), `per_rate`,
//! `spaces`, `width` (the width of a sample), `items` (the one list type), `text`, `steps`.
#![tactic(auto)]

mod comments;
mod decimal;
mod divisor;
mod excerpt;
mod fault;
mod head;
mod items;
mod laws;
mod limit;
mod lines;
mod number;
mod per_rate;
mod refusal;
mod resource;
mod spaces;
mod steps;
mod text;
mod width;

pub use comments::{begins_comment, comment_len, is_open_comment};
pub use decimal::{Decimal, read_decimal};
pub use divisor::Divisor;
pub use excerpt::Excerpt;
pub use fault::{CsdFault, CsdKind, Or, OrcFault, OrcKind, OutOfMemory, ScoreFault, ScoreKind};
pub use head::Head;
pub use items::{Bytes, Items, Name, Names, Numbers, Nums, Places, Rates};
pub use laws::{
    division_rounds_down, lines_are_those_of_the_file, parts_of_a_number, rates_are_ordered,
    results_in_range, sameness_is_equality, worked_examples,
};
pub use limit::{
    GREATEST_FIELD, GREATEST_INSTRUMENT, GREATEST_KSMPS, GREATEST_SR, GREATEST_TABLE,
    GREATEST_ZAK_SIZE, Limit, LimitHit, MOST_ASKS, MOST_CHANNELS, MOST_CSD_BYTES,
    MOST_DELAY_SAMPLES, MOST_EVENTS, MOST_INSTRUMENTS, MOST_LINE_TOKENS, MOST_NESTED_IFS,
    MOST_NOTES, MOST_ORCHESTRA_BYTES, MOST_RESOURCES, MOST_SCORE_BYTES, MOST_STATEMENTS,
    MOST_TABLES, MOST_WAV_BYTES, MOST_WORDS,
};
pub use lines::{blanks_len, feeds, is_blank, line_len, next_len};
pub use number::{Num, ONE};
pub use per_rate::PerRate;
pub use refusal::Refusal;
pub use resource::{Rate, Res};
pub use spaces::Spaces;
pub use steps::Steps;
pub use text::Text;
pub use width::SampleWidth;
