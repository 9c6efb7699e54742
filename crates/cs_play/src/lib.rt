//! The program as one call: the command-line arguments are its input, a sound file and a report its output.
//!
//! The result of every run is on one page (`Ends`, specs/Page), as the law `runs_are_as_the_page_says` shows.
//!
//! The one contract: `csplay` ends as `IsProgramRun` states (specs/Runs): for each status, what has happened
//! (`EndsBy`, specs/Endings), in terms of what shelf, sound file, `talk` and meters tell before and after;
//! and the shelf was read for the source in the arguments, or not at all. `prepare` does everything before
//! the performance and has no runtime: its result is a piece (`IsPrepared`, specs/Preparing), or the status
//! and the line that say why there is none (`IsUnprepared`). `laws` has the consequences for every run and
//! for every two runs: texts have one sound or one refusal (`IsSoundOf` of cs_source); the sound file
//! contains it or a prefix of it, whatever the number of workers; and arguments, a missing name, a refusal or
//! a sound decide the status, unless memory runs out.
//!
//! The number of workers may be changed without anyone noticing, and so may everything that `perform` leaves
//! open.
//!
//! Modules in reading order: `top` (the complete run), `preparing` (arguments and texts), `player`
//! (performing a piece, with how many workers), `sounding` (reporting the result), `laws`.
#![tactic(auto)]

mod laws;
mod player;
mod preparing;
mod sounding;
mod top;

pub use cs_report::Status;
pub use laws::{
    alike_runs_agree, failures_decide, lacking_decides, refusals_decide, runs_are_as_the_page_says,
    sound_files_hold_sounds, sounds_decide, texts_have_one_sound_or_refusal, words_decide,
};
pub use preparing::{Prepared, asks_for_one, prepare};
pub use top::{csplay, csplay_alone};
