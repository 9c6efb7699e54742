//! The source of a piece: two files of a shelf, one file with both texts, or the demo.
//!
//! The one contract: `load` returns a setup of what the texts of the source mean (`Mean`, specs/Meaning), or
//! their first refusal with its line in the file that contains it, or the name that can't be read. A text is
//! read up to one byte past its limit. Files have at most one pair of texts, which has exactly one meaning
//! (`laws`). specs/DemoTexts defines the demo's two texts. How texts are read, stored, split and put together
//! may be changed without anyone above noticing.
//!
//! In reading order: `demo` (the demo's texts), `read` (one text of a shelf), `source` (the texts of a
//! source), `csd` (the parts of one file with both texts), `meaning` (compiling them), `loading` (`load`),
//! `laws`, `worked` (sound files and refusals worked out by hand).
#![tactic(auto)]

mod csd;
mod demo;
mod laws;
mod loading;
mod meaning;
mod read;
mod source;
mod worked;

pub use demo::{demo_orchestra, demo_score};
pub use laws::{
    files_have_one_pair_of_texts, texts_of_a_source_mean_one, told_files_have_texts_or_lack_a_name,
};
pub use loading::{LoadFault, load};
pub use worked::{lines_worked_by_hand, sounds_worked_by_hand};
