//! The bytes of the sound file: a header, and the mix as samples of two or three bytes.
//!
//! Its one contract: the header, the samples and, after an odd number of sample bytes, one byte 0 are the WAV
//! file of the mix, byte for byte, and every clipped sample is counted. The layers above know only the
//! definition of the file, so the computation of a sample may change without anyone noticing.
//!
//! In reading order: `mix` (adds one row of a note's output to the mix), `sample` (converts a mix value to
//! bytes), `block` (converts many of them), `riff` (the header), `laws` (what doesn't depend on the width) and
//! `worked` (files and samples worked out by hand).
#![tactic(auto)]

mod block;
mod laws;
mod mix;
mod riff;
mod sample;
mod worked;

pub use block::pcm_block;
pub use laws::widths_count_alike;
pub use mix::add_block;
pub use riff::header;
pub use worked::{full_scales, worked_file, worked_samples};
