// The order for a performance, and its outcome.
use cs_base::{Bytes, SampleWidth};
use cs_piece::Setup;
use std::alloc::Global;

/// Where the samples go.
#[derive(Clone, Copy)]
pub enum Output {
    /// Into the sound file.
    SoundFile,
    /// Nowhere: the sink receives no call.
    Nothing,
}

/// Whether the report has the lines of turns.
#[derive(Clone, Copy)]
pub enum TurnLines {
    Told,
    Untold,
}

/// The order for a performance.
#[derive(Clone, Copy)]
pub struct PerformanceOrder {
    pub output: Output,
    pub width: SampleWidth,
    pub turns: TurnLines,
}

/// What is performed: a piece, as the order says, into a sound file with this name.
#[derive(Clone, Copy)]
pub struct Performance<'t> {
    /// The allocator.
    pub alloc: Global,
    pub setup: &'t Setup,
    pub order: PerformanceOrder,
    /// The name under which the sound file is opened.
    pub name: &'t str,
}

/// The outcome of a performance besides the sound.
#[derive(Drop)]
pub struct Outcome {
    /// The number of frames, each with a value for each channel.
    pub frames: u32,
    /// The number of control cycles.
    pub cycles: u32,
    /// The number of starts that started a note.
    pub started: u64,
    /// The number of starts that started nothing.
    pub not_started: u64,
    /// The number of samples that were clipped.
    pub out_of_range: u64,
    /// The lines of turns of the first 1,000 cycles; empty if they weren't asked for.
    pub turns: Bytes,
}

/// The reason why a piece wasn't performed to its end.
#[derive(Clone, Copy)]
pub enum PlayFault {
    /// The sink failed.
    Sink,
    /// Memory ran out.
    OutOfMemory,
}
