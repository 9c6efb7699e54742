// The recording of a performance.
ghost use Rattle.std.specs.Prelude.{◌≡◌, ◌*◌, ◌≤◌, [], IfOk};
ghost use Rattle.cs_base.specs.{Limits.most_wav_bytes, Widths.bytes_of};
ghost use Rattle.cs_perform.specs.{Performances.IsOutcomeOf, Performances.if_told, inner.Ends.AreStartsOf};
ghost use Rattle.cs_perform.specs.inner.Recordings.{HasBlocks, IsRecordingOf};
ghost use Rattle.cs_piece.specs.Setups.{composition_of};
ghost use Rattle.cs_turns.specs.Turns.{turn_lines_of};

use crate::order::{Outcome, Performance};
use crate::sizes::frames_in;
use crate::stand::Starts;
use cs_base::{Bytes, Head, OutOfMemory, SampleWidth};
use std::alloc::Global;

/// The blocks of a cycle, and what was recorded of all cycles so far.
#[derive(Drop)]
pub(crate) struct Recording {
    /// The mix of a cycle, frame by frame and channel by channel.
    pub mix: Vec<i64>,
    /// The samples of a cycle, in bytes.
    pub samples: Vec<u8>,
    /// The number of samples that were clipped.
    pub out_of_range: u64,
    /// The lines of turns; empty if the report has none.
    pub turns: Vec<u8>,
}

impl Recording {
    /// Makes a recording of no cycle, with blocks for this head and samples of this width.
    pub fn new(alloc: Global, head: &Head, width: SampleWidth) -> Result<Recording, OutOfMemory>
        ensures blocks { IfOk result (HasBlocks head.now width) }
        ensures none { IfOk result (λ r. (r.out_of_range ≡ 0) × (r.turns.items ≡ [])) }
    {
        let values = head.ksmps as usize * head.nchnls as usize;
        let bytes = width.bytes() as usize;
        Ok(Recording {
            mix: vec![in alloc; 0i64; values]?,
            samples: vec![in alloc; 0u8; values * bytes]?,
            out_of_range: 0,
            turns: Vec::new(alloc),
        })
    }

    /// Returns the outcome of a performance, all of whose cycles were recorded.
    pub fn outcome(self, performance: &Performance<'_>, starts: Starts) -> Outcome
        requires bytes { let s = performance.now.setup.now in
            s.plot.cycles * s.orchestra.head.ksmps * s.orchestra.head.nchnls
            * bytes_of performance.now.order.width ≤ most_wav_bytes }
        requires recorded { IsRecordingOf performance.now.setup.now performance.now.order
            performance.now.setup.now.plot.cycles self }
        requires starts { AreStartsOf (composition_of performance.now.setup.now) starts }
        ensures outcome { IsOutcomeOf (composition_of performance.now.setup.now) performance.now.order.width result }
        ensures turns { result.turns ≡ if_told performance.now.order.turns
            (turn_lines_of (composition_of performance.now.setup.now)) }
    {
        let Recording {
            mix: _,
            samples: _,
            out_of_range,
            turns,
        } = self;
        let frames = frames_in(performance.setup);
        Outcome {
            frames,
            cycles: performance.setup.plot().cycles,
            started: starts.started,
            not_started: starts.not_started,
            out_of_range,
            turns: Bytes::from_vec(turns),
        }
    }
}
