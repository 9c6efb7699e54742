// The state that later statements depend on.
ghost use Rattle.cs_score.specs.Ranges.{beats_end};
ghost use Rattle.std.specs.Prelude.{◌<◌};

use crate::last::LastNote;
use crate::table::Sizes;

/// The state after some statements, on which later statements depend.
#[derive(Drop)]
pub struct Past {
    /// The base, which is added to p2, in millionths of a beat.
    pub base: u64,
    /// The size of the first `f` of each table number.
    pub sizes: Sizes,
    /// The `i` statement right before.
    pub last: LastNote,
    ghost base_in_range: { base < beats_end },
}
