// The notes of a cycle are summed before any value is clipped.
ghost use Rattle.std.specs.Prelude.{◌≡◌, ◌<◌, ℕ, pos, length, slice_index_or};
ghost use Rattle.cs_base.specs.Numbers.{IsRaw};
ghost use Rattle.cs_wav.specs.Wav.{added, TakesMore};

use cs_base::Num;

/// Adds a row of one note's output to the mix, value by value, both in 65,536ths and of the same length.
/// Every value of the mix must be at most 2^56 - 2^47 in absolute value, so no sum exceeds 2^56.
pub fn add_block(mix: &mut [i64], part: &[Num])
    requires same { length mix.old ≡ length part.now }
    requires room { (i : ℕ) → TakesMore (slice_index_or mix.old i (pos 0)) }
    ensures sums { mix.new ≡ added mix.old part.now }
    ensures raw { (i : ℕ) → i < length part.now → IsRaw (slice_index_or part.now i (pos 0)) }
{
    for i in 0..part.len() {
        mix[i] += part[i].raw();
    }
}
