// The sound of a job.
ghost use Rattle.std.specs.Prelude.{◌≡◌, ◌<◌, ◌≤◌, ◌*◌, ℕ, ℤ, length, All};
ghost use Rattle.cs_base.specs.Limits.{most_notes};
ghost use Rattle.cs_row.specs.Heard.{AreSumsOf, KeepsShape, sums};

use cs_cells::Job;

/// A job that produces a number for each channel at each frame of a cycle.
pub trait Heard: Job {
    /// The number at each index of a block: frame by frame, the channels of a frame next to each other.
    ghost gives: { Self → ℕ → ℤ };

    /// The numbers of frames and channels of its block.
    ghost shape: { Self → ℕ × ℕ };

    /// Writes the sums of what `jobs` produce into the block: integers without bounds. There are from 1 to
    /// 512 jobs, of one shape. The earlier contents of the block don't matter.
    fn sum(jobs: &[Self], block: &mut [i64])
        requires some { 0 < length jobs.now }
        requires few { length jobs.now ≤ most_notes }
        requires long { (frames : ℕ) × (channels : ℕ) × All (λ j. shape j ≡ (frames, channels)) jobs.now
            × (length block.old ≡ frames * channels) }
        ensures sums { block.new ≡ sums gives (length block.old) jobs.now }
        ensures small { AreSumsOf (length jobs.now) block.new };

    // A run doesn't change the shape.
    ghost keeps: { KeepsShape Self.means shape };
}
