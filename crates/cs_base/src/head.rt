// The settings in an orchestra's header.
ghost use Rattle.std.specs.Prelude.{◌≤◌, pos, ◌<ℤ◌};
ghost use Rattle.cs_base.specs.Limits.{greatest_ksmps, greatest_sr, most_channels};

use crate::Num;

/// The settings that apply to an entire piece: sample rate, frames per control cycle, channels, and full
/// scale.
#[derive(Clone, Copy)]
pub struct Head {
    /// Frames per second, from 1 to 192,000.
    pub sr: u32,
    /// Frames per control cycle, from 1 to 4,096.
    pub ksmps: u32,
    /// Number of channels, from 1 to 16.
    pub nchnls: u32,
    /// The value of full scale, greater than 0.
    pub dbfs: Num,
    ghost sr_in_range: { (1 ≤ sr) × (sr ≤ greatest_sr) },
    ghost ksmps_in_range: { (1 ≤ ksmps) × (ksmps ≤ greatest_ksmps) },
    ghost nchnls_in_range: { (1 ≤ nchnls) × (nchnls ≤ most_channels) },
    ghost dbfs_above_zero: { pos 0 <ℤ dbfs },
}
