// Converts a block of mix values to a block of samples.
ghost use Rattle.std.specs.Prelude.{◌≡◌, ◌<◌, ◌<ℤ◌, ◌*◌, ◌^◌, pos, length};
ghost use Rattle.std.specs.List.{count_by};
ghost use Rattle.cs_base.specs.Widths.{bytes_of};
ghost use Rattle.cs_wav.specs.Wav.{is_out_of_range, samples_of};

use crate::sample::Scale;
use cs_base::{Num, SampleWidth};

/// Writes mix values, in 65,536ths, as samples of width `width`, with `dbfs` as full scale. Returns the
/// number of values that were clipped.
pub fn pcm_block(width: SampleWidth, mix: &[i64], dbfs: Num, out: &mut [u8]) -> u32
    requires few { length mix.now < 2 ^ 32 }
    requires room { length out.old ≡ length mix.now * bytes_of width }
    requires above_zero { pos 0 <ℤ dbfs }
    ensures bytes { out.new ≡ samples_of width dbfs mix.now }
    ensures out_of_range { result ≡ count_by (is_out_of_range width dbfs) mix.now }
{
    // Both arms have the same text: in each, the compiler knows the number of bytes of a sample.
    match width {
        SampleWidth::TwoBytes => each_sample(Scale::of(SampleWidth::TwoBytes, dbfs), mix, out),
        SampleWidth::ThreeBytes => each_sample(Scale::of(SampleWidth::ThreeBytes, dbfs), mix, out),
    }
}

#[inline(always)]
fn each_sample(scale: Scale, mix: &[i64], out: &mut [u8]) -> u32
    requires few { length mix.now < 2 ^ 32 }
    requires room { length out.old ≡ length mix.now * bytes_of scale.width }
    ensures bytes { out.new ≡ samples_of scale.width scale.dbfs mix.now }
    ensures out_of_range { result ≡ count_by (is_out_of_range scale.width scale.dbfs) mix.now }
{
    let bytes = scale.width.bytes() as usize;
    let mut brought_in = 0;
    for (i, value) in mix.iter().enumerate() {
        brought_in += scale.put_value(out, i * bytes, *value);
    }
    brought_in
}
