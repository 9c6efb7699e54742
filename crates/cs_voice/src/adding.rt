// The sum of the voices' samples in each channel at each frame.
ghost use Rattle.std.specs.Prelude.{◌≡◌, ◌≢◌, ◌<◌, ◌≤◌, ◌+◌, ◌*◌, ◌+ℤ◌, ℕ, length, pos, slice_index_or, All};
ghost use Rattle.cs_base.specs.{Limits.most_notes, Numbers.IsRaw};
ghost use Rattle.cs_machine.specs.Outputs.{outs};
ghost use Rattle.cs_signal.specs.Operands.{argument};
ghost use Rattle.cs_voice.specs.{Mixing.mixed, Mixing.sum_at, VoiceData.VoiceData};
ghost use Rattle.cs_row.specs.Heard.{IsSumOf};
ghost use Rattle.cs_voice.specs.inner.Places.{HasRoom, place};

use crate::Voice;
use cs_base::Num;
use cs_wav::add_block;

// The number of frames of a channel that are summed at a time.
const FRAMES: usize = 32;

/// Writes the sum of the samples that `voices`, at most 512, send in a control cycle of `frames` frames to
/// `channels` channels: integers in units of 1/65,536 without bounds, frame by frame, the channels of a frame
/// next to each other. `out` has a number for each channel of each frame; its earlier contents don't matter.
pub fn mix(voices: &[Voice<'_>], frames: usize, channels: usize, out: &mut [i64])
    requires voices { All (λ (v : VoiceData). v.outs.ksmps ≡ frames) voices.now }
    requires few { length voices.now ≤ most_notes }
    requires long { length out.old ≡ frames * channels }
    ensures sums { out.new ≡ mixed frames channels voices.now }
    ensures small { (j c : ℕ) → j < frames → c < channels → IsSumOf (length voices.now) (sum_at voices.now j c) }
{
    for channel in 0..channels {
        mix_channel(voices, frames, channel, channels, out);
    }
}

// Sums one channel, a few frames at a time.
fn mix_channel(
    voices: &[Voice<'_>],
    frames: usize,
    channel: usize,
    channels: usize,
    out: &mut [i64],
)
    requires voices { All (λ (v : VoiceData). v.outs.ksmps ≡ frames) voices.now }
    requires few { length voices.now ≤ most_notes }
    requires channel { channel < channels }
    requires long { length out.old ≡ frames * channels }
    ensures sums { (j : ℕ) → j < frames → place channels out.new j channel ≡ sum_at voices.now j channel }
    ensures small { (j : ℕ) → j < frames → IsSumOf (length voices.now) (sum_at voices.now j channel) }
    ensures others { (j c : ℕ) → c < channels → c ≢ channel → place channels out.new j c ≡ place channels out.old j c }
    ensures long { length out.new ≡ length out.old }
{
    let mut from = 0;
    while from < frames {
        from = mix_part(voices, frames, from, channel, channels, out);
    }
}

// Sums the frames of a channel from `from` on, as many as fit at a time, and returns the index of the frame
// after them.
fn mix_part(
    voices: &[Voice<'_>],
    frames: usize,
    from: usize,
    channel: usize,
    channels: usize,
    out: &mut [i64],
) -> usize
    requires voices { All (λ (v : VoiceData). v.outs.ksmps ≡ frames) voices.now }
    requires few { length voices.now ≤ most_notes }
    requires from { from < frames }
    requires channel { channel < channels }
    requires long { length out.old ≡ frames * channels }
    ensures sums { (j : ℕ) → from ≤ j → j < result → place channels out.new j channel ≡ sum_at voices.now j channel }
    ensures small { (j : ℕ) → from ≤ j → j < result → IsSumOf (length voices.now) (sum_at voices.now j channel) }
    ensures before { (j : ℕ) → j < from → place channels out.new j channel ≡ place channels out.old j channel }
    ensures others { (j c : ℕ) → c < channels → c ≢ channel → place channels out.new j c ≡ place channels out.old j c }
    ensures long { length out.new ≡ length out.old }
    ensures further { from < result }
    ensures within { result ≤ frames }
{
    let count = FRAMES.min(frames - from);
    let mut room = [0; FRAMES];
    let sums = &mut room[..count];
    sum_voices(voices, frames, from, channel, sums);
    put(sums, from, channel, channels, out);
    from + count
}

// Writes the sum of the voices' samples in a channel from a frame on over `sums`.
fn sum_voices(voices: &[Voice<'_>], frames: usize, from: usize, channel: usize, sums: &mut [i64])
    requires voices { All (λ (v : VoiceData). v.outs.ksmps ≡ frames) voices.now }
    requires few { length voices.now ≤ most_notes }
    requires from { from + length sums.old ≤ frames }
    requires short { length sums.old ≤ 32 }
    requires silent { (j : ℕ) → slice_index_or sums.old j (pos 0) ≡ pos 0 }
    ensures sums { (j : ℕ) → j < length sums.old → slice_index_or sums.new j (pos 0) ≡ sum_at voices.now (from + j)
        channel }
    ensures small { (j : ℕ) → j < length sums.old → IsSumOf (length voices.now) (sum_at voices.now (from + j) channel) }
    ensures long { length sums.new ≡ length sums.old }
{
    for voice in voices {
        add_voice(voice, from, channel, sums);
    }
}

// Adds a voice's samples in a channel from a frame on; adds nothing if the voice is silent there.
fn add_voice(voice: &Voice<'_>, from: usize, channel: usize, sums: &mut [i64])
    requires from { from + length sums.old ≤ voice.now.outs.ksmps }
    requires room { HasRoom sums.old }
    ensures sums { (j : ℕ) → j < length sums.old → slice_index_or sums.new j (pos 0)
        ≡ slice_index_or sums.old j (pos 0) +ℤ outs voice.now.outs channel (from + j) }
    ensures raw { (j : ℕ) → j < length sums.old → IsRaw (outs voice.now.outs channel (from + j)) }
    ensures long { length sums.new ≡ length sums.old }
{
    if let Some(row) = voice.channel(channel) {
        add_row(&row[from..from + sums.len()], sums);
    }
}

// Adds a row with a number for each frame.
fn add_row(row: &[Num], sums: &mut [i64])
    requires long { length row.now ≡ length sums.old }
    requires room { HasRoom sums.old }
    ensures sums { (j : ℕ) → slice_index_or sums.new j (pos 0) ≡ slice_index_or sums.old j (pos 0) +ℤ argument row.now
        j }
    ensures raw { (j : ℕ) → j < length row.now → IsRaw (argument row.now j) }
    ensures long { length sums.new ≡ length sums.old }
{
    add_block(sums, row);
}

// Writes sums to a channel of `out`, from a frame on.
fn put(sums: &[i64], from: usize, channel: usize, channels: usize, out: &mut [i64])
    requires channel { channel < channels }
    requires long { (from + length sums.now) * channels ≤ length out.old }
    ensures sums { (j : ℕ) → j < length sums.now → place channels out.new (from + j) channel ≡ slice_index_or sums.now
        j (pos 0) }
    ensures before { (j : ℕ) → j < from → place channels out.new j channel ≡ place channels out.old j channel }
    ensures others { (j c : ℕ) → c < channels → c ≢ channel → place channels out.new j c ≡ place channels out.old j c }
    ensures long { length out.new ≡ length out.old }
{
    for j in 0..sums.len() {
        out[(from + j) * channels + channel] = sums[j];
    }
}
