// The size of a piece's sound file.
ghost use Rattle.std.specs.Prelude.{◌≡◌, ◌*◌, ◌≤◌, ◌++◌, length};
ghost use Rattle.cs_base.specs.{Limits.most_wav_bytes, Widths.bytes_of, declared.width.SampleWidth.SampleWidth};
ghost use Rattle.cs_piece_meaning.specs.Heard.{frames_of};
ghost use Rattle.cs_perform.specs.{Performances.front_after, inner.Ends.padding};
ghost use Rattle.cs_piece.specs.Setups.{composition_of};
ghost use Rattle.cs_wav.specs.Wav.{header_bytes, wav_of};

use cs_base::SampleWidth;
use cs_piece::Setup;
use cs_wav::header;

/// Returns the number of frames, whose samples fit into a sound file in some width.
pub(crate) fn frames_in(setup: &Setup) -> u32
    requires { (width : SampleWidth)
        × (setup.now.plot.cycles * setup.now.orchestra.head.ksmps * setup.now.orchestra.head.nchnls
        * bytes_of width ≤ most_wav_bytes) }
    ensures { result ≡ setup.now.plot.cycles * setup.now.orchestra.head.ksmps }
{
    setup.plot().cycles * setup.head().ksmps
}

/// Returns the header of a file with `frames` frames.
pub(crate) fn first_bytes(setup: &Setup, width: SampleWidth, frames: u32) -> [u8; 44]
    requires bytes { setup.now.plot.cycles * setup.now.orchestra.head.ksmps * setup.now.orchestra.head.nchnls
        * bytes_of width ≤ most_wav_bytes }
    requires frames { frames ≡ setup.now.plot.cycles * setup.now.orchestra.head.ksmps }
    ensures { result ≡ header_bytes width (length (frames_of
        (composition_of setup.now)) * bytes_of width) setup.now.orchestra.head }
{
    header(width, frames, setup.head())
}

/// Returns whether the size of the samples in bytes is odd.
pub(crate) fn ends_odd(setup: &Setup, width: SampleWidth, frames: u32) -> bool
    requires bytes { setup.now.plot.cycles * setup.now.orchestra.head.ksmps * setup.now.orchestra.head.nchnls
        * bytes_of width ≤ most_wav_bytes }
    requires frames { frames ≡ setup.now.plot.cycles * setup.now.orchestra.head.ksmps }
    ensures { front_after (composition_of setup.now) setup.now.orchestra.head width
        (composition_of setup.now).cycles ++ padding result
        ≡ wav_of (frames_of (composition_of setup.now)) setup.now.orchestra.head width }
{
    let values = frames * setup.head().nchnls;
    let size = values * width.bytes();
    size % 2 == 1
}
