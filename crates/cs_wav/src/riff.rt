// The 44 bytes before the samples.
ghost use Rattle.std.specs.Prelude.{◌≡◌, ◌≤◌};
ghost use Rattle.cs_base.specs.Limits.{most_wav_bytes};
ghost use Rattle.cs_wav.specs.Wav.{header_bytes, little_bytes, size_of};

use byteorder::{ByteOrder, LittleEndian};
use cs_base::{Head, SampleWidth};

/// Returns the header for `frames` frames of samples, at most 2^31 bytes in total.
pub fn header(width: SampleWidth, frames: u32, head: &Head) -> [u8; 44]
    requires { size_of width frames head.now ≤ most_wav_bytes }
    ensures { result ≡ header_bytes width (size_of width frames head.now) head.now }
{
    let bytes = width.bytes();
    let size = frames * head.nchnls * bytes;
    // An odd number of sample bytes is followed by one byte 0, which the first size field counts and the last
    // one doesn't.
    let [r0, r1, r2, r3] = four_bytes(36 + size + size % 2);
    let [c0, c1] = two_bytes(head.nchnls as u16);
    let [s0, s1, s2, s3] = four_bytes(head.sr);
    let [b0, b1, b2, b3] = four_bytes(head.sr * head.nchnls * bytes);
    let [f0, f1] = two_bytes((head.nchnls * bytes) as u16);
    let [w0, w1] = two_bytes((8 * bytes) as u16);
    let [d0, d1, d2, d3] = four_bytes(size);
    [
        b'R', b'I', b'F', b'F', r0, r1, r2, r3, b'W', b'A', b'V', b'E', b'f', b'm', b't', b' ', 16,
        0, 0, 0, 1, 0, c0, c1, s0, s1, s2, s3, b0, b1, b2, b3, f0, f1, w0, w1, b'd', b'a', b't',
        b'a', d0, d1, d2, d3,
    ]
}

// A number in four bytes, the lowest first.
fn four_bytes(number: u32) -> [u8; 4]
    ensures { result ≡ little_bytes 4 number }
{
    let mut bytes = [0u8; 4];
    LittleEndian::write_u32(&mut bytes, number);
    bytes
}

// A number in two bytes, the lowest first.
fn two_bytes(number: u16) -> [u8; 2]
    ensures { result ≡ little_bytes 2 number }
{
    let mut bytes = [0u8; 2];
    LittleEndian::write_u16(&mut bytes, number);
    bytes
}
