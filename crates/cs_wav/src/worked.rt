// Worked examples: results of the definitions for values whose samples are known from elsewhere.
ghost use Rattle.std.specs.Prelude.{◌≡◌, ◌*◌, true, pos, negsuc, length, replicate};
ghost use Rattle.cs_base.specs.declared.head.Head.{Head};
ghost use Rattle.cs_base.specs.declared.width.SampleWidth.TheVariants.{TwoBytes, ThreeBytes};
ghost use Rattle.cs_wav.specs.Wav.{full_scale, sample, is_out_of_range, wav_of};
ghost use Rattle.cs_wav.specs.Worked.{at_32768, IsOneChannel, eight_of_100};

/// Full scale is half of the number of values that 16 or 24 bits can represent.
pub fn full_scales()
    ensures narrow { full_scale TwoBytes ≡ pos 32768 }
    ensures wide { full_scale ThreeBytes ≡ pos 8388608 }
{}

/// Levels and their samples: 100 becomes 100; 60,000 is out of range and is clipped to the greatest sample; a
/// value just below 0 becomes -1; and 100 in 24 bits is 256 times as much.
pub fn worked_samples()
    ensures level { sample TwoBytes at_32768 (pos (100 * 65536)) ≡ pos 100 }
    ensures greatest { sample TwoBytes at_32768 (pos (60000 * 65536)) ≡ pos 32767 }
    ensures outside { is_out_of_range TwoBytes at_32768 (pos (60000 * 65536)) ≡ true }
    ensures below_zero { sample TwoBytes at_32768 (negsuc 0) ≡ negsuc 0 }
    ensures wide { sample ThreeBytes at_32768 (pos (100 * 65536)) ≡ pos 25600 }
{}

/// Eight frames of 100 at 8 frames per second are the file whose 60 bytes are listed in `eight_of_100`; three
/// frames of 24 bits are 44 bytes, 9 bytes and one byte 0.
pub fn worked_file()
    ensures narrow { (head : Head) → IsOneChannel 8 head
        → wav_of (replicate 8 (pos (100 * 65536))) head TwoBytes ≡ eight_of_100 }
    ensures odd { (head : Head) → length (wav_of (replicate 3 (pos 0)) head ThreeBytes) ≡ 54 }
{}
