// The limit on the bytes of the sound file.
ghost use Rattle.std.specs.Prelude.{◌≡◌, ◌<◌, ◌*◌, ◌^◌};
ghost use Rattle.cs_tempo.specs.Limits.{passes_bytes};

use cs_base::{Head, MOST_WAV_BYTES};

/// Whether a score of `cycles` control cycles exceeds the limit on bytes of samples. A sample has two bytes.
pub fn passes_bytes(head: &Head, cycles: u128) -> bool
    requires { cycles < 2 ^ 111 }
    ensures { result ≡ passes_bytes head.now cycles }
{
    let most = u128::from(MOST_WAV_BYTES);
    if cycles > most {
        return true;
    }
    cycles * u128::from(head.ksmps) * u128::from(head.nchnls) * 2 > most
}
