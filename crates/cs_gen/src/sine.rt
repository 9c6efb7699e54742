// The sine of the profile: 65 integers describe a quarter of the period; the rest is mirrored and
// interpolated.
ghost use Rattle.std.specs.Prelude.{◌≡◌, ◌<◌, ◌≤◌, ◌*◌, ◌/◌, ◌^◌, ◌*ℤ◌, ◌-ℤ◌, ◌+ℤ◌, ◌≤ℤ◌, pos, neg_ℤ, slice_index};
ghost use Rattle.cs_base.specs.Numbers.{floor_div};
ghost use Rattle.cs_gen.specs.Points.{wave_at, wave, full_scale, quarter};

/// The height of the sine wave at its crest.
pub(crate) const FULL_SCALE: i64 = 32_767;

/// The number of phase steps in one period of the wave.
pub(crate) const TURN: u64 = 16_777_216;

// The number of phase steps between two neighbouring places of the wave, which has 256 of them.
const PARTS: u64 = 65_536;

// The rising quarter of a sine wave of 256 places, from place 0 to place 64.
const QUARTER: [u16; 65] = [
    0, 804, 1608, 2410, 3212, 4011, 4808, 5602, 6393, 7179, 7962, 8739, 9512, 10278, 11039, 11793,
    12539, 13279, 14010, 14732, 15446, 16151, 16846, 17530, 18204, 18868, 19519, 20159, 20787,
    21403, 22005, 22594, 23170, 23731, 24279, 24811, 25329, 25832, 26319, 26790, 27245, 27683,
    28105, 28510, 28898, 29268, 29621, 29956, 30273, 30571, 30852, 31113, 31356, 31580, 31785,
    31971, 32137, 32285, 32412, 32521, 32609, 32678, 32728, 32757, 32767,
];

/// The sine wave at phase `w`, in 2^24ths of its period. The result is from -32,767 to 32,767.
#[tactic(auto, unfolding(crate::specs::Points::wave))]
pub(crate) fn wave(w: u64) -> i64
    requires { w < 2 ^ 24 }
    ensures value { result ≡ wave w }
    ensures above { neg_ℤ full_scale ≤ℤ result }
    ensures below { result ≤ℤ full_scale }
{
    between(
        wave_at(w / PARTS),
        wave_at((w / PARTS + 1) % 256),
        w % PARTS,
    )
}

// Interpolates between two neighbouring places. `fraction` is in 65,536ths.
fn between(here: i64, next: i64, fraction: u64) -> i64
    requires fraction { fraction < 65536 }
    requires here_above { neg_ℤ full_scale ≤ℤ here }
    requires here_below { here ≤ℤ full_scale }
    requires next_above { neg_ℤ full_scale ≤ℤ next }
    requires next_below { next ≤ℤ full_scale }
    ensures value { result ≡ here +ℤ floor_div ((next -ℤ here) *ℤ pos fraction) (pos 65536) }
    ensures above { neg_ℤ full_scale ≤ℤ result }
    ensures below { result ≤ℤ full_scale }
{
    here + part(next - here, fraction)
}

// The part `fraction` / 65,536 of a difference, rounded down.
fn part(difference: i64, fraction: u64) -> i64
    requires fraction { fraction < 65536 }
    requires above { neg_ℤ (pos 65534) ≤ℤ difference }
    requires below { difference ≤ℤ pos 65534 }
    ensures { result ≡ floor_div (difference *ℤ pos fraction) (pos 65536) }
{
    (difference * fraction as i64).div_euclid(PARTS as i64)
}

#[tactic(auto, unfolding(crate::specs::Points::wave_at))]
fn wave_at(place: u64) -> i64
    requires { place < 256 }
    ensures value { result ≡ wave_at place }
    ensures above { neg_ℤ full_scale ≤ℤ result }
    ensures below { result ≤ℤ full_scale }
{
    match place {
        0..=64 => i64::from(quarter_at(place)),
        65..=128 => i64::from(quarter_at(128 - place)),
        129..=192 => -i64::from(quarter_at(place - 128)),
        _ => -i64::from(quarter_at(256 - place)),
    }
}

#[tactic(auto, unfolding(crate::specs::Points::quarter))]
fn quarter_at(place: u64) -> u16
    requires { place ≤ 64 }
    ensures value { result ≡ slice_index quarter place }
    ensures low { result ≤ 32767 }
{
    QUARTER[place as usize]
}
