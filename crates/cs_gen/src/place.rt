// Places of a table: the number of places before the guard point, and the place of an index.
ghost use Rattle.std.specs.Prelude.{◌≡◌, ◌<◌, ◌≤◌};
ghost use Rattle.cs_gen.specs.{Places.place_of_index, Points.len_of};

use cs_base::Num;

/// The length of a table of this size: the size itself, or one less if the size is odd.
#[inline(always)]
pub fn len_of(size: u32) -> u32
    ensures { result ≡ len_of size }
{
    size - size % 2
}

/// The place of an index in a table of `len` points: the index rounded down, then clamped to 0 to `len` - 1.
#[inline(always)]
pub fn place_of_index(index: Num, len: u32) -> u32
    requires { 1 ≤ len }
    ensures value { result ≡ place_of_index len index }
    ensures inside { result < len }
{
    index.whole_below().max(0).min(i64::from(len - 1)) as u32
}
