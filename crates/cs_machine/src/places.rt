// The cells of a resource, and the integers that values name.
ghost use Rattle.std.specs.Prelude.{◌≡◌, ◌+◌, ◌<◌, ◌≤◌, length, slice_get, IfSome, Some};
ghost use Rattle.cs_meaning.specs.Pieces.{index};
ghost use Rattle.cs_voice_meaning.specs.Placing.{HasArea, area_of};

use cs_base::{Num, Res};
use cs_cells::{Area, Layout};

/// Returns the area of a resource, or None if it has none.
pub fn area_of(layout: &Layout, res: Res) -> Option<Area>
    ensures value { result ≡ area_of layout.now res }
    ensures small { IfSome result (λ area. area.first + area.length ≤ 65536) }
{
    // For the prover: no two areas belong to one resource.
    let _ = layout.words();
    match layout.find(res) {
        Some(place) => Some(area_at(layout, place)),
        None => None,
    }
}

/// Returns the area of a resource that has one.
pub fn area_in(layout: &Layout, res: Res) -> Area
    requires { HasArea layout.now res }
    ensures value { area_of layout.now res ≡ Some result }
    ensures small { result.first + result.length ≤ 65536 }
{
    match area_of(layout, res) {
        Some(area) => area,
        None => unreachable!(),
    }
}

// Returns the area at an index; it ends within the highest number of cells of a layout.
fn area_at(layout: &Layout, place: u32) -> Area
    requires { place < length layout.now }
    ensures value { slice_get layout.now place ≡ Some result }
    ensures small { result.first + result.length ≤ 65536 }
{
    let _ = layout.words();
    layout.area(place)
}

/// Returns the integer part of a value, or None if the value is below 0.
pub fn index(value: Num) -> Option<usize>
    ensures { result ≡ index value }
{
    if value.raw().is_negative() {
        return None;
    }
    Some(value.whole_below().unsigned_abs() as usize)
}
