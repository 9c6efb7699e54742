// The zones of a layout, and the footprints of codes over them.
ghost use Rattle.std.specs.Prelude.{◌≡◌, ◌<◌, ◌≤◌, ◌-◌, true, false, length, IfOk};
ghost use Rattle.std.specs.List.{All, AllZip};
ghost use Rattle.cs_base.specs.Limits.{most_resources};
ghost use Rattle.cs_cells.specs.declared.footprint.Footprint.{Footprint};
ghost use Rattle.cs_ir.specs.Instruments.{Numbered};
ghost use Rattle.cs_rwset.specs.{Zones.AreZones, Zones.IsFootOver, declared.code.Marks.Marks, inner.Marks.marked};
ghost use Rattle.cs_rwset.specs.inner.Zoning.{AreBegins, AreFew, AreMarks, AreMarksOf, IsFootOf, Stay, heads};
ghost use Rattle.cs_rwset.specs.inner.Zoning.{zones_of};

use crate::code::{Marks, marks_of};
use crate::marks::marked_places;
use cs_base::{Or, OutOfMemory, Places};
use cs_cells::{Area, Footprint, Layout};
use cs_ir::{Code, Instrument};
use std::alloc::Global;

/// The zones of a layout, and footprints over them.
#[derive(Drop)]
pub struct Zoned {
    /// Each zone as an area. Its resource is the resource of its first area.
    pub zones: Layout,
    /// The zones that the code outside of instruments may touch.
    pub outside: Footprint,
    /// The zones that the codes that perform the instruments may touch, in the order of the instruments.
    pub feet: Vec<Footprint>,
}

/// Divides a layout into zones, and finds the zones that each code may touch. The areas of a zone are
/// neighbours; each code may use all of them or none, and may write all of them or none. So a footprint has
/// one place for each zone, however many areas a computed number may name. The time for each code grows with
/// the list of resources that its ops touch, plus the number of areas. A reach over many numbers takes
/// additional time: as many steps as it names areas if these are adjacent, otherwise as many as there are
/// areas. The only error is out of memory.
pub fn find_zones(
    alloc: Global,
    layout: &Layout,
    outside: &Code,
    instruments: &[Instrument],
) -> Result<Zoned, OutOfMemory>
    ensures zones { IfOk result (λ z. AreZones layout.now z.zones) }
    ensures outside { IfOk result (λ z. IsFootOver layout.now z.zones outside.now z.outside) }
    ensures feet { IfOk result (λ z. AllZip (λ (i : Numbered) (foot : Footprint). IsFootOver layout.now z.zones i.perf
        foot) instruments.now z.feet.items) }
{
    let outside = marks_of(alloc, &outside.ops, layout)?;
    let each = marks_of_each(alloc, instruments, layout)?;
    let begins = begins_of(alloc, layout.len() as usize, &outside, &each)?;
    zones_by(alloc, layout, &outside, &each, &begins)
}

// Builds the zones, given where they begin, and the footprints over them, given the touched areas.
fn zones_by(
    alloc: Global,
    layout: &Layout,
    outside: &Marks,
    each: &[Marks],
    begins: &[bool],
) -> Result<Zoned, OutOfMemory>
    requires outside { AreMarks layout.now outside.now }
    requires each { All (AreMarks layout.now) each.now }
    requires begins { AreBegins (length layout.now) outside.now each.now begins.now }
    ensures zones { IfOk result (λ z. AreZones layout.now z.zones) }
    ensures outside { IfOk result (λ z. IsFootOf layout.now z.zones outside.now z.outside) }
    ensures feet { IfOk result (λ z. AllZip (IsFootOf layout.now z.zones) each.now z.feet.items) }
{
    // For the prover: no two areas belong to the same resource.
    let _ = layout.words();
    Ok(Zoned {
        outside: foot_over(alloc, outside, begins)?,
        feet: feet_over(alloc, each, begins)?,
        zones: layout_of(alloc, layout, begins)?,
    })
}

fn marks_of_each(
    alloc: Global,
    instruments: &[Instrument],
    layout: &Layout,
) -> Result<Vec<Marks>, OutOfMemory>
    ensures { IfOk result (λ v. AllZip (λ (i : Numbered) (m : Marks). AreMarksOf layout.now i.perf m) instruments.now
        v.items) }
{
    let mut each = Vec::with_capacity(alloc, instruments.len())?;
    for instrument in instruments {
        each.push(marks_of(alloc, &instrument.perf().ops, layout)?)?;
    }
    Ok(each)
}

// For each of `areas` areas, whether a zone begins with it.
fn begins_of(
    alloc: Global,
    areas: usize,
    outside: &Marks,
    each: &[Marks],
) -> Result<Vec<bool>, OutOfMemory>
    requires outside { (length outside.now.uses.items ≡ areas) × (length outside.now.writes.items ≡ areas) }
    requires each { All (λ (m : Marks). (length m.uses.items ≡ areas) × (length m.writes.items ≡ areas)) each.now }
    ensures { IfOk result (λ v. AreBegins areas outside.now each.now v.items) }
{
    let mut begins = Vec::with_capacity(alloc, areas)?;
    for place in 0..areas {
        begins.push(begins_at(outside, each, place))?;
    }
    Ok(begins)
}

// Whether a zone begins with an area: the first area does, and each area that some code touches differently
// from the one before it.
fn begins_at(outside: &Marks, each: &[Marks], place: usize) -> bool
    requires outside { (place < length outside.now.uses.items) × (place < length outside.now.writes.items) }
    requires each { All (λ (m : Marks). (place < length m.uses.items) × (place < length m.writes.items)) each.now }
    ensures first { place ≡ 0 → result ≡ true }
    ensures outside { result ≡ false → Stay outside.now (place - 1) place }
    ensures each { result ≡ false → All (λ (m : Marks). Stay m (place - 1) place) each.now }
{
    if place == 0 {
        return true;
    }
    !(stays(outside, place) && all_stay(each, place))
}

fn stays(marks: &Marks, place: usize) -> bool
    requires later { 0 < place }
    requires within { (place < length marks.now.uses.items) × (place < length marks.now.writes.items) }
    ensures { result ≡ true → Stay marks.now (place - 1) place }
{
    marks.uses[place - 1] == marks.uses[place] && marks.writes[place - 1] == marks.writes[place]
}

fn all_stay(each: &[Marks], place: usize) -> bool
    requires later { 0 < place }
    requires within { All (λ (m : Marks). (place < length m.uses.items) × (place < length m.writes.items)) each.now }
    ensures { result ≡ true → All (λ (m : Marks). Stay m (place - 1) place) each.now }
{
    for marks in each {
        if !stays(marks, place) {
            return false;
        }
    }
    true
}

fn layout_of(alloc: Global, layout: &Layout, begins: &[bool]) -> Result<Layout, OutOfMemory>
    requires { length begins.now ≡ length layout.now }
    ensures { IfOk result (λ l. l ≡ zones_of layout.now begins.now) }
{
    let _ = layout.words();
    let zones = areas_of(alloc, layout, begins)?;
    match Layout::build(alloc, &zones) {
        Ok(zones) => Ok(zones),
        Err(Or::Fault(_)) => unreachable!(),
        Err(Or::OutOfMemory) => Err(OutOfMemory),
    }
}

// The zones as areas.
fn areas_of(alloc: Global, layout: &Layout, begins: &[bool]) -> Result<Vec<Area>, OutOfMemory>
    requires { length begins.now ≡ length layout.now }
    ensures { IfOk result (λ v. v.items ≡ zones_of layout.now begins.now) }
{
    let mut zones = Vec::new(alloc);
    if layout.len() == 0 {
        return Ok(zones);
    }
    let _ = layout.words();
    let mut zone = layout.area(0);
    for place in 1..layout.len() {
        let area = layout.area(place);
        if begins[place as usize] {
            zones.push(zone)?;
            zone = area;
        } else {
            zone = Area {
                length: zone.length + area.length,
                ..zone
            };
        }
    }
    zones.push(zone)?;
    Ok(zones)
}

fn feet_over(alloc: Global, each: &[Marks], begins: &[bool]) -> Result<Vec<Footprint>, OutOfMemory>
    requires { All (λ (m : Marks). AreFew m) each.now }
    ensures { IfOk result (λ v. AllZip (λ (m : Marks) (foot : Footprint). (foot.uses ≡ marked (heads m.uses.items
        begins.now)) × (foot.writes ≡ marked (heads m.writes.items begins.now))) each.now v.items) }
{
    let mut feet = Vec::with_capacity(alloc, each.len())?;
    for marks in each {
        feet.push(foot_over(alloc, marks, begins)?)?;
    }
    Ok(feet)
}

// The zones that are marked, by the marks of their first areas.
fn foot_over(alloc: Global, marks: &Marks, begins: &[bool]) -> Result<Footprint, OutOfMemory>
    requires { AreFew marks.now }
    ensures uses { IfOk result (λ foot. foot.uses ≡ marked (heads marks.now.uses.items begins.now)) }
    ensures writes { IfOk result (λ foot. foot.writes ≡ marked (heads marks.now.writes.items begins.now)) }
{
    Ok(Footprint {
        uses: places_over(alloc, &marks.uses, begins)?,
        writes: places_over(alloc, &marks.writes, begins)?,
    })
}

fn places_over(alloc: Global, marks: &[bool], begins: &[bool]) -> Result<Places, OutOfMemory>
    requires { length marks.now ≤ most_resources }
    ensures { IfOk result (λ places. places ≡ marked (heads marks.now begins.now)) }
{
    let heads = heads_of(alloc, marks, begins)?;
    let count = heads.len() as u32;
    marked_places(alloc, &heads, count)
}

// The marks of the areas with which zones begin.
fn heads_of(alloc: Global, marks: &[bool], begins: &[bool]) -> Result<Vec<bool>, OutOfMemory>
    ensures heads { IfOk result (λ v. v.items ≡ heads marks.now begins.now) }
    ensures few { IfOk result (λ v. length v.items ≤ length marks.now) }
{
    let mut heads = Vec::new(alloc);
    for place in 0..marks.len().min(begins.len()) {
        if begins[place] {
            heads.push(marks[place])?;
        }
    }
    Ok(heads)
}
