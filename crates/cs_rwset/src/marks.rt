// Marks of areas, and the places that are marked.
ghost use Rattle.std.specs.Prelude.{◌≡◌, ◌≤◌, ◌-◌, ◌||◌, ◌++◌, Bool, true, List, length, take, drop, replicate, IfOk};
ghost use Rattle.cs_base.specs.{Rates.same_res, declared.resource.Res.Res};
ghost use Rattle.cs_cells.specs.Areas.{IsLaid};
ghost use Rattle.cs_rwset.specs.{Footprints.stock_of, inner.Runs.AreRuns};
ghost use Rattle.cs_rwset.specs.inner.Marks.{marked, marked_by, marks_of};
ghost use Rattle.cs_ir.specs.Touched.{covers, named};

use crate::runs::{Run, Runs};
use cs_base::{OutOfMemory, Places, Res, Spaces};
use cs_cells::Layout;
use cs_ir::{Reach, Touch, places_of, zak_place};
use std::alloc::Global;

/// Marks each area whose resource is touched.
pub fn mark_all(marks: &mut [bool], layout: &Layout, runs: &Runs, touches: &[Touch])
    requires laid { IsLaid layout.now }
    requires runs { AreRuns layout.now runs.now }
    requires long { length marks.old ≡ length layout.now }
    ensures { (rs : List Res) → marks.old ≡ marks_of layout.now rs
        → marks.new ≡ marks_of layout.now (rs ++ named (stock_of layout.now) touches.now) }
{
    for touch in touches {
        mark(marks, layout, runs, *touch);
    }
}

// Marks each area whose resource one touch covers: as a run if these areas are adjacent, otherwise one by
// one.
fn mark(marks: &mut [bool], layout: &Layout, runs: &Runs, touch: Touch)
    requires laid { IsLaid layout.now }
    requires runs { AreRuns layout.now runs.now }
    requires long { length marks.old ≡ length layout.now }
    ensures { (P : Res → Bool) → marks.old ≡ marked_by P layout.now
        → marks.new ≡ marked_by (λ r. P r || covers runs.now.spaces touch r) layout.now }
{
    match touch {
        Touch::One(res) => mark_one(marks, layout, res),
        Touch::Tables(Reach::Span(first, last)) if first == last => {
            mark_one(marks, layout, Res::Table(first as usize));
        }
        Touch::Places(space, Reach::Span(first, last)) if first == last => {
            if first < places_of(runs.spaces, space) {
                mark_one(marks, layout, zak_place(space, first as usize));
            }
        }
        _ => match runs.run(touch) {
            Some(run) => mark_run(marks, run),
            None => mark_each(marks, layout, runs.spaces, touch),
        },
    }
}

// Marks the areas of a run.
fn mark_run(marks: &mut [bool], run: Run)
    requires ordered { run.from ≤ run.to }
    requires within { run.to ≤ length marks.old }
    ensures { marks.new ≡ take run.from marks.old ++ (replicate (run.to - run.from) true ++ drop run.to marks.old) }
{
    marks[run.from as usize..run.to as usize].fill(true);
}

// Marks the area of a resource, if it has one.
fn mark_one(marks: &mut [bool], layout: &Layout, res: Res)
    requires laid { IsLaid layout.now }
    requires long { length marks.old ≡ length layout.now }
    ensures { (P : Res → Bool) → marks.old ≡ marked_by P layout.now
        → marks.new ≡ marked_by (λ r. P r || same_res r res) layout.now }
{
    if let Some(place) = layout.find(res) {
        marks[place as usize] = true;
    }
}

// Marks each area whose resource a touch covers, by testing every area.
fn mark_each(marks: &mut [bool], layout: &Layout, spaces: Spaces, touch: Touch)
    requires long { length marks.old ≡ length layout.now }
    ensures { (P : Res → Bool) → marks.old ≡ marked_by P layout.now
        → marks.new ≡ marked_by (λ r. P r || covers spaces touch r) layout.now }
{
    for place in 0..layout.len() {
        if touch.covers(spaces, layout.area(place).res) {
            marks[place as usize] = true;
        }
    }
}

/// Returns the places that are marked, in ascending order.
pub fn marked_places(alloc: Global, marks: &[bool], count: u32) -> Result<Places, OutOfMemory>
    requires { count ≡ length marks.now }
    ensures { IfOk result (λ places. places ≡ marked marks.now) }
{
    let mut places = Places::new(alloc);
    for place in 0..count {
        if marks[place as usize] {
            places.push(place)?;
        }
    }
    Ok(places)
}
