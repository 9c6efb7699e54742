// Runs: numbered resources whose areas are adjacent.
ghost use Rattle.std.specs.Prelude.{◌≡◌, ◌<◌, ◌≤◌, ℕ, List, length, not, slice_get, true, Some, IfSome, is_some};
ghost use Rattle.cs_base.specs.Limits.{most_resources};
ghost use Rattle.cs_cells.specs.{Areas.HasPlace, Areas.IsLaid, declared.footprint.Area.Area};
ghost use Rattle.cs_ir.specs.Resources.{places_of, reaches, zak_place};
ghost use Rattle.cs_ir.specs.declared.op.Reach.TheVariants as reach;
ghost use Rattle.cs_rwset.specs.Footprints.{is_place, place_count, stock_of};
ghost use Rattle.cs_ir.specs.declared.touches.Touch.TheVariants as touched;
ghost use Rattle.cs_ir.specs.Touched.{covers};
ghost use Rattle.cs_rwset.specs.inner.Runs.{AreInOrder, AreRuns, Finds, IsRun, begin_of, is_told};

use cs_base::{Res, Spaces};
use cs_cells::Layout;
use cs_ir::{Reach, Touch, places_of, zak_place};
use cs_words::Space;

/// Places or numbers from `from` up to `to`, which is excluded.
#[derive(Clone, Copy)]
pub struct Run {
    pub from: u32,
    pub to: u32,
}

/// The runs of numbered resources in a layout. A field is None if the areas aren't adjacent.
#[derive(Clone, Copy)]
pub struct Runs {
    /// The number of places of each zak space.
    pub spaces: Spaces,
    /// The areas of tables, in any order.
    pub tables: Option<Run>,
    /// The place of the first area of the zak space of control values, if its areas are in the order of their
    /// numbers.
    pub control: Option<u32>,
    /// The place of the first area of the zak space of audio signals, if its areas are in the order of their
    /// numbers.
    pub audio: Option<u32>,
}

impl Runs {
    /// Finds the runs of a layout.
    pub fn of(layout: &Layout) -> Runs
        ensures { AreRuns layout.now result }
    {
        // For the prover: no two areas belong to the same resource, and there are few areas.
        let _ = layout.words();
        let spaces = spaces_of(layout);
        Runs {
            spaces,
            tables: find_tables(layout, spaces),
            control: find_places(layout, Space::Control, spaces.control),
            audio: find_places(layout, Space::Audio, spaces.audio),
        }
    }

    /// The run of areas that a touch covers. None if they don't form a known run.
    pub fn run(&self, touch: Touch) -> Option<Run>
        ensures run { IfSome result (λ run. (areas : List Area) → IsLaid areas → AreRuns areas self.now
            → IsRun areas (covers self.now.spaces touch) run) }
        ensures told { is_some result ≡ is_told self.now touch }
    {
        match touch {
            Touch::Tables(Reach::Any) => self.tables,
            Touch::Places(space, reach) => self.places(space, reach),
            _ => None,
        }
    }

    // The run of areas of the places of a zak space within a reach. None if they don't form a known run.
    fn places(&self, space: Space, reach: Reach) -> Option<Run>
        ensures run { IfSome result (λ run. (areas : List Area) → IsLaid areas → AreRuns areas self.now
            → IsRun areas (covers self.now.spaces (touched.Places space reach)) run) }
        ensures told { is_some result ≡ is_some (begin_of self.now space) }
    {
        match self.begin(space) {
            Some(begin) => Some(placed(begin, places_of(self.spaces, space), reach)),
            None => None,
        }
    }

    // The place of a zak space's first area, if its areas form a run.
    fn begin(&self, space: Space) -> Option<u32>
        ensures { result ≡ begin_of self.now space }
    {
        match space {
            Space::Control => self.control,
            Space::Audio => self.audio,
        }
    }
}

// The run of areas of the zak places within a reach. The areas of the first `count` places begin at place
// `begin`.
fn placed(begin: u32, count: u32, reach: Reach) -> Run
    ensures { (areas : List Area) (s : Space) (spaces : Spaces) → IsLaid areas → length areas ≤ most_resources
        → spaces ≡ (stock_of areas).spaces → count ≡ places_of spaces s → AreInOrder areas s count begin
        → IsRun areas (covers spaces (touched.Places s reach)) result }
{
    let numbers = numbers_within(reach, count);
    Run {
        from: begin.saturating_add(numbers.from),
        to: begin.saturating_add(numbers.to),
    }
}

// The numbers within a reach, out of the numbers below `count`.
fn numbers_within(reach: Reach, count: u32) -> Run
    ensures within { (n : ℕ) → n < count → reaches reach n ≡ true → (result.from ≤ n) × (n < result.to) }
    ensures all { (n : ℕ) → result.from ≤ n → n < result.to → reaches reach n ≡ true }
    ensures few { result.to ≤ count }
    ensures ordered { result.from ≤ result.to }
{
    match reach {
        Reach::Nothing => Run { from: 0, to: 0 },
        Reach::Span(first, last) => {
            let to = last.saturating_add(1).min(count);
            Run {
                from: first.min(to),
                to,
            }
        }
        Reach::Any => Run { from: 0, to: count },
    }
}

// The place of the first of `count` areas of a zak space, if they are adjacent and in the order of their
// numbers. If `count` is 0, any place.
fn find_places(layout: &Layout, space: Space, count: u32) -> Option<u32>
    requires { IsLaid layout.now }
    ensures { Finds (AreInOrder layout.now space count) result }
{
    let begin = first_place(layout, space);
    for number in 0..count {
        let place = layout.find(zak_place(space, number as usize))?;
        if place as u64 != begin as u64 + number as u64 {
            return None;
        }
    }
    Some(begin)
}

// The place of the area of a zak space's first place, or place 0 if it has none.
fn first_place(layout: &Layout, space: Space) -> u32
    requires { IsLaid layout.now }
    ensures within { result ≤ length layout.now }
    ensures first { (place : ℕ) → HasPlace layout.now (zak_place space 0) place → result ≡ place }
{
    match layout.find(zak_place(space, 0)) {
        Some(place) => place,
        None => 0,
    }
}

// The run of the areas of tables, if they are adjacent.
fn find_tables(layout: &Layout, spaces: Spaces) -> Option<Run>
    ensures { Finds (IsRun layout.now (covers spaces (touched.Tables reach.Any))) result }
{
    let from = next_place(layout, spaces, true, 0);
    let to = next_place(layout, spaces, false, from);
    if next_place(layout, spaces, true, to) == layout.len() {
        Some(Run { from, to })
    } else {
        None
    }
}

// The first place from `from` on whose area belongs to a table, or with `of_table` false the first whose
// area doesn't. If there is none, the number of areas.
fn next_place(layout: &Layout, spaces: Spaces, of_table: bool, from: u32) -> u32
    requires { from ≤ length layout.now }
    ensures within { (from ≤ result) × (result ≤ length layout.now) }
    ensures here { (a : Area) → slice_get layout.now result ≡ Some a
        → covers spaces (touched.Tables reach.Any) a.res ≡ of_table }
    ensures before { (place : ℕ) (a : Area) → slice_get layout.now place ≡ Some a → from ≤ place → place < result
        → covers spaces (touched.Tables reach.Any) a.res ≡ not of_table }
{
    for place in from..layout.len() {
        if Touch::Tables(Reach::Any).covers(spaces, layout.area(place).res) == of_table {
            return place;
        }
    }
    layout.len()
}

// The number of places of each zak space.
fn spaces_of(layout: &Layout) -> Spaces
    ensures { result ≡ (stock_of layout.now).spaces }
{
    Spaces {
        control: place_count(layout, Space::Control),
        audio: place_count(layout, Space::Audio),
    }
}

// The number of places of a zak space that have an area.
fn place_count(layout: &Layout, space: Space) -> u32
    ensures { result ≡ place_count layout.now space }
{
    let mut count: u32 = 0;
    for place in 0..layout.len() {
        if is_place(space, layout.area(place).res) {
            count += 1;
        }
    }
    count
}

fn is_place(space: Space, res: Res) -> bool
    ensures { result ≡ is_place space res }
{
    match (space, res) {
        (Space::Control, Res::ZakK(_)) => true,
        (Space::Audio, Res::ZakA(_)) => true,
        _ => false,
    }
}
