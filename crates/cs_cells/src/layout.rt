// The assignment of cells to resources.
ghost use Rattle.std.specs.Prelude.{◌≡◌, ℕ, ◌+◌, ◌<◌, length, slice_get, IfOk, IfErr, IfSome, IfNone};
ghost use Rattle.cs_base.specs.declared.fault.Or.TheVariants as or;
ghost use Rattle.cs_cells.specs.Areas.{HasPlace, IsLaid, limit_passed, word_count};
ghost use Rattle.cs_cells.specs.inner.Index.{key, keys_of};

use crate::Area;
use cs_base::{Limit, LimitHit, MOST_RESOURCES, MOST_WORDS, Or, Res};
use indexmap::IndexSet;
use std::alloc::{AllocFailed, Global};
use std::marker::Model;

/// The cells of each resource. Contracts see the list of its areas; the index of a resource is the index of
/// its area in this list.
#[derive(Drop)]
pub struct Layout {
    areas: Vec<Area>,
    keys: IndexSet<(u8, usize)>,
    starts: [usize; 8],
    words: u32,
}

impl Model for Layout {
    ghost use Rattle.std.specs.Prelude.{List};
    ghost use Rattle.cs_cells.specs.{declared.footprint.Area.Area, inner.Index.IsIndexed};

    ghost Value = { List Area };

    ghost view = { λ l. l.areas.items };

    ghost invariant = { λ l. IsIndexed l.areas.items l.keys.keys l.words };
}

impl Layout {
    /// Lays out areas, which must follow one another from address 0 without gaps, each for a different
    /// resource. More than 4,096 areas exceed the limit on resources; otherwise, more than 65,536 words in
    /// total exceed the limit on words. Both are reported at line 0.
    pub fn build(alloc: Global, areas: &[Area]) -> Result<Layout, Or<LimitHit>>
        requires { IsLaid areas.now }
        ensures areas { IfOk result (λ l. l ≡ areas.now) }
        ensures limit { IfSome (limit_passed areas.now) (λ h. result ≡ Err (or.Fault h)) }
        // Within the limits, the only possible error is out of memory.
        ensures memory { IfNone (limit_passed areas.now) (IfErr result (λ e. e ≡ or.OutOfMemory)) }
    {
        if areas.len() > MOST_RESOURCES {
            return Err(Or::Fault(LimitHit::at_no_line(Limit::Resources)));
        }
        let words = words_of(areas);
        if words > MOST_WORDS as u64 {
            return Err(Or::Fault(LimitHit::at_no_line(Limit::Words)));
        }
        let keys = index(alloc, areas)?;
        Ok(Layout {
            areas: areas.to_vec(alloc)?,
            keys,
            starts: starts_of(areas),
            words: words as u32,
        })
    }

    /// Returns the index of a resource's area, or `None` if the resource has no area.
    pub fn find(&self, res: Res) -> Option<u32>
        ensures found { IfSome result (HasPlace self.now res) }
        ensures none { IfNone result ((place : ℕ) → ¬ (HasPlace self.now res place)) }
    {
        if let Some(place) = self.at(self.guess(res), res) {
            return Some(place);
        }
        match self.keys.get_index_of(&key_of(res)) {
            Some(place) => Some(place as u32),
            None => None,
        }
    }

    // The index of a resource's area, if the areas of its kind follow one another in the order of their
    // numbers.
    #[inline(always)]
    fn guess(&self, res: Res) -> usize {
        self.starts[res.kind() as usize & 7].wrapping_add(res.number())
    }

    // The index `place`, if the area there belongs to the resource.
    #[inline(always)]
    fn at(&self, place: usize, res: Res) -> Option<u32>
        ensures { IfSome result (HasPlace self.now res) }
    {
        match self.areas.get(place) {
            Some(area) if area.res.same(res) => Some(place as u32),
            _ => None,
        }
    }

    /// Returns the area at index `place`.
    pub fn area(&self, place: u32) -> Area
        requires { place < length self.now }
        ensures { slice_get self.now place ≡ Some result }
    {
        self.areas[place as usize]
    }

    /// Returns the number of cells of all areas.
    pub fn words(&self) -> u32
        ensures words { result ≡ word_count self.now }
        ensures laid { IsLaid self.now }
        ensures within { limit_passed self.now ≡ None }
    {
        self.words
    }

    /// Returns the number of areas.
    pub fn len(&self) -> u32
        ensures { result ≡ length self.now }
    {
        self.areas.len() as u32
    }
}

// The end address of the last area.
fn words_of(areas: &[Area]) -> u64
    requires { IsLaid areas.now }
    ensures { result ≡ word_count areas.now }
{
    match areas.last() {
        Some(last) => end_of(*last),
        None => 0,
    }
}

// The address after the area's last cell.
fn end_of(area: Area) -> u64
    ensures { result ≡ area.first + area.length }
{
    u64::from(area.first) + u64::from(area.length)
}

// For each kind, the index that its area number 0 would have, inferred from the kind's last area. Correctness
// doesn't depend on it: `find` checks the area at the index that it yields.
fn starts_of(areas: &[Area]) -> [usize; 8] {
    let mut starts = [0; 8];
    for place in 0..areas.len() {
        let res = areas[place].res;
        starts[res.kind() as usize & 7] = place.wrapping_sub(res.number());
    }
    starts
}

fn key_of(res: Res) -> (u8, usize)
    ensures { result ≡ key res }
{
    (res.kind(), res.number())
}

// The set of resources, each at the index of its area.
fn index(alloc: Global, areas: &[Area]) -> Result<IndexSet<(u8, usize)>, AllocFailed<(u8, usize)>>
    requires { IsLaid areas.now }
    ensures { IfOk result (λ s. s.keys ≡ keys_of areas.now) }
{
    let mut keys = IndexSet::new(alloc);
    for area in areas {
        keys.insert(key_of(area.res))?;
    }
    Ok(keys)
}
