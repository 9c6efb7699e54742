// Areas and footprints.
ghost use Rattle.std.specs.Prelude.{◌≡◌, true, IfOk};

use cs_base::{Places, Res};
use std::alloc::{AllocError, Global};

/// A resource's cells in a layout: `length` cells, starting at address `first`.
#[derive(Clone, Copy)]
pub struct Area {
    pub res: Res,
    pub first: u32,
    pub length: u32,
}

/// The resources that a note may touch, as indices of areas in a layout, in ascending order without
/// duplicates. A resource that is written also counts as used.
#[derive(Drop)]
pub struct Footprint {
    pub uses: Places,
    pub writes: Places,
}

impl Footprint {
    /// Returns a copy of the footprint.
    pub fn copy(&self, alloc: Global) -> Result<Footprint, AllocError>
        ensures { IfOk result (λ copy. copy ≡ self.now) }
    {
        Ok(Footprint {
            uses: self.uses.to_items(alloc)?,
            writes: self.writes.to_items(alloc)?,
        })
    }

    /// Whether `other` has the same indices.
    pub fn is(&self, other: &Footprint) -> bool
        ensures { result ≡ true → self.now ≡ other.now }
    {
        self.uses.as_slice() == other.uses.as_slice()
            && self.writes.as_slice() == other.writes.as_slice()
    }
}
