// A graph under construction, note by note.
ghost use Rattle.cs_base.specs.Limits.{most_notes};
ghost use Rattle.std.specs.Prelude.{◌≡◌, ◌+◌, ◌<◌, ◌≤◌, length, IfOk, OnOk};
ghost use Rattle.cs_graph.specs.inner.Growing.{IsGrown};

use crate::draw::add_edges;
use crate::nearest::{Known, nearest};
use crate::touched::{SharersByPlace, meet};
use cs_base::OutOfMemory;
use cs_cells::Footprint;
use std::alloc::Global;
use std::collections::HashMap;

/// The data about the notes so far: the notes that touch each place, the notes that lead to each note, the
/// edges, the level of each note, and for each note the range of the edges into it.
#[derive(Drop)]
pub struct Growing {
    pub by_place: SharersByPlace,
    pub known: Vec<Known>,
    pub edges: Vec<(u32, u32)>,
    pub levels: Vec<u32>,
    pub into: Vec<(u32, u32)>,
}

impl Growing {
    fn add_note(&mut self, feet: &[Footprint], note: u32) -> Result<(), OutOfMemory>
        requires small { note < most_notes }
        requires within { note < length feet.now }
        requires grown { IsGrown feet.now note self.old }
        ensures { OnOk result (IsGrown feet.now (note + 1) self.new) }
    {
        let met = meet(&mut self.by_place, feet, note)?;
        let found = nearest(&met, note, &self.known);
        let first = self.edges.len() as u32;
        add_edges(&mut self.edges, &found.near, note)?;
        self.into.push((first, self.edges.len() as u32))?;
        self.levels.push(found.known.level)?;
        self.known.push(found.known)?;
        Ok(())
    }
}

/// Returns the data after all notes have been added.
pub fn grow(alloc: Global, feet: &[Footprint]) -> Result<Growing, OutOfMemory>
    requires { length feet.now ≤ most_notes }
    ensures { IfOk result (IsGrown feet.now (length feet.now)) }
{
    let mut growing = Growing {
        by_place: HashMap::new(alloc),
        known: Vec::new(alloc),
        edges: Vec::new(alloc),
        levels: Vec::new(alloc),
        into: Vec::new(alloc),
    };
    for note in 0..feet.len() as u32 {
        growing.add_note(feet, note)?;
    }
    Ok(growing)
}
