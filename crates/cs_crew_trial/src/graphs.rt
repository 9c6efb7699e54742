// Graphs of notes on one resource.
use crate::marked::foot_of;
use cs_base::{MOST_NOTES, OutOfMemory, Places};
use cs_cells::Footprint;
use cs_graph::Graph;
use std::alloc::{AllocError, Global};

/// A note that writes the resource, or only reads it.
#[derive(Clone, Copy, PartialEq, Eq)]
pub enum Note {
    Writer,
    Reader,
}

fn foot(alloc: Global, note: Note) -> Result<Footprint, AllocError> {
    let Footprint { uses, writes } = foot_of(alloc, 1)?;
    Ok(match note {
        Note::Writer => Footprint { uses, writes },
        Note::Reader => Footprint {
            uses,
            writes: Places::from_vec(Vec::new(alloc)),
        },
    })
}

fn feet(alloc: Global, notes: &[Note]) -> Result<Vec<Footprint>, AllocError> {
    let mut feet = Vec::new(alloc);
    for note in notes {
        feet.push(foot(alloc, *note)?)?;
    }
    Ok(feet)
}

/// Returns the graph of these notes. None if there are more than may be active, or if memory runs out.
pub fn graph_on_one(alloc: Global, notes: &[Note]) -> Option<Graph> {
    let Ok(feet) = feet(alloc, notes) else {
        return None;
    };
    if feet.len() > MOST_NOTES {
        return None;
    }
    match Graph::of_feet(alloc, &feet) {
        Ok(graph) => Some(graph),
        Err(OutOfMemory) => None,
    }
}

/// Returns the levels of the first four notes.
pub fn four_levels(graph: &Graph) -> Option<[u32; 4]> {
    if graph.len() < 4 {
        return None;
    }
    Some([
        graph.level(0),
        graph.level(1),
        graph.level(2),
        graph.level(3),
    ])
}
