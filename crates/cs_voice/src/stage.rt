// What all notes of a piece play in.
use cs_base::{Head, Spaces};
use cs_cells::Layout;
use cs_ugen::FrozenTable;

/// A table of a piece, as the score defines it first.
#[derive(Drop)]
pub struct PieceTable {
    /// From 1 to 65,535.
    pub number: usize,
    /// The number of its points: from 2 to 65,537.
    pub size: u32,
    /// Its points if they never change; None if notes may change them, and the cells of the table hold them.
    pub points: Option<FrozenTable>,
}

/// What the notes of a piece play in: its header, the layout of the cells that they share, the zones of the
/// layout, its zak spaces and its tables.
#[derive(Clone, Copy)]
pub struct Stage<'p> {
    pub head: &'p Head,
    pub layout: &'p Layout,
    /// The zones of the layout: cells that a note claims together, as one area each. Footprints are in terms
    /// of zones.
    pub zones: &'p Layout,
    /// The number of places of each zak space.
    pub spaces: Spaces,
    /// All tables of the piece, including those that haven't been made yet.
    pub tables: &'p [PieceTable],
}
