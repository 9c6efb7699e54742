// The plot of a piece and its parts.
use crate::fields::NoteFields;
use cs_base::{Items, Nums};

/// The action of an event.
#[derive(Drop)]
pub enum EventAct {
    /// Starts a note of instrument `instr` that lasts `cycles` control cycles. `cycles` is 0 if p3 is 0; then
    /// the note has only its initialisation pass. `fields` are p1 onward, with p2 and p3 in seconds; a held
    /// note's p3 is as written.
    Start {
        instr: u32,
        cycles: u32,
        fields: NoteFields,
    },
    /// Makes table `number`.
    Table {
        number: u32,
        size: i64,
        gen_: i64,
        args: Nums,
    },
}

/// An action before a control cycle is performed, and the line of the score that it comes from.
#[derive(Drop)]
pub struct Event {
    /// The control cycle, counted from the start of the piece.
    pub cycle: u32,
    /// The line in the score, counted from 1.
    pub line: u32,
    pub act: EventAct,
}

/// Events in the order in which they are performed.
pub type Events = Items<Event>;

/// The plot of a score: its events, and its length in control cycles.
#[derive(Drop)]
pub struct Plot {
    pub events: Events,
    pub cycles: u32,
}
