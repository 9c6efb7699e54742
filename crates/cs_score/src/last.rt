// The fields that the next `i` statement may carry from the statement right before it.
ghost use Rattle.std.specs.Prelude.{◌≡◌, ◌<◌, ◌^◌, None};
ghost use Rattle.cs_score.specs.{Ranges.IsInstrument, Ranges.number_or_one, Ranges.beats_end, inner.Values.AreValues};

use crate::field::{Field, InstrumentNumber};
use crate::{NoteValues, ScoreWhat};
use cs_base::Items;
use std::alloc::Global;

/// The `i` statement right before, with all its fields.
#[derive(Drop)]
pub struct LastNote {
    /// p1, or `None` if the statement right before isn't an `i`.
    pub instr: Option<InstrumentNumber>,
    /// p2 before the base was added, in millionths of a beat.
    pub p2: u64,
    /// The time from the start of this note to the start of a next note with `+`, in millionths of a beat.
    pub gap: u64,
    pub fields: Items<Field>,
    /// The values of the fields from p4 on.
    pub more: NoteValues,
    ghost instr_in_range: { IsInstrument (number_or_one instr) },
    ghost p2_in_range: { p2 < beats_end },
    ghost gap_in_range: { gap < 2 ^ 62 },
    ghost more_are_values: { AreValues fields more },
}

impl LastNote {
    /// The state if the statement right before isn't an `i`.
    pub fn none(alloc: Global) -> LastNote
        ensures { result.instr ≡ None }
    {
        LastNote {
            instr: None,
            p2: 0,
            gap: 0,
            fields: Items::new(alloc),
            more: NoteValues::none(),
        }
    }
}

/// An `i` statement, and the fields that the next one may carry.
#[derive(Drop)]
pub struct NoteRead {
    pub what: ScoreWhat,
    pub last: LastNote,
}
