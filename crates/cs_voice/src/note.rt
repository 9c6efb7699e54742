// How a note begins.
ghost use Rattle.std.specs.Prelude.{◌≡◌, ◌++◌, length, map, IfOk, OnOk};
ghost use Rattle.cs_machine.specs.Access.{AreSpaces, spaces_of};
ghost use Rattle.cs_cells.specs.{Access.AllowsBelow, Areas.word_count, Cells.cell};
ghost use Rattle.cs_ir.specs.Asks.{ask_of};
ghost use Rattle.cs_voice_meaning.specs.Voices.{IsPlayable, initialised};
ghost use Rattle.cs_voice.specs.{Starts.IsStarted, Starts.sheet_for, Starts.started_as, Tables.CanAllBePlayed};

use crate::begin::StartRefusal;
use crate::body::VoiceBody;
use crate::pass::pass;
use crate::tables::Finds;
use crate::{Stage, Voice};
use cs_base::{Num, OutOfMemory};
use cs_cells::{Bank, Footprint};
use cs_ir::{Ask, Instrument};
use cs_machine::{NoteSetting, State};
use std::alloc::Global;

/// The result of starting a note.
#[derive(Drop)]
pub enum Started<'p> {
    /// The note plays.
    Live(Voice<'p>),
    /// A unit needs the table with this number, which doesn't exist or hasn't been made by now.
    NoTable { number: i64 },
    /// The delays started so far need this number of samples in total, which is more than 262,144.
    DelayTooLong { samples: u64 },
}

/// A note that is to begin.
#[derive(Clone, Copy)]
pub struct NewNote<'m, 'p> {
    /// The instrument that it plays.
    pub instrument: &'p Instrument,
    /// The shared resources that its codes touch.
    pub foot: &'p Footprint,
    pub stage: Stage<'p>,
    /// For each table of the stage, whether it has been made by now.
    pub made: &'m [bool],
    /// The number of notes that were started before it.
    pub age: u64,
    /// The cycle in which it has ended.
    pub until: u64,
}

/// Begins a note; `fields` are its p-fields, from p1 on.
///
/// It does the code that begins the instrument's notes. The notes which that code schedules are appended to
/// `asks`, in order. It stops if a unit needs a table that hasn't been made, or if the delays become too long
/// in total; everything written to cells and scheduled before that stays. If memory runs out, the note
/// doesn't play, and part of the code may have been done.
pub fn start<'p, B: Bank>(
    alloc: Global,
    note: &NewNote<'_, 'p>,
    fields: Vec<Num>,
    asks: &mut Vec<Ask>,
    bank: &mut B,
) -> Result<Started<'p>, OutOfMemory>
    requires playable { IsPlayable (sheet_for note.now fields.items) }
    requires made { length note.now.made.now ≡ length note.now.stage.tables.now }
    requires tables { CanAllBePlayed note.now.stage.layout.now (sheet_for note.now fields.items).piece.tables }
    requires places { AreSpaces note.now.stage.layout.now }
    requires spaces { spaces_of note.now.stage.layout.now ≡ note.now.stage.spaces }
    requires access { AllowsBelow (B.access (B.rest bank.old)) (word_count note.now.stage.layout.now) }
    ensures started { let s = sheet_for note.now fields.items in
        IfOk result (IsStarted s note.now.until (initialised s (cell (B.cells bank.old)))) }
    ensures cells { let s = sheet_for note.now fields.items in
        OnOk result (cell (B.cells bank.new) ≡ (initialised s (cell (B.cells bank.old))).world.shared) }
    ensures asks { let s = sheet_for note.now fields.items in
        OnOk result (asks.new.items ≡ asks.old.items ++ map ask_of
        (initialised s (cell (B.cells bank.old))).world.asks) }
    ensures rest { B.rest bank.new ≡ B.rest bank.old }
{
    let finds = Finds {
        at: NoteSetting {
            head: note.stage.head,
            layout: note.stage.layout,
            spaces: note.stage.spaces,
            fields: &fields,
        },
        tables: note.stage.tables,
    };
    let init = note.instrument.init();
    let frames = note.stage.head.ksmps as usize;
    let channels = note.stage.head.nchnls as usize;
    let mut state = State::new(alloc, init.counts, frames, channels)?;
    let refusal = pass(alloc, &mut state, &finds, note, asks, bank)?;
    if let Some(refusal) = refusal {
        return Ok(refused(refusal));
    }
    let number = note.instrument.number();
    let perf = note.instrument.perf();
    let parts = VoiceBody {
        number,
        age: note.age,
        until: note.until,
        stage: note.stage,
        foot: note.foot,
        code: perf,
        fields,
        state,
    };
    let voice = Voice::of(alloc, parts)?;
    Ok(Started::Live(voice))
}

fn refused<'p>(refusal: StartRefusal) -> Started<'p>
    ensures { result ≡ started_as refusal }
{
    match refusal {
        StartRefusal::NoTable(number) => Started::NoTable { number },
        StartRefusal::DelayTooLong(samples) => Started::DelayTooLong { samples },
    }
}
