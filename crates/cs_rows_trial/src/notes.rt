// How a note begins and runs over cells in plain memory.
ghost use Rattle.std.specs.Prelude.{◌≡◌, length, IfSome, IfOk};
ghost use Rattle.cs_cells.specs.Areas.{word_count};
ghost use Rattle.cs_rows_trial.specs.Zoned.{IsIn};

use cs_base::{Excerpt, SampleWidth};
use cs_cells::{Job, PlainBank};
use cs_compile::compile;
use cs_piece::Setup;
use cs_voice::{NewNote, Started, Voice, start};
use std::alloc::{AllocError, Global};

/// Returns the piece of two texts. None if it is refused, or if memory runs out.
pub fn piece_of(alloc: Global, orchestra: &str, score: &str) -> Option<Setup> {
    let orchestra = Excerpt::whole_file(orchestra.as_bytes());
    let score = Excerpt::whole_file(score.as_bytes());
    match compile(alloc, &orchestra, &score, SampleWidth::TwoBytes) {
        Ok(setup) => Some(setup),
        Err(_) => None,
    }
}

/// Returns the cells that the notes of a piece share, all of them 0.
pub fn cells_of(alloc: Global, setup: &Setup) -> Result<Vec<u64>, AllocError>
    ensures { IfOk result (λ v. length v.items ≡ word_count setup.now.layout) }
{
    Ok(vec![in alloc; 0u64; setup.layout().words() as usize]?)
}

/// Begins a note of the instrument with this number, after `age` others. None if there is no such instrument, or if
/// memory runs out.
pub fn begin<'s>(
    alloc: Global,
    setup: &'s Setup,
    number: i64,
    age: u64,
    cells: &mut Vec<u64>,
) -> Option<Started<'s>>
    requires { length cells.old.items ≡ word_count setup.now.layout }
    ensures cells { length cells.new.items ≡ length cells.old.items }
    ensures zones { IfSome result (IsIn setup.now.zones) }
{
    let stage = setup.stage();
    let playable = setup.instrument(number)?;
    let made = vec![in alloc; true; stage.tables.len()].ok()?;
    let note = NewNote {
        instrument: playable.instrument,
        foot: playable.foot,
        stage,
        made: &made,
        age,
        until: 2,
    };
    let mut bank = PlainBank::new(cells);
    start(
        alloc,
        &note,
        Vec::new(alloc),
        &mut Vec::new(alloc),
        &mut bank,
    )
    .ok()
}

/// Returns a note of the instrument with this number. None if it doesn't begin.
pub fn voice_of<'s>(
    alloc: Global,
    setup: &'s Setup,
    number: i64,
    cells: &mut Vec<u64>,
) -> Option<Voice<'s>>
    requires { length cells.old.items ≡ word_count setup.now.layout }
    ensures cells { length cells.new.items ≡ length cells.old.items }
    ensures zones { IfSome result (λ v. v.zones ≡ setup.now.zones) }
{
    match begin(alloc, setup, number, 0, cells) {
        Some(Started::Live(voice)) => Some(voice),
        _ => None,
    }
}

/// Runs a note for one control cycle over these cells.
pub fn run(setup: &Setup, voice: &mut Voice<'_>, cells: &mut Vec<u64>)
    requires zones { voice.old.zones ≡ setup.now.zones }
    requires cells { length cells.old.items ≡ word_count setup.now.layout }
    ensures zones { voice.new.zones ≡ setup.now.zones }
    ensures cells { length cells.new.items ≡ length cells.old.items }
{
    setup.facts();
    let mut bank = PlainBank::new(cells);
    voice.run(&mut bank);
}
