// Small notes. In each of these pieces a second has two control cycles of four frames.
ghost use Rattle.std.specs.Prelude.{◌≡◌, length};
ghost use Rattle.cs_cells.specs.Areas.{word_count};

use crate::notes::{begin, cells_of, piece_of, run, voice_of};
use cs_base::{Num, Res};
use cs_cells::{Area, Layout};
use cs_piece::Setup;
use cs_voice::Started;
use std::alloc::Global;

// One note of instrument 1.
const SCORE: &str = "i1 0 1\n";

// Returns the integer parts of four frames.
fn integers(row: Option<&[Num]>) -> Option<[i64; 4]> {
    match row {
        Some([a, b, c, d]) => Some([
            a.whole_below(),
            b.whole_below(),
            c.whole_below(),
            d.whole_below(),
        ]),
        _ => None,
    }
}

/// A note stores 7 into a zak place; after it another note reads that place, times ten, and one outside the space.
/// Returns what the second note puts out in each of four frames.
pub fn zak_place(alloc: Global) -> Option<[i64; 4]> {
    let text =
        "sr = 8\nksmps = 4\nzakinit 1, 1\ninstr 1\nzkw 7, 1\nendin\ninstr 2\nk1 zkr 1\nk2 zkr 5\na1 = k1 * 10 + k2\nout a1\nendin\n";
    let setup = piece_of(alloc, text, SCORE)?;
    two_in_order(alloc, &setup)
}

// The notes of instruments 1 and 2 begin, and then run, in this order.
fn two_in_order(alloc: Global, setup: &Setup) -> Option<[i64; 4]> {
    let mut cells = cells_of(alloc, setup).ok()?;
    two_over(alloc, setup, &mut cells)
}

fn two_over(alloc: Global, setup: &Setup, cells: &mut Vec<u64>) -> Option<[i64; 4]>
    requires { length cells.old.items ≡ word_count setup.now.layout }
{
    let mut writer = voice_of(alloc, setup, 1, cells)?;
    let mut reader = voice_of(alloc, setup, 2, cells)?;
    run(setup, &mut writer, cells);
    run(setup, &mut reader, cells);
    integers(reader.channel(0))
}

/// Returns whether a note that is turned off in its second cycle has ended after the first, and after the second.
pub fn turned_off(alloc: Global) -> Option<(bool, bool)> {
    let text =
        "sr = 8\nksmps = 4\ninstr 1\nk1 init 0\nk1 = k1 + 1\na1 = k1\nout a1\nif k1 == 2 then\nturnoff\nendif\nendin\n";
    let setup = piece_of(alloc, text, SCORE)?;
    ended(alloc, &setup)
}

fn ended(alloc: Global, setup: &Setup) -> Option<(bool, bool)> {
    let mut cells = cells_of(alloc, setup).ok()?;
    let mut voice = voice_of(alloc, setup, 1, &mut cells)?;
    run(setup, &mut voice, &mut cells);
    let first = voice.ended();
    run(setup, &mut voice, &mut cells);
    Some((first, voice.ended()))
}

/// Why a note doesn't begin.
#[derive(Clone, Copy, Debug)]
pub enum Refused {
    NoTable { number: i64 },
    DelayTooLong { samples: u64 },
}

// Returns why the note of instrument 1 doesn't begin. None if it begins.
fn refusal_of(alloc: Global, orchestra: &str) -> Option<Refused> {
    let setup = piece_of(alloc, orchestra, SCORE)?;
    refusal_in(alloc, &setup)
}

fn refusal_in(alloc: Global, setup: &Setup) -> Option<Refused> {
    let mut cells = cells_of(alloc, setup).ok()?;
    match begin(alloc, setup, 1, 0, &mut cells) {
        Some(Started::NoTable { number }) => Some(Refused::NoTable { number }),
        Some(Started::DelayTooLong { samples }) => Some(Refused::DelayTooLong { samples }),
        _ => None,
    }
}

/// A delay of 40,000 seconds has 320,000 samples, which are too many.
pub fn long_delay(alloc: Global) -> Option<Refused> {
    refusal_of(
        alloc,
        "sr = 8\nksmps = 4\ninstr 1\na1 = 1\na2 delay a1, 40000\nout a2\nendin\n",
    )
}

/// An oscillator asks for table 9, of a piece without tables.
pub fn missing_table(alloc: Global) -> Option<Refused> {
    refusal_of(
        alloc,
        "sr = 8\nksmps = 4\ninstr 1\na1 oscili 1, 1, 9\nout a1\nendin\n",
    )
}

/// Returns the age of a note that begins after four others.
pub fn older_note(alloc: Global) -> Option<u64> {
    let text = "sr = 8\nksmps = 4\ninstr 1\nendin\n";
    let setup = piece_of(alloc, text, SCORE)?;
    age_of(alloc, &setup)
}

fn age_of(alloc: Global, setup: &Setup) -> Option<u64> {
    let mut cells = cells_of(alloc, setup).ok()?;
    match begin(alloc, setup, 1, 4, &mut cells) {
        Some(Started::Live(voice)) => Some(voice.age()),
        _ => None,
    }
}

/// Returns whether a note uses the tables 1 and 2, and whether it writes them: it stores into a table whose number it
/// reads from a field.
pub fn computed_table(alloc: Global) -> Option<[(bool, bool); 2]> {
    let text =
        "sr = 8\nksmps = 4\ninstr 1\ni1 = p4\nk1 = 1\nk2 = 2\ntablew k1, k2, i1\nendin\ninstr 2\nk1 = 1\ntablew k1, k1, 1\nendin\n";
    let setup = piece_of(alloc, text, "f1 0 4 2 1\nf2 0 8 2 1\ni1 0 1 2\n")?;
    touched(&setup)
}

// Returns for each of the tables 1 and 2 whether the note of instrument 1 uses it, and whether it writes it.
fn touched(setup: &Setup) -> Option<[(bool, bool); 2]> {
    let foot = setup.instrument(1)?.foot;
    let (one, two) = (area_of(setup.layout(), 1)?, area_of(setup.layout(), 2)?);
    let zones = setup.zones();
    let (uses, writes) = (foot.uses.as_slice(), foot.writes.as_slice());
    Some([
        (covers(zones, uses, one), covers(zones, writes, one)),
        (covers(zones, uses, two), covers(zones, writes, two)),
    ])
}

// Returns the cells of a table.
fn area_of(layout: &Layout, table: usize) -> Option<Area> {
    let place = layout.find(Res::Table(table))?;
    if place < layout.len() {
        Some(layout.area(place))
    } else {
        None
    }
}

// Returns whether one of these zones has all cells of an area.
fn covers(zones: &Layout, places: &[u32], area: Area) -> bool {
    for place in places {
        if *place < zones.len() && holds(zones.area(*place), area) {
            return true;
        }
    }
    false
}

fn holds(zone: Area, area: Area) -> bool {
    let end = u64::from(area.first) + u64::from(area.length);
    zone.first <= area.first && end <= u64::from(zone.first) + u64::from(zone.length)
}
