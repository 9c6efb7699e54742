// For each place, the notes so far that use it and that write it.
ghost use Rattle.cs_base.specs.Limits.{most_notes};
ghost use Rattle.std.specs.Prelude.{◌≡◌, ◌==◌, ◌≢◌, ◌&&◌, ◌||◌, ◌↔◌, ◌+◌, ℕ, ◌<◌, true, false, length, IfOk, OnOk};
ghost use Rattle.std.specs.List.{list_any};
ghost use Rattle.cs_graph.specs.{Conflict.Clash, Conflict.foot, inner.Sets.has};
ghost use Rattle.cs_graph.specs.inner.Touched.{uses_so_far, writes_so_far, meets_so_far, IsTouchedBy};

use crate::note_set::NoteSet;
use cs_base::OutOfMemory;
use cs_cells::Footprint;
use std::collections::HashMap;

/// The notes so far that use a place (a place that is written counts as used), and the notes that write it.
#[derive(Drop)]
pub struct Sharers {
    users: NoteSet,
    writers: NoteSet,
}

/// The notes that share each place that a note so far has touched.
pub type SharersByPlace = HashMap<u32, Sharers>;

impl Sharers {
    fn new() -> Sharers
        ensures users { (p : ℕ) → has result.users p ≡ false }
        ensures writers { (p : ℕ) → has result.writers p ≡ false }
    {
        Sharers {
            users: NoteSet::new(),
            writers: NoteSet::new(),
        }
    }
}

// Records that the note uses the place, and adds the place's writers so far to `met`. If the note writes the
// place, it records that, too, and adds all users so far to `met` instead.
fn touch_place(
    by_place: &mut SharersByPlace,
    place: u32,
    writes: bool,
    note: u32,
    met: &mut NoteSet,
) -> Result<(), OutOfMemory>
    requires { note < most_notes }
    ensures users { OnOk result ((r p : ℕ) → uses_so_far by_place.new r p
        ≡ (uses_so_far by_place.old r p || (r == place && p == note))) }
    ensures writers { OnOk result ((r p : ℕ) → writes_so_far by_place.new r p
        ≡ (writes_so_far by_place.old r p || (writes && (r == place && p == note)))) }
    ensures met { OnOk result ((p : ℕ) → has met.new p ≡ (has met.old p || meets_so_far writes by_place.old place p)) }
{
    let sharers = by_place.entry(place)?.or_insert(Sharers::new());
    if writes {
        met.join(&sharers.users);
        sharers.writers.insert(note);
    } else {
        met.join(&sharers.writers);
    }
    sharers.users.insert(note);
    Ok(())
}

fn touch_places(
    by_place: &mut SharersByPlace,
    places: &[u32],
    writes: bool,
    note: u32,
    met: &mut NoteSet,
) -> Result<(), OutOfMemory>
    requires { note < most_notes }
    ensures users { OnOk result ((r p : ℕ) → uses_so_far by_place.new r p
        ≡ (uses_so_far by_place.old r p || (list_any (λ y. r == y) places.now && p == note))) }
    ensures writers { OnOk result ((r p : ℕ) → writes_so_far by_place.new r p
        ≡ (writes_so_far by_place.old r p
        || (writes && (list_any (λ y. r == y) places.now && p == note)))) }
    ensures met { OnOk result ((p : ℕ) → p ≢ note → has met.new p
        ≡ (has met.old p || list_any (λ y. meets_so_far writes by_place.old y p) places.now)) }
{
    for place in places {
        touch_place(by_place, *place, writes, note, met)?;
    }
    Ok(())
}

/// Adds the next note, and returns the earlier notes that it conflicts with.
pub fn meet(
    by_place: &mut SharersByPlace,
    feet: &[Footprint],
    note: u32,
) -> Result<NoteSet, OutOfMemory>
    requires small { note < most_notes }
    requires within { note < length feet.now }
    requires by_place { IsTouchedBy feet.now note by_place.old }
    ensures by_place { OnOk result (IsTouchedBy feet.now (note + 1) by_place.new) }
    ensures met { IfOk result (λ met. (p : ℕ) → p < note → (has met p ≡ true)
        ↔ Clash (foot feet.now p) (foot feet.now note)) }
{
    let foot = &feet[note as usize];
    let mut met = NoteSet::new();
    touch_places(by_place, foot.uses.as_slice(), false, note, &mut met)?;
    touch_places(by_place, foot.writes.as_slice(), true, note, &mut met)?;
    Ok(met)
}
