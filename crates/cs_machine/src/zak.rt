// Zak places that are cleared.
ghost use Rattle.std.specs.Prelude.{◌≡◌, ◌≤◌, ◌<◌, ◌&&◌, ℕ, pos, true, Some, if◌then◌else◌};
ghost use Rattle.cs_base.specs.Rates.{same_res};
ghost use Rattle.cs_machine.specs.Access.{AreSpaces, CanSet, spaces_of};
ghost use Rattle.cs_machine.specs.inner.Numbers.{cleared_in, end_of, from_of};
ghost use Rattle.cs_cells.specs.{Cells.cell, declared.footprint.Area.Area};
ghost use Rattle.cs_ir.specs.Resources.{places_of, reaches, zak_place};
ghost use Rattle.cs_meaning.specs.Pieces.{Piece, is_cleared};
ghost use Rattle.cs_voice_meaning.specs.{Placing.area_of, VoiceWorld.lies_cleared};

use crate::area_rows::clear;
use crate::places::{area_in, index};
use crate::state::NoteSetting;
use cs_base::Num;
use cs_cells::Bank;
use cs_ir::{Reach, places_of, zak_place};
use cs_words::Space;

/// Sets the places from one value to another to 0, as far as they are in the space and within reach.
pub fn clear_places<B: Bank>(
    bank: &mut B,
    at: &NoteSetting<'_>,
    space: Space,
    reach: Reach,
    first: Num,
    last: Num,
)
    requires spaces { AreSpaces at.now.layout.now }
    requires zak { spaces_of at.now.layout.now ≡ at.now.spaces }
    requires write { (n : ℕ) (area : Area) → n < places_of at.now.spaces space → reaches reach n ≡ true
        → area_of at.now.layout.now (zak_place space n) ≡ Some area
        → CanSet (B.access (B.rest bank.old)) area }
    ensures cells { (piece : Piece) → piece.spaces ≡ at.now.spaces → cell (B.cells bank.new)
        ≡ (λ a. if lies_cleared at.now.layout.now (is_cleared piece space reach first last) a then pos 0
        else cell (B.cells bank.old) a) }
    ensures rest { B.rest bank.new ≡ B.rest bank.old }
{
    // For the prover: no two areas belong to one resource.
    let _ = at.layout.words();
    let places = places_of(at.spaces, space) as usize;
    let to = index(last);
    let end = end_of(places, to);
    let since = index(first);
    let from = from_of(end, since);
    for n in from..end {
        clear_place(bank, at, space, reach, n);
    }
}

// Sets one place of a space to 0 if it is within reach.
fn clear_place<B: Bank>(
    bank: &mut B,
    at: &NoteSetting<'_>,
    space: Space,
    reach: Reach,
    number: usize,
)
    requires spaces { AreSpaces at.now.layout.now }
    requires zak { spaces_of at.now.layout.now ≡ at.now.spaces }
    requires number { number < places_of at.now.spaces space }
    requires write { (area : Area) → reaches reach number ≡ true
        → area_of at.now.layout.now (zak_place space number) ≡ Some area
        → CanSet (B.access (B.rest bank.old)) area }
    ensures cells { cell (B.cells bank.new) ≡ cleared_in at.now.layout.now (λ g. reaches reach number
        && same_res g (zak_place space number)) (cell (B.cells bank.old)) }
    ensures rest { B.rest bank.new ≡ B.rest bank.old }
{
    // For the prover: no two areas belong to one resource.
    let _ = at.layout.words();
    if reach.contains(number) {
        let area = area_in(at.layout, zak_place(space, number));
        clear(bank, area);
    }
}

// Returns the exclusive end of the places that are cleared: one more than `last`, at most `places`, and 0 if
// `last` is None.
fn end_of(places: usize, last: Option<usize>) -> usize
    ensures value { result ≡ end_of places last }
    ensures within { result ≤ places }
{
    match last {
        Some(n) if n < places => n + 1,
        Some(_) => places,
        None => 0,
    }
}

// Returns the first number that is cleared: `first`, or 0 if it is None, and at most `end`.
fn from_of(end: usize, first: Option<usize>) -> usize
    ensures value { result ≡ from_of end first }
    ensures within { result ≤ end }
{
    match first {
        Some(n) if n < end => n,
        Some(_) => end,
        None => 0,
    }
}
