// Which notes of a cycle make a row.
ghost use Rattle.std.specs.Prelude.{◌≡◌, ◌≤◌, ◌<◌, ◌+◌, [], List, length, take, true, All};
ghost use Rattle.std.specs.Vec.{vec_len, vec_capacity};
ghost use Rattle.cs_cells.specs.declared.footprint.Area.{Area};
ghost use Rattle.cs_row.specs.Cuts.{IsCut};

use cs_cells::Job;

/// Cuts notes into rows of at most `most` notes. The notes of a row with several notes follow each other,
/// touch the same resources and write none. `cuts` becomes the number of notes of each row.
pub(crate) fn cut_notes<J: Job>(notes: &[J], most: usize, cuts: &mut Vec<usize>)
    requires most { 1 ≤ most }
    requires empty { cuts.old.items ≡ [] }
    requires room { length notes.now ≤ vec_capacity cuts.old }
    requires over { (areas : List Area) × All (λ j. J.means.areas j ≡ areas) notes.now }
    ensures { IsCut J.means most notes.now cuts.new.items }
{
    hear(notes);
    for at in 0..notes.len() {
        take_note(notes, at, most, cuts);
    }
}

// Takes one more note: it joins the row before it if it may, and otherwise begins a new row.
fn take_note<J: Job>(notes: &[J], at: usize, most: usize, cuts: &mut Vec<usize>)
    requires within { at < length notes.now }
    requires most { 1 ≤ most }
    requires valid { All (λ j. J.means.valid j) notes.now }
    requires over { (areas : List Area) × All (λ j. J.means.areas j ≡ areas) notes.now }
    requires room { vec_len cuts.old < vec_capacity cuts.old }
    requires cut { IsCut J.means most (take at notes.now) cuts.old.items }
    ensures cut { IsCut J.means most (take (at + 1) notes.now) cuts.new.items }
    ensures len { vec_len cuts.new ≤ vec_len cuts.old + 1 }
    ensures capacity { vec_capacity cuts.new ≡ vec_capacity cuts.old }
{
    let rows = cuts.len();
    if 0 < at && cuts[rows - 1] < most && go_together(&notes[at - 1], &notes[at]) {
        cuts[rows - 1] += 1;
    } else {
        cuts.push_reserved(1);
    }
}

// For the prover: it does nothing as it runs. Each job that code holds is valid.
fn hear<J: Job>(jobs: &[J])
    ensures { All (λ j. J.means.valid j) jobs.now }
{
    for job in jobs {
        let _ = job.footprint();
    }
}

// Returns whether two notes may be in one row: they touch the same resources, and write none.
fn go_together<J: Job>(one: &J, next: &J) -> bool
    ensures { result ≡ true → (J.means.foot one.now ≡ J.means.foot next.now) × ((J.means.foot next.now).writes ≡ []) }
{
    next.footprint().writes.as_slice().is_empty() && one.footprint().is(next.footprint())
}
