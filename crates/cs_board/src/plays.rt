// The board's rule as a rule for `atomic_table`, and what each kind of step lets a seat know.
ghost use Rattle.cs_board.specs.Plays.{looked_status, claimed, took, looked, set_cell, looked_turn, turned, gave};
ghost use Rattle.cs_board.specs.Plays.{finished, closed, watched, opens, lays, reads, reaches, leaves, begins, ends};
ghost use Rattle.cs_board.specs.Views.{kept_view, given_view, joined, spent_view};

use crate::view::{Berth, View};
use atomic_table::{Join, Play, Split as Cut, TableRule};
use cs_cells::{Job, Layout};
use std::snapshot::Snapshot;

/// What the table receives when it is made: the layout, the words, and the number of slots. It occupies no
/// bytes.
#[derive(Drop)]
pub struct Key {
    pub layout: Snapshot<Layout>,
    pub words: Snapshot<Vec<u64>>,
    pub slots: Snapshot<u32>,
}

/// The board's rule, as `atomic_table` calls it.
pub struct Rule;

impl<J: Job> TableRule<Berth<J>, View<J>, Key> for Rule {
    ghost use Rattle.cs_board.specs.{Keys.first_view, Rule.Always};

    ghost holds = { λ key. Always J.means };

    ghost first = { λ key. first_view key };
}

/// Reads a status in a try: the note is found Available, or otherwise.
pub struct LookStatus;

impl<J> Play<Berth<J>, View<J>> for LookStatus {
    ghost then = { looked_status };
}

/// An Available note becomes InProgress and belongs to the seat.
pub struct Claim;

impl<J: Job> Play<Berth<J>, View<J>> for Claim {
    ghost then = { claimed J.means };
}

/// The job leaves its slot, with a load of word 0.
pub struct Take;

impl<J> Play<Berth<J>, View<J>> for Take {
    ghost then = { took };
}

/// Reads a cell.
pub struct Look;

impl<J: Job> Play<Berth<J>, View<J>> for Look {
    ghost then = { looked J.means };
}

/// Sets a cell.
pub struct Set;

impl<J> Play<Berth<J>, View<J>> for Set {
    ghost then = { set_cell };
}

/// Reads a turn word.
pub struct LookTurn;

impl<J: Job> Play<Berth<J>, View<J>> for LookTurn {
    ghost then = { looked_turn J.means };
}

/// Counts the note's own turn, and after that its turn on a resource that it writes.
pub struct Turn;

impl<J> Play<Berth<J>, View<J>> for Turn {
    ghost then = { turned };
}

/// The job goes back into its slot, with a load of word 0.
pub struct Give;

impl<J> Play<Berth<J>, View<J>> for Give {
    ghost then = { gave };
}

/// The note becomes Done.
pub struct Finish;

impl<J> Play<Berth<J>, View<J>> for Finish {
    ghost then = { finished };
}

/// Closes an edge from the note.
pub struct Close;

impl<J> Play<Berth<J>, View<J>> for Close {
    ghost then = { closed };
}

/// A waiting note watches its next edge, unless that edge is closed.
pub struct Watch;

impl<J> Play<Berth<J>, View<J>> for Watch {
    ghost then = { watched };
}

/// A waiting note that has no edge left to watch becomes Available.
pub struct Open;

impl<J> Play<Berth<J>, View<J>> for Open {
    ghost then = { opens };
}

/// Sets a word while the board rests.
pub struct Lay;

impl<J> Play<Berth<J>, View<J>> for Lay {
    ghost then = { lays };
}

/// Reads a word while the board rests.
pub struct Read;

impl<J> Play<Berth<J>, View<J>> for Read {
    ghost then = { reads };
}

/// Takes what is in a slot while the board rests, with a load of the word of the slot's number.
pub struct Reach;

impl<J> Play<Berth<J>, View<J>> for Reach {
    ghost then = { reaches };
}

/// Puts what was taken from a slot back while the board rests.
pub struct Leave;

impl<J> Play<Berth<J>, View<J>> for Leave {
    ghost then = { leaves };
}

/// Begins a cycle; the step takes the cycle's graph.
pub struct Begin;

impl<J> Play<Berth<J>, View<J>> for Begin {
    ghost then = { begins };
}

/// Ends a cycle: the board rests.
pub struct End;

impl<J: Job> Play<Berth<J>, View<J>> for End {
    ghost then = { ends J.means };
}

/// Splits a seat off the first one.
pub struct Split;

impl<J> Cut<View<J>> for Split {
    ghost left = { kept_view };

    ghost right = { given_view };
}

/// Joins another seat into the first one.
pub struct Gather;

impl<J> Join<View<J>> for Gather {
    ghost both = { joined };

    ghost spent = { spent_view };
}
