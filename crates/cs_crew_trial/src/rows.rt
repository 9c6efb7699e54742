// Boards of few notes: what the calls of one seat or of two return, and what is left at the end.
ghost use Rattle.std.specs.Prelude.{◌≡◌, [], length, IfNone};
ghost use Rattle.cs_board.specs.{Board.IsIdle, Board.IsSeatOf, Board.SameSeat, Board.name, Board.plan, Board.view};
ghost use Rattle.cs_board.specs.Views.{opening_view};
ghost use Rattle.cs_desk.specs.Desk.{areas};

use crate::cycle::{layout, marks_of, opened};
use crate::marked::jobs_of;
use crate::three::three_over;
use cs_base::{MOST_NOTES, Steps};
use cs_board::{Board, BoardSeat};
use cs_cells::{Bank, Job, Layout};
use cs_desk::{Desk, Receipt, Tally};
use std::alloc::Global;
use std::sync::atomic::AtomicU64;

/// A note that was claimed and run, and what the run returned.
#[derive(Clone, Copy, Debug)]
pub struct Turn {
    pub note: u32,
    pub turns: u64,
}

/// The cycles and notes that a tally has after one receipt.
#[derive(Clone, Copy, Debug)]
pub struct Counts {
    pub cycles: u64,
    pub notes: u64,
}

fn counts_of<J: Job + Drop>(receipt: Receipt<J>) -> Counts {
    let mut tally = Tally::new();
    tally.add(receipt);
    Counts {
        cycles: tally.cycles(),
        notes: tally.notes(),
    }
}

fn claimed<J: Job>(board: &Board<J>, seat: &mut BoardSeat<J>) -> Option<u32>
    requires seat { IsSeatOf J.means (plan board.now) (name board.now) seat.old }
    requires idle { IsIdle (view seat.old) }
    ensures seat { IsSeatOf J.means (plan board.now) (name board.now) seat.new }
{
    board.claim(seat, &mut Steps::new())
}

// Claims a note, runs it, and finishes it.
fn take_turn<J: Job>(board: &Board<J>, seat: &mut BoardSeat<J>) -> Option<Turn>
    requires seat { IsSeatOf J.means (plan board.now) (name board.now) seat.old }
    requires idle { IsIdle (view seat.old) }
    ensures seat { IsSeatOf J.means (plan board.now) (name board.now) seat.new }
    ensures idle { IsIdle (view seat.new) }
    ensures none { IfNone result ((view seat.new).owes ≡ []) }
    ensures same { SameSeat (view seat.old) (view seat.new) }
{
    let Some(note) = board.claim(seat, &mut Steps::new()) else {
        return None;
    };
    let turns = board.run(seat);
    board.finish(seat);
    Some(Turn { note, turns })
}

/// The first three turns of a seat, the counts of its receipt, and the first cell's number at the end, in 65,536ths.
pub type Played = ([Option<Turn>; 3], Counts, Option<i64>);

// Plays a board of at most three notes with one seat. None if there are more.
fn three_turns<J: Job + Drop>(
    board: Board<J>,
    mut seat: BoardSeat<J>,
    layout: &Layout,
) -> Option<Played>
    requires seat { IsSeatOf J.means (plan board) (name board) seat }
    requires opens { view seat ≡ opening_view (plan board) }
    requires areas { (plan board).areas ≡ layout.now }
{
    let first = take_turn(&board, &mut seat);
    let second = take_turn(&board, &mut seat);
    let third = take_turn(&board, &mut seat);
    if take_turn(&board, &mut seat).is_some() {
        return None;
    }
    let (receipt, mut desk, _) = Desk::rest(board, seat);
    let cell = first_cell(&mut desk, layout);
    Some(([first, second, third], counts_of(receipt), cell))
}

fn first_cell<J: Job>(desk: &mut Desk<J>, layout: &Layout) -> Option<i64>
    requires { areas desk.old ≡ layout.now }
{
    if layout.words() == 0 {
        return None;
    }
    Some(desk.get(0).raw())
}

/// The result of the first claim on a board of no notes, the number of its tries, and the counts of the receipt.
#[derive(Clone, Copy, Debug)]
pub struct Nothing {
    pub claim: Option<u32>,
    pub tries: u64,
    pub counts: Counts,
}

// Plays a board of no notes. None if a note is claimed.
fn no_turns<J: Job + Drop>(board: Board<J>, mut seat: BoardSeat<J>) -> Option<Nothing>
    requires seat { IsSeatOf J.means (plan board) (name board) seat }
    requires opens { view seat ≡ opening_view (plan board) }
{
    let mut steps = Steps::new();
    let claim = board.claim(&mut seat, &mut steps);
    if claim.is_some() {
        return None;
    }
    let (receipt, _, _) = Desk::rest(board, seat);
    Some(Nothing {
        claim,
        tries: steps.count,
        counts: counts_of(receipt),
    })
}

/// Plays a board of no notes. None if memory runs out.
pub fn no_notes(alloc: Global) -> Option<Nothing> {
    let Some(layout) = layout(alloc) else {
        return None;
    };
    let clock = AtomicU64::new(0);
    let Ok(jobs) = jobs_of(alloc, &layout, &[], &[], &clock) else {
        return None;
    };
    let Some((board, seat)) = opened(alloc, &layout, 0, jobs) else {
        return None;
    };
    no_turns(board, seat)
}

/// Plays three notes with one seat, each of which adds 1 to the first cell, which begins at 5. None if memory runs out.
pub fn three_on_one_cell(alloc: Global) -> Option<Played> {
    let Some(layout) = layout(alloc) else {
        return None;
    };
    let Some(jobs) = three_over(alloc, &layout) else {
        return None;
    };
    let Some((board, seat)) = opened(alloc, &layout, 5, jobs) else {
        return None;
    };
    three_turns(board, seat, &layout)
}

/// The results of three claims: the first seat's, the second seat's, and the first seat's after its first note is done.
#[derive(Clone, Copy, Debug)]
pub struct Claims {
    pub first: Option<u32>,
    pub second: Option<u32>,
    pub first_later: Option<u32>,
}

// When the second seat claims: while the first seat has its note, or after that note is done.
#[derive(Clone, Copy, PartialEq, Eq)]
enum When {
    Meanwhile,
    After,
}

fn claim_by_two<J: Job + Drop>(board: &Board<J>, mut seat: BoardSeat<J>, when: When) -> Claims
    requires seat { IsSeatOf J.means (plan board.now) (name board.now) seat }
    requires opens { view seat ≡ opening_view (plan board.now) }
{
    let mut other = board.split(&mut seat);
    let mut second = None;
    let first = board.claim(&mut seat, &mut Steps::new());
    if when == When::Meanwhile {
        second = claimed(board, &mut other);
    }
    if first.is_some() {
        board.run(&mut seat);
        board.finish(&mut seat);
    }
    if when == When::After {
        second = claimed(board, &mut other);
    }
    Claims {
        first,
        second,
        first_later: claimed(board, &mut seat),
    }
}

// Plays boards of notes with these resources with two seats. None if memory runs out.
fn two_seats(alloc: Global, bits: &[u32], when: When) -> Option<Claims> {
    let Some(layout) = layout(alloc) else {
        return None;
    };
    let Ok(marks) = marks_of(alloc, bits.len()) else {
        return None;
    };
    seated(alloc, &layout, bits, &marks, when)
}

fn seated(
    alloc: Global,
    layout: &Layout,
    bits: &[u32],
    marks: &[AtomicU64],
    when: When,
) -> Option<Claims>
    requires { length layout.now ≡ 6 }
{
    if marks.len() > MOST_NOTES {
        return None;
    }
    let clock = AtomicU64::new(0);
    let Ok(jobs) = jobs_of(alloc, layout, bits, marks, &clock) else {
        return None;
    };
    let Some((board, seat)) = opened(alloc, layout, 0, jobs) else {
        return None;
    };
    Some(claim_by_two(&board, seat, when))
}

/// Note 0 before note 1: the second seat claims while the first seat has note 0.
pub fn one_before_one(alloc: Global) -> Option<Claims> {
    two_seats(alloc, &[1, 1], When::Meanwhile)
}

/// Note 0 before the notes 1 and 2: both seats claim once note 0 is done.
pub fn one_before_two(alloc: Global) -> Option<Claims> {
    two_seats(alloc, &[0b11, 0b01, 0b10], When::After)
}

/// Plays at most three notes with these resources with one seat. None if memory runs out.
pub fn one_seat(alloc: Global, bits: &[u32]) -> Option<Played> {
    let Some(layout) = layout(alloc) else {
        return None;
    };
    let Ok(marks) = marks_of(alloc, bits.len()) else {
        return None;
    };
    played(alloc, &layout, bits, &marks)
}

fn played(alloc: Global, layout: &Layout, bits: &[u32], marks: &[AtomicU64]) -> Option<Played>
    requires { length layout.now ≡ 6 }
{
    if marks.len() > MOST_NOTES {
        return None;
    }
    let clock = AtomicU64::new(0);
    let Ok(jobs) = jobs_of(alloc, layout, bits, marks, &clock) else {
        return None;
    };
    let Some((board, seat)) = opened(alloc, layout, 0, jobs) else {
        return None;
    };
    three_turns(board, seat, layout)
}
