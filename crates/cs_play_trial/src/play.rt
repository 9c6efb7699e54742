// The runs of a case.
use crate::desk::CaseDesk;
use crate::made::{CaseStage, add_words, files_of, shelf_of};
use crate::meters::{add_drops, add_lines, mirror_of, noted_of, peak_of};
use crate::page::Page;
use crate::show::add_line;
use cs_desk::Tally;
use cs_edge::{MemShelf, SureShelf, SureSink, Tap};
use cs_play::csplay;
use std::sync::Wait;
use std::thread::Threads;

/// A case with its name, and the arguments that come before its own, one in each line.
#[derive(Clone, Copy)]
pub struct CaseRun<'a> {
    pub name: &'a str,
    pub desk: &'a CaseDesk,
    pub crew: &'a [u8],
}

/// Runs a case with one shelf, and writes the line of its last run. Returns the status.
pub fn play<R: AllocGlobal + Threads + Wait + Sync>(
    rt: &R,
    case: CaseRun<'_>,
    out: &mut Page,
) -> u8 {
    let mut words = Vec::new(rt.alloc());
    add_words(&mut words, case.crew, case.desk, out);
    let mut shelf = shelf_of(rt.alloc(), case.desk, out);
    if case.desk.once.twice {
        run(rt, case, &words, &mut shelf, out);
        out.clear();
    }
    let status = run(rt, case, &words, &mut shelf, out);
    drop(shelf);
    status
}

// Runs a case once, on a new stage.
fn run<R: AllocGlobal + Threads + Wait + Sync>(
    rt: &R,
    case: CaseRun<'_>,
    words: &[String],
    shelf: &mut MemShelf,
    out: &mut Page,
) -> u8 {
    let mut stage = CaseStage::new(rt.alloc(), case.desk.once);
    let status = metered(rt, case.desk, words, shelf, &mut stage);
    add_drops(&mut stage);
    add_line(out, case, status, shelf, &stage);
    drop(stage);
    status
}

// The list of the meters is made here, since a function that returns such a list can't be proved.
fn metered<R: AllocGlobal + Threads + Wait + Sync>(
    rt: &R,
    desk: &CaseDesk,
    words: &[String],
    shelf: &mut MemShelf,
    stage: &mut CaseStage,
) -> u8 {
    let mut taps: Vec<Box<dyn Tap>> = Vec::new(rt.alloc());
    let has_peak = match peak_of(rt.alloc()) {
        Some(peak) => taps.push(peak).is_ok(),
        None => false,
    };
    let has_mirror = match mirror_of(rt.alloc(), desk.once.mirror) {
        Some(mirror) => taps.push(mirror).is_ok(),
        None => desk.once.mirror == 0,
    };
    let has_noted = match noted_of(rt.alloc(), desk.once.drops, stage) {
        Some(noted) => taps.push(noted).is_ok(),
        None => !desk.once.drops,
    };
    if !(has_peak && has_mirror && has_noted) {
        stage.told.spoil();
    }
    told(rt, desk, words, shelf, stage, &mut taps)
}

// Moves the lines of the meters of a case to its stage.
fn told<R: AllocGlobal + Threads + Wait + Sync>(
    rt: &R,
    desk: &CaseDesk,
    words: &[String],
    shelf: &mut MemShelf,
    stage: &mut CaseStage,
    taps: &mut Vec<Box<dyn Tap>>,
) -> u8 {
    let status = if desk.once.sure {
        surely(rt, desk, words, stage, taps)
    } else {
        performed(rt, words, shelf, stage, taps)
    };
    add_lines(taps, desk.once.drops, stage);
    status
}

fn performed<R: AllocGlobal + Threads + Wait + Sync>(
    rt: &R,
    words: &[String],
    shelf: &mut MemShelf,
    stage: &mut CaseStage,
    taps: &mut Vec<Box<dyn Tap>>,
) -> u8 {
    csplay(
        rt,
        rt.alloc(),
        words,
        shelf,
        &mut stage.wav,
        &mut stage.talk,
        taps,
        &stage.gate,
        &mut Tally::new(),
    )
    .number()
}

// Does the same with objects that never fail.
fn surely<R: AllocGlobal + Threads + Wait + Sync>(
    rt: &R,
    desk: &CaseDesk,
    words: &[String],
    stage: &mut CaseStage,
    taps: &mut Vec<Box<dyn Tap>>,
) -> u8 {
    let mut shelf = SureShelf::new(files_of(rt.alloc(), desk, &mut stage.told));
    csplay(
        rt,
        rt.alloc(),
        words,
        &mut shelf,
        &mut SureSink::new(),
        &mut SureSink::new(),
        taps,
        &stage.gate,
        &mut Tally::new(),
    )
    .number()
}
