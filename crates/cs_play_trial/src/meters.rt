// The meters of a case: the line of each, and one that records its drop.
ghost use Rattle.std.specs.Prelude.{[], codes, nat_lt, if◌then◌else◌};

use crate::made::CaseStage;
use cs_edge::{MirrorTap, PeakTap, Tap};
use std::alloc::Global;
use std::sync::Arc;
use std::sync::atomic::{AtomicU64, Ordering};

/// Returns the meter of the peak, or None if memory runs out.
pub fn peak_of(alloc: Global) -> Option<Box<PeakTap>> {
    match Box::new(alloc, PeakTap::new()) {
        Ok(peak) => Some(peak),
        Err(_) => None,
    }
}

/// Returns a mirror with this capacity, or None for 0, and if memory runs out.
pub fn mirror_of(alloc: Global, room: u32) -> Option<Box<MirrorTap>> {
    if room == 0 {
        return None;
    }
    let Ok(mirror) = MirrorTap::new(alloc, room) else {
        return None;
    };
    match Box::new(alloc, mirror) {
        Ok(mirror) => Some(mirror),
        Err(_) => None,
    }
}

/// Returns a meter that counts its drop in `drops` of the stage, or None if drops aren't recorded, and if
/// memory runs out.
pub fn noted_of(alloc: Global, is_noted: bool, stage: &mut CaseStage) -> Option<Box<DropTap>> {
    if !is_noted {
        return None;
    }
    let Ok(drops) = Arc::new(alloc, AtomicU64::new(0)) else {
        return None;
    };
    if let Ok(noted) = Arc::try_clone(&drops) {
        stage.drops = Some(noted);
    }
    match Box::new(alloc, DropTap { drops }) {
        Ok(noted) => Some(noted),
        Err(_) => None,
    }
}

/// A meter that stores nothing, prints `third.`, and counts when it is dropped.
pub struct DropTap {
    pub drops: Arc<AtomicU64>,
}

impl Drop for DropTap {
    fn drop(self) {
        let DropTap { drops } = self;
        drops.fetch_add(1, Ordering::SeqCst);
    }
}

impl Tap for DropTap {
    ghost stands_for = { λ _ _. Unit {0} };

    ghost text = { λ _ room. if nat_lt room 6 then [] else codes "third." };

    fn take(&mut self, _frames: &[i64]) {}

    fn line(&self, out: &mut [u8]) -> usize {
        if out.len() < 6 {
            return 0;
        }
        out[..6].copy_from_slice(b"third.");
        6
    }
}

/// Appends the lines of meters, in their order; the line of the peak only if the case records drops.
pub fn add_lines(taps: &[Box<dyn Tap>], with_peak: bool, stage: &mut CaseStage) {
    let mut is_shown = with_peak;
    for tap in taps {
        let mut line = [0u8; 64];
        let count = tap.line(&mut line);
        if is_shown {
            stage.told.add(line.get(..count).unwrap_or(&[]));
        }
        is_shown = true;
    }
    stage.early = dropped(stage);
}

// Returns the number of meters that were dropped; 0 if that isn't recorded.
fn dropped(stage: &CaseStage) -> u64 {
    match &stage.drops {
        Some(drops) => drops.load(Ordering::SeqCst),
        None => 0,
    }
}

/// Appends whether a meter was dropped with the vector and not before, if that is recorded.
pub fn add_drops(stage: &mut CaseStage) {
    if stage.drops.is_none() {
        return;
    }
    let dropped = dropped(stage);
    stage.told.add(match (stage.early, dropped) {
        (0, 1) => b" dropped with the vector",
        (0, _) => b" not dropped once",
        _ => b" dropped before the vector",
    });
}
