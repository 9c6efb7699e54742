// Making the sound of the cycles: the state from cycle to cycle, and who runs its notes.
ghost use Rattle.std.specs.Prelude.{◌≡◌, ◌+◌, ◌*◌, ◌≤◌, ◌<◌, length, IfOk, IsSomeAnd, OnOk};
ghost use Rattle.cs_base.specs.Limits.{most_notes};
ghost use Rattle.cs_life.specs.Standing.{kept_count};
ghost use Rattle.cs_piece.specs.Setups.{SetupData, composition_of};
ghost use Rattle.cs_piece_meaning.specs.{Course.begins, Moments.Moment};
ghost use Rattle.cs_perform.specs.inner.Stands.{BeginsNotes, IsAt, IsReady, RunsNotes};

use crate::counter::Counter;
use crate::order::{Performance, TurnLines};
use crate::stand::{NoteRow, Stand, Starts};
use crate::turns::tell_turns;
use cs_base::OutOfMemory;
use cs_edge::{Gate, OpenGate};
use cs_pool::Pool;
use std::alloc::Global;
use std::sync::Wait;

/// Makes the sound of the cycles, one after another. The rest of a performance is generic over this trait,
/// whose bounds name no lifetime: a function can't have such a bound together with meters.
pub(crate) trait Sounder: Drop {
    /// Whether its state represents a moment of a setup's performance.
    ghost is_at: { SetupData → Self → Moment → Type 0 };

    /// Begins the notes of a cycle, and appends their line of turns if the report has such lines.
    fn prepare(
        &mut self,
        performance: &Performance<'_>,
        cycle: u32,
        turns: &mut Vec<u8>,
    ) -> Result<(), OutOfMemory>
        requires { (m : Moment) × is_at performance.now.setup.now self.old m }
        ensures { OnOk result (BeginsNotes is_at performance.now cycle self.old self.new
            turns.old.items turns.new.items) };

    /// Performs the cycle with the notes that have begun; then notes that were turned off leave, and `tally`
    /// counts the cycle. `block` becomes the sum of the notes.
    fn run<C: Counter>(&mut self, cycle: u32, tally: &mut C, block: &mut [i64])
        requires at { (s : SetupData) × (m : Moment) × is_at s self.old m
            × (length block.old ≡ s.orchestra.head.ksmps * s.orchestra.head.nchnls) }
        requires room { most_notes < C.room tally.old }
        ensures runs { RunsNotes is_at C.has_counted self.old self.new tally.old tally.new block.new }
        ensures room { C.room tally.old ≤ C.room tally.new + (most_notes + 1) };

    /// Does the events at the very end, in the cycle after the last one.
    fn close(self, alloc: Global, cycle: u32) -> Result<Starts, OutOfMemory>
        requires at { (s : SetupData) × (m : Moment) × is_at s self m }
        ensures starts { IfOk result (λ n. (s : SetupData) (m : Moment) → is_at s self m
            → (n.started ≡ kept_count (begins (composition_of s) cycle m).started)
            × (n.not_started ≡ kept_count (begins (composition_of s) cycle m).not_started)) };
}

/// The caller without a crew, who waits for no other thread.
impl<'t, G: Gate> Sounder for Stand<'t, G> {
    ghost is_at = { λ s stand m. IsAt s stand m };

    fn prepare(
        &mut self,
        performance: &Performance<'_>,
        cycle: u32,
        turns: &mut Vec<u8>,
    ) -> Result<(), OutOfMemory> {
        self.begin(performance.alloc, cycle)?;
        match performance.order.turns {
            TurnLines::Told => tell_turns(performance.alloc, performance.setup, cycle, self, turns),
            TurnLines::Untold => Ok(()),
        }
    }

    fn run<C: Counter>(&mut self, cycle: u32, tally: &mut C, block: &mut [i64]) {
        self.run_alone(cycle, tally, block);
        self.end();
    }

    fn close(mut self, alloc: Global, cycle: u32) -> Result<Starts, OutOfMemory> {
        let begun = self.begin(alloc, cycle);
        let starts = Starts {
            started: self.life.started(),
            not_started: self.life.not_started(),
        };
        drop(self);
        match begun {
            Ok(()) => Ok(starts),
            Err(refused) => Err(refused),
        }
    }
}

/// A crew, and the state from cycle to cycle, which is out while the crew runs a cycle.
#[derive(Drop)]
pub(crate) struct Ensemble<'r, 'e, 't, R, G: Gate> {
    pub pool: &'r mut Pool<'e, NoteRow<'t, G>, R, OpenGate>,
    pub stand: Option<Stand<'t, G>>,
}

impl<'r, 'e, 't, R: Wait, G: Gate> Sounder for Ensemble<'r, 'e, 't, R, G> {
    ghost is_at = { λ s e m. IsSomeAnd e.stand (λ stand. IsAt s stand m) };

    fn prepare(
        &mut self,
        performance: &Performance<'_>,
        cycle: u32,
        turns: &mut Vec<u8>,
    ) -> Result<(), OutOfMemory> {
        let Some(stand) = &mut self.stand else {
            unreachable!()
        };
        stand.prepare(performance, cycle, turns)
    }

    fn run<C: Counter>(&mut self, cycle: u32, tally: &mut C, block: &mut [i64]) {
        let Some(stand) = &mut self.stand else {
            unreachable!()
        };
        if !stand.is_shared(self.pool, block) {
            stand.run(cycle, tally, block);
            return;
        }
        self.share(cycle, tally, block);
    }

    fn close(self, alloc: Global, cycle: u32) -> Result<Starts, OutOfMemory> {
        let Ensemble { pool: _, stand } = self;
        let Some(stand) = stand else { unreachable!() };
        stand.close(alloc, cycle)
    }
}

impl<'r, 'e, 't, R: Wait, G: Gate> Ensemble<'r, 'e, 't, R, G> {
    // Runs the cycle, for which everything is ready, with the crew; then notes that were turned off leave.
    // It is a separate function, so that a cycle without the crew doesn't pay for the stack frame in which
    // the state moves out and back.
    #[inline(never)]
    fn share<C: Counter>(&mut self, cycle: u32, tally: &mut C, block: &mut [i64])
        requires at { (s : SetupData) × (m : Moment) × IsSomeAnd self.old.stand (λ stand. IsAt s stand m)
            × (length block.old ≡ s.orchestra.head.ksmps * s.orchestra.head.nchnls) }
        requires ready { IsSomeAnd self.old.stand (λ stand. IsReady stand) }
        requires room { most_notes < C.room tally.old }
        ensures runs { RunsNotes (λ s e m. IsSomeAnd e.stand (λ stand. IsAt s stand m)) C.has_counted
            self.old self.new tally.old tally.new block.new }
        ensures room { C.room tally.old ≤ C.room tally.new + (most_notes + 1) }
    {
        let Some(stand) = self.stand.take() else {
            unreachable!()
        };
        let mut stand = stand.run_shared(self.pool, cycle, tally, block);
        stand.end();
        drop(self.stand.replace(stand));
    }
}
