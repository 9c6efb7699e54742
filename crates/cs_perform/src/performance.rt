// Performing a piece into a sink, to taps, and counted.
ghost use Rattle.std.specs.Prelude.{◌≡◌, ◌*◌, ◌≤◌, ◌^◌, IfOk, OnOk, IsErrOf};
ghost use Rattle.cs_base.specs.{Limits.most_wav_bytes, Widths.bytes_of};
ghost use Rattle.cs_piece_meaning.specs.Course.{moment_at, opening};
ghost use Rattle.cs_edge.specs.Told.{Rose};
ghost use Rattle.cs_perform.specs.{Hearing.IfWritten, inner.Crews.HasPlace, inner.Recordings.IsRecordingOf};
ghost use Rattle.cs_perform.specs.Performances.{Performs, PerformsPiece, lent, lent_sight, request_of};
ghost use Rattle.cs_perform.specs.declared.order.Output.TheVariants.{SoundFile};
ghost use Rattle.cs_perform.specs.inner.Ends.{AreStartsOf, Breaks, Closes};
ghost use Rattle.cs_perform.specs.inner.Plays.{BrokeOn, PausedOn, PlayedOn};
ghost use Rattle.cs_piece.specs.Setups.{composition_of};

use crate::by_crew::play_in_scope;
use crate::counter::Counter;
use crate::cycle::play_cycle;
use crate::loan::{Loan, take_back};
use crate::order::{Outcome, Performance, PlayFault};
use crate::recording::Recording;
use crate::sizes::{ends_odd, first_bytes, frames_in};
use crate::sounder::Sounder;
use crate::stand::{Stand, Starts};
use crate::writing::{begin, finish};
use cs_edge::{Gate, Sink, Tap};
use cs_piece_meaning::starts_are_few;
use cs_pool::Crew;
use std::sync::Wait;
use std::thread::Threads;

/// Performs a piece, cycle by cycle: the crew runs the notes, `tally` counts the cycle by its receipt, the
/// mix is passed to each of `taps`, and if the order says so its samples are written to `wav`, which is
/// opened with the performance's name. The memory for blocks and for the opening is allocated before the sink
/// is opened; memory for notes, graphs and larger desks is allocated when it is needed. Returns `Sink` if a
/// call of the sink failed, and `OutOfMemory` if memory ran out. `tally` has room for 2^42 cycles and notes,
/// and the samples of the piece have at most 2^31 bytes.
pub fn perform<K: Sink, C: Counter, R: Threads + Wait + Sync, G: Gate + Sync>(
    performance: &Performance<'_>,
    crew: &Crew<'_, R, G>,
    wav: &mut K,
    taps: &mut Vec<Box<dyn Tap>>,
    tally: &mut C,
) -> Result<Outcome, PlayFault>
    requires room { 2 ^ 42 ≤ C.room tally.old }
    requires bytes { let s = performance.now.setup.now in
        s.plot.cycles * s.orchestra.head.ksmps * s.orchestra.head.nchnls
        * bytes_of performance.now.order.width ≤ most_wav_bytes }
    // Bytes, taps and receipts belong to one number of cycles.
    ensures { PerformsPiece (lent_sight (λ t h. stands_for t h) K.tells C.has_counted)
        (request_of performance.now) (lent wav.old taps.old.items tally.old) (lent wav.new taps.new.items tally.new)
        result }
{
    let (played, loan) = play_in_scope(performance, crew, Loan { wav, taps, tally });
    let Loan { wav, taps, tally } = loan;
    take_back(wav, taps, tally);
    played
}

/// Performs a piece as `perform` does, but only with the caller: it starts no thread and waits for none, so
/// it returns. `gate` is called before each note.
pub fn perform_alone<K: Sink, C: Counter, G: Gate>(
    performance: &Performance<'_>,
    gate: &G,
    wav: &mut K,
    taps: &mut Vec<Box<dyn Tap>>,
    tally: &mut C,
) -> Result<Outcome, PlayFault>
    requires room { 2 ^ 42 ≤ C.room tally.old }
    requires bytes { let s = performance.now.setup.now in
        s.plot.cycles * s.orchestra.head.ksmps * s.orchestra.head.nchnls
        * bytes_of performance.now.order.width ≤ most_wav_bytes }
    ensures { PerformsPiece (lent_sight (λ t h. stands_for t h) K.tells C.has_counted)
        (request_of performance.now) (lent wav.old taps.old.items tally.old) (lent wav.new taps.new.items tally.new)
        result }
{
    let Ok(stand) = Stand::new(performance.alloc, performance.setup, gate) else {
        return Err(PlayFault::OutOfMemory);
    };
    let mut loan = Loan { wav, taps, tally };
    let played = go_on(performance, stand, &mut loan);
    let Loan { wav, taps, tally } = loan;
    take_back(wav, taps, tally);
    played
}

/// Performs the piece from its opening on, and returns its outcome.
pub(crate) fn go_on<K: Sink, C: Counter, S: Sounder>(
    performance: &Performance<'_>,
    sounder: S,
    loan: &mut Loan<'_, K, C>,
) -> Result<Outcome, PlayFault>
    requires place { HasPlace performance.now.setup.now performance.now.order (C.room loan.old.tally.now) }
    requires at { S.is_at performance.now.setup.now sounder (opening (composition_of performance.now.setup.now)) }
    ensures performed { PerformsPiece (lent_sight (λ t h. stands_for t h) K.tells C.has_counted)
        (request_of performance.now) (lent loan.old.wav.now loan.old.taps.now.items loan.old.tally.now)
        (lent loan.new.wav.now loan.new.taps.now.items loan.new.tally.now) result }
    ensures same { (loan.new.wav.ghost_name ≡ loan.old.wav.ghost_name)
        × (loan.new.taps.ghost_name ≡ loan.old.taps.ghost_name)
        × (loan.new.tally.ghost_name ≡ loan.old.tally.ghost_name) }
{
    let head = performance.setup.head();
    let Ok(mut recording) = Recording::new(performance.alloc, head, performance.order.width) else {
        drop(sounder);
        return Err(PlayFault::OutOfMemory);
    };
    match play(performance, sounder, &mut recording, loan) {
        Ok(starts) => Ok(recording.outcome(performance, starts)),
        Err(fault) => Err(fault),
    }
}

// Performs the piece from its opening on.
fn play<K: Sink, C: Counter, S: Sounder>(
    performance: &Performance<'_>,
    mut sounder: S,
    recording: &mut Recording,
    loan: &mut Loan<'_, K, C>,
) -> Result<Starts, PlayFault>
    requires place { HasPlace performance.now.setup.now performance.now.order (C.room loan.old.tally.now) }
    requires at { S.is_at performance.now.setup.now sounder (opening (composition_of performance.now.setup.now)) }
    requires recorded { IsRecordingOf performance.now.setup.now performance.now.order 0 recording.old }
    ensures performed { Performs (lent_sight (λ t h. stands_for t h) K.tells C.has_counted)
        (request_of performance.now) (lent loan.old.wav.now loan.old.taps.now.items loan.old.tally.now)
        (lent loan.new.wav.now loan.new.taps.now.items loan.new.tally.now) result }
    ensures recorded { OnOk result (IsRecordingOf performance.now.setup.now performance.now.order
        performance.now.setup.now.plot.cycles recording.new) }
    ensures starts { IfOk result (AreStartsOf (composition_of performance.now.setup.now)) }
    ensures same { (loan.new.wav.ghost_name ≡ loan.old.wav.ghost_name)
        × (loan.new.taps.ghost_name ≡ loan.old.taps.ghost_name)
        × (loan.new.tally.ghost_name ≡ loan.old.tally.ghost_name) }
{
    let order = performance.order;
    let frames = frames_in(performance.setup);
    let first = first_bytes(performance.setup, order.width, frames);
    let Ok(()) = begin(order.output, loan.wav, performance.name, &first) else {
        drop(sounder);
        return Err(PlayFault::Sink);
    };
    match play_all(performance, &mut sounder, recording, loan) {
        Ok(()) => close(performance, sounder, loan.wav),
        Err(fault) => Err(fault),
    }
}

// Performs all cycles.
fn play_all<K: Sink, C: Counter, S: Sounder>(
    performance: &Performance<'_>,
    sounder: &mut S,
    recording: &mut Recording,
    loan: &mut Loan<'_, K, C>,
) -> Result<(), PlayFault>
    requires room { 2 ^ 42 ≤ C.room loan.old.tally.now }
    requires at { S.is_at performance.now.setup.now sounder.old
        (moment_at (composition_of performance.now.setup.now) 0) }
    requires recorded { IsRecordingOf performance.now.setup.now performance.now.order 0 recording.old }
    ensures at { OnOk result (S.is_at performance.now.setup.now sounder.new
        (moment_at (composition_of performance.now.setup.now) performance.now.setup.now.plot.cycles)) }
    ensures recorded { OnOk result (IsRecordingOf performance.now.setup.now performance.now.order
        performance.now.setup.now.plot.cycles recording.new) }
    ensures played { OnOk result (PlayedOn (lent_sight (λ t h. stands_for t h) K.tells C.has_counted)
        (request_of performance.now) performance.now.setup.now.plot.cycles
        (lent loan.old.wav.now loan.old.taps.now.items loan.old.tally.now)
        (lent loan.new.wav.now loan.new.taps.now.items loan.new.tally.now)) }
    ensures broke { IsErrOf result PlayFault.Sink
        → BrokeOn (lent_sight (λ t h. stands_for t h) K.tells C.has_counted) (request_of performance.now)
        (lent loan.old.wav.now loan.old.taps.now.items loan.old.tally.now)
        (lent loan.new.wav.now loan.new.taps.now.items loan.new.tally.now) }
    ensures memory { IsErrOf result PlayFault.OutOfMemory
        → PausedOn (lent_sight (λ t h. stands_for t h) K.tells C.has_counted) (request_of performance.now)
        (lent loan.old.wav.now loan.old.taps.now.items loan.old.tally.now)
        (lent loan.new.wav.now loan.new.taps.now.items loan.new.tally.now) }
    ensures sink { IsErrOf result PlayFault.Sink → performance.now.order.output ≡ SoundFile }
    ensures same { (loan.new.wav.ghost_name ≡ loan.old.wav.ghost_name)
        × (loan.new.taps.ghost_name ≡ loan.old.taps.ghost_name)
        × (loan.new.tally.ghost_name ≡ loan.old.tally.ghost_name) }
{
    for cycle in 0..performance.setup.plot().cycles {
        match play_cycle(performance, cycle, sounder, recording, loan) {
            Ok(()) => {}
            Err(fault) => return Err(fault),
        }
    }
    Ok(())
}

// Does the events at the very end, and ends the file.
fn close<K: Sink, S: Sounder>(
    performance: &Performance<'_>,
    sounder: S,
    wav: &mut K,
) -> Result<Starts, PlayFault>
    requires bytes { let s = performance.now.setup.now in
        s.plot.cycles * s.orchestra.head.ksmps * s.orchestra.head.nchnls
        * bytes_of performance.now.order.width ≤ most_wav_bytes }
    requires at { S.is_at performance.now.setup.now sounder
        (moment_at (composition_of performance.now.setup.now) performance.now.setup.now.plot.cycles) }
    ensures starts { IfOk result (AreStartsOf (composition_of performance.now.setup.now)) }
    ensures ended { OnOk result (IfWritten K.tells performance.now.order.output wav.old wav.new
        (Closes (composition_of performance.now.setup.now) performance.now.setup.now.orchestra.head
        performance.now.order.width)) }
    ensures broken { IsErrOf result PlayFault.Sink → IfWritten K.tells performance.now.order.output wav.old wav.new
        (Breaks (composition_of performance.now.setup.now) performance.now.setup.now.orchestra.head
        performance.now.order.width) }
    ensures sink { IsErrOf result PlayFault.Sink → (performance.now.order.output ≡ SoundFile)
        × Rose (K.tells wav.old).faults (K.tells wav.new).faults }
    ensures memory { IsErrOf result PlayFault.OutOfMemory → wav.new ≡ wav.old }
{
    let setup = performance.setup;
    let order = performance.order;
    setup.facts();
    starts_are_few();
    let Ok(starts) = sounder.close(performance.alloc, setup.plot().cycles) else {
        return Err(PlayFault::OutOfMemory);
    };
    let frames = frames_in(setup);
    let odd = ends_odd(setup, order.width, frames);
    match finish(order.output, odd, wav) {
        Ok(()) => Ok(starts),
        Err(_) => Err(PlayFault::Sink),
    }
}
