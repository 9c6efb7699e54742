// One control cycle.
ghost use Rattle.std.specs.Prelude.{◌≡◌, ◌+◌, ◌*◌, ◌≤◌, ◌<◌, length, IfOk, OnOk, OnErr, IsErrOf};
ghost use Rattle.std.specs.List.{count_by};
ghost use Rattle.cs_base.specs.{Limits.most_notes, Widths.bytes_of};
ghost use Rattle.cs_piece_meaning.specs.Course.{moment_at};
ghost use Rattle.cs_edge.specs.{Told.HasCause, Moves.WroteMore, Moves.WrotePart};
ghost use Rattle.cs_perform.specs.{Hearing.IfWritten, Hearing.Told, inner.Recordings.IsRecordingOf};
ghost use Rattle.cs_perform.specs.Performances.{lent, lent_sight, request_of};
ghost use Rattle.cs_perform.specs.declared.order.Output.TheVariants.{SoundFile};
ghost use Rattle.cs_perform.specs.inner.Plays.{BreaksCycle, PlaysCycle};
ghost use Rattle.cs_piece.specs.Setups.{composition_of};
ghost use Rattle.cs_wav.specs.Wav.{is_out_of_range, samples_of};

use crate::counter::Counter;
use crate::loan::Loan;
use crate::order::{Performance, PerformanceOrder, PlayFault};
use crate::recording::Recording;
use crate::sounder::Sounder;
use crate::taps::tell;
use crate::writing::put;
use cs_base::Head;
use cs_edge::{Failed, Sink, Tap};
use cs_wav::pcm_block;

/// Performs a cycle, and writes its samples.
pub(crate) fn play_cycle<K: Sink, C: Counter, S: Sounder>(
    performance: &Performance<'_>,
    cycle: u32,
    sounder: &mut S,
    recording: &mut Recording,
    loan: &mut Loan<'_, K, C>,
) -> Result<(), PlayFault>
    requires at { S.is_at performance.now.setup.now sounder.old
        (moment_at (composition_of performance.now.setup.now) cycle) }
    requires recorded { IsRecordingOf performance.now.setup.now performance.now.order cycle recording.old }
    requires room { most_notes < C.room loan.old.tally.now }
    ensures at { OnOk result (S.is_at performance.now.setup.now sounder.new
        (moment_at (composition_of performance.now.setup.now) (cycle + 1))) }
    ensures recorded { OnOk result (IsRecordingOf performance.now.setup.now performance.now.order (cycle + 1)
        recording.new) }
    ensures played { OnOk result (PlaysCycle (lent_sight (λ t h. stands_for t h) K.tells C.has_counted)
        (request_of performance.now) cycle
        (lent loan.old.wav.now loan.old.taps.now.items loan.old.tally.now)
        (lent loan.new.wav.now loan.new.taps.now.items loan.new.tally.now)) }
    ensures broken { IsErrOf result PlayFault.Sink
        → BreaksCycle (lent_sight (λ t h. stands_for t h) K.tells C.has_counted) (request_of performance.now) cycle
        (lent loan.old.wav.now loan.old.taps.now.items loan.old.tally.now)
        (lent loan.new.wav.now loan.new.taps.now.items loan.new.tally.now) }
    ensures room { OnOk result (C.room loan.old.tally.now ≤ C.room loan.new.tally.now + (most_notes + 1)) }
    ensures sink { IsErrOf result PlayFault.Sink → performance.now.order.output ≡ SoundFile }
    ensures memory { IsErrOf result PlayFault.OutOfMemory
        → lent loan.new.wav.now loan.new.taps.now.items loan.new.tally.now
        ≡ lent loan.old.wav.now loan.old.taps.now.items loan.old.tally.now }
    ensures same { (loan.new.wav.ghost_name ≡ loan.old.wav.ghost_name)
        × (loan.new.taps.ghost_name ≡ loan.old.taps.ghost_name)
        × (loan.new.tally.ghost_name ≡ loan.old.tally.ghost_name) }
{
    let Ok(()) = sounder.prepare(performance, cycle, &mut recording.turns) else {
        return Err(PlayFault::OutOfMemory);
    };
    sounder.run(cycle, loan.tally, &mut recording.mix);
    let head = performance.setup.head();
    let mix = &recording.mix;
    let Ok(outside) = pour(
        performance.order,
        head,
        mix,
        &mut recording.samples,
        loan.wav,
        loan.taps,
    ) else {
        return Err(PlayFault::Sink);
    };
    let more = u64::from(outside);
    recording.out_of_range += more;
    Ok(())
}

/// Passes the mix of a cycle to the taps, and writes its samples. Returns the number of samples that were
/// clipped.
pub(crate) fn pour<K: Sink>(
    order: PerformanceOrder,
    head: &Head,
    mix: &[i64],
    out: &mut [u8],
    wav: &mut K,
    taps: &mut Vec<Box<dyn Tap>>,
) -> Result<u32, Failed>
    requires few { length mix.now ≤ 65536 }
    requires room { length out.old ≡ length mix.now * bytes_of order.width }
    ensures told { Told (λ t h. stands_for t h) taps.old.items taps.new.items mix.now }
    ensures written { OnOk result (IfWritten K.tells order.output wav.old wav.new
        (λ b n. WroteMore b n (samples_of order.width head.now.dbfs mix.now))) }
    ensures part { OnErr result (IfWritten K.tells order.output wav.old wav.new
        (λ b n. WrotePart b n (samples_of order.width head.now.dbfs mix.now))) }
    ensures ordered { OnErr result (order.output ≡ SoundFile) }
    ensures cause { HasCause (K.tells wav.old).faults (K.tells wav.new).faults result }
    ensures out_of_range { IfOk result (λ n. n ≡ count_by (is_out_of_range order.width head.now.dbfs) mix.now) }
    ensures long { length out.new ≡ length out.old }
{
    tell(taps, mix);
    let outside = pcm_block(order.width, mix, head.dbfs, out);
    match put(order.output, wav, out) {
        Ok(()) => Ok(outside),
        Err(failed) => Err(failed),
    }
}
