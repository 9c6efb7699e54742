// The bytes of the sound file, if it is written.
ghost use Rattle.std.specs.Prelude.{◌≡◌, ℕ, List, ◌++◌, OnOk, OnErr};
ghost use Rattle.cs_edge.specs.{Told.HasCause, Moves.WroteMore, Moves.WrotePart, Moves.Wrote, Moves.Stopped};
ghost use Rattle.cs_perform.specs.{Hearing.IfWritten, declared.order.Output.TheVariants.SoundFile};
ghost use Rattle.cs_perform.specs.inner.Ends.{Finishes, Stops, padding};

use crate::order::Output;
use cs_edge::{Failed, Sink, write_all};

/// Opens the sink and writes the file's first bytes, if it is written.
pub(crate) fn begin<K: Sink>(
    output: Output,
    wav: &mut K,
    name: &str,
    first: &[u8],
) -> Result<(), Failed>
    ensures begun { OnOk result (IfWritten K.tells output wav.old wav.new (λ b n. Wrote b n name.now first.now)) }
    ensures stopped { OnErr result ((rest : List ℕ)
        → IfWritten K.tells output wav.old wav.new (λ b n. Stopped b n name.now (first.now ++ rest))) }
    ensures written { OnErr result (output ≡ SoundFile) }
    ensures cause { HasCause (K.tells wav.old).faults (K.tells wav.new).faults result }
{
    match output {
        Output::SoundFile => begin_file(wav, name, first),
        Output::Nothing => Ok(()),
    }
}

fn begin_file<K: Sink>(wav: &mut K, name: &str, first: &[u8]) -> Result<(), Failed>
    ensures begun { OnOk result (Wrote (K.tells wav.old) (K.tells wav.new) name.now first.now) }
    ensures stopped { OnErr result ((rest : List ℕ)
        → Stopped (K.tells wav.old) (K.tells wav.new) name.now (first.now ++ rest)) }
    ensures cause { HasCause (K.tells wav.old).faults (K.tells wav.new).faults result }
{
    if let Err(failed) = wav.begin(name) {
        return Err(failed);
    }
    write_all(wav, first)
}

/// Writes more bytes, if the sink is written.
pub(crate) fn put<K: Sink>(output: Output, wav: &mut K, bytes: &[u8]) -> Result<(), Failed>
    ensures written { OnOk result (IfWritten K.tells output wav.old wav.new (λ b n. WroteMore b n bytes.now)) }
    ensures part { OnErr result (IfWritten K.tells output wav.old wav.new (λ b n. WrotePart b n bytes.now)) }
    ensures told { OnErr result (output ≡ SoundFile) }
    ensures cause { HasCause (K.tells wav.old).faults (K.tells wav.new).faults result }
{
    match output {
        Output::SoundFile => write_all(wav, bytes),
        Output::Nothing => Ok(()),
    }
}

/// Writes the byte 0 after samples of odd size, and ends the sink, if it is written.
pub(crate) fn finish<K: Sink>(output: Output, odd: bool, wav: &mut K) -> Result<(), Failed>
    ensures finished { OnOk result (IfWritten K.tells output wav.old wav.new (Finishes (padding odd))) }
    ensures stopped { OnErr result (IfWritten K.tells output wav.old wav.new (Stops (padding odd))) }
    ensures told { OnErr result (output ≡ SoundFile) }
    ensures cause { HasCause (K.tells wav.old).faults (K.tells wav.new).faults result }
{
    match output {
        Output::SoundFile => end_file(odd, wav),
        Output::Nothing => Ok(()),
    }
}

fn end_file<K: Sink>(odd: bool, wav: &mut K) -> Result<(), Failed>
    ensures finished { OnOk result (Finishes (padding odd) (K.tells wav.old) (K.tells wav.new)) }
    ensures stopped { OnErr result (Stops (padding odd) (K.tells wav.old) (K.tells wav.new)) }
    ensures cause { HasCause (K.tells wav.old).faults (K.tells wav.new).faults result }
{
    if let Err(failed) = write_all(wav, last_bytes(odd)) {
        return Err(failed);
    }
    wav.end()
}

fn last_bytes(odd: bool) -> &'static [u8]
    ensures { result.now ≡ padding odd }
{
    if odd { &[0] } else { &[] }
}
