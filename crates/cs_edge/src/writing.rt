ghost use Rattle.std.specs.Prelude.{OnOk, OnErr};
ghost use Rattle.cs_edge.specs.{Told.HasCause, Moves.WroteMore, Moves.WrotePart};

use crate::{Failed, Sink};

/// Writes an entire piece, with as many writes as the sink needs.
pub fn write_all<K: Sink>(sink: &mut K, piece: &[u8]) -> Result<(), Failed>
    ensures written { OnOk result (WroteMore (K.tells sink.old) (K.tells sink.new) piece.now) }
    ensures part { OnErr result (WrotePart (K.tells sink.old) (K.tells sink.new) piece.now) }
    ensures cause { HasCause (K.tells sink.old).faults (K.tells sink.new).faults result }
{
    let mut at = 0;
    while at < piece.len() {
        at += sink.write(&piece[at..])?;
    }
    Ok(())
}
