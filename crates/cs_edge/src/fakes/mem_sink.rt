// A sink in memory, some of whose calls fail.
ghost use Rattle.std.specs.Prelude.{◌≡◌, [], ◌<◌, ◌≤◌, length, take, min, Some, IfOk, OnOk, OnErr};
ghost use Rattle.std.specs.Prelude.{IfSome};
ghost use Rattle.cs_edge.specs.declared.moves.Move.TheVariants.{Begin, Write, End};
ghost use Rattle.cs_edge.specs.{Told.Follows, Told.HasCause, Memory.FailsAsListed};
ghost use Rattle.cs_edge.specs.Moves.{GrownBy, TakenMore, IsEnded, no_file, open_file};
ghost use Rattle.cs_edge.specs.MemSink.{sink_told, sink_script, sink_bytes, sink_moves, write_room};

use crate::fakes::kept::Kept;
use crate::fakes::portion::Portion;
use crate::fakes::script::Script;
use crate::fakes::taken::Taken;
use crate::{Calls, Failed, Move, Sink};
use std::alloc::Global;

/// Bytes in memory. While memory suffices, the sink tells the name begun with the bytes taken, and the calls
/// made on it.
#[derive(Drop)]
pub struct MemSink {
    taken: Taken,
    portion: Portion,
    script: Script,
    kept: Kept,
}

impl MemSink {
    /// Returns a sink that takes at most `most` bytes in one write; the calls whose numbers, from 1, are in
    /// `failing` fail. It allocates nothing yet, and keeps `alloc` for its growth.
    pub fn new(alloc: Global, failing: Calls, most: u32) -> MemSink
        requires { 1 ≤ most }
        ensures told { sink_told result ≡ record { held = Some no_file; moves = Some []; faults = 0 } }
        ensures script { sink_script result ≡ record { failing = failing; calls = 0; faults = 0 } }
        ensures room { write_room result ≡ most }
    {
        MemSink {
            taken: Taken::new(alloc),
            portion: Portion { most },
            script: Script::new(failing),
            kept: Kept::new(alloc),
        }
    }

    /// Returns the bytes taken since the last `begin`, as far as they are stored.
    pub fn taken(&self) -> &[u8]
        ensures kept { result.now ≡ sink_bytes self.now }
        ensures told { IfSome (sink_told self.now).held (λ held. result.now ≡ held.bytes) }
    {
        &self.taken.bytes
    }

    /// Returns the calls made on the sink, as far as they are stored.
    pub fn moves(&self) -> &[Move]
        ensures kept { result.now ≡ sink_moves self.now }
        ensures told { IfSome (sink_told self.now).moves (λ moves. result.now ≡ moves) }
    {
        self.kept.moves.as_slice()
    }
}

impl Sink for MemSink {
    ghost tells = { sink_told };

    fn begin(&mut self, name: &str) -> Result<(), Failed>
        ensures begun { OnOk result (Follows (sink_told self.old).held (sink_told self.new).held
            (λ _ now. now ≡ open_file name.now [])) }
        ensures failed { OnErr result (Follows (sink_told self.old).held (sink_told self.new).held
            (λ _ now. now ≡ no_file)) }
        ensures cause { HasCause (sink_told self.old).faults (sink_told self.new).faults result }
        ensures listed { FailsAsListed (sink_script self.old) (sink_script self.new) result }
        ensures moves { Follows (sink_told self.old).moves (sink_told self.new).moves (GrownBy (Begin name.now)) }
        ensures room { write_room self.new ≡ write_room self.old }
    {
        self.kept.add_begin(name);
        if self.script.call_fails() {
            self.taken.clear();
            return Err(Failed);
        }
        self.taken.begin(name);
        Ok(())
    }

    fn write(&mut self, piece: &[u8]) -> Result<usize, Failed>
        requires { 0 < length piece.now }
        ensures count { IfOk result (λ n. (0 < n) × (n ≤ length piece.now)) }
        ensures exact { IfOk result (λ n. n ≡ min (length piece.now) (write_room self.old)) }
        ensures taken { IfOk result (λ n. Follows (sink_told self.old).held (sink_told self.new).held
            (TakenMore (take n piece.now))) }
        ensures failed { OnErr result (Follows (sink_told self.old).held (sink_told self.new).held
            (λ before now. now ≡ before)) }
        ensures cause { HasCause (sink_told self.old).faults (sink_told self.new).faults result }
        ensures listed { FailsAsListed (sink_script self.old) (sink_script self.new) result }
        ensures moves { Follows (sink_told self.old).moves (sink_told self.new).moves (GrownBy Write) }
        ensures room { write_room self.new ≡ write_room self.old }
    {
        self.kept.add(Move::Write);
        if self.script.call_fails() {
            return Err(Failed);
        }
        let n = self.portion.of(piece.len());
        self.taken.add(&piece[..n]);
        Ok(n)
    }

    fn end(&mut self) -> Result<(), Failed>
        ensures ended { OnOk result (Follows (sink_told self.old).held (sink_told self.new).held IsEnded) }
        ensures failed { OnErr result (Follows (sink_told self.old).held (sink_told self.new).held
            (λ before now. now ≡ before)) }
        ensures cause { HasCause (sink_told self.old).faults (sink_told self.new).faults result }
        ensures listed { FailsAsListed (sink_script self.old) (sink_script self.new) result }
        ensures moves { Follows (sink_told self.old).moves (sink_told self.new).moves (GrownBy End) }
        ensures room { write_room self.new ≡ write_room self.old }
    {
        self.kept.add(Move::End);
        if self.script.call_fails() {
            return Err(Failed);
        }
        self.taken.end();
        Ok(())
    }
}
