// The destination to which bytes are written.
ghost use Rattle.std.specs.Prelude.{◌≡◌, [], ◌<◌, ◌≤◌, length, take, IfOk, OnOk, OnErr};
ghost use Rattle.cs_edge.specs.declared.moves.Move.TheVariants.{Begin, Write, End};
ghost use Rattle.cs_edge.specs.Told.{Follows, HasCause};
ghost use Rattle.cs_edge.specs.Moves.{SinkTold, GrownBy, TakenMore, IsEnded, no_file, open_file};

use crate::Failed;

/// A destination for bytes, such as a file or a terminal. It may tell the name begun, the bytes taken since,
/// whether the file was ended since, and the calls made on it. Before the first `begin`, the bytes are all
/// those taken so far.
pub trait Sink {
    /// The state that the sink tells.
    ghost tells: { Self → SinkTold };

    /// Begins a file with this name and no bytes. If it fails, no file is begun and no bytes are held.
    fn begin(&mut self, name: &str) -> Result<(), Failed>
        ensures begun { OnOk result (Follows (tells self.old).held (tells self.new).held
            (λ _ now. now ≡ open_file name.now [])) }
        ensures failed { OnErr result (Follows (tells self.old).held (tells self.new).held (λ _ now. now ≡ no_file)) }
        ensures cause { HasCause (tells self.old).faults (tells self.new).faults result }
        ensures moves { Follows (tells self.old).moves (tells self.new).moves (GrownBy (Begin name.now)) };

    /// Takes at least one byte from the start of the piece, and returns the number of bytes taken. If it
    /// fails, it takes none.
    fn write(&mut self, piece: &[u8]) -> Result<usize, Failed>
        requires { 0 < length piece.now }
        ensures count { IfOk result (λ n. (0 < n) × (n ≤ length piece.now)) }
        ensures taken { IfOk result (λ n. Follows (tells self.old).held (tells self.new).held
            (TakenMore (take n piece.now))) }
        ensures failed { OnErr result (Follows (tells self.old).held (tells self.new).held
            (λ before now. now ≡ before)) }
        ensures cause { HasCause (tells self.old).faults (tells self.new).faults result }
        ensures moves { Follows (tells self.old).moves (tells self.new).moves (GrownBy Write) };

    /// Ends the file, which then contains all bytes taken. The name and the bytes stay. If it fails, this
    /// call has not ended the file.
    fn end(&mut self) -> Result<(), Failed>
        ensures ended { OnOk result (Follows (tells self.old).held (tells self.new).held IsEnded) }
        ensures failed { OnErr result (Follows (tells self.old).held (tells self.new).held
            (λ before now. now ≡ before)) }
        ensures cause { HasCause (tells self.old).faults (tells self.new).faults result }
        ensures moves { Follows (tells self.old).moves (tells self.new).moves (GrownBy End) };
}
