// The source from which texts are read.
ghost use Rattle.std.specs.Prelude.{◌≡◌, ◌<◌, ◌≤◌, length, IfOk, OnErr};
ghost use Rattle.cs_edge.specs.declared.moves.Move.TheVariants.{Begin, Read};
ghost use Rattle.cs_edge.specs.{Told.Follows, Told.HasCause, Moves.GrownBy};
ghost use Rattle.cs_edge.specs.Files.{ShelfTold, Begins, NothingLeft, TakesFront};

use crate::Failed;

/// A collection of files by name. It may tell its files, the bytes left of the file begun, and the calls made
/// on it.
pub trait Shelf {
    /// The state that the shelf tells.
    ghost tells: { Self → ShelfTold };

    /// Begins the file with this name: returns true if it can be read, and then all of its bytes are left. It
    /// returns false only if the shelf tells its files and none has the name.
    fn begin(&mut self, name: &str) -> Result<bool, Failed>
        ensures found { IfOk result (λ found. Begins (tells self.old).files name.now found (tells self.new).left) }
        ensures failed { OnErr result (NothingLeft (tells self.new).left) }
        ensures cause { HasCause (tells self.old).faults (tells self.new).faults result }
        ensures moves { Follows (tells self.old).moves (tells self.new).moves (GrownBy (Begin name.now)) }
        ensures files { (tells self.new).files ≡ (tells self.old).files };

    /// Moves at least one byte from the start of the bytes left into `buf`, and returns their number; 0 if
    /// and only if no bytes are left.
    fn read(&mut self, buf: &mut [u8]) -> Result<usize, Failed>
        requires { 0 < length buf.old }
        ensures count { IfOk result (λ n. n ≤ length buf.old) }
        ensures taken { IfOk result (λ n. TakesFront (tells self.old).left (tells self.new).left buf.new n) }
        ensures cause { HasCause (tells self.old).faults (tells self.new).faults result }
        ensures moves { Follows (tells self.old).moves (tells self.new).moves (GrownBy Read) }
        ensures files { (tells self.new).files ≡ (tells self.old).files };
}
