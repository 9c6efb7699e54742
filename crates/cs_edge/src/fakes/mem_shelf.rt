// A shelf of files in memory, some of whose calls fail.
ghost use Rattle.std.specs.Prelude.{◌≡◌, [], ◌<◌, ◌≤◌, length, Some, None, IfOk, OnErr, IfSome};
ghost use Rattle.cs_edge.specs.declared.moves.Move.TheVariants.{Begin, Read};
ghost use Rattle.cs_edge.specs.{Told.Follows, Told.HasCause, Moves.GrownBy, Memory.FailsAsListed};
ghost use Rattle.cs_edge.specs.Files.{Begins, NothingLeft, TakesFront};
ghost use Rattle.cs_edge.specs.MemShelf.{shelf_told, shelf_script, shelf_moves};

use crate::fakes::kept::Kept;
use crate::fakes::lookup::{bytes_of, copy_front, place_in};
use crate::fakes::script::Script;
use crate::{Calls, Failed, Files, Move, Shelf};
use std::alloc::Global;

/// Files in memory. The shelf tells the files, the bytes left of the file begun and, while memory suffices,
/// the calls made on it.
#[derive(Drop)]
pub struct MemShelf {
    files: Files,
    begun: Option<usize>,
    at: usize,
    script: Script,
    kept: Kept,
}

impl MemShelf {
    /// Returns a shelf of these files; the calls whose numbers, from 1, are in `failing` fail. It allocates
    /// nothing yet, and keeps `alloc` for the list of calls.
    pub fn new(alloc: Global, files: Files, failing: Calls) -> MemShelf
        ensures told { shelf_told result ≡ record { files = Some files; left = Some []; moves = Some []; faults = 0 } }
        ensures script { shelf_script result ≡ record { failing = failing; calls = 0; faults = 0 } }
    {
        MemShelf {
            files,
            begun: None,
            at: 0,
            script: Script::new(failing),
            kept: Kept::new(alloc),
        }
    }

    /// Returns the calls made on the shelf, as far as they are stored.
    pub fn moves(&self) -> &[Move]
        ensures kept { result.now ≡ shelf_moves self.now }
        ensures told { IfSome (shelf_told self.now).moves (λ moves. result.now ≡ moves) }
    {
        self.kept.moves.as_slice()
    }
}

impl Shelf for MemShelf {
    ghost tells = { shelf_told };

    fn begin(&mut self, name: &str) -> Result<bool, Failed>
        ensures found { IfOk result (λ found.
            Begins (shelf_told self.old).files name.now found (shelf_told self.new).left) }
        ensures failed { OnErr result (NothingLeft (shelf_told self.new).left) }
        ensures cause { HasCause (shelf_told self.old).faults (shelf_told self.new).faults result }
        ensures listed { FailsAsListed (shelf_script self.old) (shelf_script self.new) result }
        ensures moves { Follows (shelf_told self.old).moves (shelf_told self.new).moves (GrownBy (Begin name.now)) }
        ensures files { (shelf_told self.new).files ≡ (shelf_told self.old).files }
    {
        self.kept.add_begin(name);
        self.begun = None;
        self.at = 0;
        if self.script.call_fails() {
            return Err(Failed);
        }
        self.begun = place_in(self.files.as_slice(), name);
        Ok(self.begun.is_some())
    }

    fn read(&mut self, buf: &mut [u8]) -> Result<usize, Failed>
        requires { 0 < length buf.old }
        ensures count { IfOk result (λ n. n ≤ length buf.old) }
        ensures taken { IfOk result (λ n. TakesFront (shelf_told self.old).left (shelf_told self.new).left buf.new n) }
        ensures cause { HasCause (shelf_told self.old).faults (shelf_told self.new).faults result }
        ensures listed { FailsAsListed (shelf_script self.old) (shelf_script self.new) result }
        ensures moves { Follows (shelf_told self.old).moves (shelf_told self.new).moves (GrownBy Read) }
        ensures files { (shelf_told self.new).files ≡ (shelf_told self.old).files }
    {
        self.kept.add(Move::Read);
        if self.script.call_fails() {
            return Err(Failed);
        }
        let n = copy_front(bytes_of(self.files.as_slice(), self.begun), self.at, buf);
        self.at += n;
        Ok(n)
    }
}
